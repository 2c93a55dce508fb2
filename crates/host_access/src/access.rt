// The host's writes and reads.
ghost use Rattle.std.specs.Prelude.{◌≡◌, not, ◌||◌};
ghost use Rattle.host_registers.specs.Access.{after_write, is_abort, control_word, reading_of};
ghost use Rattle.host_registers.specs.Register.{InRoom};
ghost use Rattle.host_registers.specs.Promises.{WritesInPlace, HostWrites, HostReads};
ghost use Rattle.host_access.specs.Inside.{write_outcome};

use crate::addresses::{TRIGGER, is_writable, register_at};
use crate::code::{code_word, upload};
use crate::entries::entry_bits;
use crate::status::{bit_if, status_word};
use crate::triggers::{is_start, trigger};
use host_registers::{Access, Register};
use isa::MmioAddress;
use machine_execution::some_executes;
use machine_state::State;
use refusals::Inaccessible;

// Writes a word to a register that takes one.
fn store(state: &mut State, register: Register, word: u32)
    requires { InRoom register }
    ensures { state.new ≡ after_write state.old register word }
{
    match register {
        Register::Control => {
            state.enable = word / 8 % 2 == 1;
            state.override_mode = word / 16 % 2 == 1;
        }
        Register::EntryPoint => state.entries = word,
        Register::Trigger => trigger(state, word),
        Register::Flags0 => {
            state.flags = machine_flags::flags_from_words(
                word,
                machine_flags::flags_word_1(state.flags),
            );
        }
        Register::Flags1 => {
            state.flags = machine_flags::flags_from_words(
                machine_flags::flags_word_0(state.flags),
                word,
            );
        }
        Register::EntryPointHigh => state.entries_high = entry_bits(word),
        Register::Code(at) => upload(state, at.0, word),
        Register::Status | Register::Events | Register::Unlisted => {}
    }
}

// While a slot executes, only an abort is taken.
fn is_taken(address: MmioAddress, word: u32, executing: bool) -> bool
    ensures { result ≡ (is_abort address word || not executing) }
{
    !executing || address.0 == TRIGGER && !is_start(word)
}

// The tests of a write, in their order.
#[tactic(auto, unfolding(crate::specs::Inside::write_outcome))]
fn write_outcome(family: u8, register: Register, taken: bool) -> Result<(), Inaccessible>
    ensures { result ≡ write_outcome family register taken }
{
    if !families::known_family(family) {
        return Err(Inaccessible::Family);
    }
    if !is_writable(register) {
        return Err(Inaccessible::Register);
    }
    if !taken {
        return Err(Inaccessible::Executing);
    }
    Ok(())
}

// The host writes a word at an address: tested and made in place, in one call. A refused write leaves all as it is.
#[tactic(auto, using(host_registers::proofs::RegisterLaws::register_in_room))]
pub fn write(state: &mut State, address: MmioAddress, word: u32) -> Result<(), Inaccessible>
    ensures { WritesInPlace state.old address word (record { state = state.new; outcome = result }) }
{
    let register = register_at(state.family, address);
    let executing = some_executes(state.family, state.a.mode, state.b.mode);
    write_outcome(state.family, register, is_taken(address, word, executing))?;
    store(state, register, word);
    Ok(())
}

// The state after the host writes a word at an address; a refused write leaves it as it is.
#[tactic(auto, using(host_registers::proofs::AccessLaws::host_writes))]
pub fn write_register(mut state: State, address: MmioAddress, word: u32) -> Access
    ensures { HostWrites state address word result }
{
    let outcome = write(&mut state, address, word);
    Access { state, outcome }
}

fn control_word(enable: bool, override_mode: bool) -> u32
    ensures { result ≡ control_word enable override_mode }
{
    bit_if(enable, 8) + bit_if(override_mode, 16)
}

// What a register reads as. TRIGGER and EVENTS cannot be read.
fn reading_of(state: State, register: Register) -> Result<u32, Inaccessible>
    requires { InRoom register }
    ensures { result ≡ reading_of state register }
{
    let word = match register {
        Register::Control => control_word(state.enable, state.override_mode),
        Register::EntryPoint => state.entries,
        Register::Status => status_word(state),
        Register::Flags0 => machine_flags::flags_word_0(state.flags),
        Register::Flags1 => machine_flags::flags_word_1(state.flags),
        Register::EntryPointHigh => entry_bits(state.entries_high),
        Register::Code(at) => code_word(state, at.0),
        Register::Trigger | Register::Events | Register::Unlisted => {
            return Err(Inaccessible::Register);
        }
    };
    Ok(word)
}

// The word that the host reads at an address.
#[tactic(auto, using(host_registers::proofs::RegisterLaws::register_in_room))]
pub fn read_register(state: State, address: MmioAddress) -> Result<u32, Inaccessible>
    ensures { HostReads state address result }
{
    if !families::known_family(state.family) {
        return Err(Inaccessible::Family);
    }
    reading_of(state, register_at(state.family, address))
}
