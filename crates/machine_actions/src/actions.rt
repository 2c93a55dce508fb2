// What an instruction asks of the machine: the ten instructions in six classes.
ghost use Rattle.std.specs.Prelude.{◌≡◌};
ghost use Rattle.machine_actions.specs.Action.{action_of, merge_of};

use crate::clocks::wait_clocks;
use isa::Instruction;
use machine_flags::Change;

// Whether an operand is a whole word, or its low half.
#[derive(Clone, Copy)]
pub enum Part {
    Whole,
    Low,
}

#[derive(Clone, Copy)]
pub enum Action {
    Wait(u64),
    Ewait(u8, u8),
    Flag(Change, u8),
    Load(Part, u32),
    Poke(Part, u32),
    Exit,
}

pub fn action_of(instruction: Instruction) -> Action
    ensures { result ≡ action_of instruction }
{
    match instruction {
        Instruction::Wait { length, shift } => Action::Wait(wait_clocks(length, shift)),
        Instruction::AddrLo(low) => Action::Poke(Part::Low, low as u32),
        Instruction::DataLo(low) => Action::Load(Part::Low, low as u32),
        Instruction::Ewait { event, value } => Action::Ewait(event, value),
        Instruction::Exit => Action::Exit,
        Instruction::Unset(flag) => Action::Flag(Change::Unset, flag),
        Instruction::Set1(flag) => Action::Flag(Change::Set1, flag),
        Instruction::Set0(flag) => Action::Flag(Change::Set0, flag),
        Instruction::Addr(address) => Action::Poke(Part::Whole, address.0),
        Instruction::Data(word) => Action::Load(Part::Whole, word),
    }
}

// A word after an operand: the low half keeps the high half that was there.
pub fn merge(part: Part, old: u32, operand: u32) -> u32
    ensures { result ≡ merge_of part old operand }
{
    match part {
        Part::Whole => operand,
        Part::Low => old / 65536 * 65536 + operand % 65536,
    }
}
