// The 32 flags: bit f of a word for flag f.
ghost use Rattle.std.specs.Prelude.{◌≡◌};
ghost use Rattle.machine_flags.specs.Flags.{ChangesFlags, paused_of, TellsWord0, TellsWord1, MadeOf};

// What an instruction does to a flag.
#[derive(Clone, Copy)]
pub enum Change {
    Unset,
    Set1,
    Set0,
}

#[derive(Clone, Copy, Default)]
pub struct Flags {
    pub values: u32,
    pub enables: u32,
}

// The flag whose override pauses memory.
pub const FB_PAUSE: u8 = 16;

// The flags after a change of one of them. There is no flag above 31.
pub fn changed_flags(change: Change, flag: u8, flags: Flags) -> Flags
    ensures { ChangesFlags change flag flags result }
{
    if 32 <= flag {
        return flags;
    }
    let bit: u32 = 1 << (flag as u32);
    match change {
        Change::Unset => Flags {
            enables: flags.enables ^ (flags.enables & bit),
            ..flags
        },
        Change::Set1 => Flags {
            values: flags.values | bit,
            enables: flags.enables | bit,
        },
        Change::Set0 => Flags {
            values: flags.values ^ (flags.values & bit),
            enables: flags.enables | bit,
        },
    }
}

// Whether memory is paused: flag 16 at override 1, on a family where that pauses.
#[tactic(auto, unfolding(crate::specs::Flags::overrides1))]
pub fn memory_paused(family: u8, flags: Flags) -> bool
    ensures { result ≡ paused_of family flags }
{
    families::pauses_memory(family)
        && (flags.enables >> FB_PAUSE as u32) % 2 == 1
        && (flags.values >> FB_PAUSE as u32) % 2 == 1
}

// The registers FLAGS_0 and FLAGS_1.
#[tactic(auto, using(crate::proofs::WordLaws::tells_0))]
pub fn flags_word_0(flags: Flags) -> u32
    ensures { TellsWord0 flags result }
{
    flags.values % 65536 + 65536 * (flags.enables % 65536)
}

#[tactic(auto, using(crate::proofs::WordLaws::tells_1))]
pub fn flags_word_1(flags: Flags) -> u32
    ensures { TellsWord1 flags result }
{
    flags.values / 65536 + 65536 * (flags.enables / 65536)
}

#[tactic(auto, using(crate::proofs::WordLaws::made_of))]
pub fn flags_from_words(word_0: u32, word_1: u32) -> Flags
    ensures { MadeOf word_0 word_1 result }
{
    Flags {
        values: word_0 % 65536 + 65536 * (word_1 % 65536),
        enables: word_0 / 65536 + 65536 * (word_1 / 65536),
    }
}
