// Why calls are refused and scripts are faulty, and the number of each reason.
ghost use Rattle.std.specs.Prelude.{◌≡◌};
ghost use Rattle.refusals.specs.Number.{unreadable_number, unwritable_number, unsteppable_number, inaccessible_number, fault_number};
ghost use Rattle.refusals.specs.Number.{unreplayable_number, unshowable_number};

// Why there is no instruction.
#[derive(Clone, Copy, PartialEq, Eq, Debug)]
pub enum Unreadable {
    Family,
    Empty,
    Unknown,
    Short,
    // a byte that was never uploaded: said of code RAM, and never by the reader itself
    NotUploaded,
}

// Why the instruction is not written.
#[derive(Clone, Copy, PartialEq, Eq, Debug)]
pub enum Unwritable {
    Family,
    NotOnFamily,
    Operand,
    Room,
}

// Why a step is refused.
#[derive(Clone, Copy, PartialEq, Eq, Debug)]
pub enum Unsteppable {
    Family,
    Log,
}

// Why the host is refused.
#[derive(Clone, Copy, PartialEq, Eq, Debug)]
pub enum Inaccessible {
    Family,
    // no register of the family that can be written, or read
    Register,
    // a slot executes
    Executing,
}

// What is wrong with a script.
#[derive(Clone, Copy, PartialEq, Eq, Debug)]
pub enum Fault {
    // a byte past the code RAM
    PastRam,
    // a byte never uploaded
    NotUploaded,
    // an unknown opcode
    Unknown,
    // addrlo with no addr before it
    NoAddress,
    // a poke with a half of DATA not set by this script
    HalfData,
    // a poke outside every range
    Outside,
    // an ewait that nothing can release
    Unreleased,
    // exit where the last touch of flag 16 was set1, on families 2 to 4
    Paused,
    // what was handed in is no script with ranges
    Input,
}

// Why a replay is refused.
#[derive(Clone, Copy, PartialEq, Eq, Debug)]
pub enum Unreplayable {
    Input,
    Room,
    Log,
}

// Why no log is made that shows a verdict.
#[derive(Clone, Copy, PartialEq, Eq, Debug)]
pub enum Unshowable {
    Input,
    Room,
}

// The number of each reason.
impl From<Unreadable> for u8 {
    fn from(why: Unreadable) -> u8
        ensures { result ≡ unreadable_number why }
    {
        match why {
            Unreadable::Family => 9,
            Unreadable::Empty => 1,
            Unreadable::Unknown => 3,
            Unreadable::Short => 1,
            Unreadable::NotUploaded => 2,
        }
    }
}

impl From<Unwritable> for u8 {
    fn from(why: Unwritable) -> u8
        ensures { result ≡ unwritable_number why }
    {
        match why {
            Unwritable::Family => 9,
            Unwritable::NotOnFamily => 11,
            Unwritable::Operand => 12,
            Unwritable::Room => 13,
        }
    }
}

impl From<Unsteppable> for u8 {
    fn from(why: Unsteppable) -> u8
        ensures { result ≡ unsteppable_number why }
    {
        match why {
            Unsteppable::Family => 9,
            Unsteppable::Log => 15,
        }
    }
}

impl From<Inaccessible> for u8 {
    fn from(why: Inaccessible) -> u8
        ensures { result ≡ inaccessible_number why }
    {
        match why {
            Inaccessible::Family => 9,
            Inaccessible::Register => 27,
            Inaccessible::Executing => 28,
        }
    }
}

impl From<Fault> for u8 {
    fn from(fault: Fault) -> u8
        ensures { result ≡ fault_number fault }
    {
        match fault {
            Fault::PastRam => 1,
            Fault::NotUploaded => 2,
            Fault::Unknown => 3,
            Fault::NoAddress => 4,
            Fault::HalfData => 5,
            Fault::Outside => 6,
            Fault::Unreleased => 7,
            Fault::Paused => 8,
            Fault::Input => 9,
        }
    }
}

impl From<Unreplayable> for u8 {
    fn from(why: Unreplayable) -> u8
        ensures { result ≡ unreplayable_number why }
    {
        match why {
            Unreplayable::Input => 9,
            Unreplayable::Room => 14,
            Unreplayable::Log => 15,
        }
    }
}

impl From<Unshowable> for u8 {
    fn from(why: Unshowable) -> u8
        ensures { result ≡ unshowable_number why }
    {
        match why {
            Unshowable::Input => 9,
            Unshowable::Room => 14,
        }
    }
}
