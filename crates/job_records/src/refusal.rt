// Why a job is refused, and the number of each reason.
ghost use Rattle.std.specs.Prelude.{◌≡◌};
ghost use Rattle.job_records.specs.Number.{refusal_number};

// What is wrong with a record, or with the job.
#[derive(Clone, Copy, PartialEq, Eq, Debug)]
pub enum Refusal {
    // a gate that cannot be used
    Gate,
    // the record's body is cut short
    CutShort,
    // an unknown kind, or input that ends without an end record
    Unknown,
    // a kind whose place in the order is past
    OutOfOrder,
    // too many of one kind
    TooMany,
    // bytes after the end
    BytesAfter,
    // a family that there is not
    Family,
    // a range whose first address is above its last
    Range,
    // a host write of no register of the family that can be written
    Register,
    // a host write while a slot executes
    Executing,
    // a row whose clocks are out of range
    Clocks,
    // more bytes than a job may have
    TooLong,
    // an end at which no slot executes
    Idle,
    // a gate or capture that its event cannot have, or captures that no row took up
    Probe,
}

// The listing's number.
impl From<Refusal> for u8 {
    fn from(why: Refusal) -> u8
        ensures { result ≡ refusal_number why }
    {
        match why {
            Refusal::Gate => 16,
            Refusal::CutShort => 20,
            Refusal::Unknown => 21,
            Refusal::OutOfOrder => 22,
            Refusal::TooMany => 23,
            Refusal::BytesAfter => 24,
            Refusal::Family => 25,
            Refusal::Range => 26,
            Refusal::Register => 27,
            Refusal::Executing => 28,
            Refusal::Clocks => 30,
            Refusal::TooLong => 31,
            Refusal::Idle => 32,
            Refusal::Probe => 33,
        }
    }
}
