// The rows of a log as three columns, lent by whoever has them.

// Any three columns: `is_valid` tells which are a log.
#[derive(Clone, Copy)]
pub struct Log<'a> {
    pub clocks: &'a [u64],
    // of each row, the events that have a reading, and the readings
    pub known: &'a [u32],
    pub values: &'a [u32],
}
