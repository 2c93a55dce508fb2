// A row of a log: its clocks, the events that have a reading, and the readings.
#[derive(Clone, Copy)]
pub struct Row {
    pub clocks: u64,
    pub known: u32,
    pub values: u32,
}
