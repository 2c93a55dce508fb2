// A place in a log: a row, and how many of its clocks are used.
#[derive(Clone, Copy)]
pub struct Place {
    pub row: usize,
    pub used: u64,
}
