/// The numbers of rows that a run saw and kept. A line that is passed over is not a row.
#[derive(Clone, Copy, Debug, PartialEq, Eq)]
pub struct Tally {
    pub rows: u64,
    pub kept: u64,
}
