// Runs of page frames.

/// A run of page frames: those whose pages are in the dump, and after them those that are memory and were left out.
#[derive(Clone, Copy)]
pub struct PageRun {
    /// The number of the first page frame: its physical address over 4096.
    pub first: u64,
    /// How many page frames have their pages in the dump.
    pub dumped: u64,
    /// How many page frames after those were left out.
    pub left: u64,
}
