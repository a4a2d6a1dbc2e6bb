// A word that is suspected.
use kc_found::Items;

/// A word of the dump, and what it may have held. Its bytes stand in the file, and the two numbers differ.
#[derive(Clone, Copy, Debug, PartialEq, Eq)]
pub struct Suspect {
    /// The virtual address of its first byte.
    pub va: u64,
    /// The physical address of its first byte.
    pub pa: u64,
    /// The file offset of its first byte, in bytes.
    pub off: u64,
    /// The word as it stands in the dump, read little-endian.
    pub now: u64,
    /// What it may have held, which isn't that number.
    pub value: u64,
}

/// The words that are suspected, each with a number that may have stood there, in the order in which they are to be tried.
pub type Suspects = Items<Suspect>;
