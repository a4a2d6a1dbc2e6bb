// Words of memory, 64 bits each, with their places.

/// Where a word of the dump comes from.
#[derive(Clone, Copy, Debug, PartialEq, Eq)]
pub enum Origin {
    /// The file: its first byte stands at this file offset, in bytes.
    File(u64),
    /// The tail of a segment: memory that the file leaves out and that reads as zero.
    Tail,
}

/// A physical word.
#[derive(Clone, Copy, Debug, PartialEq, Eq)]
pub struct PWord {
    /// The word, read little-endian.
    pub value: u64,
    /// Where it comes from.
    pub off: Origin,
}

/// A word at a virtual address.
#[derive(Clone, Copy, Debug, PartialEq, Eq)]
pub struct VWord {
    /// The virtual address of its first byte.
    pub va: u64,
    /// The physical address of its first byte.
    pub pa: u64,
    /// Where it comes from.
    pub off: Origin,
    /// The word, read little-endian.
    pub value: u64,
}

/// A word of the dump that shows something. A paging entry has no virtual address here.
#[derive(Clone, Copy, Debug, PartialEq, Eq)]
pub struct Place {
    /// The virtual address that the word was asked by.
    pub va: Option<u64>,
    /// The physical address of its first byte.
    pub pa: u64,
    /// Where it comes from.
    pub off: Origin,
    /// The word, read little-endian.
    pub value: u64,
}
