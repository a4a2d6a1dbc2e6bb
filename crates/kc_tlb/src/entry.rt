// A translation that is kept.

/// The translation of a page of 4096 bytes of virtual memory.
#[derive(Clone, Copy, Debug, PartialEq, Eq)]
pub struct Entry {
    /// The page's number: the virtual address of its first byte, over 4096.
    pub page: u64,
    /// The physical address of its first byte in bytes, a multiple of 4096.
    pub piece: u64,
}
