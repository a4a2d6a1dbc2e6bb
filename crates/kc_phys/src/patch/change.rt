// A word of a file that is changed.

/// Eight bytes of a file, and what they are changed to.
#[derive(Clone, Copy, Debug, PartialEq, Eq)]
pub struct Change {
    /// The file offset of the first of them, in bytes.
    pub off: u64,
    /// What they hold then, read little-endian.
    pub value: u64,
}
