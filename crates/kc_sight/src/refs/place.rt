// Where a word stands, and how it holds a value.
use crate::refs::sought::Writing;

/// A word of 8 bytes in the dump's file.
#[derive(Clone, Copy, Debug, PartialEq, Eq)]
pub struct WordPlace {
    /// Its physical address, in bytes.
    pub pa: u64,
    /// The file offset of its first byte.
    pub off: u64,
}

/// A word of the dump's file that holds a value.
#[derive(Clone, Copy, Debug, PartialEq, Eq)]
pub struct FoundWord {
    /// Where it stands.
    pub place: WordPlace,
    /// What stands there.
    pub value: u64,
    /// How it holds the value that is looked for.
    pub writing: Writing,
}
