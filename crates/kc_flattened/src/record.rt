// Records of a flattened file.

/// A record: bytes of the flattened file, and where they go.
#[derive(Clone, Copy, Debug, PartialEq, Eq)]
pub struct Record {
    /// Their first place in the file that is meant.
    pub to: u64,
    /// How many they are.
    pub count: u64,
    /// Where they stand in the flattened file.
    pub from: u64,
}
