// What the file in slot Dump is.
use crate::flat_file::FlatFile;

/// What is seen of a file.
#[derive(Drop)]
pub enum FlatShape {
    /// The file itself, of so many bytes.
    Whole(u64),
    /// The file that a flattened file means.
    Flat(FlatFile),
}
