// What the file in slot Dump is.
use crate::plain_core::PlainCore;

/// What a view shows of a file.
#[derive(Drop)]
pub enum PlainShape {
    /// The file itself, of so many bytes.
    Whole(u64),
    /// The plain core file of a compressed dump.
    Plain(PlainCore),
}
