//! A dump in which some words are others: what its memory would hold if their bytes in its file were others. No file is
//! written.

mod change;
mod laws;
mod lay;
mod patched;

pub use change::Change;
pub use laws::know_changes;
pub use patched::{Lent, Patched, share};
