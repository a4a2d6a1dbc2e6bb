//! kfiles: the map, the types, the log, the modules and the note of a kernel out of the memory of its dump.
#![tactic(auto)]

mod files;
mod laws;
mod memory;
mod note;
mod sought;
mod top;
mod unread;
mod wish;

pub use laws::know_files;
pub use top::kfiles;
