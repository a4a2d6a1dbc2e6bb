//! The reader of ELF core files: where the memory of a dump stands in its file, and the notes beside it.
#![tactic(auto)]

mod fault;
mod file_header;
mod laws;
mod parts;
mod program_header;
mod read;

pub use fault::{CoreFault, CoreStop};
pub use laws::know_core;
pub use parts::Core;
pub use read::{read_core, read_core_of};
