//! The notes of a core file: the kernel's VMCOREINFO, and what it says of the kernel's memory.
#![tactic(auto)]

mod fault;
mod info;
mod laws;
mod note;

pub use fault::{NoteFault, NoteKey};
pub use info::{Info, kernel_info, value};
pub use laws::know_notes;
pub use note::vmcoreinfo;
