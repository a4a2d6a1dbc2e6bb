//! The VMCOREINFO note that a kernel keeps in its memory, for a dump whose file has none.
#![tactic(auto)]

mod find;
mod head;
mod page;

pub use find::find_memory_note;
