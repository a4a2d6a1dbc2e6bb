//! The program kmatch: whether a map and a file of types are those of the kernel that crashed, by what the dump's
//! VMCOREINFO states of it, and by the types that the dump holds.
#![tactic(auto)]

mod beside;
mod fact;
mod files;
mod finding;
mod kernel;
mod laws;
mod outcome;
mod text;
mod top;

pub use laws::know_matches;
pub use top::kmatch;
