//! What walks of slab caches, of tasks and of process ids share: their lists (the nodes of rings, the objects of free lists,
//! the nodes of hash chains), and members read by their fields.
#![tactic(auto)]

mod chains;
mod fields;
mod laws;

pub use chains::{Chains, HashChains, Rings};
pub use fields::{check_field, read_field};
pub use laws::{know_chains, know_given, know_hash_chains};
