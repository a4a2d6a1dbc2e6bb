//! In which of a structure's many rings a violation lies, and which of its elements has the pointer: the kernel's tasks stand in a ring of
//! leaders, one of threads for each group and one of children for each task, and a slab cache has a list for each memory node.
#![tactic(auto)]

mod caches;
mod ends;
mod laws;
mod tasks;

pub use caches::{CacheRing, SlabElement, find_cache_ring, partial_head, slab_in};
pub use laws::know_rings;
pub use tasks::{TaskElement, TaskRing, find_task_ring, ring_head, task_in};
