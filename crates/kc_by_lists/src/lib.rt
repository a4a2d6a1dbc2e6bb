//! Slab caches, task lists and process ids by the lists of their chains: whether lists are those of a structure, and which
//! nodes they give. The lists say what is read, so a test takes steps by their numbers, whatever the dump holds.
#![tactic(auto)]

mod free;
mod given;
mod laws;
mod nodes;
mod pids;
mod whole;

pub use free::test_free_list;
pub use given::GivenLists;
pub use laws::know_given_lists;
pub use nodes::{cache_nodes, task_nodes};
pub use pids::{know_pid_lists, list_pids, pid_nodes, test_pids};
pub use whole::{all_taken, test_cache, test_tasks};
