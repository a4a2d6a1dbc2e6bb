//! Process ids by lists: whether lists are those of a table of process ids, which process ids they give, and the lists of one. The
//! lists say what is read, so a test takes steps by their numbers, whatever the dump holds.

mod laws;
mod listing;
mod test;

pub use laws::know_pid_lists;
pub use listing::list_pids;
pub use test::{pid_nodes, test_pids};
