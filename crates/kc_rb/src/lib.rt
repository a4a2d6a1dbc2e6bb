//! Walks of the kernel's red-black trees (`struct rb_root`, `struct rb_root_cached`), and tests of whether a list of numbers is one.
#![tactic(auto)]

mod counted;
mod laws;
mod listed;
mod node;
mod reading;
mod rules;
mod spots;
mod walk;

pub use counted::rb_walk_counted;
pub use laws::{know_nodes, know_trees};
pub use listed::{collect_tree, know_listed_trees, test_tree, turned};
pub use node::enter_node;
pub use reading::enter_head;
pub use spots::{left_of, right_of, root_of};
pub use walk::rb_walk;
