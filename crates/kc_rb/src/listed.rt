//! Red-black trees by lists of their numbers: whether a list is a tree's, and the list of one. The list says what is read, so a test
//! takes steps by the list's length, whatever the dump holds; no pointer of the dump is followed.
mod gather;
mod laws;
mod tree;

pub use gather::collect_tree;
pub use laws::know_listed_trees;
pub use tree::{test_tree, turned};
