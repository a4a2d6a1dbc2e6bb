//! Walks of the kernel's xarrays (`struct xarray`): with their counts, with a list of their entries, and the test of an
//! xarray by such a list.
#![tactic(auto)]

mod counted;
mod entries;
mod laws;
mod listed;
mod nodes;
mod pass;
mod rules;
mod slots;
mod walk;
mod words;

pub use counted::xa_walk_counted;
pub use entries::{entry_of, head_fault, index_of, know_chunk, slot_fault};
pub use laws::{know_nodes, know_xarrays};
pub use listed::{XaSpot, know_entries, list_xarray, pointers_in, test_xarray, xarray_items};
pub use nodes::open_node;
pub use walk::{read_head, xa_walk};
