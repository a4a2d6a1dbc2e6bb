//! Walks of the kernel's slab caches (`struct kmem_cache`) and of their slabs' free lists.
#![tactic(auto)]

mod cache;
mod cache_pass;
mod counted;
mod free;
mod kept;
mod laws;
mod slab;
mod walk;
mod walks;

pub use cache::{read_base, read_objects};
pub use counted::free_walk_counted;
pub use free::{enter_object, free_next, free_walk};
pub use kc_found::decode;
pub use kept::Kept;
pub use laws::{know_caches, know_free_lists};
pub use slab::{grid_of, is_descriptor, page_of};
pub use walk::{cache_walk, cache_walk_by};
