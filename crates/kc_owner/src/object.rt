//! Which object of which slab cache a physical address of a dump lies in, and what its page, its slab and its cache say of it.

mod bases;
mod cache;
mod counts;
mod described;
mod free;
mod held;
mod kernel;
mod keys;
mod laws;
mod page;
mod pass;
mod shape;
mod slab;
mod spot;

pub use cache::Cache;
pub use counts::SlabCounts;
pub use described::{Described, find_described};
pub use free::FreeSpot;
pub use held::{Held, find_object};
pub use kernel::object_shape;
pub use keys::{CacheKey, FreeKeys, free_keys};
pub use laws::know_objects;
pub use page::Page;
pub use shape::ObjectShape;
pub use slab::Slab;
pub use spot::{ObjectSpot, Spot};
