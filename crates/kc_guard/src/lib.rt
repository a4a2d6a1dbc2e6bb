//! The bytes that slub_debug keeps around the objects of a slab cache and in the free ones: red zones, padding and poison.
#![tactic(auto)]

mod byte;
mod free;
mod guards;
mod laws;
mod object;
mod objects;

pub use byte::WrongByte;
pub use guards::{CacheBytes, GuardRule, GuardRun, GuardRuns, guard_runs};
pub use laws::know_guards;
pub use object::Spoiled;
pub use objects::check_objects;
