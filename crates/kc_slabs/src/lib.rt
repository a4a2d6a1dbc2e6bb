//! The program kslab: every slab of a dump, or those of one cache, found by its page and not by a list, and what it breaks.
#![tactic(auto)]

mod files;
mod laws;
mod looking;
mod of_cache;
mod text;
mod top;

pub use files::slab_shapes;
pub use laws::know_slabs;
pub use looking::{CpusSeen, SlabShapes, SlabsSeen};
pub use of_cache::{SlabFrames, push_cache_line, see_cache};
pub use top::kslab;
