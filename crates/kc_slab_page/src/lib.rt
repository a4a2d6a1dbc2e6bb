//! A slab of a dump, found by its page's descriptor and not by a list: the dump's frames and slab caches, what is a slab's
//! first page, how many objects the slab has, whether its own free list is whole, and whether the bytes are that slub_debug keeps.
#![tactic(auto)]

mod caches;
mod fence;
mod frames;
mod guarding;
mod guards;
mod kernel;
mod laws;
mod mark;
mod page;
mod shape;
mod slab;

pub use caches::{CacheSeen, SlabCaches, read_caches};
pub use fence::{FencePool, FenceShape};
pub use frames::{FrameRun, frame_runs};
pub use guarding::{SlabFault, SlabState};
pub use guards::{FlagBits, GuardShape};
pub use kernel::page_shape;
pub use laws::know_slab_pages;
pub use mark::{Mark, read_mark, slab_mark};
pub use page::{PageSeen, SlabSeen, look_at_page};
pub use shape::PageShape;
pub use slab::{SlabCounted, SlabFree, is_laid, read_counts, read_list};
