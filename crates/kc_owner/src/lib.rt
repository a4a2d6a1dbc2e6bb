//! What an address of a dump belongs to: the object of a slab cache, or the area (module, stack, per-CPU part) that holds
//! it; and the members, symbols and texts of a kernel by their names.
#![tactic(auto)]

mod area;
mod firsts;
mod kernel;
mod known;
mod object;
mod ring;
mod ring_laws;
mod text;
mod views;

pub use area::{
    AreaShape, Areas, InModule, InProcessor, InStack, ModuleShape, PartShape, ProcessorShape,
    StackShape, area_shape, know_areas, read_areas,
};
pub use kc_kinds::{inner_in, scalar_in, struct_named};
pub use kernel::{Elements, elements_in, list_words, single};
pub use known::read_known;
pub use object::{
    Cache, CacheKey, Described, FreeKeys, FreeSpot, Held, ObjectShape, ObjectSpot, Page, Slab,
    SlabCounts, Spot, find_described, find_object, free_keys, know_objects, object_shape,
};
pub use ring::{RingNodes, read_ring, read_word};
pub use ring_laws::know_rings;
pub use text::read_text;
pub use views::{looked_at, view_at};
