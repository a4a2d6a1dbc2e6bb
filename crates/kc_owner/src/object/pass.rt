// What the steps of a search for an object only read.
use crate::object::counts::SlabCounts;
use crate::object::shape::ObjectShape;
use kc_view::{SlabObjects, SlubBases};
use std::alloc::Global;

// A search for the object at a physical address: its allocator, where the words stand, and what the dump says of pages.
#[derive(Drop)]
pub(crate) struct ObjectPass {
    pub alloc: Global,
    pub shape: ObjectShape,
    pub bases: SlubBases,
    pub pa: u64,
}

// What is read of a slab: the virtual address of its descriptor, how its cache's objects lie in it, and how many it has.
#[derive(Drop)]
pub(crate) struct SlabRead {
    pub at: u64,
    pub objects: SlabObjects,
    pub counts: SlabCounts,
}
