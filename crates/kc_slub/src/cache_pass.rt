// What the steps of a walk of a cache only read.
use kc_found::{Asked, Grid, Scalar};
use kc_view::{FieldNumber, SlabObjects, SlubBases, SlubShape};
use std::alloc::Global;

// A walk of a cache on its way: its allocator, who asked, where the words stand, what the dump says of pages, and how the cache's
// objects lie in a slab.
#[derive(Drop)]
pub(crate) struct CachePass {
    pub alloc: Global,
    pub asked: Asked,
    pub shape: SlubShape,
    pub bases: SlubBases,
    pub objects: SlabObjects,
}

// A slab's free list that is to be looked at: the address of the slab's descriptor, where its objects lie, the first pointer, how
// many objects are to be on the list, and the number of those in use, which says so.
#[derive(Drop)]
pub(crate) struct FreeList {
    pub slab: u64,
    pub grid: Grid,
    pub first: Scalar,
    pub wanted: u64,
    pub inuse: FieldNumber,
}
