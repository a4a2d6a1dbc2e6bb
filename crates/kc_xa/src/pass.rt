// What the steps along an xarray only read.
use kc_found::{Asked, VWord, XaShape};
use std::alloc::Global;

// An xarray that is walked or tested: the allocator, who asked, and where the words stand.
#[derive(Drop)]
pub(crate) struct XaPass {
    pub alloc: Global,
    pub asked: Asked,
    pub shape: XaShape,
}

// A slot of a node, and its word.
#[derive(Drop)]
pub(crate) struct SlotWord {
    pub slot: u64,
    pub word: VWord,
}
