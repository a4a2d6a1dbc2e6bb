// What the steps of a walk only read.
use kc_found::Asked;
use std::alloc::Global;

// A walk on its way: its allocator, who asked, and where the words of its structure stand.
#[derive(Drop)]
pub(crate) struct Pass<Shape> {
    pub alloc: Global,
    pub asked: Asked,
    pub shape: Shape,
}
