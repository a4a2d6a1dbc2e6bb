// What the steps of a walk of process ids only read.
use kc_found::Asked;
use kc_view::PidShape;
use std::alloc::Global;

// A walk of process ids on its way: its allocator, who asked, and where their words stand.
#[derive(Drop)]
pub(crate) struct PidPass {
    pub alloc: Global,
    pub asked: Asked,
    pub shape: PidShape,
}
