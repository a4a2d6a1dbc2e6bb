// What the steps of a walk of the task list only read.
use kc_found::Asked;
use kc_view::TaskShape;
use std::alloc::Global;

// A walk of the task list on its way: its allocator, who asked, and where the words of tasks stand.
#[derive(Drop)]
pub(crate) struct TaskPass {
    pub alloc: Global,
    pub asked: Asked,
    pub shape: TaskShape,
}
