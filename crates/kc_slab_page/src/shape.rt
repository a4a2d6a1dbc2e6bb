// Where the words stand that tell what a page is.
use crate::fence::FenceShape;
use crate::guards::GuardShape;
use crate::mark::Mark;
use kc_owner::ObjectShape;

/// Where the words stand that tell which pages are slabs.
#[derive(Clone, Copy, Debug, PartialEq, Eq)]
pub struct PageShape {
    /// Page descriptors, slabs and slab caches.
    pub objects: ObjectShape,
    /// The mark of a slab's first page.
    pub mark: Mark,
    /// Which bytes slub_debug keeps at objects, where that can be told.
    pub guards: Option<GuardShape>,
    /// Which pages are of KFENCE's pool, in a kernel with KFENCE.
    pub fence: Option<FenceShape>,
}
