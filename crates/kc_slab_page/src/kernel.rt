// Where a kernel has the words that tell what a page is.
ghost use Rattle.std.specs.Prelude.{◌≡◌};
ghost use Rattle.kc_kinds.specs.Kernels.{kernel};
ghost use Rattle.kc_slab_page.specs.Shapes.{page_shape};

use crate::fence::fence_shape;
use crate::guards::guard_shape;
use crate::mark::slab_mark;
use crate::shape::PageShape;
use kc_kinds::Known;
use kc_owner::object_shape;

/// Where a kernel has these words, by the text of its dump's VMCOREINFO, or `None` where it lacks what `object_shape` asks for or both marks.
pub fn page_shape(known: &Known<'_>, note: &[u8]) -> Option<PageShape>
    ensures { result ≡ page_shape (kernel known.now) note.now }
{
    let objects = object_shape(known)?;
    let mark = slab_mark(known, note)?;
    Some(PageShape {
        objects,
        mark,
        guards: guard_shape(known),
        fence: fence_shape(known),
    })
}
