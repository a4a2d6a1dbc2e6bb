// Where a kernel has the words that tell which object has an address.
ghost use Rattle.std.specs.Prelude.{◌≡◌, length};
ghost use Rattle.kc_kinds.specs.Kernels.{kernel};
ghost use Rattle.kc_kinds.specs.Rows.{IsRow};
ghost use Rattle.kc_kinds.specs.Slabs.{slub_words};
ghost use Rattle.kc_owner.specs.Object.Described.{pages_of};
ghost use Rattle.kc_owner.specs.Object.Shapes.{object_shape, shape_with};

use crate::object::shape::ObjectShape;
use crate::{inner_in, scalar_in, single, struct_named};
use kc_kinds::{Kind, Known, Own, Row, Sort, row_of, shape_of};
use kc_view::SlubShape;

// Where the fields of slab caches stand.
fn slub_in(known: &Known<'_>, row: &Row) -> Option<SlubShape>
    requires { IsRow (length known.now.btf.now.records) row.now }
    ensures { result ≡ slub_words (kernel known.now) row.now }
{
    let own = Own {
        link: 0,
        key: None,
        unique: false,
        cached: false,
    };
    match shape_of(known, row, &own, Sort::Slub) {
        Some(Kind::Slub(slub)) => Some(slub),
        _ => None,
    }
}

// How many pages there may be, by the levels of page tables in use.
fn pages_of(five: bool) -> u64
    ensures { result ≡ pages_of five }
{
    if five { 1 << 40 } else { 1 << 34 }
}

// Where these words stand, by the structs that slab caches need.
#[tactic(auto, unfolding(crate::specs::Object::Shapes::shape_with))]
fn shape_with(known: &Known<'_>, row: &Row) -> Option<ObjectShape>
    requires { IsRow (length known.now.btf.now.records) row.now }
    ensures { result ≡ shape_with (kernel known.now) row.now }
{
    let slub = slub_in(known, row)?;
    let page = struct_named(known, b"page");
    let compound_head = scalar_in(known.btf, page, b"compound_head")?;
    let cache_list = inner_in(known.btf, row.node, row.head, b"list")?;
    let caches = single(known, b"slab_caches")?;
    let name = scalar_in(known.btf, row.head, b"name");
    let refcount = scalar_in(known.btf, row.head, b"refcount");
    Some(ObjectShape {
        slub,
        compound_head,
        caches,
        cache_list,
        name,
        refcount,
        pages: pages_of(known.five),
    })
}

/// Where a kernel has these words, or `None` where it lacks a type, a field or the symbol `slab_caches`, or where its map lists a
/// symbol that these ask for at two addresses. A kernel may lack the fields `name` and `refcount`.
pub fn object_shape(known: &Known<'_>) -> Option<ObjectShape>
    ensures { result ≡ object_shape (kernel known.now) }
{
    let row = row_of(known, Sort::Slub, false);
    if row.clear {
        shape_with(known, &row)
    } else {
        None
    }
}
