// Where a kernel has the words of a page's descriptor.
ghost use Rattle.std.specs.Prelude.{◌≡◌, ◌≤◌, length, option_and_then, option_map, IfSome};
ghost use Rattle.kc_kinds.specs.Kernels.{kernel};
ghost use Rattle.kc_frame.specs.Shapes.{frame_shape, low_half, mark_in, number_in, orders_in, orders_of, scalar_of, shape_by};

use crate::zone::{ZoneShape, zone_shape};
use kc_btf::Btf;
use kc_kinds::Known;
use kc_layout::{Field, size_of};
use kc_notes::value;
use kc_owner::{scalar_in, struct_named};
use kc_slab_page::{Mark, slab_mark};
use kc_word::read_dec;

/// Where the words of a page's descriptor stand (`struct page`). A kernel may lack each of them.
#[derive(Clone, Copy, Debug, PartialEq, Eq)]
pub struct FrameShape {
    /// The bytes of a descriptor.
    pub size: u64,
    /// How the kernel marks a slab's first page, where its types and notes tell it.
    pub slab: Option<Mark>,
    /// The field `flags`.
    pub flags: Option<Field>,
    /// The field `_refcount`.
    pub count: Option<Field>,
    /// The field `_mapcount`, which is the page's type too.
    pub maps: Option<Field>,
    /// The field `mapping`.
    pub mapping: Option<Field>,
    /// The field `index`.
    pub index: Option<Field>,
    /// The field `private`: of the first page of a free block the block's order.
    pub private: Option<Field>,
    /// What `_mapcount` is at the first page of a free block, as a number of 32 bits.
    pub mark: Option<u64>,
    /// How many orders of free blocks there are, 64 at most.
    pub orders: u64,
    /// Where the words of zones stand.
    pub zones: Option<ZoneShape>,
}

// The number that the first of two members is, or else the other one.
fn scalar_of(types: &Btf, page: u32, name: &[u8], later: &[u8]) -> Option<Field>
    requires { page ≤ length types.now.records }
    ensures { result ≡ scalar_of types.now page name.now later.now }
{
    match scalar_in(types, Some(page), name) {
        Some(field) => Some(field),
        None => scalar_in(types, Some(page), later),
    }
}

// The number of a key of the dump's notes.
fn number_in(note: &[u8], key: &[u8]) -> Option<i64>
    ensures { result ≡ number_in note.now key.now }
{
    read_dec(value(note, key)?)
}

// A number as one of 32 bits.
fn low_half(number: i64) -> u64
    ensures { result ≡ low_half number }
{
    number.rem_euclid(1 << 32) as u64
}

// The mark of a free block's first page.
fn mark_in(note: &[u8]) -> Option<u64>
    ensures { result ≡ mark_in note.now }
{
    let mark = number_in(note, b"NUMBER(PAGE_BUDDY_MAPCOUNT_VALUE)")?;
    Some(low_half(mark))
}

// A count of orders.
#[tactic(auto, unfolding(crate::specs::Shapes::orders_of))]
fn orders_of(lists: Option<i64>) -> u64
    ensures { result ≡ orders_of lists }
{
    match lists {
        Some(lists) if lists >= 0 && lists <= 64 => lists as u64,
        _ => 0,
    }
}

// How many orders there are.
fn orders_in(note: &[u8]) -> u64
    ensures { result ≡ orders_in note.now }
{
    orders_of(number_in(note, b"LENGTH(zone.free_area)"))
}

// Where the words of a descriptor of this type and size stand.
fn shape_by(
    types: &Btf,
    page: u32,
    size: u64,
    slab: Option<Mark>,
    zones: Option<ZoneShape>,
    note: &[u8],
) -> FrameShape
    requires { page ≤ length types.now.records }
    ensures { result ≡ shape_by types.now page size slab zones note.now }
{
    FrameShape {
        size,
        slab,
        flags: scalar_of(types, page, b"flags", b"flags.f"),
        count: scalar_in(types, Some(page), b"_refcount.counter"),
        maps: scalar_in(types, Some(page), b"_mapcount.counter"),
        mapping: scalar_in(types, Some(page), b"mapping"),
        index: scalar_of(types, page, b"index", b"__folio_index"),
        private: scalar_in(types, Some(page), b"private"),
        mark: mark_in(note),
        orders: orders_in(note),
        zones,
    }
}

/// Where a kernel has the words of a page's descriptor, by its types and the text of its dump's VMCOREINFO, or `None` where it lacks
/// `struct page`.
pub fn frame_shape(known: &Known<'_>, note: &[u8]) -> Option<FrameShape>
    ensures { result ≡ frame_shape (kernel known.now) note.now }
{
    let page = struct_named(known, b"page")?;
    let size = size_of(known.btf, page)?;
    let slab = slab_mark(known, note);
    let zones = zone_shape(known);
    Some(shape_by(known.btf, page, size, slab, zones, note))
}
