// Where a slab's free list may begin.
ghost use Rattle.std.specs.Prelude.{◌≡◌, ◌≤◌, ◌++◌, min, OnOk, IfOk, IfSome};
ghost use Rattle.kc_repair.specs.Suspect.Answers.{OnlyReads};
ghost use Rattle.kc_repair.specs.Suspect.Heads.{base_at, begins_at, begins_here, free_at, freelist_at, head_among, head_at, head_of, heads_by, heads_if, heads_in, heads_of, is_head, pad_at, page_at, slab_address, slab_of};

use crate::suspect::change::{Change, Changes};
use crate::suspect::fields::number_at;
use crate::suspect::free::push_in_cache;
use crate::suspect::links::node_of;
use crate::suspect::rules::to;
use crate::suspect::words::read_word;
use kc_found::{ReadFailed, Space};
use kc_view::{Base, SlubShape};
use kc_word::{NoMemory, Steps};
use std::sync::ledger::Ledger;

// How many objects are tried at most.
const OBJECTS: u64 = 4096;

// The descriptor of the slab whose `freelist` stands at an address.
fn slab_of(shape: &SlubShape, at: u64) -> u64
    ensures { result ≡ slab_of shape.now at }
{
    node_of(at, shape.freelist.bits.bit / 8)
}

// Whether it is one of this cache.
fn is_head<S: Space, L: Ledger>(
    space: &mut S,
    shape: &SlubShape,
    cache: u64,
    at: u64,
    steps: &mut Steps<L>,
) -> Result<bool, ReadFailed>
    ensures head { IfOk result (λ head. IfSome (S.image space.old) (λ image. head ≡ is_head image shape.now cache at)) }
    ensures reads { OnlyReads S.image S.files S.through S.most S.faults result space.old space.new }
{
    match number_at(space, &shape.slab_cache, slab_of(shape, at), steps)? {
        Some(named) => Ok(named == cache),
        None => Ok(false),
    }
}

// A base, where it can be read.
fn base_at<S: Space, L: Ledger>(
    space: &mut S,
    base: Base,
    steps: &mut Steps<L>,
) -> Result<Option<u64>, ReadFailed>
    ensures base { IfOk result (λ number. IfSome (S.image space.old) (λ image. number ≡ base_at image base)) }
    ensures reads { OnlyReads S.image S.files S.through S.most S.faults result space.old space.new }
{
    match base {
        Base::Is(number) => Ok(Some(number)),
        Base::At(at) => match read_word(space, at, steps)? {
            Some(word) => Ok(Some(word.value)),
            None => Ok(None),
        },
    }
}

// The bytes before the first object.
fn pad_at<S: Space, L: Ledger>(
    space: &mut S,
    shape: &SlubShape,
    cache: u64,
    steps: &mut Steps<L>,
) -> Result<u64, ReadFailed>
    ensures pad { IfOk result (λ pad. IfSome (S.image space.old) (λ image. pad ≡ pad_at image shape.now cache)) }
    ensures reads { OnlyReads S.image S.files S.through S.most S.faults result space.old space.new }
{
    match &shape.left_pad {
        Some(field) => Ok(number_at(space, field, cache, steps)?.unwrap_or(0)),
        None => Ok(0),
    }
}

// The address of the page that a slab's descriptor has the number of.
fn page_at(shape: &SlubShape, slab: u64, direct: u64, vmemmap: u64) -> u64
    ensures { result ≡ page_at shape.now slab direct vmemmap }
{
    let number = node_of(slab, vmemmap) / shape.page_size;
    direct.wrapping_add(4096u64.wrapping_mul(number))
}

// The address of a slab's first byte.
fn slab_address<S: Space, L: Ledger>(
    space: &mut S,
    shape: &SlubShape,
    slab: u64,
    steps: &mut Steps<L>,
) -> Result<Option<u64>, ReadFailed>
    ensures address { IfOk result (λ address. IfSome (S.image space.old) (λ image. address ≡ slab_address image shape.now slab)) }
    ensures reads { OnlyReads S.image S.files S.through S.most S.faults result space.old space.new }
{
    let Some(direct) = base_at(space, shape.direct, steps)? else {
        return Ok(None);
    };
    match base_at(space, shape.vmemmap, steps)? {
        Some(vmemmap) => Ok(Some(page_at(shape, slab, direct, vmemmap))),
        None => Ok(None),
    }
}

// The list begins at an object.
fn head_at(at: u64, first: u64, size: u64, i: u64) -> Change
    ensures { result ≡ head_at at first size i }
{
    to(at, first.wrapping_add(i.wrapping_mul(size)))
}

// Adds a list that begins at each of so many objects.
fn push_objects(
    changes: &mut Changes,
    at: u64,
    first: u64,
    size: u64,
    count: u64,
) -> Result<(), NoMemory>
    ensures { OnOk result (changes.new ≡ changes.old ++ begins_at at first size count) }
{
    for i in 0..count {
        changes.push(head_at(at, first, size, i))?;
    }
    Ok(())
}

// Adds a list that is empty, and one that begins at each object.
fn push_heads(
    changes: &mut Changes,
    at: u64,
    first: u64,
    size: u64,
    objects: u64,
) -> Result<(), NoMemory>
    ensures { OnOk result (changes.new ≡ changes.old ++ heads_by at first size objects) }
{
    changes.push(to(at, 0))?;
    push_objects(changes, at, first, size, objects.min(OBJECTS))
}

// Adds those of a slab whose first byte has this address.
fn push_heads_of<S: Space, L: Ledger>(
    changes: &mut Changes,
    shape: &SlubShape,
    cache: u64,
    at: u64,
    page: u64,
    space: &mut S,
    steps: &mut Steps<L>,
) -> Result<(), ReadFailed>
    ensures added { OnOk result (IfSome (S.image space.old) (λ image. changes.new ≡ changes.old ++ heads_of image shape.now cache at page)) }
    ensures reads { OnlyReads S.image S.files S.through S.most S.faults result space.old space.new }
{
    let first = page.wrapping_add(pad_at(space, shape, cache, steps)?);
    let size = number_at(space, &shape.size, cache, steps)?;
    let objects = number_at(space, &shape.objects, slab_of(shape, at), steps)?;
    if let (Some(size), Some(objects)) = (size, objects) {
        push_heads(changes, at, first, size, objects)?;
    }
    Ok(())
}

// Adds those of the slab whose `freelist` stands at an address.
pub(crate) fn push_heads_in<S: Space, L: Ledger>(
    changes: &mut Changes,
    shape: &SlubShape,
    cache: u64,
    at: u64,
    space: &mut S,
    steps: &mut Steps<L>,
) -> Result<(), ReadFailed>
    ensures added { OnOk result (IfSome (S.image space.old) (λ image. changes.new ≡ changes.old ++ heads_in image shape.now cache at)) }
    ensures reads { OnlyReads S.image S.files S.through S.most S.faults result space.old space.new }
{
    match slab_address(space, shape, slab_of(shape, at), steps)? {
        Some(page) => push_heads_of(changes, shape, cache, at, page, space, steps),
        None => Ok(()),
    }
}

// Where the `freelist` of the slab stands that has an object's word, if the slab has so many pages.
fn freelist_at(shape: &SlubShape, direct: u64, vmemmap: u64, at: u64, pages: u64) -> u64
    requires some { 1 ≤ pages }
    requires few { pages ≤ 8 }
    ensures { result ≡ freelist_at shape.now direct vmemmap at pages }
{
    let number = node_of(at, direct) / (4096 * pages) * pages;
    let slab = vmemmap.wrapping_add(shape.page_size.wrapping_mul(number));
    slab.wrapping_add(shape.freelist.bits.bit / 8)
}

// The first of these that is one of a slab of this cache.
fn head_among<S: Space, L: Ledger>(
    space: &mut S,
    shape: &SlubShape,
    cache: u64,
    at: u64,
    direct: u64,
    vmemmap: u64,
    steps: &mut Steps<L>,
) -> Result<Option<u64>, ReadFailed>
    ensures head { IfOk result (λ head. IfSome (S.image space.old) (λ image. head ≡ head_among image shape.now cache at direct vmemmap)) }
    ensures reads { OnlyReads S.image S.files S.through S.most S.faults result space.old space.new }
{
    let one = freelist_at(shape, direct, vmemmap, at, 1);
    if is_head(space, shape, cache, one, steps)? {
        return Ok(Some(one));
    }
    let two = freelist_at(shape, direct, vmemmap, at, 2);
    if is_head(space, shape, cache, two, steps)? {
        return Ok(Some(two));
    }
    let four = freelist_at(shape, direct, vmemmap, at, 4);
    if is_head(space, shape, cache, four, steps)? {
        return Ok(Some(four));
    }
    let eight = freelist_at(shape, direct, vmemmap, at, 8);
    if is_head(space, shape, cache, eight, steps)? {
        return Ok(Some(eight));
    }
    Ok(None)
}

// Where the `freelist` of the slab stands that has an object's word.
fn head_of<S: Space, L: Ledger>(
    space: &mut S,
    shape: &SlubShape,
    cache: u64,
    at: u64,
    steps: &mut Steps<L>,
) -> Result<Option<u64>, ReadFailed>
    ensures head { IfOk result (λ head. IfSome (S.image space.old) (λ image. head ≡ head_of image shape.now cache at)) }
    ensures reads { OnlyReads S.image S.files S.through S.most S.faults result space.old space.new }
{
    let Some(direct) = base_at(space, shape.direct, steps)? else {
        return Ok(None);
    };
    match base_at(space, shape.vmemmap, steps)? {
        Some(vmemmap) => head_among(space, shape, cache, at, direct, vmemmap, steps),
        None => Ok(None),
    }
}

// Whether that slab's free list begins with the object whose free pointer stands at an address.
fn begins_here<S: Space, L: Ledger>(
    space: &mut S,
    shape: &SlubShape,
    cache: u64,
    at: u64,
    head: u64,
    steps: &mut Steps<L>,
) -> Result<bool, ReadFailed>
    ensures begins { IfOk result (λ begins. IfSome (S.image space.old) (λ image. begins ≡ begins_here image shape.now cache at head)) }
    ensures reads { OnlyReads S.image S.files S.through S.most S.faults result space.old space.new }
{
    let Some(offset) = number_at(space, &shape.offset, cache, steps)? else {
        return Ok(false);
    };
    match number_at(space, &shape.freelist, slab_of(shape, head), steps)? {
        Some(first) => Ok(first == node_of(at, offset)),
        None => Ok(false),
    }
}

// Adds where that free list may begin.
fn push_heads_if<S: Space, L: Ledger>(
    changes: &mut Changes,
    shape: &SlubShape,
    cache: u64,
    at: u64,
    space: &mut S,
    steps: &mut Steps<L>,
) -> Result<(), ReadFailed>
    ensures added { OnOk result (IfSome (S.image space.old) (λ image. changes.new ≡ changes.old ++ heads_if image shape.now cache at (head_of image shape.now cache at))) }
    ensures reads { OnlyReads S.image S.files S.through S.most S.faults result space.old space.new }
{
    let Some(head) = head_of(space, shape, cache, at, steps)? else {
        return Ok(());
    };
    if begins_here(space, shape, cache, at, head, steps)? {
        push_heads_in(changes, shape, cache, head, space, steps)?;
    }
    Ok(())
}

// Adds what a pointer of a free list may have been: that of a slab's descriptor, or of an object.
pub(crate) fn push_free_at<S: Space, L: Ledger>(
    changes: &mut Changes,
    shape: &SlubShape,
    cache: u64,
    at: u64,
    space: &mut S,
    steps: &mut Steps<L>,
) -> Result<(), ReadFailed>
    ensures added { OnOk result (IfSome (S.image space.old) (λ image. changes.new ≡ changes.old ++ free_at image shape.now cache at)) }
    ensures reads { OnlyReads S.image S.files S.through S.most S.faults result space.old space.new }
{
    if is_head(space, shape, cache, at, steps)? {
        return push_heads_in(changes, shape, cache, at, space, steps);
    }
    push_heads_if(changes, shape, cache, at, space, steps)?;
    push_in_cache(changes, shape, cache, at, space, steps)
}
