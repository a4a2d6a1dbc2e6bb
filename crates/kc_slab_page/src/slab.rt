// A slab, by its page's descriptor.
ghost use Rattle.std.specs.Prelude.{◌≡◌, IsTrue, IfOk, IfSome};
ghost use Rattle.kc_memory.specs.Stays.{SpaceStays};
ghost use Rattle.kc_found.specs.FreeLists.{IsGrid};
ghost use Rattle.kc_found.specs.Walks.{CountsWalkFaults, WalksAs};
ghost use Rattle.kc_view.specs.Caches.{grid_of};
ghost use Rattle.kc_slab_page.specs.Slabs.{counted, free_of, is_laid, own_list, slab_free};

use kc_found::{Grid, Rule, Space, WalkStop, Walked, broken_field};
use kc_owner::looked_at;
use kc_slub::{free_walk, grid_of, is_descriptor};
use kc_steps::read_field;
use kc_view::{FieldNumber, SlabObjects, SlubBases, SlubShape, View};
use kc_word::Steps;
use std::alloc::Global;
use std::sync::ledger::Ledger;

/// A slab whose own free list is whole.
#[derive(Clone, Copy, Debug, PartialEq, Eq)]
pub struct SlabFree {
    /// How many objects it has.
    pub objects: u64,
    /// How many of them its own free list has.
    pub free: u64,
    /// Whether it is frozen: a processor owns it, and keeps further free objects in a list of its own; or has it in its partial list (before
    /// Linux 6.8); or, with slub_debug, the kernel found it corrupt.
    pub frozen: bool,
    /// Whether the bytes that slub_debug keeps at its objects were looked at.
    pub guarded: bool,
}

/// How many objects a slab has.
#[derive(Clone, Copy, Debug, PartialEq, Eq)]
pub struct SlabCounted {
    /// All of them. It isn't 0.
    pub objects: u64,
    /// Those that its own free list doesn't have: at most `objects`.
    pub inuse: FieldNumber,
    /// Whether it is frozen.
    pub frozen: bool,
}

// A page's descriptor, and what it has as its cache.
#[derive(Clone, Copy)]
pub(crate) struct NamedPage<'p> {
    pub(crate) view: &'p View<'p>,
    pub(crate) cache: &'p FieldNumber,
}

/// Whether objects have a size, in which the 8 bytes of their free pointer lie.
pub fn is_laid(objects: SlabObjects) -> bool
    ensures { result ≡ is_laid objects }
{
    objects.size != 0 && u128::from(objects.size) >= u128::from(objects.offset) + 8
}

/// How many objects a slab has; rule U3 of their number.
///
/// # Errors
///
/// The first violation, a failure of the space, whose count of faults then rose, or out of memory.
pub fn read_counts<S: Space, L: Ledger>(
    alloc: Global,
    space: &mut S,
    shape: &SlubShape,
    slab: &View<'_>,
    steps: &mut Steps<L>,
) -> Result<SlabCounted, WalkStop>
    ensures exact { WalksAs (λ n. n) (λ i. counted i shape.now slab.now.at) (S.image space.old) result }
    ensures stays { SpaceStays S.image S.files S.through S.most space.old space.new }
    ensures cause { CountsWalkFaults result (S.faults space.old) (S.faults space.new) }
{
    let asked = looked_at(slab.at());
    let objects = read_field(alloc, space, &asked, slab, &shape.objects, steps)?;
    let inuse = read_field(alloc, space, &asked, slab, &shape.inuse, steps)?;
    let frozen = read_field(alloc, space, &asked, slab, &shape.frozen, steps)?.value();
    if objects.value() == 0 || objects.value() < inuse.value() {
        return Err(broken_field(alloc, &asked, Rule::U3, objects.at, &objects.number, None));
    }
    Ok(SlabCounted {
        objects: objects.value(),
        inuse,
        frozen: frozen != 0,
    })
}

/// The objects of a slab's own free list, in its order.
///
/// # Errors
///
/// The first violation, a failure of the space, whose count of faults then rose, or out of memory.
pub fn read_list<S: Space, L: Ledger>(
    alloc: Global,
    space: &mut S,
    shape: &SlubShape,
    grid: &Grid,
    slab: &View<'_>,
    steps: &mut Steps<L>,
) -> Result<Walked, WalkStop>
    requires { IsGrid grid.now }
    ensures exact { WalksAs (λ os. os) (λ i. own_list i shape.now grid.now slab.now.at) (S.image space.old) result }
    ensures stays { SpaceStays S.image S.files S.through S.most space.old space.new }
    ensures cause { CountsWalkFaults result (S.faults space.old) (S.faults space.new) }
{
    let asked = looked_at(slab.at());
    let first = read_field(alloc, space, &asked, slab, &shape.freelist, steps)?.number;
    free_walk(alloc, space, grid, first, asked.audit, asked.start, steps)
}

// The free objects of a slab with these counts; rule U6 of their number.
fn read_free<S: Space, L: Ledger>(
    alloc: Global,
    space: &mut S,
    shape: &SlubShape,
    grid: &Grid,
    slab: &View<'_>,
    counts: &SlabCounted,
    steps: &mut Steps<L>,
) -> Result<SlabFree, WalkStop>
    requires { IsGrid grid.now }
    ensures exact { WalksAs (λ f. f) (λ i. free_of i shape.now grid.now slab.now.at counts.now) (S.image space.old) result }
    ensures stays { SpaceStays S.image S.files S.through S.most space.old space.new }
    ensures cause { CountsWalkFaults result (S.faults space.old) (S.faults space.new) }
{
    let free = read_list(alloc, space, shape, grid, slab, steps)?.len() as u64;
    let wanted = counts.objects.saturating_sub(counts.inuse.value());
    if free != wanted {
        let inuse = &counts.inuse;
        let asked = looked_at(slab.at());
        return Err(broken_field(
            alloc,
            &asked,
            Rule::U6,
            inuse.at,
            &inuse.number,
            Some(wanted),
        ));
    }
    Ok(SlabFree {
        objects: counts.objects,
        free,
        frozen: counts.frozen,
        guarded: false,
    })
}

// A slab of a cache whose objects lie so, by its descriptor: rule U4 of the descriptor, then U3, U5, A and U6.
pub(crate) fn read_slab<S: Space, L: Ledger>(
    alloc: Global,
    space: &mut S,
    shape: &SlubShape,
    bases: &SlubBases,
    objects: &SlabObjects,
    slab: &NamedPage<'_>,
    steps: &mut Steps<L>,
) -> Result<SlabFree, WalkStop>
    requires { IsTrue (is_laid objects.now) }
    ensures exact { WalksAs (λ f. f) (λ i. slab_free i shape.now bases.now objects.now slab.now.view.now.at slab.now.cache.now) (S.image space.old) result }
    ensures stays { SpaceStays S.image S.files S.through S.most space.old space.new }
    ensures cause { CountsWalkFaults result (S.faults space.old) (S.faults space.new) }
{
    let view = slab.view;
    if !is_descriptor(shape, bases, view.at()) {
        let asked = looked_at(view.at());
        return Err(broken_field(alloc, &asked, Rule::U4, view.at(), &slab.cache.number, None));
    }
    let counts = read_counts(alloc, space, shape, view, steps)?;
    let grid = grid_of(shape, bases, objects, view.at(), counts.objects);
    read_free(alloc, space, shape, &grid, view, &counts, steps)
}
