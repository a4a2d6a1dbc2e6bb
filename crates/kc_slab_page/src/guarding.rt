// The bytes that slub_debug keeps at the objects of a slab.
ghost use Rattle.std.specs.Prelude.{◌≡◌, IsTrue, Ok};
ghost use Rattle.kc_memory.specs.Stays.{SpaceStays};
ghost use Rattle.kc_found.specs.FreeLists.{IsGrid};
ghost use Rattle.kc_found.specs.Walks.{CountsWalkFaults, OnBroken, WalksAs};
ghost use Rattle.kc_slab_page.specs.Slabs.{is_laid};
ghost use Rattle.kc_slab_page.specs.Guarding.{guarded_by, guards_checked, is_guarded, with_guards};

use crate::slab::{SlabFree, read_list};
use kc_found::{Found, Grid, Space, WalkStop};
use kc_guard::{GuardRuns, Spoiled, check_objects};
use kc_owner::looked_at;
use kc_slub::grid_of;
use kc_view::{SlabObjects, SlubBases, SlubShape, View};
use kc_word::Steps;
use std::alloc::Global;
use std::sync::ledger::Ledger;

/// How many bytes a slab has, at most: the kernel's largest block of pages (MAX_PAGE_ORDER).
const MOST: u128 = 1 << 22;

/// What a slab breaks.
#[derive(Drop)]
pub enum SlabFault {
    /// Its words break a rule.
    Words(Found),
    /// A byte that slub_debug keeps at an object is another one.
    Bytes(Spoiled),
}

/// What a slab is.
#[derive(Drop)]
pub enum SlabState {
    /// Its counts are whole, and so is its own free list, which has as many objects as aren't in use.
    Whole(SlabFree),
    /// It breaks a rule, which is the first one.
    Broken(SlabFault),
    /// It can't be told how the objects of its cache lie.
    Untold,
}

// The bytes at a slab's objects are looked at: its cache keeps some, it isn't frozen, and it isn't larger than the kernel makes one.
fn is_guarded(runs: &GuardRuns, objects: &SlabObjects, free: SlabFree) -> bool
    ensures { result ≡ is_guarded runs.now objects.now free }
{
    runs.len() != 0 && !free.frozen && u128::from(objects.size) * u128::from(free.objects) <= MOST
}

// The first byte at the objects of a slab that isn't as its cache keeps it.
fn check_guards<S: Space, L: Ledger>(
    alloc: Global,
    space: &mut S,
    shape: &SlubShape,
    grid: &Grid,
    slab: &View<'_>,
    runs: &GuardRuns,
    steps: &mut Steps<L>,
) -> Result<Option<Spoiled>, WalkStop>
    requires { IsGrid grid.now }
    ensures exact { WalksAs (λ s. s) (λ i. guards_checked i shape.now grid.now slab.now.at runs.now) (S.image space.old) result }
    ensures stays { SpaceStays S.image S.files S.through S.most space.old space.new }
    ensures cause { CountsWalkFaults result (S.faults space.old) (S.faults space.new) }
{
    let free = read_list(alloc, space, shape, grid, slab, steps)?;
    check_objects(
        alloc,
        space,
        &looked_at(slab.at()),
        runs,
        grid,
        &free,
        steps,
    )
}

// What a slab is whose list is whole, by the bytes at its objects.
fn guarded_by<S: Space, L: Ledger>(
    alloc: Global,
    space: &mut S,
    shape: &SlubShape,
    grid: &Grid,
    slab: &View<'_>,
    guards: &Guards<'_>,
    steps: &mut Steps<L>,
) -> Result<SlabState, WalkStop>
    requires { IsGrid grid.now }
    ensures exact { WalksAs (λ s. s)
        (λ i. Ok (guarded_by guards.now.free (guards_checked i shape.now grid.now slab.now.at guards.now.laid.now.runs.now))) (S.image space.old) result }
    ensures broken { OnBroken result ⊥ }
    ensures stays { SpaceStays S.image S.files S.through S.most space.old space.new }
    ensures cause { CountsWalkFaults result (S.faults space.old) (S.faults space.new) }
{
    match check_guards(alloc, space, shape, grid, slab, guards.laid.runs, steps) {
        Ok(None) => Ok(SlabState::Whole(SlabFree {
            guarded: true,
            ..guards.free
        })),
        Ok(Some(spoiled)) => Ok(SlabState::Broken(SlabFault::Bytes(spoiled))),
        Err(WalkStop::Broken(found)) => Ok(SlabState::Broken(SlabFault::Words(found))),
        Err(WalkStop::Fault) => Err(WalkStop::Fault),
        Err(WalkStop::NoMemory) => Err(WalkStop::NoMemory),
    }
}

// How the objects of a cache lie, and the bytes that it keeps at each.
#[derive(Clone, Copy)]
pub(crate) struct Laid<'o> {
    pub(crate) objects: &'o SlabObjects,
    pub(crate) runs: &'o GuardRuns,
}

// A slab whose list is whole, of such a cache.
#[derive(Clone, Copy)]
pub(crate) struct Guards<'g> {
    pub(crate) free: SlabFree,
    pub(crate) laid: &'g Laid<'g>,
}

// What a slab is whose list is whole, also by the bytes at its objects where they are looked at.
pub(crate) fn with_guards<S: Space, L: Ledger>(
    alloc: Global,
    space: &mut S,
    shape: &SlubShape,
    bases: &SlubBases,
    slab: &View<'_>,
    guards: &Guards<'_>,
    steps: &mut Steps<L>,
) -> Result<SlabState, WalkStop>
    requires { IsTrue (is_laid guards.now.laid.now.objects.now) }
    ensures exact { WalksAs (λ s. s)
        (λ i. Ok (with_guards i shape.now bases.now slab.now.at guards.now.laid.now.objects.now guards.now.laid.now.runs.now guards.now.free))
        (S.image space.old) result }
    ensures broken { OnBroken result ⊥ }
    ensures stays { SpaceStays S.image S.files S.through S.most space.old space.new }
    ensures cause { CountsWalkFaults result (S.faults space.old) (S.faults space.new) }
{
    let Laid { objects, runs } = *guards.laid;
    if !is_guarded(runs, objects, guards.free) {
        return Ok(SlabState::Whole(guards.free));
    }
    let grid = grid_of(shape, bases, objects, slab.at(), guards.free.objects);
    guarded_by(alloc, space, shape, &grid, slab, guards, steps)
}
