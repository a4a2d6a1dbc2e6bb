// Where in its slab's own free list an object stands.
ghost use Rattle.std.specs.Prelude.{◌≡◌, ◌+◌, ◌<◌, ◌^◌, nat_eq, IfSome, Ok};
ghost use Rattle.std.specs.List.{position};
ghost use Rattle.kc_memory.specs.Stays.{SpaceStays};
ghost use Rattle.kc_found.specs.FreeLists.{IsGrid};
ghost use Rattle.kc_found.specs.Walks.{CountsWalkFaults, WalksAs};
ghost use Rattle.kc_owner.specs.Object.Bounds.{WithinWalks};
ghost use Rattle.kc_owner.specs.Object.FreeSpots.{free_spot, place_of};

use crate::looked_at;
use crate::object::spot::Spot;
use kc_found::{Found, Grid, Space, WalkStop, Walked};
use kc_slub::free_walk;
use kc_steps::read_field;
use kc_view::{SlubShape, View};
use kc_word::Steps;
use std::alloc::Global;
use std::sync::ledger::Ledger;

/// Where in its slab's own free list an object stands.
#[derive(Clone, Copy, Debug, PartialEq, Eq)]
pub struct FreeSpot {
    /// How many objects the list has.
    pub length: u64,
    /// The object's place among them, counted from 1, or `None` where the object isn't among them, or there is no object.
    pub place: Option<u64>,
}

// Where an object stands among those of a free list, counted from 0.
fn position_of(objects: &Walked, first: u64) -> Option<usize>
    ensures exact { result ≡ position (λ at. nat_eq at first) objects.now }
    ensures fits { IfSome result (λ i. i + 1 < 2 ^ 64) }
{
    objects.as_slice().iter().position(|at| *at == first)
}

// The place of an object among those of a free list, counted from 1.
fn place_of(objects: &Walked, spot: &Spot) -> Option<u64>
    ensures { result ≡ place_of objects.now spot.now }
{
    match spot {
        Spot::Object(object) => match position_of(objects, object.first) {
            Some(i) => Some(i as u64 + 1),
            None => None,
        },
        Spot::Before | Spot::Pad(_) | Spot::Past => None,
    }
}

// How many objects a slab's free list has, and the place of the one where a byte lies.
fn read_free<S: Space, L: Ledger>(
    alloc: Global,
    space: &mut S,
    shape: &SlubShape,
    grid: &Grid,
    slab: &View<'_>,
    spot: &Spot,
    steps: &mut Steps<L>,
) -> Result<FreeSpot, WalkStop>
    requires { IsGrid grid.now }
    ensures exact { WalksAs (λ f. f) (λ i. free_spot i shape.now grid.now slab.now.at spot.now) (S.image space.old) result }
    ensures bound { WithinWalks (S.image space.old) (S.most space.old) 1 60 steps.old steps.new }
    ensures stays { SpaceStays S.image S.files S.through S.most space.old space.new }
    ensures cause { CountsWalkFaults result (S.faults space.old) (S.faults space.new) }
{
    let asked = looked_at(slab.at());
    let first = read_field(alloc, space, &asked, slab, &shape.freelist, steps)?.number;
    let objects = free_walk(alloc, space, grid, first, asked.audit, asked.start, steps)?;
    Ok(FreeSpot {
        length: objects.len() as u64,
        place: place_of(&objects, spot),
    })
}

// The same, or why the free list can't be told.
pub(crate) fn tell_free<S: Space, L: Ledger>(
    alloc: Global,
    space: &mut S,
    shape: &SlubShape,
    grid: &Grid,
    slab: &View<'_>,
    spot: &Spot,
    steps: &mut Steps<L>,
) -> Result<Result<FreeSpot, Found>, WalkStop>
    requires { IsGrid grid.now }
    ensures exact { WalksAs (λ f. f) (λ i. Ok (free_spot i shape.now grid.now slab.now.at spot.now)) (S.image space.old) result }
    ensures bound { WithinWalks (S.image space.old) (S.most space.old) 1 60 steps.old steps.new }
    ensures stays { SpaceStays S.image S.files S.through S.most space.old space.new }
    ensures cause { CountsWalkFaults result (S.faults space.old) (S.faults space.new) }
{
    match read_free(alloc, space, shape, grid, slab, spot, steps) {
        Ok(free) => Ok(Ok(free)),
        Err(WalkStop::Broken(found)) => Ok(Err(found)),
        Err(WalkStop::Fault) => Err(WalkStop::Fault),
        Err(WalkStop::NoMemory) => Err(WalkStop::NoMemory),
    }
}
