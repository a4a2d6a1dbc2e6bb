// The bytes that a cache keeps at each object of a slab.
ghost use Rattle.std.specs.Prelude.{◌≡◌};
ghost use Rattle.kc_memory.specs.Stays.{SpaceStays};
ghost use Rattle.kc_found.specs.Walks.{CountsWalkFaults, WalksAs};
ghost use Rattle.kc_guard.specs.Objects.{looked_up, object_at, objects_checked, objects_from};

use crate::free::{FreeObjects, free_objects};
use crate::guards::GuardRuns;
use crate::object::{Spoiled, check_object};
use kc_found::{Asked, Grid, Space, WalkStop, Walked};
use kc_word::Steps;
use std::alloc::Global;
use std::sync::ledger::Ledger;

// The address of an object.
fn object_at(grid: &Grid, number: u64) -> u64
    ensures { result ≡ object_at grid.now number }
{
    grid.base.wrapping_add(grid.size.wrapping_mul(number))
}

// The first wrong byte at the objects of a slab, of which these are free.
fn check_each<S: Space, L: Ledger>(
    alloc: Global,
    space: &mut S,
    asked: &Asked,
    runs: &GuardRuns,
    grid: Grid,
    free: &FreeObjects,
    steps: &mut Steps<L>,
) -> Result<Option<Spoiled>, WalkStop>
    ensures exact { WalksAs (λ s. s) (λ i. objects_from i asked.now runs.now grid (looked_up free.now) grid.objects 0) (S.image space.old) result }
    ensures stays { SpaceStays S.image S.files S.through S.most space.old space.new }
    ensures cause { CountsWalkFaults result (S.faults space.old) (S.faults space.new) }
{
    let mut number = 0;
    while number < grid.objects {
        let object = object_at(&grid, number);
        match check_object(alloc, space, asked, runs, free.has(object), object, steps) {
            Ok(None) => {}
            Ok(Some(spoiled)) => return Ok(Some(spoiled)),
            Err(stop) => return Err(stop),
        }
        number += 1;
    }
    Ok(None)
}

/// The first byte at the objects of a slab that isn't as its cache keeps it, object by object, where these objects are free and the others in use.
///
/// # Errors
///
/// The violation by a byte that can't be read; a failure of the space, whose count of faults then rose; or out of memory.
pub fn check_objects<S: Space, L: Ledger>(
    alloc: Global,
    space: &mut S,
    asked: &Asked,
    runs: &GuardRuns,
    grid: &Grid,
    free: &Walked,
    steps: &mut Steps<L>,
) -> Result<Option<Spoiled>, WalkStop>
    ensures exact { WalksAs (λ s. s) (λ i. objects_checked i asked.now runs.now grid.now free.now) (S.image space.old) result }
    ensures stays { SpaceStays S.image S.files S.through S.most space.old space.new }
    ensures cause { CountsWalkFaults result (S.faults space.old) (S.faults space.new) }
{
    let free = free_objects(alloc, free)?;
    check_each(alloc, space, asked, runs, *grid, &free, steps)
}
