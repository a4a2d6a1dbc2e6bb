// Free lists by their objects.
ghost use Rattle.std.specs.Prelude.{◌≡◌, ◌+◌, ◌*◌, ◌≤◌, length};
ghost use Rattle.kc_memory.specs.Stays.{SpaceStays};
ghost use Rattle.kc_found.specs.FreeLists.{IsGrid};
ghost use Rattle.kc_found.specs.Tests.{CountsTestFaults, TellsAs};
ghost use Rattle.kc_by_lists.specs.Tests.{is_free_list};

use kc_found::{
    Asked, Claims, FreeLed, Grid, Scalar, Space, TestStop, WalkStop, Walked, know_most, low_word,
};
use kc_slub::{enter_object, free_next, know_free_lists};
use kc_word::Steps;
use std::alloc::Global;
use std::sync::ledger::Ledger;

/// Tests whether these are the free objects of a slab, in the order of its free list, whose first pointer is the number `first`,
/// plain. It reads the free pointer of each, which stands in two words at most.
///
/// # Errors
///
/// `Unfit` exactly where they aren't, a failure of the space, or out of memory.
pub fn test_free_list<S: Space, L: Ledger>(
    alloc: Global,
    space: &mut S,
    grid: &Grid,
    first: Scalar,
    objects: &Walked,
    steps: &mut Steps<L>,
) -> Result<(), TestStop>
    requires { IsGrid grid.now }
    ensures test { TellsAs (λ i. is_free_list i grid.now first objects.now) (S.image space.old) result }
    ensures steps { steps.new ≤ steps.old + 12 * length objects.now }

    ensures stays { SpaceStays S.image S.files S.through S.most space.old space.new }
    ensures cause { CountsTestFaults result (S.faults space.old) (S.faults space.new) }
{
    know_free_lists();
    let asked = Asked { audit: 0, start: 0 };
    let mut claims = Claims::new(alloc);
    let mut led = FreeLed {
        to: low_word(&first),
        by: first,
        is_first: true,
    };
    for i in 0..objects.len() {
        if led.to == 0 {
            return Err(TestStop::Unfit);
        }
        if *objects.get(i) != led.to {
            return Err(TestStop::Unfit);
        }
        know_most(space);
        let number = match enter_object(alloc, space, grid, &asked, &mut claims, &led, steps) {
            Ok(number) => number,
            Err(WalkStop::Broken(_)) => return Err(TestStop::Unfit),
            Err(WalkStop::Fault) => return Err(TestStop::Fault),
            Err(WalkStop::NoMemory) => return Err(TestStop::NoMemory),
        };
        led = free_next(grid, &led, number);
    }
    if led.to == 0 {
        Ok(())
    } else {
        Err(TestStop::Unfit)
    }
}
