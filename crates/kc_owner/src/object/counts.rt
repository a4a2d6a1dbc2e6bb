// How many objects a slab has.
ghost use Rattle.std.specs.Prelude.{◌≡◌, ◌+◌, ◌≤◌};
ghost use Rattle.kc_memory.specs.Stays.{SpaceStays};
ghost use Rattle.kc_found.specs.Walks.{CountsWalkFaults, WalksAs};
ghost use Rattle.kc_owner.specs.Object.Slabs.{counts_of};

use kc_found::{Asked, Rule, Space, WalkStop, broken_field};
use kc_steps::read_field;
use kc_view::{SlubShape, View};
use kc_word::Steps;
use std::alloc::Global;
use std::sync::ledger::Ledger;

/// How many objects a slab has.
#[derive(Clone, Copy, Debug, PartialEq, Eq)]
pub struct SlabCounts {
    /// All of them, free or not. It isn't 0.
    pub objects: u64,
    /// Those that aren't free, or that a processor keeps for itself; at most `objects`.
    pub inuse: u64,
    /// Whether a processor owns the slab, and keeps its free objects in a list of its own.
    pub frozen: bool,
}

// How many objects a slab has and how many of them are in use, and whether a processor owns it.
pub(crate) fn read_counts<S: Space, L: Ledger>(
    alloc: Global,
    space: &mut S,
    asked: &Asked,
    shape: &SlubShape,
    slab: &View<'_>,
    steps: &mut Steps<L>,
) -> Result<SlabCounts, WalkStop>
    ensures exact { WalksAs (λ n. n) (λ i. counts_of i asked.now shape.now slab.now.at) (S.image space.old) result }
    ensures steps { steps.new ≤ steps.old + 180 }
    ensures stays { SpaceStays S.image S.files S.through S.most space.old space.new }
    ensures cause { CountsWalkFaults result (S.faults space.old) (S.faults space.new) }
{
    let objects = read_field(alloc, space, asked, slab, &shape.objects, steps)?;
    let inuse = read_field(alloc, space, asked, slab, &shape.inuse, steps)?.value();
    let frozen = read_field(alloc, space, asked, slab, &shape.frozen, steps)?.value();
    if objects.value() == 0 || objects.value() < inuse {
        return Err(broken_field(alloc, asked, Rule::U3, objects.at, &objects.number, None));
    }
    Ok(SlabCounts {
        objects: objects.value(),
        inuse,
        frozen: frozen != 0,
    })
}
