// Where page descriptors and physical memory begin.
ghost use Rattle.std.specs.Prelude.{◌≡◌, ◌+◌, ◌≤◌};
ghost use Rattle.kc_memory.specs.Stays.{SpaceStays};
ghost use Rattle.kc_found.specs.Walks.{CountsWalkFaults, WalksAs};
ghost use Rattle.kc_owner.specs.Object.Pages.{bases_at};

use kc_found::{Asked, Space, WalkStop};
use kc_slub::read_base;
use kc_view::{SlubBases, SlubShape};
use kc_word::Steps;
use std::alloc::Global;
use std::sync::ledger::Ledger;

// Where page descriptors and physical memory begin.
pub(crate) fn read_bases<S: Space, L: Ledger>(
    alloc: Global,
    space: &mut S,
    asked: &Asked,
    shape: &SlubShape,
    steps: &mut Steps<L>,
) -> Result<SlubBases, WalkStop>
    ensures exact { WalksAs (λ b. b) (λ i. bases_at i asked.now shape.now) (S.image space.old) result }
    ensures steps { steps.new ≤ steps.old + 12 }
    ensures stays { SpaceStays S.image S.files S.through S.most space.old space.new }
    ensures cause { CountsWalkFaults result (S.faults space.old) (S.faults space.new) }
{
    let vmemmap = read_base(alloc, space, asked, shape.vmemmap, steps)?;
    let direct = read_base(alloc, space, asked, shape.direct, steps)?;
    Ok(SlubBases {
        vmemmap,
        direct,
        nodes: 0,
    })
}
