// Fields that a kernel may lack, and that may not be readable.
ghost use Rattle.std.specs.Prelude.{◌≡◌, ◌+◌, ◌≤◌, Ok};
ghost use Rattle.kc_memory.specs.Stays.{SpaceStays};
ghost use Rattle.kc_found.specs.Walks.{CountsWalkFaults, OnBroken, WalksAs};
ghost use Rattle.kc_owner.specs.Known.{known};

use crate::views::looked_at;
use kc_found::{Space, WalkStop};
use kc_layout::Field;
use kc_steps::read_field;
use kc_view::View;
use kc_word::Steps;
use std::alloc::Global;
use std::sync::ledger::Ledger;

/// The number of a field, where the kernel has it and it can be read.
///
/// # Errors
///
/// A failure of the space, whose count of faults then rose; or out of memory.
#[tactic(auto, using(crate::proofs::KnownLemmas::read_is, crate::proofs::KnownLemmas::missed_is))]
pub fn read_known<S: Space, L: Ledger>(
    alloc: Global,
    space: &mut S,
    view: &View<'_>,
    field: &Option<Field>,
    steps: &mut Steps<L>,
) -> Result<Option<u64>, WalkStop>
    ensures exact { WalksAs (λ n. n) (λ i. Ok (known i view.now.at field.now)) (S.image space.old) result }
    ensures broken { OnBroken result ⊥ }
    // Four pointers at most are followed, and each of them and the number stand in two words at most.
    ensures few { steps.new ≤ steps.old + 60 }
    ensures stays { SpaceStays S.image S.files S.through S.most space.old space.new }
    ensures cause { CountsWalkFaults result (S.faults space.old) (S.faults space.new) }
{
    let Some(field) = field else {
        return Ok(None);
    };
    match read_field(alloc, space, &looked_at(view.at()), view, field, steps) {
        Ok(number) => Ok(Some(number.value())),
        Err(WalkStop::Broken(_)) => Ok(None),
        Err(WalkStop::Fault) => Err(WalkStop::Fault),
        Err(WalkStop::NoMemory) => Err(WalkStop::NoMemory),
    }
}
