// What is suspected of a violation.
ghost use Rattle.std.specs.Prelude.{◌≡◌, IfOk, IfSome};
ghost use Rattle.kc_memory.specs.Stays.{SpaceStays};
ghost use Rattle.kc_repair.specs.Suspect.Suspects.{suspects};
ghost use Rattle.kc_found.specs.Failures.{CountsFailures};

use crate::suspect::made::make_all;
use crate::suspect::rules::changes_of;
use crate::suspect::suspect::Suspects;
use kc_found::{Found, ReadFailed, Space};
use kc_kinds::Kind;
use kc_word::Steps;
use std::alloc::Global;
use std::sync::ledger::Ledger;

/// The words that are suspected of a violation, which an audit of this kind found, each with a number that may have stood there, in the order
/// in which they are to be tried. Words that can't be read or whose bytes the file leaves out aren't among them.
///
/// # Errors
///
/// A failure of the space, whose count of faults then rose, or out of memory.
#[tactic(auto, unfolding(crate::specs::Suspect::Suspects::suspects))]
pub fn suspects<S: Space, L: Ledger>(
    alloc: Global,
    kind: &Kind,
    found: &Found,
    space: &mut S,
    steps: &mut Steps<L>,
) -> Result<Suspects, ReadFailed>
    ensures exact { IfOk result (λ suspected. IfSome (S.image space.old) (λ image. suspected ≡ suspects image kind.now found.now)) }
    ensures stays { SpaceStays S.image S.files S.through S.most space.old space.new }
    ensures cause { CountsFailures result (S.faults space.old) (S.faults space.new) }
{
    let changes = changes_of(alloc, kind, found, space, steps)?;
    make_all(alloc, &changes, space, steps)
}
