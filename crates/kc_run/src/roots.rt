// All audits of a plan.
ghost use Rattle.std.specs.Prelude.{◌≡◌, ◌↔◌, length, IfOk, IfSome};
ghost use Rattle.kc_memory.specs.Stays.{SpaceStays};
ghost use Rattle.kc_plan.specs.Inside.{AreInside};
ghost use Rattle.kc_plan.specs.Stands.{PlanStands};
ghost use Rattle.kc_plan.specs.Verdicts.{FitsPlan, IsClean, verdict};
ghost use Rattle.kc_plan.specs.Views.{plan_seen};
ghost use Rattle.kc_found.specs.Failures.{CountsFailures};

use crate::counts::{RunCounts, no_walks};
use crate::laws::know_verdicts;
use crate::nest::enter_roots;
use crate::recorder::Known;
use kc_btf::Btf;
use kc_found::{ReadFailed, Space, Verdict, WalkStop};
use kc_plan::Plan;
use kc_word::{NoMemory, Steps};
use std::alloc::Global;
use std::sync::ledger::Ledger;

/// The verdict on a plan over the types that it was read with: the first violation, or where there is none how often
/// each audit walked, and how many elements it met.
///
/// Root audits are made in the order of the plan. An audit is walked whole first, from where its path leads; then, element
/// by element, its checks are looked at in their order, and after them the audits that it names are made there. Where a
/// path stops, or has a null pointer and the audit isn't optional, the violation names the audit and the address from which
/// the path was followed; that of a check names the audit and where its walk started. A count stays at 2^64 - 1 once it is
/// there.
///
/// # Errors
///
/// A failure of the space, whose count of faults then rose, or out of memory.
pub fn run<S: Space, L: Ledger>(
    alloc: Global,
    plan: &Plan,
    btf: &Btf,
    space: &mut S,
    steps: &mut Steps<L>,
) -> Result<Verdict, ReadFailed>
    requires { AreInside (length btf.now.records) plan.now.audits }

    ensures exact { IfOk result (λ found. IfSome (S.image space.old) (λ image. verdict image (plan_seen plan.now) ≡ found)) }
    // A verdict on a dump that is told is clean exactly where every root audit stands. Where reading failed, or no memory was
    // left, there is no verdict, and whether they stand isn't said.
    ensures stands { IfOk result (λ found. IfSome (S.image space.old)
        (λ image. IsClean found ↔ PlanStands image (plan_seen plan.now))) }
    ensures fits { IfOk result (FitsPlan (length plan.now.audits)) }

    ensures stays { SpaceStays S.image S.files S.through S.most space.old space.new }
    ensures cause { CountsFailures result (S.faults space.old) (S.faults space.new) }
{
    know_verdicts();
    let known = Known { alloc, plan, btf };
    let counts = match no_walks(alloc, plan) {
        Ok(counts) => counts,
        Err(NoMemory) => return Err(ReadFailed::NoMemory),
    };
    let mut counting = RunCounts { counts };
    match enter_roots(&known, space, &mut counting, steps) {
        Ok(()) => Ok(Verdict::Clean(counting.counts)),
        Err(WalkStop::Broken(found)) => Ok(Verdict::Broken(found)),
        Err(WalkStop::Fault) => Err(ReadFailed::Fault),
        Err(WalkStop::NoMemory) => Err(ReadFailed::NoMemory),
    }
}
