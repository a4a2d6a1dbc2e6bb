// The verdicts of a plan, as questions to the memory of a dump.
ghost use Rattle.std.specs.Prelude.{◌≡◌, is_some, length, IfOk};
ghost use Rattle.std.specs.List.{list_any};
ghost use Rattle.kc_found.specs.declared.verdict.RootVerdict.{RootVerdict as RootFound};
ghost use Rattle.kc_found.specs.Failures.{CountsFailures};
ghost use Rattle.kc_plan.specs.Inside.{AreInside as TypesAreInside};
ghost use Rattle.kc_plan.specs.Roots.{FitEach, broken_in, root_verdicts};
ghost use Rattle.kc_plan.specs.Verdicts.{FitsPlan, verdict};
ghost use Rattle.kc_plan.specs.Views.{plan_seen};

use kc_btf::Btf;
use kc_found::{ReadFailed, Space, Verdict, Verdicts};
use kc_plan::Plan;
use kc_question::Question;
use kc_run::{run, run_each};
use kc_word::Steps;
use std::alloc::Global;
use std::sync::ledger::Ledger;

/// Whether the verdict on a root audit is broken.
pub fn is_broken(verdicts: &Verdicts) -> bool
    ensures { result ≡ list_any (λ (v : RootFound). is_some (broken_in v.verdict)) verdicts.now }
{
    verdicts
        .as_slice()
        .iter()
        .any(|root| matches!(root.verdict, Verdict::Broken(_)))
}

/// A plan over the types that it was read with.
#[derive(Clone, Copy)]
pub struct PlanOf<'p> {
    /// What its audits take memory of.
    pub alloc: Global,
    /// The plan.
    pub plan: &'p Plan,
    /// The types.
    pub types: &'p Btf,
}

/// The question what a plan comes to: the verdict on all its audits.
#[derive(Drop)]
pub struct WholePlan<'p>(pub PlanOf<'p>);

impl<'p> Question for WholePlan<'p> {
    type Answer = Result<Verdict, ReadFailed>;

    ghost may = { λ of. TypesAreInside (length of.0.types.now.records) of.0.plan.now.audits };

    ghost says = { λ of image answer. IfOk answer (λ found. verdict image (plan_seen of.0.plan.now) ≡ found) };

    ghost leaves = { λ of answer before after.
        IfOk answer (FitsPlan (length of.0.plan.now.audits)) × CountsFailures answer before after };

    fn ask<M: Space, L: Ledger>(
        &self,
        memory: &mut M,
        steps: &mut Steps<L>,
    ) -> Result<Verdict, ReadFailed> {
        run(self.0.alloc, self.0.plan, self.0.types, memory, steps)
    }
}

/// The question what each root audit of a plan comes to.
#[derive(Drop)]
pub struct EachRoot<'p>(pub PlanOf<'p>);

impl<'p> Question for EachRoot<'p> {
    type Answer = Result<Verdicts, ReadFailed>;

    ghost may = { λ of. TypesAreInside (length of.0.types.now.records) of.0.plan.now.audits };

    ghost says = { λ of image answer. IfOk answer (λ found. root_verdicts image (plan_seen of.0.plan.now) ≡ found) };

    ghost leaves = { λ of answer before after.
        IfOk answer (FitEach (length of.0.plan.now.audits) (plan_seen of.0.plan.now)) × CountsFailures answer before after };

    fn ask<M: Space, L: Ledger>(
        &self,
        memory: &mut M,
        steps: &mut Steps<L>,
    ) -> Result<Verdicts, ReadFailed> {
        run_each(self.0.alloc, self.0.plan, self.0.types, memory, steps)
    }
}
