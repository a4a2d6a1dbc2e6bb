// What a plan comes to on a dump.
ghost use Rattle.std.specs.Prelude.{◌≡◌, length, IfOk, IfSome};
ghost use Rattle.kc_mem.specs.Paged.{with_paging};
ghost use Rattle.kc_plan.specs.Inside.{AreInside as TypesAreInside};
ghost use Rattle.kc_plan.specs.Verdicts.{FitsPlan};
ghost use Rattle.kc_plan.specs.Views.{plan_seen};
ghost use Rattle.kc_report.specs.IsReport.{report_text};
ghost use Rattle.kc_repair.specs.Suspect.Answers.{OnlyReads, OnlyReadsFrames};
ghost use Rattle.kc_cause.specs.Judged.{AreOfPlan, FitsJudged, FitsTogether, JudgesAs, report_of_judged, whole_verdict};
ghost use Rattle.kc_found.specs.Failures.{CountsFailures};

use kc_btf::Btf;
use kc_found::{ReadFailed, Space, Verdict, Verdicts};
use kc_memory::Frames;
use kc_plan::Plan;
use kc_question::{Question, Returned, ask_over};
use kc_report::{PlanNames, report_each, report_of, text};
use kc_run::{run, run_each};
use kc_slab_page::FrameRun;
use kc_slabs::SlabShapes;
use kc_told::Shapes;
use kc_word::{NoMemory, PageCfg, Steps};
use std::alloc::Global;
use std::sync::ledger::Ledger;

/// The verdicts of a plan on a dump.
#[derive(Drop)]
pub struct Judged {
    /// With version 1 the one on all audits.
    pub whole: Option<Verdict>,
    /// The one on each root audit.
    pub roots: Verdicts,
}

/// A plan over the types that it was read with.
#[derive(Clone, Copy)]
pub(crate) struct PlanOf<'p> {
    /// What its audits take memory of.
    pub alloc: Global,
    /// The plan.
    pub plan: &'p Plan,
    /// The types.
    pub types: &'p Btf,
    /// What tells of an address.
    pub shapes: Shapes<'p>,
    /// What tells of slabs, where the kernel has it.
    pub slabs: Option<SlabShapes>,
    /// The page frames of the dump, as runs.
    pub runs: &'p [FrameRun],
    /// The page tables of the dump.
    pub paging: PageCfg,
}

// The verdict on all audits, where the plan asks for one.
fn judge_whole<M: Space, L: Ledger>(
    over: &PlanOf<'_>,
    memory: &mut M,
    steps: &mut Steps<L>,
) -> Result<Option<Verdict>, ReadFailed>
    requires { TypesAreInside (length over.now.types.now.records) over.now.plan.now.audits }
    ensures says { IfSome (M.image memory.old) (λ image. IfOk result (λ found. whole_verdict image over.now.plan.now ≡ found)) }
    ensures fits { IfOk result (λ found. IfSome found (FitsPlan (length over.now.plan.now.audits))) }
    ensures reads { OnlyReads M.image M.files M.through M.most M.faults result memory.old memory.new }
{
    if over.plan.version == 2 {
        return Ok(None);
    }
    let verdict = run(over.alloc, over.plan, over.types, memory, steps)?;
    Ok(Some(verdict))
}

// The question what a plan comes to.
#[derive(Clone, Copy)]
struct Judging<'q> {
    over: &'q PlanOf<'q>,
}

impl<'q> Question for Judging<'q> {
    type Answer = Result<Judged, ReadFailed>;

    ghost may = { λ of. TypesAreInside (length of.over.now.types.now.records) of.over.now.plan.now.audits };

    ghost says = { λ of image answer. IfOk answer (JudgesAs image of.over.now.plan.now) };

    ghost leaves = { λ of answer before after.
        IfOk answer (FitsJudged (length of.over.now.plan.now.audits) (plan_seen of.over.now.plan.now)) × CountsFailures answer before after };

    fn ask<M: Space, L: Ledger>(
        &self,
        memory: &mut M,
        steps: &mut Steps<L>,
    ) -> Result<Judged, ReadFailed> {
        let over = self.over;
        let whole = judge_whole(over, memory, steps)?;
        let roots = run_each(over.alloc, over.plan, over.types, memory, steps)?;
        Ok(Judged { whole, roots })
    }
}

/// What a plan comes to over the physical memory of a dump, with these page tables.
///
/// # Errors
///
/// A failed call of the store; no memory was left.
pub(crate) fn judge_over<F: Frames>(
    memory: F,
    over: &PlanOf<'_>,
) -> Returned<F, Result<Judged, ReadFailed>>
    requires over { FitsTogether over.now }

    ensures says { IfSome (with_paging over.now.paging (F.image memory))
        (λ image. IfOk result.answer (JudgesAs image over.now.plan.now)) }
    ensures fits { IfOk result.answer (FitsJudged (length over.now.plan.now.audits) (plan_seen over.now.plan.now)) }
    ensures reads { OnlyReadsFrames F.image F.files F.through F.faults result.answer memory result.memory }
{
    let question = Judging { over };
    let Returned { memory, answer } = ask_over(over.alloc, memory, over.paging, &question);
    Returned {
        memory,
        answer: answer.unwrap_or(Err(ReadFailed::NoMemory)),
    }
}

// The text of the report of what was judged.
pub(crate) fn report_text(
    alloc: Global,
    names: &PlanNames,
    judged: &Judged,
) -> Result<Vec<u8>, NoMemory>
    requires { AreOfPlan names.now judged.now }
    ensures { IfOk result (λ text. text.items ≡ report_text (report_of_judged names.now judged.now)) }
{
    let report = match &judged.whole {
        Some(verdict) => report_of(alloc, names, verdict)?,
        None => report_each(alloc, names, &judged.roots)?,
    };
    text(alloc, &report)
}
