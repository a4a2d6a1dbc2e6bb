// What a plan comes to on a dump, as an answer.
ghost use Rattle.std.specs.Prelude.{◌≡◌, length, map};
ghost use Rattle.kc_outside.specs.declared.store.Slot.TheVariants.{Dump};
ghost use Rattle.kc_outside.specs.Files.{content};
ghost use Rattle.kc_phys.specs.Stored.{AreInside};
ghost use Rattle.kc_plan.specs.Inside.{AreInside as TypesAreInside};
ghost use Rattle.kc_plan.specs.Roots.{root_verdicts};
ghost use Rattle.kc_plan.specs.Verdicts.{verdict, verdict_places};
ghost use Rattle.kc_plan.specs.Views.{plan_seen};
ghost use Rattle.kc_report.specs.Copies.{AreOfPlan, IsOfPlan};
ghost use Rattle.kc_command.specs.Halts.{NotRefused};
ghost use Rattle.kc_command.specs.Made.{gives};
ghost use Rattle.kc_command.specs.Paging.{IsTable};
ghost use Rattle.kc_command.specs.Ends.Answers.{PrintsOfBytes};
ghost use Rattle.kc_audit.specs.Audits.{names_of};
ghost use Rattle.kc_app.specs.Answer.{Writes, WritesRoots};
ghost use Rattle.kc_app.specs.Check.{audited_shown, root_seen, roots_shown, verdict_said, verdict_shown};
ghost use Rattle.kc_app.specs.Held.{audited_of};
ghost use Rattle.kc_app.specs.Shown.{shown_written};
ghost use Rattle.kc_app.specs.Reads.{ReadsFiles};

use crate::held::{HeldFiles, ask_held};
use kc_audit::{EachRoot, PlanOf, WholePlan, is_broken, names_of};
use kc_command::{Answer, Halt};
use kc_found::{ReadFailed, Verdict, Verdicts};
use kc_outside::Store;
use kc_report::{PlanNames, report_each, report_of, text};
use std::alloc::Global;

/// The answer of a plan on a dump that was read: of version 2 with a verdict on each root audit, else with one on all audits.
pub fn judge<S: Store>(alloc: Global, store: &mut S, held: &HeldFiles) -> Result<Answer, Halt>
    requires table { IsTable held.now.info.table }
    requires types { TypesAreInside (length held.now.types.records) held.now.plan.audits }
    requires inside { AreInside (S.sizes store.old Dump) held.now.core.segments }

    ensures output { PrintsOfBytes shown_written (λ bytes. gives (audited_shown (audited_of held.now bytes)))
        (content (S.files store.old) Dump (S.opened store.old Dump)) result }
    ensures not_refused { NotRefused result }
    ensures reads { ReadsFiles S.files S.faults result store.old store.new }
{
    let plan = &held.plan;
    let names = names_of(alloc, plan)?;
    if plan.version == 2 {
        judge_each(alloc, store, held, &names)
    } else {
        judge_all(alloc, store, held, &names)
    }
}

// The answer of a plan with one verdict on all its audits.
fn judge_all<S: Store>(
    alloc: Global,
    store: &mut S,
    held: &HeldFiles,
    names: &PlanNames,
) -> Result<Answer, Halt>
    requires table { IsTable held.now.info.table }
    requires types { TypesAreInside (length held.now.types.records) held.now.plan.audits }
    requires inside { AreInside (S.sizes store.old Dump) held.now.core.segments }
    requires names { names.now ≡ names_of (plan_seen held.now.plan) }

    ensures output { PrintsOfBytes shown_written
        (λ bytes. let all = audited_of held.now bytes in
        gives (verdict_shown all.image (names_of all.audits) (verdict all.image all.audits)))
        (content (S.files store.old) Dump (S.opened store.old Dump)) result }
    ensures not_refused { NotRefused result }
    ensures reads { ReadsFiles S.files S.faults result store.old store.new }
{
    let over = PlanOf {
        alloc,
        plan: &held.plan,
        types: &held.types,
    };
    let found = ask_held(alloc, store, held, &WholePlan(over))?;
    match found {
        Ok(verdict) => answer(alloc, names, &verdict),
        Err(ReadFailed::Fault) => Err(Halt::Store),
        Err(ReadFailed::NoMemory) => Err(Halt::Memory),
    }
}

// The answer of a plan with one verdict on each root audit.
fn judge_each<S: Store>(
    alloc: Global,
    store: &mut S,
    held: &HeldFiles,
    names: &PlanNames,
) -> Result<Answer, Halt>
    requires table { IsTable held.now.info.table }
    requires types { TypesAreInside (length held.now.types.records) held.now.plan.audits }
    requires inside { AreInside (S.sizes store.old Dump) held.now.core.segments }
    requires names { names.now ≡ names_of (plan_seen held.now.plan) }

    ensures output { PrintsOfBytes shown_written
        (λ bytes. let all = audited_of held.now bytes in
        gives (roots_shown all.image (names_of all.audits) (root_verdicts all.image all.audits)))
        (content (S.files store.old) Dump (S.opened store.old Dump)) result }
    ensures not_refused { NotRefused result }
    ensures reads { ReadsFiles S.files S.faults result store.old store.new }
{
    let over = PlanOf {
        alloc,
        plan: &held.plan,
        types: &held.types,
    };
    let found = ask_held(alloc, store, held, &EachRoot(over))?;
    match found {
        Ok(verdicts) => answer_each(alloc, names, &verdicts),
        Err(ReadFailed::Fault) => Err(Halt::Store),
        Err(ReadFailed::NoMemory) => Err(Halt::Memory),
    }
}

/// The answer on a verdict.
pub fn answer(alloc: Global, names: &PlanNames, verdict: &Verdict) -> Result<Answer, Halt>
    requires { IsOfPlan names.now verdict.now }
    ensures output { Writes (verdict_said names.now verdict.now) (verdict_places verdict.now) result }
    ensures not_refused { NotRefused result }
{
    let report = report_of(alloc, names, verdict)?;
    let text = text(alloc, &report)?;
    match verdict {
        Verdict::Clean(_) => Ok(Answer::Done(text)),
        Verdict::Broken(_) => Ok(Answer::Broken(text)),
    }
}

// The answer on the verdicts on root audits.
fn answer_each(alloc: Global, names: &PlanNames, verdicts: &Verdicts) -> Result<Answer, Halt>
    requires { AreOfPlan names.now verdicts.now }
    ensures output { WritesRoots (map (root_seen names.now) verdicts.now) result }
    ensures not_refused { NotRefused result }
{
    let report = report_each(alloc, names, verdicts)?;
    let text = text(alloc, &report)?;
    if is_broken(verdicts) {
        Ok(Answer::Broken(text))
    } else {
        Ok(Answer::Done(text))
    }
}
