// The report of a verdict.
ghost use Rattle.std.specs.Prelude.{◌≡◌, ◌<◌, length, All, IfOk, IsTrue};
ghost use Rattle.kc_report.specs.Copies.{AreOfPlan, IsCounted, IsOfAudits, IsOfPlan, IsOfRoot, broken_report, counted, names_of, report_each, report_of, root_lines, root_result, told_stop};
ghost use Rattle.kc_report.specs.Report.{is_stop_at, stop_levels};

use crate::line::tells_stop;
use crate::names::PlanNames;
use crate::report::{BrokenText, CleanLine, CleanLines, Report, RootResult, RootText, RootTexts};
use kc_found::{Audits, Counts, Found, Items, RootVerdict, Verdict, Verdicts};
use kc_word::NoMemory;
use std::alloc::Global;

/// The report of a verdict on a plan with these names. It tells a stop for the rules M3 to M6 alone.
///
/// # Errors
///
/// Out of memory.
pub fn report_of(
    alloc: Global,
    plan_names: &PlanNames,
    verdict: &Verdict,
) -> Result<Report, NoMemory>
    requires { IsOfPlan plan_names.now verdict.now }
    ensures { IfOk result (λ report. report ≡ report_of plan_names.now verdict.now) }
{
    match verdict {
        Verdict::Clean(counts) => Ok(Report::Clean(counted(alloc, plan_names, counts)?)),
        Verdict::Broken(found) => Ok(Report::Broken(broken_report(alloc, plan_names, found)?)),
    }
}

/// The report of the verdicts on the root audits of a plan with these names, at most 256.
///
/// # Errors
///
/// Out of memory.
pub fn report_each(
    alloc: Global,
    plan_names: &PlanNames,
    verdicts: &Verdicts,
) -> Result<Report, NoMemory>
    requires { AreOfPlan plan_names.now verdicts.now }
    ensures { IfOk result (λ report. report ≡ report_each plan_names.now verdicts.now) }
{
    let mut roots = RootTexts::new(alloc);
    for i in 0..verdicts.len() {
        let root = root_text(alloc, plan_names, verdicts.get(i))?;
        roots.push(root)?;
    }
    Ok(Report::Each(roots))
}

// A root audit with what the audits under it came to.
fn root_text(
    alloc: Global,
    plan_names: &PlanNames,
    root: &RootVerdict,
) -> Result<RootText, NoMemory>
    requires { IsOfRoot plan_names.now root.now }
    ensures { IfOk result (λ text. text ≡ root_lines plan_names.now root.now) }
{
    let name = plan_names.get(root.root as usize).copied(alloc)?;
    let verdict = root_result(alloc, plan_names, &root.audits, &root.verdict)?;
    Ok(RootText { name, verdict })
}

// What these audits came to.
fn root_result(
    alloc: Global,
    plan_names: &PlanNames,
    audits: &Audits,
    verdict: &Verdict,
) -> Result<RootResult, NoMemory>
    requires audits { All (λ audit. audit < length plan_names.now) audits.now }
    requires verdict { IsOfAudits plan_names.now audits.now verdict.now }
    ensures { IfOk result (λ told. told ≡ root_result plan_names.now audits.now verdict.now) }
{
    match verdict {
        Verdict::Clean(counts) => {
            let names = names_of(alloc, plan_names, audits)?;
            Ok(RootResult::Clean(counted(alloc, &names, counts)?))
        }
        Verdict::Broken(found) => {
            Ok(RootResult::Broken(broken_report(alloc, plan_names, found)?))
        }
    }
}

// The names of these audits.
fn names_of(alloc: Global, plan_names: &PlanNames, audits: &Audits) -> Result<PlanNames, NoMemory>
    requires { All (λ audit. audit < length plan_names.now) audits.now }
    ensures { IfOk result (λ names. names ≡ names_of plan_names.now audits.now) }
{
    let mut names = PlanNames::new(alloc);
    for i in 0..audits.len() {
        names.push_copy(alloc, plan_names.get(*audits.get(i) as usize))?;
    }
    Ok(names)
}

// An audit with its counts.
fn counted_line(
    alloc: Global,
    plan_names: &PlanNames,
    counts: &Counts,
    i: usize,
) -> Result<CleanLine, NoMemory>
    requires name { i < length plan_names.now }
    requires count { i < length counts.now }
    ensures { IfOk result (λ line. IsCounted plan_names.now counts.now i line) }
{
    let name = plan_names.get(i).copied(alloc)?;
    let count = counts.get(i);
    Ok(CleanLine {
        name,
        walks: count.walks,
        elements: count.elements,
    })
}

// Each audit with its counts.
fn counted(alloc: Global, plan_names: &PlanNames, counts: &Counts) -> Result<CleanLines, NoMemory>
    requires { length counts.now ≡ length plan_names.now }
    ensures { IfOk result (λ lines. lines ≡ counted plan_names.now counts.now) }
{
    let mut lines = CleanLines::new(alloc);
    for i in 0..counts.len() {
        let line = counted_line(alloc, plan_names, counts, i)?;
        lines.push(line)?;
    }
    Ok(lines)
}

// The level and the physical address of a stop, for M3 to M6 alone.
fn told_stop(found: &Found) -> Option<(u8, u64)>
    ensures value { result ≡ told_stop found.now.rule found.now.stop }
    ensures fits { IsTrue (is_stop_at (stop_levels found.now.rule) result) }
{
    let miss = found.stop?;
    if tells_stop(found.rule) {
        Some((miss.level, miss.pa))
    } else {
        None
    }
}

// The report of a violation.
fn broken_report(
    alloc: Global,
    plan_names: &PlanNames,
    found: &Found,
) -> Result<BrokenText, NoMemory>
    requires { found.now.audit < length plan_names.now }
    ensures { IfOk result (λ broken. broken ≡ broken_report plan_names.now found.now) }
{
    let audit = plan_names.get(found.audit as usize).copied(alloc)?;
    let places = found.places.copied(alloc)?;
    Ok(BrokenText {
        audit,
        start: found.start,
        rule: found.rule,
        at: found.at,
        expected: found.expected,
        stop: told_stop(found),
        places,
    })
}
