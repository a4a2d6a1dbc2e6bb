// Each root audit of a plan.
ghost use Rattle.std.specs.Prelude.{◌≡◌, ◌≤◌, ◌<◌, ◌↔◌, [], ◌∷◌, ◌++◌, length, map, nat_lt, option_map, IsTrue, IfOk, IfSome, OnOk};
ghost use Rattle.std.specs.List.{AllZip, list_all};
ghost use Rattle.kc_memory.specs.Stays.{SpaceStays};
ghost use Rattle.kc_found.specs.declared.verdict.RootVerdict.{RootVerdict as RootFound};
ghost use Rattle.kc_plan.specs.Inside.{AreInside};
ghost use Rattle.kc_plan.specs.Roots.{FitEach, FitsAmong, FitsRoot, is_among, reached_from, root_verdict, root_verdicts};
ghost use Rattle.kc_plan.specs.Planned.{start_seen};
ghost use Rattle.kc_plan.specs.Seen.{root_of, roots};
ghost use Rattle.kc_plan.specs.Stands.{RootStands};
ghost use Rattle.kc_plan.specs.Verdicts.{IsClean};
ghost use Rattle.kc_plan.specs.Views.{plan_seen};
ghost use Rattle.kc_run.specs.Each.{AddsRoots, asked_root, root_at};
ghost use Rattle.kc_run.specs.Tally.{counts_at};
ghost use Rattle.kc_found.specs.Failures.{CountsFailures};

use crate::counts::{RunCounts, no_walks};
use crate::laws::know_verdicts;
use crate::nest::enter;
use crate::recorder::Known;
use kc_btf::Btf;
use kc_found::{
    Asked, Audits, Counts, ReadFailed, RootVerdict, Space, Verdict, Verdicts, WalkStop,
};
use kc_plan::{Numbers, Plan, Start};
use kc_word::{NoMemory, Steps};
use std::alloc::Global;
use std::sync::ledger::Ledger;

fn is_among(number: u32, numbers: &Audits) -> bool
    ensures { result ≡ is_among number numbers.now }
{
    numbers.as_slice().iter().any(|one| *one == number)
}

fn push_all(numbers: &mut Audits, more: &Numbers) -> Result<(), NoMemory>
    ensures { OnOk result (numbers.new ≡ numbers.old ++ more.now) }
{
    for i in 0..more.len() {
        numbers.push(*more.get(i))?;
    }
    Ok(())
}

// The audits that a root audit reaches, itself included.
fn reached_from(alloc: Global, plan: &Plan, root: u32) -> Result<Audits, NoMemory>
    ensures exact { IfOk result (λ audits. audits ≡ reached_from root (plan_seen plan.now)) }
    ensures below { IfOk result (λ audits. IsTrue (list_all (λ n. nat_lt n (length plan.now.audits)) audits)) }
{
    let mut some = Audits::new(alloc);
    some.push(root)?;
    let mut audits = Audits::new(alloc);
    for number in 0..plan.count() {
        if is_among(number, &some) {
            audits.push(number)?;
            push_all(&mut some, &plan.audit(number).each)?;
        }
    }
    Ok(audits)
}

// The counts of these audits.
fn counts_at(alloc: Global, counts: &Counts, audits: &Audits) -> Result<Counts, NoMemory>
    requires { IsTrue (list_all (λ n. nat_lt n (length counts.now)) audits.now) }
    ensures { IfOk result (λ some. some ≡ counts_at counts.now audits.now) }
{
    let mut some = Counts::new(alloc);
    for i in 0..audits.len() {
        let audit = *audits.get(i);
        some.push(*counts.get(audit as usize))?;
    }
    Ok(some)
}

// What a root audit comes to, which reaches these audits.
fn judged<S: Space, L: Ledger>(
    known: &Known<'_>,
    space: &mut S,
    root: &Asked,
    audits: &Audits,
    steps: &mut Steps<L>,
) -> Result<Verdict, ReadFailed>
    requires inside { root.now.audit < length known.now.plan.now.audits }
    requires types { AreInside (length known.now.btf.now.records) known.now.plan.now.audits }
    requires reached { audits.now ≡ reached_from root.now.audit (plan_seen known.now.plan.now) }
    requires below { IsTrue (list_all (λ n. nat_lt n (length known.now.plan.now.audits)) audits.now) }

    ensures exact { IfOk result (λ found. IfSome (S.image space.old)
        (λ image. (root_verdict image (plan_seen known.now.plan.now) (root.now.audit, root.now.start)).verdict ≡ found)) }
    ensures fits { IfOk result (FitsAmong (length known.now.plan.now.audits) audits.now) }

    ensures stays { SpaceStays S.image S.files S.through S.most space.old space.new }
    ensures cause { CountsFailures result (S.faults space.old) (S.faults space.new) }
{
    let counts = match no_walks(known.alloc, known.plan) {
        Ok(counts) => counts,
        Err(NoMemory) => return Err(ReadFailed::NoMemory),
    };
    let mut counting = RunCounts { counts };
    match enter(known, space, &mut counting, root, steps) {
        Ok(()) => match counts_at(known.alloc, &counting.counts, audits) {
            Ok(counts) => Ok(Verdict::Clean(counts)),
            Err(NoMemory) => Err(ReadFailed::NoMemory),
        },
        Err(WalkStop::Broken(found)) => Ok(Verdict::Broken(found)),
        Err(WalkStop::Fault) => Err(ReadFailed::Fault),
        Err(WalkStop::NoMemory) => Err(ReadFailed::NoMemory),
    }
}

// The verdict on a root audit.
fn root_verdict<S: Space, L: Ledger>(
    known: &Known<'_>,
    space: &mut S,
    root: &Asked,
    steps: &mut Steps<L>,
) -> Result<RootVerdict, ReadFailed>
    requires inside { root.now.audit < length known.now.plan.now.audits }
    requires types { AreInside (length known.now.btf.now.records) known.now.plan.now.audits }

    ensures exact { IfOk result (λ found. IfSome (S.image space.old)
        (λ image. root_verdict image (plan_seen known.now.plan.now) (root.now.audit, root.now.start) ≡ found)) }
    ensures root { IfOk result (λ found. found.root ≡ root.now.audit) }
    ensures fits { IfOk result (FitsRoot (length known.now.plan.now.audits) (plan_seen known.now.plan.now)) }

    ensures stays { SpaceStays S.image S.files S.through S.most space.old space.new }
    ensures cause { CountsFailures result (S.faults space.old) (S.faults space.new) }
{
    let audits = match reached_from(known.alloc, known.plan, root.audit) {
        Ok(audits) => audits,
        Err(NoMemory) => return Err(ReadFailed::NoMemory),
    };
    let verdict = judged(known, space, root, &audits, steps)?;
    Ok(RootVerdict {
        root: root.audit,
        audits,
        verdict,
    })
}

/// The root audit with a number in the plan, with its symbol's address, or `None` exactly where the audit with that number
/// is no root audit, or there is none.
pub fn root_at(plan: &Plan, number: u32) -> Option<Asked>
    ensures root { option_map asked_root result ≡ root_at number (plan_seen plan.now) }
    ensures inside { IfSome result (λ root. root.audit < length plan.now.audits) }
{
    if number >= plan.count() {
        return None;
    }
    match plan.audit(number).start {
        Start::Root { symbol, .. } => Some(Asked {
            audit: number,
            start: symbol,
        }),
        Start::From { .. } => None,
    }
}

/// The verdict on one root audit of a plan, of which [`root_at`] has the number and the symbol's address: its first
/// violation, or where there is none how often each audit that it reaches walked, and how many elements it met. No other
/// root audit is made.
///
/// # Errors
///
/// A failure of the space, whose count of faults then rose, or out of memory.
pub fn run_root<S: Space, L: Ledger>(
    alloc: Global,
    plan: &Plan,
    btf: &Btf,
    root: &Asked,
    space: &mut S,
    steps: &mut Steps<L>,
) -> Result<RootVerdict, ReadFailed>
    requires inside { root.now.audit < length plan.now.audits }
    requires types { AreInside (length btf.now.records) plan.now.audits }

    ensures exact { IfOk result (λ found. IfSome (S.image space.old)
        (λ image. root_verdict image (plan_seen plan.now) (root.now.audit, root.now.start) ≡ found)) }
    // On a dump that is told the verdict is clean exactly where the root audit stands.
    ensures stands { IfOk result (λ found. IfSome (S.image space.old) (λ image.
        IsClean found.verdict ↔ RootStands image (plan_seen plan.now) (root.now.audit, root.now.start))) }
    ensures root { IfOk result (λ found. found.root ≡ root.now.audit) }
    ensures fits { IfOk result (FitsRoot (length plan.now.audits) (plan_seen plan.now)) }

    ensures stays { SpaceStays S.image S.files S.through S.most space.old space.new }
    ensures cause { CountsFailures result (S.faults space.old) (S.faults space.new) }
{
    know_verdicts();
    root_verdict(&Known { alloc, plan, btf }, space, root, steps)
}

// Adds the verdict on an audit, where it is a root audit.
fn add_root<S: Space, L: Ledger>(
    known: &Known<'_>,
    space: &mut S,
    verdicts: &mut Verdicts,
    number: u32,
    start: &Start,
    steps: &mut Steps<L>,
) -> Result<(), ReadFailed>
    requires inside { number < length known.now.plan.now.audits }
    requires types { AreInside (length known.now.btf.now.records) known.now.plan.now.audits }

    ensures added { OnOk result
        (AddsRoots (S.image space.old) (length known.now.plan.now.audits) (plan_seen known.now.plan.now)
        (root_of number (start_seen start.now)) verdicts.old verdicts.new) }

    ensures stays { SpaceStays S.image S.files S.through S.most space.old space.new }
    ensures cause { CountsFailures result (S.faults space.old) (S.faults space.new) }
{
    let Start::Root { symbol, .. } = start else {
        return Ok(());
    };
    let root = Asked {
        audit: number,
        start: *symbol,
    };
    let verdict = root_verdict(known, space, &root, steps)?;
    match verdicts.push(verdict) {
        Ok(()) => Ok(()),
        Err(NoMemory) => Err(ReadFailed::NoMemory),
    }
}

/// The verdict on each root audit of a plan, in the order of the plan: its first violation, or where there is none how
/// often each audit that it reaches walked, and how many elements it met. A violation under one root audit doesn't end
/// the others.
///
/// Each is made as in [`run`](crate::run).
///
/// # Errors
///
/// A failure of the space, whose count of faults then rose, or out of memory.
pub fn run_each<S: Space, L: Ledger>(
    alloc: Global,
    plan: &Plan,
    btf: &Btf,
    space: &mut S,
    steps: &mut Steps<L>,
) -> Result<Verdicts, ReadFailed>
    requires { AreInside (length btf.now.records) plan.now.audits }

    ensures exact { IfOk result (λ found. IfSome (S.image space.old)
        (λ image. root_verdicts image (plan_seen plan.now) ≡ found)) }
    // On a dump that is told the verdict on a root audit is clean exactly where that one stands.
    ensures stands { IfOk result (λ found. IfSome (S.image space.old) (λ image.
        AllZip (λ r v. IsClean v.verdict ↔ RootStands image (plan_seen plan.now) r) (roots 0 (plan_seen plan.now)) found)) }
    // Told or not, there is one verdict for each root audit.
    ensures roots { IfOk result (λ found. map (λ (v : RootFound). v.root) found ≡ map (λ r. r.0) (roots 0 (plan_seen plan.now))) }
    ensures fits { IfOk result (FitEach (length plan.now.audits) (plan_seen plan.now)) }

    ensures stays { SpaceStays S.image S.files S.through S.most space.old space.new }
    ensures cause { CountsFailures result (S.faults space.old) (S.faults space.new) }
{
    know_verdicts();
    let known = Known { alloc, plan, btf };
    let mut verdicts = Verdicts::new(alloc);
    for number in 0..plan.count() {
        let start = &plan.audit(number).start;
        add_root(&known, space, &mut verdicts, number, start, steps)?;
    }
    Ok(verdicts)
}
