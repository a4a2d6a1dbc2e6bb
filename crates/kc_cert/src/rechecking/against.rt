// A certificate against a dump.
ghost use Rattle.std.specs.Prelude.{◌≡◌, ◌<◌, ◌≤◌, ◌+◌, ◌*◌, drop, length, IfOk, IfSome};
ghost use Rattle.kc_memory.specs.Stays.{SpaceStays};
ghost use Rattle.kc_plan.specs.Inside.{AreInside};
ghost use Rattle.kc_plan.specs.Planned.{start_seen};
ghost use Rattle.kc_plan.specs.Seen.{root_of};
ghost use Rattle.kc_plan.specs.Views.{plan_seen};
ghost use Rattle.kc_found.specs.Tests.{CountsTestFaults};
ghost use Rattle.kc_cert.specs.Rechecking.Answers.{IsRight, JudgesAs, Spends, progress};
ghost use Rattle.kc_cert.specs.Rechecking.Certificates.{answer, answer_by, each_judged, judged, number_of, roots_judged};
ghost use Rattle.kc_cert.specs.Fits.Size.{size};
ghost use Rattle.kc_found.specs.Failures.{CountsFailures};

use crate::rechecking::nest::{Known, StepCursor, enter};
use crate::{Certificate, know_walked};
use kc_btf::Btf;
use kc_found::{Asked, Counts, ReadFailed, Space, TestStop};
use kc_plan::{Plan, Start};
use kc_run::{know_verdicts, no_walks};
use kc_word::{NoMemory, Steps};
use std::alloc::Global;
use std::sync::ledger::Ledger;

/// What a certificate comes to.
#[derive(Drop)]
pub enum CertAnswer {
    /// Each step fits. There is one count for each audit of the plan.
    Yes(Counts),
    /// The number of the first step that doesn't fit, counted from 1.
    No(u64),
}

// Makes an audit, where it is a root audit.
fn enter_root<S: Space, L: Ledger>(
    known: &Known<'_>,
    space: &mut S,
    cursor: &mut StepCursor,
    number: u32,
    start: &Start,
    steps: &mut Steps<L>,
) -> Result<(), TestStop>
    requires inside { number < length known.now.plan.now.audits }
    requires types { AreInside (length known.now.btf.now.records) known.now.plan.now.audits }
    requires counted { length cursor.old.counts ≡ length known.now.plan.now.audits }

    ensures judged { JudgesAs
        (λ image. each_judged (λ r. judged image (plan_seen known.now.plan.now) 0 r.0 r.1) (root_of number (start_seen start.now)))
        (progress known.now.cert.now cursor.old) (progress known.now.cert.now cursor.new) (S.image space.old) result }
    ensures counted { length cursor.new.counts ≡ length cursor.old.counts }
    ensures steps { Spends result (size (drop cursor.old.at known.now.cert.now)) (size (drop cursor.new.at known.now.cert.now)) steps.old steps.new 48 }

    ensures stays { SpaceStays S.image S.files S.through S.most space.old space.new }
    ensures cause { CountsTestFaults result (S.faults space.old) (S.faults space.new) }
{
    match start {
        Start::Root { symbol, .. } => {
            let base = Asked {
                audit: number,
                start: *symbol,
            };
            enter(known, space, cursor, &base, steps)
        }
        Start::From { .. } => Ok(()),
    }
}

// Makes the root audits, in the order of the plan.
fn enter_roots<S: Space, L: Ledger>(
    known: &Known<'_>,
    space: &mut S,
    cursor: &mut StepCursor,
    steps: &mut Steps<L>,
) -> Result<(), TestStop>
    requires types { AreInside (length known.now.btf.now.records) known.now.plan.now.audits }
    requires counted { length cursor.old.counts ≡ length known.now.plan.now.audits }

    ensures judged { JudgesAs (λ image. roots_judged image (plan_seen known.now.plan.now))
        (progress known.now.cert.now cursor.old) (progress known.now.cert.now cursor.new) (S.image space.old) result }
    ensures counted { length cursor.new.counts ≡ length cursor.old.counts }
    ensures steps { Spends result (size (drop cursor.old.at known.now.cert.now)) (size (drop cursor.new.at known.now.cert.now)) steps.old steps.new 12288 }

    ensures stays { SpaceStays S.image S.files S.through S.most space.old space.new }
    ensures cause { CountsTestFaults result (S.faults space.old) (S.faults space.new) }
{
    for number in 0..known.plan.count() {
        let start = &known.plan.audit(number).start;
        enter_root(known, space, cursor, number, start, steps)?;
    }
    Ok(())
}

// The number of the step that is looked at, from 1 on: of a missing one it is the next after the last.
fn number_of(cert: &Certificate, at: usize) -> u64
    ensures { result ≡ number_of cert.now (drop at cert.now) }
{
    let steps = cert.as_slice();
    if at < steps.len() {
        at as u64 + 1
    } else {
        steps.len() as u64 + 1
    }
}

// The answer where the steps before this one fit, and no walk is left.
fn answer_by(cert: &Certificate, cursor: StepCursor) -> CertAnswer
    ensures { result ≡ answer_by cert.now cursor.counts (drop cursor.at cert.now) }
{
    if cursor.at < cert.len() {
        CertAnswer::No(number_of(cert, cursor.at))
    } else {
        CertAnswer::Yes(cursor.counts)
    }
}

/// Whether a certificate's steps fit a dump, one after the other, for a plan over the types that it was read with: the counts
/// of the plan's audits, or the number of the first step that doesn't fit. Each shape is the certificate's, so what is read of
/// the dump is paid by the certificate, whatever the dump holds: at most 1,200,000 steps for each step, list and number of it, and
/// as many once.
///
/// A step fits where its audit and its start are those of the next walk, its lists are the shape there, and the checks of all
/// its elements hold. A missing step has the number behind the last; where a path stops, or has a null pointer and its audit isn't
/// optional, the number is that of the step which would come next.
///
/// # Errors
///
/// A failure of the space, whose count of faults then rose, or out of memory.
pub fn recheck<S: Space, L: Ledger>(
    alloc: Global,
    plan: &Plan,
    btf: &Btf,
    space: &mut S,
    cert: &Certificate,
    steps: &mut Steps<L>,
) -> Result<CertAnswer, ReadFailed>
    requires { AreInside (length btf.now.records) plan.now.audits }

    ensures exact { IfOk result (λ found. IfSome (S.image space.old) (λ image. answer image (plan_seen plan.now) cert.now ≡ found)) }
    ensures right { IfOk result (λ found. IfSome (S.image space.old) (λ image. IsRight image (plan_seen plan.now) found)) }
    ensures bound { steps.new ≤ steps.old + 1200000 * (size cert.now + 1) }

    ensures stays { SpaceStays S.image S.files S.through S.most space.old space.new }
    ensures cause { CountsFailures result (S.faults space.old) (S.faults space.new) }
{
    know_walked();
    know_verdicts();
    let known = Known {
        alloc,
        plan,
        btf,
        cert,
    };
    let counts = match no_walks(alloc, plan) {
        Ok(counts) => counts,
        Err(NoMemory) => return Err(ReadFailed::NoMemory),
    };
    let mut cursor = StepCursor { at: 0, counts };
    match enter_roots(&known, space, &mut cursor, steps) {
        Ok(()) => Ok(answer_by(cert, cursor)),
        Err(TestStop::Unfit) => Ok(CertAnswer::No(number_of(cert, cursor.at))),
        Err(TestStop::Fault) => Err(ReadFailed::Fault),
        Err(TestStop::NoMemory) => Err(ReadFailed::NoMemory),
    }
}
