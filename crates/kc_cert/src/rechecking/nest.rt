// Audits, and those below their elements: each walk takes a step of the certificate.
ghost use Rattle.std.specs.Prelude.{◌≡◌, ◌<◌, ◌≤◌, drop, length, IsTrue};
ghost use Rattle.kc_memory.specs.Stays.{SpaceStays};
ghost use Rattle.kc_plan.specs.Inside.{AreInside};
ghost use Rattle.kc_kinds.specs.Inside.{KindInside};
ghost use Rattle.kc_plan.specs.Kept.{are_between};
ghost use Rattle.kc_plan.specs.Planned.{audit_seen};
ghost use Rattle.kc_plan.specs.Views.{plan_seen};
ghost use Rattle.kc_found.specs.Tests.{CountsTestFaults};
ghost use Rattle.kc_cert.specs.Rechecking.Answers.{JudgesAs, Spends, progress};
ghost use Rattle.kc_cert.specs.Rechecking.Certificates.{below_judged, judged, walk_judged};
ghost use Rattle.kc_cert.specs.Fits.Size.{size};

use crate::{Certificate, know_walked, nodes_in, test_step};
use kc_btf::Btf;
use kc_found::{Asked, Counts, Space, Stop, TestStop, know_most};
use kc_plan::{Audit, Plan};
use kc_run::{container_of, count_walk, is_optional, path_of};
use kc_view::{Led, View};
use kc_word::{NoMemory, Steps};
use std::alloc::Global;
use std::sync::ledger::Ledger;

// The number of no type: a path is followed by its offsets alone.
const NO_TYPE: u32 = 0;

// How far a recheck came: the number of the step that is looked at, counted from 0, and the counts of those before. It stays at the
// step that doesn't fit, so the answer's number is read off it.
#[derive(Drop)]
pub struct StepCursor {
    pub at: usize,
    pub counts: Counts,
}

// A plan, the types that it was read with, a certificate, and what its test takes memory of.
#[derive(Clone, Copy)]
pub(crate) struct Known<'p> {
    pub alloc: Global,
    pub plan: &'p Plan,
    pub btf: &'p Btf,
    pub cert: &'p Certificate,
}

// Makes an audit, whose path is followed from a base.
#[cycle(nested)]
pub(crate) fn enter<S: Space, L: Ledger>(
    known: &Known<'_>,
    space: &mut S,
    cursor: &mut StepCursor,
    base: &Asked,
    steps: &mut Steps<L>,
) -> Result<(), TestStop>
    requires inside { base.now.audit < length known.now.plan.now.audits }
    requires types { AreInside (length known.now.btf.now.records) known.now.plan.now.audits }
    requires counted { length cursor.old.counts ≡ length known.now.plan.now.audits }

    ensures judged { JudgesAs
        (λ image. judged image (plan_seen known.now.plan.now) 0 base.now.audit base.now.start)
        (progress known.now.cert.now cursor.old) (progress known.now.cert.now cursor.new) (S.image space.old) result }
    ensures counted { length cursor.new.counts ≡ length cursor.old.counts }
    ensures steps { Spends result (size (drop cursor.old.at known.now.cert.now)) (size (drop cursor.new.at known.now.cert.now)) steps.old steps.new 48 }

    ensures stays { SpaceStays S.image S.files S.through S.most space.old space.new }
    ensures cause { CountsTestFaults result (S.faults space.old) (S.faults space.new) }
{
    know_most(space);
    let audit = known.plan.audit(base.audit);
    let to = path_of(&audit.start);
    let view = View::new(known.btf, NO_TYPE, base.start);
    match view.follow(space, to, steps) {
        Ok(Led::At(start)) => {
            let asked = Asked {
                audit: base.audit,
                start: start.at(),
            };
            look(known, space, cursor, audit, &asked, steps)
        }
        Ok(Led::Null(_, _)) => {
            if is_optional(&audit.start) {
                Ok(())
            } else {
                Err(TestStop::Unfit)
            }
        }
        Err(Stop::Miss(_)) => Err(TestStop::Unfit),
        Err(Stop::Fault) => Err(TestStop::Fault),
    }
}

// Takes the step of an audit's walk from its start, and then makes the audits below its elements, one by one. The step is tested
// whole, with the checks of all its elements, before the walks below the first.
#[cycle(nested)]
fn look<S: Space, L: Ledger>(
    known: &Known<'_>,
    space: &mut S,
    cursor: &mut StepCursor,
    audit: &Audit,
    asked: &Asked,
    steps: &mut Steps<L>,
) -> Result<(), TestStop>
    requires inside { asked.now.audit < length known.now.plan.now.audits }
    requires types { AreInside (length known.now.btf.now.records) known.now.plan.now.audits }
    requires counted { length cursor.old.counts ≡ length known.now.plan.now.audits }
    requires later { IsTrue (are_between asked.now.audit (length known.now.plan.now.audits) audit.now.each) }
    requires few { length audit.now.each ≤ 256 }
    requires kind { KindInside (length known.now.btf.now.records) audit.now.kind }

    ensures judged { JudgesAs
        (λ image p. walk_judged image asked.now.audit (audit_seen audit.now) asked.now.start
        (λ m base. judged image (plan_seen known.now.plan.now) 0 m base) p.counts p.left)
        (progress known.now.cert.now cursor.old) (progress known.now.cert.now cursor.new) (S.image space.old) result }
    ensures counted { length cursor.new.counts ≡ length cursor.old.counts }
    ensures steps { Spends result (size (drop cursor.old.at known.now.cert.now)) (size (drop cursor.new.at known.now.cert.now)) steps.old steps.new 0 }

    ensures stays { SpaceStays S.image S.files S.through S.most space.old space.new }
    ensures cause { CountsTestFaults result (S.faults space.old) (S.faults space.new) }
{
    know_walked();
    let alloc = known.alloc;
    if cursor.at >= known.cert.len() {
        return Err(TestStop::Unfit);
    }
    let step = known.cert.get(cursor.at);
    let nodes = match nodes_in(alloc, &audit.kind, &step.lists) {
        Ok(nodes) => nodes,
        Err(NoMemory) => return Err(TestStop::NoMemory),
    };
    test_step(alloc, known.btf, space, audit, asked, step, &nodes, steps)?;
    cursor.at += 1;
    count_walk(&mut cursor.counts, asked.audit, nodes.len());
    for i in 0..nodes.len() {
        let element = container_of(audit.link, *nodes.get(i));
        look_below(known, space, cursor, audit, asked, element, steps)?;
    }
    Ok(())
}

// Makes the audits below an element.
#[cycle(nested)]
fn look_below<S: Space, L: Ledger>(
    known: &Known<'_>,
    space: &mut S,
    cursor: &mut StepCursor,
    audit: &Audit,
    asked: &Asked,
    element: u64,
    steps: &mut Steps<L>,
) -> Result<(), TestStop>
    requires inside { asked.now.audit < length known.now.plan.now.audits }
    requires types { AreInside (length known.now.btf.now.records) known.now.plan.now.audits }
    requires counted { length cursor.old.counts ≡ length known.now.plan.now.audits }
    requires later { IsTrue (are_between asked.now.audit (length known.now.plan.now.audits) audit.now.each) }
    requires few { length audit.now.each ≤ 256 }

    ensures judged { JudgesAs
        (λ image. below_judged (audit_seen audit.now) (λ m base. judged image (plan_seen known.now.plan.now) 0 m base) element)
        (progress known.now.cert.now cursor.old) (progress known.now.cert.now cursor.new) (S.image space.old) result }
    ensures counted { length cursor.new.counts ≡ length cursor.old.counts }
    ensures steps { Spends result (size (drop cursor.old.at known.now.cert.now)) (size (drop cursor.new.at known.now.cert.now)) steps.old steps.new 12288 }

    ensures stays { SpaceStays S.image S.files S.through S.most space.old space.new }
    ensures cause { CountsTestFaults result (S.faults space.old) (S.faults space.new) }
{
    for i in 0..audit.each.len() {
        let base = Asked {
            audit: *audit.each.get(i),
            start: element,
        };
        enter(known, space, cursor, &base, steps)?;
    }
    Ok(())
}
