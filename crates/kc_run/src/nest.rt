// Audits, and those below their elements, whatever goes along with them.
ghost use Rattle.std.specs.Prelude.{◌<◌, length, IsTrue};
ghost use Rattle.kc_memory.specs.Stays.{SpaceStays};
ghost use Rattle.kc_found.specs.Walks.{CountsWalkFaults};
ghost use Rattle.kc_kinds.specs.Inside.{KindInside};
ghost use Rattle.kc_plan.specs.Inside.{AreInside};
ghost use Rattle.kc_plan.specs.Kept.{are_between};
ghost use Rattle.kc_plan.specs.Planned.{audit_seen};
ghost use Rattle.kc_plan.specs.Seen.{roots};
ghost use Rattle.kc_plan.specs.Views.{plan_seen};
ghost use Rattle.kc_run.specs.Parts.{Element, Enter, Look, roots_part};
ghost use Rattle.kc_run.specs.Tally.{NamesBelow};

use crate::begin::{container_of, is_optional, null_pointer, path_of};
use crate::checks::look_checks;
use crate::recorder::{Known, Recorder};
use kc_found::{Asked, Space, WalkStop, stopped};
use kc_plan::{Audit, Start};
use kc_view::{Led, View};
use kc_word::Steps;
use std::sync::ledger::Ledger;

// The number of no type: a path is followed by its offsets alone.
const NO_TYPE: u32 = 0;

// Makes an audit, whose path is followed from a base.
#[cycle(nested)]
pub(crate) fn enter<R: Recorder, S: Space, L: Ledger>(
    known: &Known<'_>,
    space: &mut S,
    recorder: &mut R,
    base: &Asked,
    steps: &mut Steps<L>,
) -> Result<(), WalkStop>
    requires inside { base.now.audit < length known.now.plan.now.audits }
    requires types { AreInside (length known.now.btf.now.records) known.now.plan.now.audits }
    requires ready { R.Ready (length known.now.plan.now.audits) recorder.old }

    ensures means { R.Means (S.image space.old) (plan_seen known.now.plan.now)
        (Enter base.now.audit base.now.start) recorder.old recorder.new result }
    ensures ready { R.Ready (length known.now.plan.now.audits) recorder.new }
    ensures named { NamesBelow result (length known.now.plan.now.audits) }

    ensures stays { SpaceStays S.image S.files S.through S.most space.old space.new }
    ensures cause { CountsWalkFaults result (S.faults space.old) (S.faults space.new) }
{
    R::know_parts();
    let audit = known.plan.audit(base.audit);
    let to = path_of(&audit.start);
    let view = View::new(known.btf, NO_TYPE, base.start);
    match view.follow(space, to, steps) {
        Ok(Led::At(start)) => {
            let asked = Asked {
                audit: base.audit,
                start: start.at(),
            };
            look(known, space, recorder, audit, &asked, steps)
        }
        Ok(Led::Null(place, at)) => {
            if is_optional(&audit.start) {
                Ok(())
            } else {
                Err(null_pointer(known.alloc, base, place, at))
            }
        }
        Err(stop) => Err(stopped(known.alloc, base, stop, None)),
    }
}

// Walks an audit from its start, and then makes the audits below its elements, one by one.
#[cycle(nested)]
fn look<R: Recorder, S: Space, L: Ledger>(
    known: &Known<'_>,
    space: &mut S,
    recorder: &mut R,
    audit: &Audit,
    asked: &Asked,
    steps: &mut Steps<L>,
) -> Result<(), WalkStop>
    requires inside { asked.now.audit < length known.now.plan.now.audits }
    requires types { AreInside (length known.now.btf.now.records) known.now.plan.now.audits }
    requires ready { R.Ready (length known.now.plan.now.audits) recorder.old }
    requires later { IsTrue (are_between asked.now.audit (length known.now.plan.now.audits) audit.now.each) }
    requires kind { KindInside (length known.now.btf.now.records) audit.now.kind }

    ensures means { R.Means (S.image space.old) (plan_seen known.now.plan.now)
        (Look asked.now.audit (audit_seen audit.now) asked.now.start) recorder.old recorder.new result }
    ensures ready { R.Ready (length known.now.plan.now.audits) recorder.new }
    ensures named { NamesBelow result (length known.now.plan.now.audits) }

    ensures stays { SpaceStays S.image S.files S.through S.most space.old space.new }
    ensures cause { CountsWalkFaults result (S.faults space.old) (S.faults space.new) }
{
    R::know_parts();
    let nodes = recorder.walk(known, space, audit, asked, steps)?;
    for i in 0..nodes.len() {
        let element = container_of(audit.link, *nodes.get(i));
        look_below(known, space, recorder, audit, asked, element, steps)?;
    }
    Ok(())
}

// Looks at the checks of an element that an audit met from its start, and then makes the audits below it.
#[cycle(nested)]
fn look_below<R: Recorder, S: Space, L: Ledger>(
    known: &Known<'_>,
    space: &mut S,
    recorder: &mut R,
    audit: &Audit,
    asked: &Asked,
    element: u64,
    steps: &mut Steps<L>,
) -> Result<(), WalkStop>
    requires inside { asked.now.audit < length known.now.plan.now.audits }
    requires types { AreInside (length known.now.btf.now.records) known.now.plan.now.audits }
    requires ready { R.Ready (length known.now.plan.now.audits) recorder.old }
    requires later { IsTrue (are_between asked.now.audit (length known.now.plan.now.audits) audit.now.each) }

    ensures means { R.Means (S.image space.old) (plan_seen known.now.plan.now)
        (Element asked.now.audit (audit_seen audit.now) asked.now.start element) recorder.old recorder.new result }
    ensures ready { R.Ready (length known.now.plan.now.audits) recorder.new }
    ensures named { NamesBelow result (length known.now.plan.now.audits) }

    ensures stays { SpaceStays S.image S.files S.through S.most space.old space.new }
    ensures cause { CountsWalkFaults result (S.faults space.old) (S.faults space.new) }
{
    R::know_parts();
    look_checks(
        known.alloc,
        known.btf,
        space,
        asked,
        &audit.checks,
        element,
        steps,
    )?;
    for i in 0..audit.each.len() {
        let base = Asked {
            audit: *audit.each.get(i),
            start: element,
        };
        enter(known, space, recorder, &base, steps)?;
    }
    Ok(())
}

/// Makes the root audits of a plan, in its order, and all below their elements.
///
/// # Errors
///
/// The first violation, a failure of the space, whose count of faults then rose, or out of memory.
pub fn enter_roots<R: Recorder, S: Space, L: Ledger>(
    known: &Known<'_>,
    space: &mut S,
    recorder: &mut R,
    steps: &mut Steps<L>,
) -> Result<(), WalkStop>
    requires types { AreInside (length known.now.btf.now.records) known.now.plan.now.audits }
    requires ready { R.Ready (length known.now.plan.now.audits) recorder.old }

    ensures means { R.Means (S.image space.old) (plan_seen known.now.plan.now)
        (roots_part (roots 0 (plan_seen known.now.plan.now))) recorder.old recorder.new result }
    ensures ready { R.Ready (length known.now.plan.now.audits) recorder.new }
    ensures named { NamesBelow result (length known.now.plan.now.audits) }

    ensures stays { SpaceStays S.image S.files S.through S.most space.old space.new }
    ensures cause { CountsWalkFaults result (S.faults space.old) (S.faults space.new) }
{
    R::know_parts();
    for number in 0..known.plan.count() {
        let Start::Root { symbol, .. } = &known.plan.audit(number).start else {
            continue;
        };
        let base = Asked {
            audit: number,
            start: *symbol,
        };
        enter(known, space, recorder, &base, steps)?;
    }
    Ok(())
}
