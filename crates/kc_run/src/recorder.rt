// What goes along with a run of audits, and what it notes of each walk.
ghost use Rattle.std.specs.Prelude.{◌<◌, ℕ, List, Option, Result, Err, IfOk, IfErr, length};
ghost use Rattle.kc_memory.specs.Image.{Image};
ghost use Rattle.kc_memory.specs.Stays.{SpaceStays};
ghost use Rattle.kc_found.specs.declared.found.WalkStop.{WalkStop};
ghost use Rattle.kc_found.specs.Walks.{CountsWalkFaults, IsNamed};
ghost use Rattle.kc_kinds.specs.Inside.{KindInside};
ghost use Rattle.kc_plan.specs.Planned.{AuditAt, audit_seen};
ghost use Rattle.kc_plan.specs.Views.{plan_seen};
ghost use Rattle.kc_run.specs.Parts.{Follows, Look, Part, elements_part};

use kc_btf::Btf;
use kc_found::{Asked, Space, WalkStop, Walked};
use kc_plan::{Audit, Plan};
use kc_word::Steps;
use std::alloc::Global;
use std::sync::ledger::Ledger;

/// A plan, the types that it was read with, and what its audits take memory of.
#[derive(Clone, Copy)]
pub struct Known<'p> {
    pub alloc: Global,
    pub plan: &'p Plan,
    pub btf: &'p Btf,
}

/// What a run notes of its walks.
pub trait Recorder {
    /// It has a place for each of so many audits.
    ghost Ready: { ℕ → Self → Type 0 };

    /// A part of a run of these audits leads from one state of it to another, with this answer.
    ghost Means: { Option Image → List AuditAt → Part → Self → Self → Result (Unit {0}) WalkStop → Type 0 };

    /// The nodes of an audit's walk from a start, which is noted.
    ///
    /// # Errors
    ///
    /// The walk's first violation, a failure of the space, whose count of faults then rose, or out of memory.
    fn walk<S: Space, L: Ledger>(
        &mut self,
        known: &Known<'_>,
        space: &mut S,
        audit: &Audit,
        asked: &Asked,
        steps: &mut Steps<L>,
    ) -> Result<Walked, WalkStop>
        requires inside { asked.now.audit < length known.now.plan.now.audits }
        requires kind { KindInside (length known.now.btf.now.records) audit.now.kind }
        requires ready { Ready (length known.now.plan.now.audits) self.old }

        ensures goes { IfOk result (λ nodes. (z : Self) (r : Result (Unit {0}) WalkStop)
            → Means (S.image space.old) (plan_seen known.now.plan.now)
            (elements_part asked.now.audit (audit_seen audit.now) asked.now.start nodes) self.new z r
            → Means (S.image space.old) (plan_seen known.now.plan.now)
            (Look asked.now.audit (audit_seen audit.now) asked.now.start) self.old z r) }
        ensures stops { IfErr result (λ stop. Means (S.image space.old) (plan_seen known.now.plan.now)
            (Look asked.now.audit (audit_seen audit.now) asked.now.start) self.old self.new (Err stop)) }
        ensures ready { Ready (length known.now.plan.now.audits) self.new }
        ensures named { IsNamed result asked.now.audit asked.now.start }

        ensures stays { SpaceStays S.image S.files S.through S.most space.old space.new }
        ensures cause { CountsWalkFaults result (S.faults space.old) (S.faults space.new) };

    /// Does nothing. What it notes follows the run, part by part.
    fn know_parts()
        ensures { Follows Means };
}
