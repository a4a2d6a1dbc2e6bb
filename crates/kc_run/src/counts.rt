// The counts of a plan's audits.
ghost use Rattle.std.specs.Prelude.{◌≡◌, ◌<◌, length, IfOk};
ghost use Rattle.kc_plan.specs.Views.{plan_seen};
ghost use Rattle.kc_run.specs.Parts.{Tallied};
ghost use Rattle.kc_run.specs.Tally.{added, zeros};

use crate::recorder::{Known, Recorder};
use crate::walks::walk;
use kc_found::{Asked, AuditCount, Counts, Space, WalkStop, Walked};
use kc_plan::{Audit, Plan};
use kc_word::{NoMemory, Steps};
use std::alloc::Global;
use std::sync::ledger::Ledger;

/// No walk yet, for each audit of a plan.
///
/// # Errors
///
/// Out of memory.
pub fn no_walks(alloc: Global, plan: &Plan) -> Result<Counts, NoMemory>
    ensures { IfOk result (λ counts. counts ≡ zeros (plan_seen plan.now)) }
{
    let mut counts = Counts::new(alloc);
    for _ in 0..plan.count() {
        counts.push(AuditCount {
            walks: 0,
            elements: 0,
        })?;
    }
    Ok(counts)
}

/// Counts a walk of an audit, which met so many elements. A count stays at 2^64 - 1 once it is there.
pub fn count_walk(counts: &mut Counts, audit: u32, elements: usize)
    requires { audit < length counts.old }
    ensures added { counts.new ≡ added counts.old audit elements }
    ensures size { length counts.new ≡ length counts.old }
{
    let count = *counts.get(audit as usize);
    let more = AuditCount {
        walks: count.walks.saturating_add(1),
        elements: count.elements.saturating_add(elements as u64),
    };
    counts.set(audit as usize, more);
}

/// The counts of the walks that a run made so far.
#[derive(Drop)]
pub struct RunCounts {
    pub counts: Counts,
}

impl Recorder for RunCounts {
    ghost Ready = { λ count x. length x.counts ≡ count };

    ghost Means = { λ image audits part x y r. Tallied image audits part x.counts y.counts r };

    fn walk<S: Space, L: Ledger>(
        &mut self,
        known: &Known<'_>,
        space: &mut S,
        audit: &Audit,
        asked: &Asked,
        steps: &mut Steps<L>,
    ) -> Result<Walked, WalkStop> {
        let nodes = walk(known.alloc, known.btf, space, &audit.kind, asked, steps)?;
        count_walk(&mut self.counts, asked.audit, nodes.len());
        Ok(nodes)
    }

    fn know_parts() {}
}
