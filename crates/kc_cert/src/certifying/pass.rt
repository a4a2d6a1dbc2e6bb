// What a certificate is made of: each walk of a run makes a step of it.
ghost use Rattle.std.specs.Prelude.{◌≡◌, ◌<◌, ◌++◌, ◌∷◌, [], length, OnOk};
ghost use Rattle.kc_run.specs.Tally.{added};

use crate::shapes::collect_shape;
use crate::{CertStep, Certificate, Lists, know_walked, nodes_in};
use kc_found::{Asked, Counts, Space, WalkStop, Walked};
use kc_plan::Audit;
use kc_run::{Known, Recorder, count_walk};
use kc_word::{NoMemory, Steps};
use std::sync::ledger::Ledger;

// What was made so far: the steps, and the counts of their walks.
#[derive(Drop)]
pub struct Draft {
    pub made: Certificate,
    pub counts: Counts,
}

// Adds the step of a walk that met so many elements.
fn add_step(draft: &mut Draft, asked: &Asked, lists: Lists, elements: usize) -> Result<(), NoMemory>
    requires { asked.now.audit < length draft.old.counts }
    ensures made { OnOk result (draft.new.made ≡ draft.old.made ++ record { audit = asked.now.audit; start = asked.now.start; lists = lists } ∷ []) }
    ensures counts { OnOk result (draft.new.counts ≡ added draft.old.counts asked.now.audit elements) }
    ensures size { length draft.new.counts ≡ length draft.old.counts }
{
    let step = CertStep {
        audit: asked.audit,
        start: asked.start,
        lists,
    };
    draft.made.push(step)?;
    count_walk(&mut draft.counts, asked.audit, elements);
    Ok(())
}

impl Recorder for Draft {
    ghost use Rattle.std.specs.Prelude.{◌≡◌, length};
    ghost use Rattle.kc_cert.specs.Certifying.Certified.{Drafts};

    ghost Ready = { λ count x. length x.counts ≡ count };

    ghost Means = { Drafts };

    fn walk<S: Space, L: Ledger>(
        &mut self,
        known: &Known<'_>,
        space: &mut S,
        audit: &Audit,
        asked: &Asked,
        steps: &mut Steps<L>,
    ) -> Result<Walked, WalkStop> {
        know_walked();
        let lists = collect_shape(known.alloc, space, known.btf, &audit.kind, asked, steps)?;
        let nodes = nodes_in(known.alloc, &audit.kind, &lists)?;
        add_step(self, asked, lists, nodes.len())?;
        Ok(nodes)
    }

    fn know_parts() {}
}
