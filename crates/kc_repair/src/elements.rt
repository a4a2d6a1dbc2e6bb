// How many elements an audit meets where some words are changed.
ghost use Rattle.std.specs.Prelude.{◌≡◌, ◌∷◌, [], ◌%◌, ◌^◌, ◌<◌, length, IfOk, IfSome};
ghost use Rattle.kc_outside.specs.declared.store.Slot.TheVariants.{Dump};
ghost use Rattle.kc_outside.specs.Files.{content};
ghost use Rattle.kc_phys.specs.Stored.{stored};
ghost use Rattle.kc_mem.specs.Paged.{with_paging};
ghost use Rattle.kc_plan.specs.Inside.{AreInside as TypesAreInside};
ghost use Rattle.kc_plan.specs.Roots.{root_verdict};
ghost use Rattle.kc_plan.specs.Views.{plan_seen};
ghost use Rattle.kc_found.specs.Failures.{CountsFailures};
ghost use Rattle.kc_repair.specs.Elements.{elements_in, elements_of, elements_with};
ghost use Rattle.kc_repair.specs.Suspect.Answers.{OnlyReads, OnlyReadsFrames};

use crate::Suspect;
use crate::trial::{RootAudit, ask_changed};
use kc_found::{AuditCount, ReadFailed, RootVerdict, Space, Verdict};
use kc_outside::Store;
use kc_phys::Phys;
use kc_question::{Question, Returned};
use kc_run::run_root;
use kc_word::{PageCfg, Steps};
use std::alloc::Global;
use std::sync::ledger::Ledger;

// Those of the audit with a number, by the counts of these audits.
fn elements_in(number: u32, audits: &[u32], counts: &[AuditCount]) -> Option<u64>
    ensures { result ≡ elements_in number audits.now counts.now }
{
    for i in 0..audits.len().min(counts.len()) {
        if audits[i] == number {
            return Some(counts[i].elements);
        }
    }
    None
}

// The same where the audits found nothing.
fn elements_of(number: u32, found: &RootVerdict) -> Option<u64>
    ensures { result ≡ elements_of number found.now }
{
    match &found.verdict {
        Verdict::Clean(counts) => elements_in(number, found.audits.as_slice(), counts.as_slice()),
        Verdict::Broken(_) => None,
    }
}

// How many elements the audit with a number meets, where the root audit finds nothing.
fn of_root<M: Space, L: Ledger>(
    alloc: Global,
    audit: &RootAudit<'_>,
    number: u32,
    memory: &mut M,
    steps: &mut Steps<L>,
) -> Result<Option<u64>, ReadFailed>
    requires root { audit.now.root.audit < length audit.now.plan.now.audits }
    requires types { TypesAreInside (length audit.now.types.now.records) audit.now.plan.now.audits }

    ensures exact { IfOk result (λ elements. IfSome (M.image memory.old) (λ image.
        elements ≡ elements_of number (root_verdict image (plan_seen audit.now.plan.now) (audit.now.root.audit, audit.now.root.start)))) }
    ensures reads { OnlyReads M.image M.files M.through M.most M.faults result memory.old memory.new }
{
    let RootAudit { plan, types, root } = audit;
    let found = run_root(alloc, plan, types, root, memory, steps)?;
    Ok(elements_of(number, &found))
}

// The question how many elements the audit with a number meets, where the root audit finds nothing.
#[derive(Clone, Copy)]
struct OneCount<'q> {
    alloc: Global,
    audit: &'q RootAudit<'q>,
    number: u32,
}

impl<'q> Question for OneCount<'q> {
    type Answer = Result<Option<u64>, ReadFailed>;

    ghost may = { λ of. (of.audit.now.root.audit < length of.audit.now.plan.now.audits)
        × TypesAreInside (length of.audit.now.types.now.records) of.audit.now.plan.now.audits };

    ghost says = { λ of image answer. IfOk answer (λ elements.
        elements ≡ elements_of of.number (root_verdict image (plan_seen of.audit.now.plan.now) (of.audit.now.root.audit, of.audit.now.root.start))) };

    ghost leaves = { λ _ answer before after. CountsFailures answer before after };

    fn ask<M: Space, L: Ledger>(
        &self,
        memory: &mut M,
        steps: &mut Steps<L>,
    ) -> Result<Option<u64>, ReadFailed> {
        of_root(self.alloc, self.audit, self.number, memory, steps)
    }
}

/// How many elements the audit with a number meets over the memory with some words changed, where the root audit finds nothing there and reaches that
/// audit; and the memory as it is, handed back. The number stays at 2^64 - 1 once it is there.
///
/// A failure is one of the store, whose count of faults then rose, or want of memory.
pub fn elements_over<'s, S: Store>(
    alloc: Global,
    memory: Phys<'s, S>,
    paging: PageCfg,
    audit: &RootAudit<'_>,
    words: &[Suspect],
    number: u32,
) -> Returned<Phys<'s, S>, Result<Option<u64>, ReadFailed>>
    requires aligned { paging.table % 4096 ≡ 0 }
    requires small { paging.table < 2 ^ 52 }
    requires root { audit.now.root.audit < length audit.now.plan.now.audits }
    requires types { TypesAreInside (length audit.now.types.now.records) audit.now.plan.now.audits }

    ensures exact { IfOk result.answer (λ elements. IfSome (with_paging paging (stored memory.entry.segments.items memory.entry.tail (content (S.files memory.entry.store.now) Dump (S.opened memory.entry.store.now Dump))))
        (λ image. elements ≡ elements_with image (plan_seen audit.now.plan.now) (audit.now.root.audit, audit.now.root.start) words.now number)) }
    ensures reads { OnlyReadsFrames (λ p. stored p.segments.items p.tail (content (S.files p.store.now) Dump (S.opened p.store.now Dump))) (λ p. S.files p.store.now) (λ p. p.store.ghost_name ∷ []) (λ p. S.faults p.store.now) result.answer memory.entry result.memory }
{
    let question = OneCount {
        alloc,
        audit,
        number,
    };
    let Returned { memory, answer } = ask_changed(alloc, memory, paging, words, &question);
    Returned {
        memory,
        answer: answer.unwrap_or(Err(ReadFailed::NoMemory)),
    }
}
