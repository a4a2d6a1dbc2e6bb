// The suspects of a violation, and which of them repairs.
ghost use Rattle.std.specs.Prelude.{◌≡◌, ◌∷◌, [], ◌%◌, ◌^◌, ◌<◌, ◌++◌, if◌then◌else◌, filter, length, IfErr, IfOk, IfSome, OnOk};
ghost use Rattle.kc_found.specs.declared.failed.ReadFailed.TheVariants.{NoMemory as OutOfMemory};
ghost use Rattle.kc_outside.specs.declared.store.Slot.TheVariants.{Dump};
ghost use Rattle.kc_outside.specs.Files.{content};
ghost use Rattle.kc_memory.specs.Stays.{FramesStay};
ghost use Rattle.std.specs.List.{list_any};
ghost use Rattle.kc_phys.specs.Patch.Changed.{share};
ghost use Rattle.kc_phys.specs.Stored.{stored};
ghost use Rattle.kc_repair.specs.declared.suspect.suspect.Suspect.{Suspect};
ghost use Rattle.kc_mem.specs.Paged.{with_paging};
ghost use Rattle.kc_plan.specs.Inside.{AreInside as TypesAreInside};
ghost use Rattle.kc_plan.specs.Views.{plan_seen};
ghost use Rattle.kc_repair.specs.Suspect.Answers.{OnlyReadsFrames};
ghost use Rattle.kc_repair.specs.Repairs.{IsSuspected, IsSuspectedLeft, WalkInside, any_leads, is_apart, repair_left, repair_of, with_words};
ghost use Rattle.kc_found.specs.Failures.{CountsFailures};

use crate::first::{Breaking, any_leads, breaking_of};
use crate::trial::{RootAudit, ask_changed};
use crate::tries::{Repaired, try_all};
use crate::{Suspect, Suspects, suspects};
use kc_found::{Found, Items, ReadFailed, Space};
use kc_kinds::Kind;
use kc_outside::Store;
use kc_phys::{Phys, share};
use kc_question::{Question, Returned, ask_over};
use kc_word::{NoMemory, PageCfg, Steps};
use std::alloc::Global;
use std::sync::ledger::Ledger;

// The words that a violation suspects, and for what they are tried.
#[derive(Drop)]
pub struct Suspected {
    /// The words.
    pub suspects: Suspects,
    /// The violation, and the walk that finds it.
    pub breaking: Breaking,
}

// The question which words a violation suspects, that an audit of this kind found.
#[derive(Clone, Copy)]
pub struct Suspecting<'q> {
    /// What it takes memory of.
    pub alloc: Global,
    /// The root audit that found it.
    pub audit: &'q RootAudit<'q>,
    /// The kind of the audit.
    pub kind: &'q Kind,
    /// The violation.
    pub found: &'q Found,
}

impl<'q> Question for Suspecting<'q> {
    type Answer = Result<Suspected, ReadFailed>;

    ghost may = { λ of. TypesAreInside (length of.audit.now.types.now.records) of.audit.now.plan.now.audits };

    ghost says = { λ of image answer. IfOk answer (IsSuspected image (plan_seen of.audit.now.plan.now) of.kind.now of.found.now) };

    ghost leaves = { λ of answer before after. CountsFailures answer before after
        × IfOk answer (λ seen. WalkInside (length of.audit.now.types.now.records) seen.breaking.walk) };

    fn ask<M: Space, L: Ledger>(
        &self,
        memory: &mut M,
        steps: &mut Steps<L>,
    ) -> Result<Suspected, ReadFailed> {
        let suspects = suspects(self.alloc, self.kind, self.found, memory, steps)?;
        let breaking = breaking_of(self.alloc, memory, self.audit, self.kind, self.found, steps)?;
        Ok(Suspected { suspects, breaking })
    }
}

/// What repairs a violation that a root audit found over a memory, in an audit of this kind: the words that the violation suspects are
/// tried in their order, each with the walk that finds the violation, where one does, and with the root audit alone where that walk stands.
///
/// The answer fails where the store did, whose count of faults then rose, or where no memory was left.
pub fn repair_over<'s, S: Store>(
    alloc: Global,
    memory: Phys<'s, S>,
    paging: PageCfg,
    audit: &RootAudit<'_>,
    kind: &Kind,
    found: &Found,
) -> Repaired<'s, S>
    requires aligned { paging.table % 4096 ≡ 0 }
    requires small { paging.table < 2 ^ 52 }
    requires root { audit.now.root.audit < length audit.now.plan.now.audits }
    requires types { TypesAreInside (length audit.now.types.now.records) audit.now.plan.now.audits }

    ensures exact { IfOk result.repair (λ repair. IfSome (with_paging paging (stored memory.entry.segments.items memory.entry.tail (content (S.files memory.entry.store.now) Dump (S.opened memory.entry.store.now Dump))))
        (λ image. repair ≡ repair_of image (plan_seen audit.now.plan.now) (audit.now.root.audit, audit.now.root.start) kind.now found.now)) }
    ensures stays { FramesStay (λ p. stored p.segments.items p.tail (content (S.files p.store.now) Dump (S.opened p.store.now Dump))) (λ p. S.files p.store.now) (λ p. p.store.ghost_name ∷ []) memory.entry result.memory }
    ensures cause { CountsFailures result.repair (S.faults memory.entry.store.now) (S.faults result.memory.store.now) }
{
    let question = Suspecting {
        alloc,
        audit,
        kind,
        found,
    };
    let Returned { memory, answer } = ask_over(alloc, memory, paging, &question);
    match answer.unwrap_or(Err(ReadFailed::NoMemory)) {
        Ok(seen) => try_all(
            alloc,
            memory,
            paging,
            audit,
            &[],
            &seen.breaking,
            seen.suspects.as_slice(),
        ),
        Err(stop) => Repaired {
            memory,
            repair: Err(stop),
        },
    }
}

// Those of some suspects whose words share no byte with those that are changed.
fn apart(alloc: Global, suspects: &[Suspect], earlier: &[Suspect]) -> Result<Suspects, NoMemory>
    ensures { IfOk result (λ kept. kept ≡ filter (is_apart earlier.now) suspects.now) }
{
    let mut kept = Items::new(alloc);
    for i in 0..suspects.len() {
        let keeps = is_apart(earlier, suspects[i]);
        push_if(&mut kept, keeps, suspects[i])?;
    }
    Ok(kept)
}

// Adds a suspect, if it is kept.
fn push_if(kept: &mut Suspects, keeps: bool, suspect: Suspect) -> Result<(), NoMemory>
    ensures { OnOk result (kept.new ≡ kept.old ++ (if keeps then suspect ∷ [] else [])) }
{
    if keeps {
        return kept.push(suspect);
    }
    Ok(())
}

// Whether the word at a file offset shares a byte with one of some words.
fn shares_any(words: &[Suspect], off: u64) -> bool
    ensures { result ≡ list_any (λ (word : Suspect). share off word.off) words.now }
{
    words.iter().any(|word| share(off, word.off))
}

// Whether a suspect's word shares no byte with those that are changed.
fn is_apart(earlier: &[Suspect], suspect: Suspect) -> bool
    ensures { result ≡ is_apart earlier.now suspect }
{
    !shares_any(earlier, suspect.off)
}

// Those of them, where any violation of the walk leads on.
fn left_of(alloc: Global, seen: Suspected, earlier: &[Suspect]) -> Result<Suspected, ReadFailed>
    ensures exact { IfOk result (λ left. (left.suspects ≡ filter (is_apart earlier.now) seen.suspects) × (left.breaking ≡ any_leads seen.breaking)) }
    ensures cause { IfErr result (λ stop. stop ≡ OutOfMemory) }
{
    match apart(alloc, seen.suspects.as_slice(), earlier) {
        Ok(suspects) => Ok(Suspected {
            suspects,
            breaking: any_leads(seen.breaking),
        }),
        Err(NoMemory) => Err(ReadFailed::NoMemory),
    }
}

// The suspects of a violation that is left with some words changed, but for those words.
fn suspected_left<'s, S: Store>(
    alloc: Global,
    memory: Phys<'s, S>,
    paging: PageCfg,
    audit: &RootAudit<'_>,
    earlier: &[Suspect],
    kind: &Kind,
    found: &Found,
) -> Returned<Phys<'s, S>, Result<Suspected, ReadFailed>>
    requires aligned { paging.table % 4096 ≡ 0 }
    requires small { paging.table < 2 ^ 52 }
    requires types { TypesAreInside (length audit.now.types.now.records) audit.now.plan.now.audits }

    ensures exact { IfOk result.answer (λ left. IfSome (with_paging paging (stored memory.entry.segments.items memory.entry.tail (content (S.files memory.entry.store.now) Dump (S.opened memory.entry.store.now Dump))))
        (λ image. IsSuspectedLeft image (plan_seen audit.now.plan.now) earlier.now kind.now found.now left)) }
    ensures inside { IfOk result.answer (λ left. WalkInside (length audit.now.types.now.records) left.breaking.walk) }
    ensures reads { OnlyReadsFrames (λ p. stored p.segments.items p.tail (content (S.files p.store.now) Dump (S.opened p.store.now Dump))) (λ p. S.files p.store.now) (λ p. p.store.ghost_name ∷ []) (λ p. S.faults p.store.now) result.answer memory.entry result.memory }
{
    let question = Suspecting {
        alloc,
        audit,
        kind,
        found,
    };
    let Returned { memory, answer } = ask_changed(alloc, memory, paging, earlier, &question);
    match answer.unwrap_or(Err(ReadFailed::NoMemory)) {
        Ok(seen) => Returned {
            memory,
            answer: left_of(alloc, seen, earlier),
        },
        Err(stop) => Returned {
            memory,
            answer: Err(stop),
        },
    }
}

/// What repairs a violation that is left where some words are changed. These words aren't tried again. A suspect that doesn't repair leads to what the
/// violation's walk finds with it, and where that walk stands to what the root audit finds.
///
/// The answer fails where the store did, whose count of faults then rose, or where no memory was left.
pub fn repair_left<'s, S: Store>(
    alloc: Global,
    memory: Phys<'s, S>,
    paging: PageCfg,
    audit: &RootAudit<'_>,
    earlier: &[Suspect],
    kind: &Kind,
    found: &Found,
) -> Repaired<'s, S>
    requires aligned { paging.table % 4096 ≡ 0 }
    requires small { paging.table < 2 ^ 52 }
    requires root { audit.now.root.audit < length audit.now.plan.now.audits }
    requires types { TypesAreInside (length audit.now.types.now.records) audit.now.plan.now.audits }

    ensures exact { IfOk result.repair (λ repair. IfSome (with_paging paging (stored memory.entry.segments.items memory.entry.tail (content (S.files memory.entry.store.now) Dump (S.opened memory.entry.store.now Dump))))
        (λ image. repair ≡ repair_left image (plan_seen audit.now.plan.now) (audit.now.root.audit, audit.now.root.start) earlier.now kind.now found.now)) }
    ensures reads { OnlyReadsFrames (λ p. stored p.segments.items p.tail (content (S.files p.store.now) Dump (S.opened p.store.now Dump))) (λ p. S.files p.store.now) (λ p. p.store.ghost_name ∷ []) (λ p. S.faults p.store.now) result.repair memory.entry result.memory }
{
    let Returned { memory, answer } = suspected_left(
        alloc, memory, paging, audit, earlier, kind, found,
    );
    match answer {
        Ok(left) => try_all(
            alloc,
            memory,
            paging,
            audit,
            earlier,
            &left.breaking,
            left.suspects.as_slice(),
        ),
        Err(failed) => Repaired {
            memory,
            repair: Err(failed),
        },
    }
}
