// Some words of a dump that are changed, and one suspect that is tried with them.
ghost use Rattle.std.specs.Prelude.{◌≡◌, ◌∷◌, [], ◌++◌, ◌%◌, ◌^◌, ◌<◌, length, map, IfErr, IfOk, IfSome, option_map};
ghost use Rattle.kc_outside.specs.declared.store.Slot.TheVariants.{Dump};
ghost use Rattle.kc_outside.specs.Files.{content};
ghost use Rattle.kc_memory.specs.Stays.{FramesStay};
ghost use Rattle.kc_phys.specs.Stored.{stored};
ghost use Rattle.kc_phys.specs.Patch.Changed.{patched_all};
ghost use Rattle.kc_mem.specs.Paged.{with_paging};
ghost use Rattle.kc_plan.specs.Inside.{AreInside as TypesAreInside};
ghost use Rattle.kc_plan.specs.Roots.{root_verdict};
ghost use Rattle.kc_plan.specs.Views.{plan_seen};
ghost use Rattle.kc_repair.specs.Suspect.Answers.{OnlyReads, OnlyReadsFrames};
ghost use Rattle.kc_repair.specs.Repairs.{WalkInside, change_of, judged, judged_with, with_words};
ghost use Rattle.kc_found.specs.Failures.{CountsFailures};

use crate::first::{FirstWalk, counted, first_found};
use crate::outcome::Breach;
use crate::{Suspect, Suspects};
use kc_btf::Btf;
use kc_found::{Asked, Items, ReadFailed, Space, Verdict};
use kc_outside::Store;
use kc_phys::{Change, Lent, Patched, Phys, know_changes};
use kc_plan::Plan;
use kc_question::{Question, Returned, ask_over};
use kc_run::run_root;
use kc_word::{NoMemory, PageCfg, Steps};
use std::alloc::Global;
use std::marker::Brand;
use std::sync::ledger::Ledger;

/// A root audit of a plan, over the types that the plan was read with.
#[derive(Clone, Copy)]
pub struct RootAudit<'p> {
    /// The plan.
    pub plan: &'p Plan,
    /// The types.
    pub types: &'p Btf,
    /// The number of the root audit and its symbol's address, as [`root_at`](kc_run::root_at) tells them.
    pub root: Asked,
}

/// By what a suspect is judged.
#[derive(Clone, Copy)]
pub struct Judge<'j> {
    /// A root audit.
    pub audit: &'j RootAudit<'j>,
    /// A walk that is made before it.
    pub walk: &'j Option<FirstWalk>,
    /// The violation of the walk that counts, where not each does.
    pub only: Option<Breach>,
}

// What a root audit comes to.
fn of_root<M: Space, L: Ledger>(
    alloc: Global,
    audit: &RootAudit<'_>,
    memory: &mut M,
    steps: &mut Steps<L>,
) -> Result<Verdict, ReadFailed>
    requires root { audit.now.root.audit < length audit.now.plan.now.audits }
    requires types { TypesAreInside (length audit.now.types.now.records) audit.now.plan.now.audits }

    ensures exact { IfOk result (λ found. IfSome (M.image memory.old) (λ image.
        (root_verdict image (plan_seen audit.now.plan.now) (audit.now.root.audit, audit.now.root.start)).verdict ≡ found)) }
    ensures reads { OnlyReads M.image M.files M.through M.most M.faults result memory.old memory.new }
{
    let RootAudit { plan, types, root } = audit;
    let found = run_root(alloc, plan, types, root, memory, steps)?;
    Ok(found.verdict)
}

// The question what a suspect comes to, whose word is changed.
#[derive(Clone, Copy)]
struct OneTrial<'q> {
    alloc: Global,
    by: &'q Judge<'q>,
}

impl<'q> Question for OneTrial<'q> {
    type Answer = Result<Verdict, ReadFailed>;

    ghost may = { λ of. (of.by.now.audit.now.root.audit < length of.by.now.audit.now.plan.now.audits)
        × TypesAreInside (length of.by.now.audit.now.types.now.records) of.by.now.audit.now.plan.now.audits
        × WalkInside (length of.by.now.audit.now.types.now.records) of.by.now.walk.now };

    ghost says = { λ of image answer. IfOk answer (λ found.
        judged image (plan_seen of.by.now.audit.now.plan.now) (of.by.now.audit.now.root.audit, of.by.now.audit.now.root.start) of.by.now.walk.now of.by.now.only ≡ found) };

    ghost leaves = { λ _ answer before after. CountsFailures answer before after };

    fn ask<M: Space, L: Ledger>(
        &self,
        memory: &mut M,
        steps: &mut Steps<L>,
    ) -> Result<Verdict, ReadFailed> {
        let found = first_found(self.alloc, self.by.audit.types, memory, self.by.walk, steps)?;
        match counted(self.by.only, found) {
            Some(found) => Ok(Verdict::Broken(found)),
            None => of_root(self.alloc, self.by.audit, memory, steps),
        }
    }
}

// The change of the file that a suspect stands for.
fn change_of(word: Suspect) -> Change
    ensures { result ≡ change_of word }
{
    Change {
        off: word.off,
        value: word.value,
    }
}

// Those of some suspects.
fn changes_of(alloc: Global, words: &[Suspect]) -> Result<Items<Change>, NoMemory>
    ensures { IfOk result (λ changes. changes ≡ map change_of words.now) }
{
    let mut changes = Items::new(alloc);
    for i in 0..words.len() {
        changes.push(change_of(words[i]))?;
    }
    Ok(changes)
}

/// Asks a question over the memory with some words changed, and hands the memory back as it is.
///
/// # Errors
///
/// The answer is `NoMemory` where there is none for the translations that are kept. The memory isn't asked then.
pub fn ask_changed<'s, S: Store, Q: Question>(
    alloc: Global,
    memory: Phys<'s, S>,
    paging: PageCfg,
    words: &[Suspect],
    question: &Q,
) -> Returned<Phys<'s, S>, Result<Q::Answer, NoMemory>>
    requires may { Q.may question.now }
    requires aligned { paging.table % 4096 ≡ 0 }
    requires small { paging.table < 2 ^ 52 }

    ensures says { IfOk result.answer (λ answer. IfSome (with_paging paging (stored memory.entry.segments.items memory.entry.tail (content (S.files memory.entry.store.now) Dump (S.opened memory.entry.store.now Dump))))
        (λ image. Q.says question.now (with_words image words.now) answer)) }
    ensures stays { FramesStay (λ p. stored p.segments.items p.tail (content (S.files p.store.now) Dump (S.opened p.store.now Dump))) (λ p. S.files p.store.now) (λ p. p.store.ghost_name ∷ []) memory.entry result.memory }
    ensures leaves { IfOk result.answer (λ answer. Q.leaves question.now answer (S.faults memory.entry.store.now) (S.faults result.memory.store.now)) }
    ensures unasked { IfErr result.answer (λ _. S.faults result.memory.store.now ≡ S.faults memory.entry.store.now) }
{
    match changes_of(alloc, words) {
        Ok(changes) => {
            ask_lent::<S, Q, Brand>(alloc, memory, paging, changes.as_slice(), question)
        }
        Err(NoMemory) => Returned {
            memory,
            answer: Err(NoMemory),
        },
    }
}

// The same with the changes.
fn ask_lent<'s, S: Store, Q: Question, K: Lent>(
    alloc: Global,
    memory: Phys<'s, S>,
    paging: PageCfg,
    changes: &[Change],
    question: &Q,
) -> Returned<Phys<'s, S>, Result<Q::Answer, NoMemory>>
    requires lent { stored memory.segments.items memory.tail (content (S.files memory.store.now) Dump (S.opened memory.store.now Dump)) ≡ K.physical }
    requires may { Q.may question.now }
    requires aligned { paging.table % 4096 ≡ 0 }
    requires small { paging.table < 2 ^ 52 }

    ensures says { IfOk result.answer (λ answer. IfSome (with_paging paging (option_map (patched_all changes.now) (stored memory.entry.segments.items memory.entry.tail (content (S.files memory.entry.store.now) Dump (S.opened memory.entry.store.now Dump)))))
        (λ image. Q.says question.now image answer)) }
    ensures stays { FramesStay (λ p. stored p.segments.items p.tail (content (S.files p.store.now) Dump (S.opened p.store.now Dump))) (λ p. S.files p.store.now) (λ p. p.store.ghost_name ∷ []) memory.entry result.memory }
    ensures leaves { IfOk result.answer (λ answer. Q.leaves question.now answer (S.faults memory.entry.store.now) (S.faults result.memory.store.now)) }
    ensures unasked { IfErr result.answer (λ _. S.faults result.memory.store.now ≡ S.faults memory.entry.store.now) }
{
    let patched = Patched::<S, K>::over(memory, changes);
    let Returned { memory, answer } = ask_over(alloc, patched, paging, question);
    Returned {
        memory: memory.into_memory(),
        answer,
    }
}

/// What a suspect comes to, whose word is changed after these.
pub(crate) fn try_suspect<'s, S: Store>(
    alloc: Global,
    memory: Phys<'s, S>,
    paging: PageCfg,
    by: &Judge<'_>,
    earlier: &[Suspect],
    suspect: Suspect,
) -> Returned<Phys<'s, S>, Result<Verdict, ReadFailed>>
    requires aligned { paging.table % 4096 ≡ 0 }
    requires small { paging.table < 2 ^ 52 }
    requires inside { by.now.audit.now.root.audit < length by.now.audit.now.plan.now.audits }
    requires types { TypesAreInside (length by.now.audit.now.types.now.records) by.now.audit.now.plan.now.audits }
    requires walk { WalkInside (length by.now.audit.now.types.now.records) by.now.walk.now }

    ensures exact { IfOk result.answer (λ found. IfSome (with_paging paging (stored memory.entry.segments.items memory.entry.tail (content (S.files memory.entry.store.now) Dump (S.opened memory.entry.store.now Dump))))
        (λ image. judged_with (with_words image earlier.now) (plan_seen by.now.audit.now.plan.now) (by.now.audit.now.root.audit, by.now.audit.now.root.start) by.now.walk.now by.now.only suspect ≡ found)) }
    ensures reads { OnlyReadsFrames (λ p. stored p.segments.items p.tail (content (S.files p.store.now) Dump (S.opened p.store.now Dump))) (λ p. S.files p.store.now) (λ p. p.store.ghost_name ∷ []) (λ p. S.faults p.store.now) result.answer memory.entry result.memory }
{
    know_changes();
    match and_one(alloc, earlier, suspect) {
        Ok(words) => judged_over(alloc, memory, paging, by, words.as_slice()),
        Err(NoMemory) => Returned {
            memory,
            answer: Err(ReadFailed::NoMemory),
        },
    }
}

/// What a walk finds broken over the memory with some words changed, if it counts, and else what the root audit comes to; and the memory as it is,
/// handed back. A failure is one of the store, whose count of faults then rose, or want of memory.
pub fn judged_over<'s, S: Store>(
    alloc: Global,
    memory: Phys<'s, S>,
    paging: PageCfg,
    by: &Judge<'_>,
    words: &[Suspect],
) -> Returned<Phys<'s, S>, Result<Verdict, ReadFailed>>
    requires aligned { paging.table % 4096 ≡ 0 }
    requires small { paging.table < 2 ^ 52 }
    requires inside { by.now.audit.now.root.audit < length by.now.audit.now.plan.now.audits }
    requires types { TypesAreInside (length by.now.audit.now.types.now.records) by.now.audit.now.plan.now.audits }
    requires walk { WalkInside (length by.now.audit.now.types.now.records) by.now.walk.now }

    ensures exact { IfOk result.answer (λ found. IfSome (with_paging paging (stored memory.entry.segments.items memory.entry.tail (content (S.files memory.entry.store.now) Dump (S.opened memory.entry.store.now Dump))))
        (λ image. judged (with_words image words.now) (plan_seen by.now.audit.now.plan.now) (by.now.audit.now.root.audit, by.now.audit.now.root.start) by.now.walk.now by.now.only ≡ found)) }
    ensures reads { OnlyReadsFrames (λ p. stored p.segments.items p.tail (content (S.files p.store.now) Dump (S.opened p.store.now Dump))) (λ p. S.files p.store.now) (λ p. p.store.ghost_name ∷ []) (λ p. S.faults p.store.now) result.answer memory.entry result.memory }
{
    let question = OneTrial { alloc, by };
    let Returned { memory, answer } = ask_changed(alloc, memory, paging, words, &question);
    Returned {
        memory,
        answer: answer.unwrap_or(Err(ReadFailed::NoMemory)),
    }
}

// Some words and one more.
fn and_one(alloc: Global, earlier: &[Suspect], suspect: Suspect) -> Result<Suspects, NoMemory>
    ensures { IfOk result (λ words. words ≡ earlier.now ++ suspect ∷ []) }
{
    let mut words = Items::of_slice(alloc, earlier)?;
    words.push(suspect)?;
    Ok(words)
}
