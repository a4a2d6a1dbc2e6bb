// Suspects, one after the other.
ghost use Rattle.std.specs.Prelude.{◌≡◌, ◌∷◌, [], ◌%◌, ◌^◌, ◌<◌, find, length, take, IfOk, IfSome, None, Some};
ghost use Rattle.kc_outside.specs.declared.store.Slot.TheVariants.{Dump};
ghost use Rattle.kc_outside.specs.Files.{content};
ghost use Rattle.kc_phys.specs.Stored.{AreInside, stored};
ghost use Rattle.kc_mem.specs.Paged.{with_paging};
ghost use Rattle.kc_plan.specs.Inside.{AreInside as TypesAreInside};
ghost use Rattle.kc_plan.specs.Views.{plan_seen};
ghost use Rattle.kc_question.specs.Memory.{image_of};
ghost use Rattle.kc_repair.specs.Suspect.Answers.{OnlyReadsFrames};
ghost use Rattle.kc_repair.specs.Repairs.{IsRepairBy, StandsAs, WalkInside, ends_with, first_next, if_told, is_same, judged_with, most, next_by, next_of, repair_by, repair_with, repairs, stands_of, with_words};
ghost use Rattle.kc_found.specs.Failures.{CountsFailures};

use crate::Suspect;
use crate::first::{Breaking, is_same};
use crate::outcome::{Breach, Next, Repair};
use crate::trial::{Judge, RootAudit, try_suspect};
use kc_found::{Found, ReadFailed, Verdict};
use kc_outside::Store;
use kc_phys::{Phys, Room};
use kc_question::Returned;
use kc_run::know_verdicts;
use kc_word::{NoMemory, PageCfg, Segment};
use std::alloc::Global;

/// How many suspects are tried at most.
pub const MOST: usize = 4096;

/// Tries suspects in their order: the first with which the root audit stands, over the dump in slot Dump with the suspect's
/// word changed to its value. The size of the file is learnt, and each segment's file bytes lie inside it. `found` is what
/// the root audit found first over the dump as it is.
///
/// # Errors
///
/// A failure of the store, whose count of faults then rose, or out of memory.
pub fn repair<S: Store>(
    alloc: Global,
    store: &mut S,
    segments: &[Segment],
    paging: PageCfg,
    audit: &RootAudit<'_>,
    found: Breach,
    suspects: &[Suspect],
) -> Result<Repair, ReadFailed>
    requires inside { AreInside (S.sizes store.old Dump) segments.now }
    requires aligned { paging.table % 4096 ≡ 0 }
    requires small { paging.table < 2 ^ 52 }
    requires root { audit.now.root.audit < length audit.now.plan.now.audits }
    requires types { TypesAreInside (length audit.now.types.now.records) audit.now.plan.now.audits }

    ensures exact { IfOk result (λ repair. IfSome (content (S.files store.old) Dump (S.opened store.old Dump))
        (λ bytes. IsRepairBy (image_of bytes segments.now audit.now.plan.now.tail paging) (plan_seen audit.now.plan.now) (audit.now.root.audit, audit.now.root.start) (record { found = found; walk = None; only = Some found }) suspects.now repair)) }
    // With a suspect that is told the structures of the root audit stand, and where none is told, with none that was tried.
    ensures stands { IfOk result (λ repair. IfSome (content (S.files store.old) Dump (S.opened store.old Dump))
        (λ bytes. StandsAs (image_of bytes segments.now audit.now.plan.now.tail paging) (plan_seen audit.now.plan.now) (audit.now.root.audit, audit.now.root.start) None suspects.now repair)) }

    ensures files { S.files store.new ≡ S.files store.old }
    ensures cause { CountsFailures result (S.faults store.old) (S.faults store.new) }
{
    know_verdicts();
    let room = match Room::new(alloc, segments, audit.plan.tail) {
        Ok(room) => room,
        Err(NoMemory) => return Err(ReadFailed::NoMemory),
    };
    let memory = Phys::over(store, room);
    let breaking = Breaking {
        found,
        walk: None,
        only: Some(found),
    };
    let Repaired { memory, repair } = try_all(
        alloc,
        memory,
        paging,
        audit,
        &[],
        &breaking,
        suspects,
    );
    let _store = memory.into_store();
    repair
}

/// What comes of suspects.
#[derive(Drop)]
pub struct Repaired<'s, S: Store> {
    /// The memory over which they were tried, handed back.
    pub memory: Phys<'s, S>,
    /// Which of them repairs, or that reading failed, or that no memory was left.
    pub repair: Result<Repair, ReadFailed>,
}

// Those that are tried: the first of them.
fn tried_of(suspects: &[Suspect]) -> &[Suspect]
    ensures { result.now ≡ take most suspects.now }
{
    &suspects[..suspects.len().min(MOST)]
}

// The answer where a search ends with what is told.
fn ends_with<X>(told: Option<X>) -> Option<Result<Option<X>, ReadFailed>>
    ensures { result ≡ ends_with told }
{
    match told {
        Some(x) => Some(Ok(Some(x))),
        None => None,
    }
}

// The answer after a trial, where the search for a suspect that repairs ends with it.
fn if_stands(
    trial: Result<Verdict, ReadFailed>,
    suspect: Suspect,
) -> Option<Result<Option<Suspect>, ReadFailed>>
    ensures { result ≡ if_told (stands_of suspect) trial }
{
    match trial {
        Ok(Verdict::Clean(_)) => ends_with(Some(suspect)),
        Ok(Verdict::Broken(_)) => ends_with(None),
        Err(stop) => Some(Err(stop)),
    }
}

/// The first suspect that repairs, each after some words that are changed.
pub(crate) fn first_that_repairs<'s, S: Store>(
    alloc: Global,
    memory: Phys<'s, S>,
    paging: PageCfg,
    by: &Judge<'_>,
    earlier: &[Suspect],
    suspects: &[Suspect],
) -> Returned<Phys<'s, S>, Result<Option<Suspect>, ReadFailed>>
    requires aligned { paging.table % 4096 ≡ 0 }
    requires small { paging.table < 2 ^ 52 }
    requires root { by.now.audit.now.root.audit < length by.now.audit.now.plan.now.audits }
    requires types { TypesAreInside (length by.now.audit.now.types.now.records) by.now.audit.now.plan.now.audits }
    requires walk { WalkInside (length by.now.audit.now.types.now.records) by.now.walk.now }

    ensures exact { IfOk result.answer (λ first. IfSome (with_paging paging (stored memory.entry.segments.items memory.entry.tail (content (S.files memory.entry.store.now) Dump (S.opened memory.entry.store.now Dump))))
        (λ image. find (repairs (judged_with (with_words image earlier.now) (plan_seen by.now.audit.now.plan.now) (by.now.audit.now.root.audit, by.now.audit.now.root.start) by.now.walk.now by.now.only)) suspects.now ≡ first)) }
    ensures reads { OnlyReadsFrames (λ p. stored p.segments.items p.tail (content (S.files p.store.now) Dump (S.opened p.store.now Dump))) (λ p. S.files p.store.now) (λ p. p.store.ghost_name ∷ []) (λ p. S.faults p.store.now) result.answer memory.entry result.memory }
{
    let mut memory = memory;
    for i in 0..suspects.len() {
        let trial = try_suspect(alloc, memory, paging, by, earlier, suspects[i]);
        memory = trial.memory;
        match if_stands(trial.answer, suspects[i]) {
            Some(answer) => return Returned { memory, answer },
            None => {}
        }
    }
    Returned {
        memory,
        answer: Ok(None),
    }
}

// What a suspect leads to, where that is another rule, or the same at another address.
fn next_of(found: Breach, suspect: Suspect, next: &Found) -> Option<Next>
    ensures { result ≡ next_by (is_same found next.now) suspect next.now }
{
    if is_same(found, next) {
        return None;
    }
    Some(Next {
        suspect,
        rule: next.rule,
        at: next.at,
    })
}

// The answer after a trial, where the search for a suspect that leads elsewhere ends with it.
fn if_leads(
    trial: Result<Verdict, ReadFailed>,
    suspect: Suspect,
    found: Breach,
) -> Option<Result<Option<Next>, ReadFailed>>
    ensures { result ≡ if_told (next_of found suspect) trial }
{
    match trial {
        Ok(Verdict::Clean(_)) => ends_with(None),
        Ok(Verdict::Broken(next)) => ends_with(next_of(found, suspect, &next)),
        Err(stop) => Some(Err(stop)),
    }
}

// What the first suspect leads to that leads elsewhere.
fn first_that_leads<'s, S: Store>(
    alloc: Global,
    memory: Phys<'s, S>,
    paging: PageCfg,
    by: &Judge<'_>,
    earlier: &[Suspect],
    found: Breach,
    suspects: &[Suspect],
) -> Returned<Phys<'s, S>, Result<Option<Next>, ReadFailed>>
    requires aligned { paging.table % 4096 ≡ 0 }
    requires small { paging.table < 2 ^ 52 }
    requires root { by.now.audit.now.root.audit < length by.now.audit.now.plan.now.audits }
    requires types { TypesAreInside (length by.now.audit.now.types.now.records) by.now.audit.now.plan.now.audits }
    requires walk { WalkInside (length by.now.audit.now.types.now.records) by.now.walk.now }

    ensures exact { IfOk result.answer (λ next. IfSome (with_paging paging (stored memory.entry.segments.items memory.entry.tail (content (S.files memory.entry.store.now) Dump (S.opened memory.entry.store.now Dump))))
        (λ image. first_next (judged_with (with_words image earlier.now) (plan_seen by.now.audit.now.plan.now) (by.now.audit.now.root.audit, by.now.audit.now.root.start) by.now.walk.now by.now.only) found suspects.now ≡ next)) }
    ensures reads { OnlyReadsFrames (λ p. stored p.segments.items p.tail (content (S.files p.store.now) Dump (S.opened p.store.now Dump))) (λ p. S.files p.store.now) (λ p. p.store.ghost_name ∷ []) (λ p. S.faults p.store.now) result.answer memory.entry result.memory }
{
    let mut memory = memory;
    for i in 0..suspects.len() {
        let trial = try_suspect(alloc, memory, paging, by, earlier, suspects[i]);
        memory = trial.memory;
        match if_leads(trial.answer, suspects[i], found) {
            Some(answer) => return Returned { memory, answer },
            None => {}
        }
    }
    Returned {
        memory,
        answer: Ok(None),
    }
}

// What comes of suspects of which none repairs.
fn none_repairs<'s, S: Store>(
    alloc: Global,
    memory: Phys<'s, S>,
    paging: PageCfg,
    audit: &RootAudit<'_>,
    earlier: &[Suspect],
    breaking: &Breaking,
    suspects: &[Suspect],
) -> Repaired<'s, S>
    requires aligned { paging.table % 4096 ≡ 0 }
    requires small { paging.table < 2 ^ 52 }
    requires root { audit.now.root.audit < length audit.now.plan.now.audits }
    requires types { TypesAreInside (length audit.now.types.now.records) audit.now.plan.now.audits }
    requires walk { WalkInside (length audit.now.types.now.records) breaking.now.walk }

    ensures exact { IfOk result.repair (λ repair. IfSome (with_paging paging (stored memory.entry.segments.items memory.entry.tail (content (S.files memory.entry.store.now) Dump (S.opened memory.entry.store.now Dump))))
        (λ image. repair_by (judged_with (with_words image earlier.now) (plan_seen audit.now.plan.now) (audit.now.root.audit, audit.now.root.start) breaking.now.walk breaking.now.only) breaking.now.found suspects.now None ≡ repair)) }
    ensures reads { OnlyReadsFrames (λ p. stored p.segments.items p.tail (content (S.files p.store.now) Dump (S.opened p.store.now Dump))) (λ p. S.files p.store.now) (λ p. p.store.ghost_name ∷ []) (λ p. S.faults p.store.now) result.repair memory.entry result.memory }
{
    let by = Judge {
        audit,
        walk: &breaking.walk,
        only: breaking.only,
    };
    let tried = tried_of(suspects);
    let Returned { memory, answer } = first_that_leads(
        alloc,
        memory,
        paging,
        &by,
        earlier,
        breaking.found,
        tried,
    );
    match answer {
        Ok(then) => Repaired {
            memory,
            repair: Ok(Repair::Nothing {
                tried: tried.len() as u32,
                more: suspects.len() > MOST,
                then,
            }),
        },
        Err(stop) => Repaired {
            memory,
            repair: Err(stop),
        },
    }
}

/// Tries suspects over a memory, each after some words that are changed.
pub(crate) fn try_all<'s, S: Store>(
    alloc: Global,
    memory: Phys<'s, S>,
    paging: PageCfg,
    audit: &RootAudit<'_>,
    earlier: &[Suspect],
    breaking: &Breaking,
    suspects: &[Suspect],
) -> Repaired<'s, S>
    requires aligned { paging.table % 4096 ≡ 0 }
    requires small { paging.table < 2 ^ 52 }
    requires root { audit.now.root.audit < length audit.now.plan.now.audits }
    requires types { TypesAreInside (length audit.now.types.now.records) audit.now.plan.now.audits }
    requires walk { WalkInside (length audit.now.types.now.records) breaking.now.walk }

    ensures exact { IfOk result.repair (λ repair. IfSome (with_paging paging (stored memory.entry.segments.items memory.entry.tail (content (S.files memory.entry.store.now) Dump (S.opened memory.entry.store.now Dump))))
        (λ image. repair_with (with_words image earlier.now) (plan_seen audit.now.plan.now) (audit.now.root.audit, audit.now.root.start) breaking.now suspects.now ≡ repair)) }
    ensures reads { OnlyReadsFrames (λ p. stored p.segments.items p.tail (content (S.files p.store.now) Dump (S.opened p.store.now Dump))) (λ p. S.files p.store.now) (λ p. p.store.ghost_name ∷ []) (λ p. S.faults p.store.now) result.repair memory.entry result.memory }
{
    let by = Judge {
        audit,
        walk: &breaking.walk,
        only: None,
    };
    let Returned { memory, answer } = first_that_repairs(
        alloc,
        memory,
        paging,
        &by,
        earlier,
        tried_of(suspects),
    );
    match answer {
        Ok(Some(suspect)) => Repaired {
            memory,
            repair: Ok(Repair::Stands(suspect)),
        },
        Ok(None) => none_repairs(alloc, memory, paging, audit, earlier, breaking, suspects),
        Err(stop) => Repaired {
            memory,
            repair: Err(stop),
        },
    }
}
