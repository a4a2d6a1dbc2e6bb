// Whether other words would do as well as the first that repairs.
ghost use Rattle.std.specs.Prelude.{◌≡◌, ◌∷◌, [], ◌%◌, ◌^◌, ◌-◌, ◌<◌, ◌≤◌, find, length, take, IfOk, IfSome, None, Some};
ghost use Rattle.kc_outside.specs.declared.store.Slot.TheVariants.{Dump};
ghost use Rattle.kc_outside.specs.Files.{content};
ghost use Rattle.kc_phys.specs.Stored.{stored};
ghost use Rattle.kc_mem.specs.Paged.{with_paging};
ghost use Rattle.kc_plan.specs.Inside.{AreInside as TypesAreInside};
ghost use Rattle.kc_plan.specs.Views.{plan_seen};
ghost use Rattle.kc_repair.specs.declared.outcome.Repair.TheVariants.{Stands};
ghost use Rattle.kc_repair.specs.Others.{is_change, next_ones, stand_by, stand_of, up_to, up_to_found};
ghost use Rattle.kc_repair.specs.Repairs.{WalkInside, judged_with, most, repair_of, repairs};
ghost use Rattle.kc_repair.specs.Suspect.Answers.{OnlyReadsFrames};

use crate::Suspect;
use crate::first::FirstWalk;
use crate::seeking::Suspecting;
use crate::trial::{Judge, RootAudit};
use crate::tries::first_that_repairs;
use kc_found::{Found, ReadFailed};
use kc_kinds::Kind;
use kc_outside::Store;
use kc_phys::Phys;
use kc_question::{Returned, ask_over};
use kc_word::PageCfg;
use std::alloc::Global;

// How many more are tried at most, after the first that repairs.
const MOST_MORE: usize = 64;

/// Whether other words would do as well as the first that repairs.
#[derive(Clone, Copy, Debug, PartialEq, Eq)]
pub struct Stand {
    /// Whether a second word repairs.
    pub also: bool,
    /// How many words were tried, from the first on: up to the second that repairs, and else all that were tried.
    pub tried: usize,
}

// Whether a suspect stands for the same change of the file as another.
fn is_change(first: Suspect, other: Suspect) -> bool
    ensures { result ≡ is_change first other }
{
    other.off == first.off && other.value == first.value
}

// How many suspects come up to one that stands for this change, with it.
fn up_to(first: Suspect, suspects: &[Suspect]) -> usize
    ensures exact { result ≡ up_to (is_change first) suspects.now }
    ensures most { result ≤ length suspects.now }
{
    for i in 0..suspects.len() {
        if is_change(first, suspects[i]) {
            return i + 1;
        }
    }
    suspects.len()
}

// Those that are tried after so many.
fn next_ones(tried: usize, suspects: &[Suspect]) -> &[Suspect]
    requires { tried ≤ length suspects.now }
    ensures exact { result.now ≡ next_ones tried suspects.now }
    ensures few { length result.now ≤ length suspects.now - tried }
{
    let later = &suspects[tried..];
    &later[..later.len().min(MOST_MORE)]
}

// How many of them come up to the one that was found, with it; all, where none was.
fn up_to_found(found: Option<Suspect>, suspects: &[Suspect]) -> usize
    ensures exact { result ≡ up_to_found found suspects.now }
    ensures most { result ≤ length suspects.now }
{
    match found {
        Some(found) => up_to(found, suspects),
        None => suspects.len(),
    }
}

// Tries those that come after the first that repairs.
fn try_others<'s, S: Store>(
    alloc: Global,
    memory: Phys<'s, S>,
    paging: PageCfg,
    audit: &RootAudit<'_>,
    walk: &Option<FirstWalk>,
    first: Suspect,
    suspects: &[Suspect],
) -> Returned<Phys<'s, S>, Result<Stand, ReadFailed>>
    requires aligned { paging.table % 4096 ≡ 0 }
    requires small { paging.table < 2 ^ 52 }
    requires root { audit.now.root.audit < length audit.now.plan.now.audits }
    requires types { TypesAreInside (length audit.now.types.now.records) audit.now.plan.now.audits }
    requires walk { WalkInside (length audit.now.types.now.records) walk.now }

    ensures exact { IfOk result.answer (λ stand. IfSome (with_paging paging (stored memory.entry.segments.items memory.entry.tail (content (S.files memory.entry.store.now) Dump (S.opened memory.entry.store.now Dump))))
        (λ image. find (repairs (judged_with image (plan_seen audit.now.plan.now) (audit.now.root.audit, audit.now.root.start) walk.now None)) (take most suspects.now) ≡ Some first
        → stand ≡ stand_by (repairs (judged_with image (plan_seen audit.now.plan.now) (audit.now.root.audit, audit.now.root.start) walk.now None)) suspects.now)) }
    ensures reads { OnlyReadsFrames (λ p. stored p.segments.items p.tail (content (S.files p.store.now) Dump (S.opened p.store.now Dump))) (λ p. S.files p.store.now) (λ p. p.store.ghost_name ∷ []) (λ p. S.faults p.store.now) result.answer memory.entry result.memory }
{
    let by = Judge {
        audit,
        walk,
        only: None,
    };
    let tried = up_to(first, suspects);
    let others = next_ones(tried, suspects);
    let Returned { memory, answer } = first_that_repairs(alloc, memory, paging, &by, &[], others);
    match answer {
        Ok(second) => Returned {
            memory,
            answer: Ok(Stand {
                also: second.is_some(),
                tried: tried + up_to_found(second, others),
            }),
        },
        Err(stop) => Returned {
            memory,
            answer: Err(stop),
        },
    }
}

/// Whether other words would do as well as the first that repairs a violation, which a root audit found over a memory in an audit of this kind:
/// after it at most 64 more of the suspects are tried, until a second one repairs. Each is judged as the first is.
///
/// The answer fails where the store did, whose count of faults then rose, or where no memory was left.
pub fn stand_over<'s, S: Store>(
    alloc: Global,
    memory: Phys<'s, S>,
    paging: PageCfg,
    audit: &RootAudit<'_>,
    kind: &Kind,
    found: &Found,
    first: Suspect,
) -> Returned<Phys<'s, S>, Result<Stand, ReadFailed>>
    requires aligned { paging.table % 4096 ≡ 0 }
    requires small { paging.table < 2 ^ 52 }
    requires root { audit.now.root.audit < length audit.now.plan.now.audits }
    requires types { TypesAreInside (length audit.now.types.now.records) audit.now.plan.now.audits }

    ensures exact { IfOk result.answer (λ stand. IfSome (with_paging paging (stored memory.entry.segments.items memory.entry.tail (content (S.files memory.entry.store.now) Dump (S.opened memory.entry.store.now Dump))))
        (λ image. repair_of image (plan_seen audit.now.plan.now) (audit.now.root.audit, audit.now.root.start) kind.now found.now ≡ Stands first
        → stand ≡ stand_of image (plan_seen audit.now.plan.now) (audit.now.root.audit, audit.now.root.start) kind.now found.now)) }
    ensures reads { OnlyReadsFrames (λ p. stored p.segments.items p.tail (content (S.files p.store.now) Dump (S.opened p.store.now Dump))) (λ p. S.files p.store.now) (λ p. p.store.ghost_name ∷ []) (λ p. S.faults p.store.now) result.answer memory.entry result.memory }
{
    let question = Suspecting {
        alloc,
        audit,
        kind,
        found,
    };
    let Returned { memory, answer } = ask_over(alloc, memory, paging, &question);
    match answer.unwrap_or(Err(ReadFailed::NoMemory)) {
        Ok(seen) => try_others(
            alloc,
            memory,
            paging,
            audit,
            &seen.breaking.walk,
            first,
            seen.suspects.as_slice(),
        ),
        Err(stop) => Returned {
            memory,
            answer: Err(stop),
        },
    }
}
