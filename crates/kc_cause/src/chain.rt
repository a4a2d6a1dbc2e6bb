// Several words that repair a root audit together.
ghost use Rattle.std.specs.Prelude.{◌≡◌, ◌∷◌, [], ◌++◌, ◌<◌, length, IfErr, IfOk, IfSome, OnOk, Some};
ghost use Rattle.kc_found.specs.declared.failed.ReadFailed.TheVariants.{NoMemory as OutOfMemory};
ghost use Rattle.kc_found.specs.declared.verdict.Verdict.TheVariants.{Broken};
ghost use Rattle.kc_outside.specs.declared.store.Slot.TheVariants.{Dump};
ghost use Rattle.kc_outside.specs.Files.{content};
ghost use Rattle.kc_phys.specs.Stored.{stored};
ghost use Rattle.kc_mem.specs.Paged.{with_paging};
ghost use Rattle.kc_plan.specs.Views.{plan_seen};
ghost use Rattle.kc_repair.specs.Repairs.{WalkInside, repair_left};
ghost use Rattle.kc_repair.specs.Suspect.Answers.{OnlyReadsFrames};
ghost use Rattle.kc_cause.specs.Chained.{chain_of, ended, leads_on, left_after, left_by, left_of, next_walk};
ghost use Rattle.kc_cause.specs.Judged.{FitsTogether};

use crate::judged::PlanOf;
use crate::suspected::as_ring_left;
use kc_found::{Asked, Found, Items, ReadFailed, Verdict};
use kc_kinds::Kind;
use kc_outside::Store;
use kc_phys::Phys;
use kc_question::Returned;
use kc_repair::{
    FirstWalk, Judge, Repair, Repaired, RootAudit, Suspect, Suspects, judged_over, planned_walk,
    repair_left,
};
use kc_word::NoMemory;

// How many words are changed at most.
const MOST_WORDS: u32 = 8;

/// What is left where some words are changed.
#[derive(Clone, Copy)]
pub(crate) struct Left {
    /// The walk of the audit that finds a violation then.
    pub walk: Option<FirstWalk>,
    /// What repairs it.
    pub repair: Option<Repair>,
}

// What repairs a violation of a kind of structure, that is left where some words are changed.
fn left_as<'s, S: Store>(
    memory: Phys<'s, S>,
    over: &PlanOf<'_>,
    root: Asked,
    words: &[Suspect],
    kind: &Kind,
    found: &Found,
) -> Returned<Phys<'s, S>, Result<Option<Repair>, ReadFailed>>
    requires over { FitsTogether over.now }
    requires root { root.audit < length over.now.plan.now.audits }

    ensures exact { IfOk result.answer (λ left. IfSome (with_paging over.now.paging (stored memory.entry.segments.items memory.entry.tail (content (S.files memory.entry.store.now) Dump (S.opened memory.entry.store.now Dump))))
        (λ image. left ≡ Some (repair_left image (plan_seen over.now.plan.now) (root.audit, root.start) words.now kind.now found.now))) }
    ensures reads { OnlyReadsFrames (λ p. stored p.segments.items p.tail (content (S.files p.store.now) Dump (S.opened p.store.now Dump))) (λ p. S.files p.store.now) (λ p. p.store.ghost_name ∷ []) (λ p. S.faults p.store.now) result.answer memory.entry result.memory }
{
    let PlanOf { plan, types, .. } = *over;
    let audit = RootAudit { plan, types, root };
    let Repaired { memory, repair } = repair_left(
        over.alloc,
        memory,
        over.paging,
        &audit,
        words,
        kind,
        found,
    );
    match repair {
        Ok(repair) => Returned {
            memory,
            answer: Ok(Some(repair)),
        },
        Err(stop) => Returned {
            memory,
            answer: Err(stop),
        },
    }
}

// And as it is suspected.
fn left_found<'s, S: Store>(
    memory: Phys<'s, S>,
    over: &PlanOf<'_>,
    root: Asked,
    words: &[Suspect],
    found: &Found,
) -> Returned<Phys<'s, S>, Result<Option<Repair>, ReadFailed>>
    requires over { FitsTogether over.now }
    requires root { root.audit < length over.now.plan.now.audits }

    ensures exact { IfOk result.answer (λ left. IfSome (with_paging over.now.paging (stored memory.entry.segments.items memory.entry.tail (content (S.files memory.entry.store.now) Dump (S.opened memory.entry.store.now Dump))))
        (λ image. left ≡ left_by image (plan_seen over.now.plan.now) (root.audit, root.start) words.now (Broken found.now))) }
    ensures reads { OnlyReadsFrames (λ p. stored p.segments.items p.tail (content (S.files p.store.now) Dump (S.opened p.store.now Dump))) (λ p. S.files p.store.now) (λ p. p.store.ghost_name ∷ []) (λ p. S.faults p.store.now) result.answer memory.entry result.memory }
{
    if found.audit >= over.plan.count() {
        return Returned {
            memory,
            answer: Ok(None),
        };
    }
    let kind = &over.plan.audit(found.audit).kind;
    let Returned { memory, answer } = as_ring_left(memory, over, words, kind, found);
    match answer {
        Ok(Some(ring)) => left_as(memory, over, root, words, &ring.kind, &ring.found),
        Ok(None) => left_as(memory, over, root, words, kind, found),
        Err(stop) => Returned {
            memory,
            answer: Err(stop),
        },
    }
}

// The same where it comes to a verdict then, if that isn't that it stands.
fn left_by<'s, S: Store>(
    memory: Phys<'s, S>,
    over: &PlanOf<'_>,
    root: Asked,
    words: &[Suspect],
    verdict: Verdict,
) -> Returned<Phys<'s, S>, Result<Option<Repair>, ReadFailed>>
    requires over { FitsTogether over.now }
    requires root { root.audit < length over.now.plan.now.audits }

    ensures exact { IfOk result.answer (λ left. IfSome (with_paging over.now.paging (stored memory.entry.segments.items memory.entry.tail (content (S.files memory.entry.store.now) Dump (S.opened memory.entry.store.now Dump))))
        (λ image. left ≡ left_by image (plan_seen over.now.plan.now) (root.audit, root.start) words.now verdict)) }
    ensures reads { OnlyReadsFrames (λ p. stored p.segments.items p.tail (content (S.files p.store.now) Dump (S.opened p.store.now Dump))) (λ p. S.files p.store.now) (λ p. p.store.ghost_name ∷ []) (λ p. S.faults p.store.now) result.answer memory.entry result.memory }
{
    match verdict {
        Verdict::Broken(found) => left_found(memory, over, root, words, &found),
        Verdict::Clean(_) => Returned {
            memory,
            answer: Ok(None),
        },
    }
}

// The walk of the audit that finds a violation.
fn next_walk(over: &PlanOf<'_>, root: Asked, verdict: &Verdict) -> Option<FirstWalk>
    requires over { FitsTogether over.now }
    ensures exact { result ≡ next_walk (plan_seen over.now.plan.now) verdict.now }
    ensures inside { WalkInside (length over.now.types.now.records) result }
{
    let PlanOf { plan, types, .. } = *over;
    match verdict {
        Verdict::Broken(found) => planned_walk(&RootAudit { plan, types, root }, found),
        Verdict::Clean(_) => None,
    }
}

// What is left where some words are changed, by a walk that comes before the root audit.
fn left_after<'s, S: Store>(
    memory: Phys<'s, S>,
    over: &PlanOf<'_>,
    root: Asked,
    walk: Option<FirstWalk>,
    words: &[Suspect],
) -> Returned<Phys<'s, S>, Result<Left, ReadFailed>>
    requires over { FitsTogether over.now }
    requires root { root.audit < length over.now.plan.now.audits }
    requires walk { WalkInside (length over.now.types.now.records) walk }

    ensures exact { IfOk result.answer (λ left. IfSome (with_paging over.now.paging (stored memory.entry.segments.items memory.entry.tail (content (S.files memory.entry.store.now) Dump (S.opened memory.entry.store.now Dump))))
        (λ image. left ≡ left_after image (plan_seen over.now.plan.now) (root.audit, root.start) walk words.now)) }
    ensures inside { IfOk result.answer (λ left. WalkInside (length over.now.types.now.records) left.walk) }
    ensures reads { OnlyReadsFrames (λ p. stored p.segments.items p.tail (content (S.files p.store.now) Dump (S.opened p.store.now Dump))) (λ p. S.files p.store.now) (λ p. p.store.ghost_name ∷ []) (λ p. S.faults p.store.now) result.answer memory.entry result.memory }
{
    let PlanOf { plan, types, .. } = *over;
    let audit = RootAudit { plan, types, root };
    let by = Judge {
        audit: &audit,
        walk: &walk,
        only: None,
    };
    let Returned { memory, answer } = judged_over(over.alloc, memory, over.paging, &by, words);
    match answer {
        Ok(verdict) => with_walk(memory, over, root, words, verdict),
        Err(stop) => Returned {
            memory,
            answer: Err(stop),
        },
    }
}

// The same by what that comes to.
fn with_walk<'s, S: Store>(
    memory: Phys<'s, S>,
    over: &PlanOf<'_>,
    root: Asked,
    words: &[Suspect],
    verdict: Verdict,
) -> Returned<Phys<'s, S>, Result<Left, ReadFailed>>
    requires over { FitsTogether over.now }
    requires root { root.audit < length over.now.plan.now.audits }

    ensures exact { IfOk result.answer (λ left. IfSome (with_paging over.now.paging (stored memory.entry.segments.items memory.entry.tail (content (S.files memory.entry.store.now) Dump (S.opened memory.entry.store.now Dump))))
        (λ image. left ≡ left_of image (plan_seen over.now.plan.now) (root.audit, root.start) words.now verdict)) }
    ensures inside { IfOk result.answer (λ left. WalkInside (length over.now.types.now.records) left.walk) }
    ensures reads { OnlyReadsFrames (λ p. stored p.segments.items p.tail (content (S.files p.store.now) Dump (S.opened p.store.now Dump))) (λ p. S.files p.store.now) (λ p. p.store.ghost_name ∷ []) (λ p. S.faults p.store.now) result.answer memory.entry result.memory }
{
    let walk = next_walk(over, root, &verdict);
    let Returned { memory, answer } = left_by(memory, over, root, words, verdict);
    match answer {
        Ok(repair) => Returned {
            memory,
            answer: Ok(Left { walk, repair }),
        },
        Err(stop) => Returned {
            memory,
            answer: Err(stop),
        },
    }
}

// One word more, and what repairs what is left then.
fn lead<'s, S: Store>(
    memory: Phys<'s, S>,
    over: &PlanOf<'_>,
    root: Asked,
    walk: Option<FirstWalk>,
    words: &mut Suspects,
    suspect: Suspect,
) -> Returned<Phys<'s, S>, Result<Left, ReadFailed>>
    requires over { FitsTogether over.now }
    requires root { root.audit < length over.now.plan.now.audits }
    requires walk { WalkInside (length over.now.types.now.records) walk }

    ensures words { OnOk result.answer (words.new ≡ words.old ++ suspect ∷ []) }
    ensures exact { IfOk result.answer (λ left. IfSome (with_paging over.now.paging (stored memory.entry.segments.items memory.entry.tail (content (S.files memory.entry.store.now) Dump (S.opened memory.entry.store.now Dump))))
        (λ image. left ≡ left_after image (plan_seen over.now.plan.now) (root.audit, root.start) walk (words.old ++ suspect ∷ []))) }
    ensures inside { IfOk result.answer (λ left. WalkInside (length over.now.types.now.records) left.walk) }
    ensures reads { OnlyReadsFrames (λ p. stored p.segments.items p.tail (content (S.files p.store.now) Dump (S.opened p.store.now Dump))) (λ p. S.files p.store.now) (λ p. p.store.ghost_name ∷ []) (λ p. S.faults p.store.now) result.answer memory.entry result.memory }
{
    match words.push(suspect) {
        Ok(()) => left_after(memory, over, root, walk, words.as_slice()),
        Err(NoMemory) => Returned {
            memory,
            answer: Err(ReadFailed::NoMemory),
        },
    }
}

// The word that leads to another violation, where none repairs.
fn leads_on(left: &Option<Repair>) -> Option<Suspect>
    ensures { result ≡ leads_on left.now }
{
    match left {
        Some(
            Repair::Nothing {
                then: Some(next),
                ..
            },
        ) => Some(next.suspect),
        Some(Repair::Nothing { then: None, .. }) | Some(Repair::Stands(_)) | None => None,
    }
}

// The words with the one that repairs what is left, where there is one.
fn ended(words: Suspects, left: Option<Repair>) -> Result<Option<Suspects>, ReadFailed>
    ensures exact { IfOk result (λ all. all ≡ ended words left) }
    ensures cause { IfErr result (λ stop. stop ≡ OutOfMemory) }
{
    let Some(Repair::Stands(last)) = left else {
        return Ok(None);
    };
    let mut words = words;
    match words.push(last) {
        Ok(()) => Ok(Some(words)),
        Err(NoMemory) => Err(ReadFailed::NoMemory),
    }
}

/// The words that repair a root audit together, after what its violation was answered by. It fails where reading the dump does, whose count of
/// faults then rose, or where no memory was left.
pub(crate) fn chain<'s, S: Store>(
    memory: Phys<'s, S>,
    over: &PlanOf<'_>,
    root: Asked,
    first: Repair,
) -> Returned<Phys<'s, S>, Result<Option<Suspects>, ReadFailed>>
    requires over { FitsTogether over.now }
    requires root { root.audit < length over.now.plan.now.audits }

    ensures exact { IfOk result.answer (λ words. IfSome (with_paging over.now.paging (stored memory.entry.segments.items memory.entry.tail (content (S.files memory.entry.store.now) Dump (S.opened memory.entry.store.now Dump))))
        (λ image. words ≡ chain_of image (plan_seen over.now.plan.now) (root.audit, root.start) first)) }
    ensures reads { OnlyReadsFrames (λ p. stored p.segments.items p.tail (content (S.files p.store.now) Dump (S.opened p.store.now Dump))) (λ p. S.files p.store.now) (λ p. p.store.ghost_name ∷ []) (λ p. S.faults p.store.now) result.answer memory.entry result.memory }
{
    let mut memory = memory;
    let mut words = Items::new(over.alloc);
    let mut left = Left {
        walk: None,
        repair: Some(first),
    };
    for _i in 0..MOST_WORDS {
        let Some(suspect) = leads_on(&left.repair) else {
            return Returned {
                memory,
                answer: ended(words, left.repair),
            };
        };
        let tried = lead(memory, over, root, left.walk, &mut words, suspect);
        memory = tried.memory;
        match tried.answer {
            Ok(more) => left = more,
            Err(stop) => {
                return Returned {
                    memory,
                    answer: Err(stop),
                };
            }
        }
    }
    Returned {
        memory,
        answer: Ok(None),
    }
}
