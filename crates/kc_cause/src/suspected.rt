// As what a violation is suspected.
ghost use Rattle.std.specs.Prelude.{◌≡◌, ◌∷◌, [], length, IfOk, IfSome};
ghost use Rattle.kc_outside.specs.declared.store.Slot.TheVariants.{Dump};
ghost use Rattle.kc_outside.specs.Files.{content};
ghost use Rattle.kc_phys.specs.Stored.{stored};
ghost use Rattle.kc_repair.specs.Repairs.{with_words};
ghost use Rattle.kc_mem.specs.Paged.{with_paging};
ghost use Rattle.kc_kinds.specs.declared.kind.Kind.TheVariants.{Slub, Tasks};
ghost use Rattle.kc_kinds.specs.Inside.{KindInside};
ghost use Rattle.kc_view.specs.TaskLists.{IsInside};
ghost use Rattle.kc_repair.specs.Suspect.Answers.{OnlyReads, OnlyReadsFrames};
ghost use Rattle.kc_cause.specs.Judged.{FitsTogether};
ghost use Rattle.kc_cause.specs.Suspected.{in_ring, suspected, suspected_view};
ghost use Rattle.kc_found.specs.Failures.{CountsFailures};

use crate::judged::PlanOf;
use crate::rings::{cache_ring, task_ring};
use kc_found::{Found, ListShape, ReadFailed, Space, WalkStop};
use kc_kinds::Kind;
use kc_list::ring;
use kc_memory::Frames;
use kc_outside::Store;
use kc_phys::Phys;
use kc_question::{Question, Returned, ask_over};
use kc_repair::{Suspect, ask_changed};
use kc_view::{SlubShape, TaskShape};
use kc_which::{partial_head, ring_head};
use kc_word::Steps;
use std::sync::ledger::Ledger;

/// A violation of a list of tasks or of a slab cache, as the walk of that list alone finds it.
#[derive(Drop)]
pub struct AsRing {
    /// The kind, a ring.
    pub kind: Kind,
    /// The violation, which starts at the list's head.
    pub found: Found,
}

// The violation of a ring with a head.
fn walk_ring<M: Space, L: Ledger>(
    over: &PlanOf<'_>,
    memory: &mut M,
    kind: &Kind,
    found: &Found,
    list: ListShape,
    head: u64,
    steps: &mut Steps<L>,
) -> Result<Option<AsRing>, ReadFailed>
    ensures exact { IfSome (M.image memory.old) (λ image. IfOk result (λ r. suspected_view kind.now found.now r ≡ in_ring image kind.now found.now list head)) }
    ensures reads { OnlyReads M.image M.files M.through M.most M.faults result memory.old memory.new }
{
    match ring(over.alloc, memory, &list, head, found.audit, steps) {
        Ok(_) => Ok(None),
        Err(WalkStop::Broken(found)) => Ok(Some(AsRing {
            kind: Kind::Ring(list),
            found,
        })),
        Err(WalkStop::Fault) => Err(ReadFailed::Fault),
        Err(WalkStop::NoMemory) => Err(ReadFailed::NoMemory),
    }
}

// One that lies in a ring of tasks, as that of the ring.
fn in_tasks<M: Space, L: Ledger>(
    over: &PlanOf<'_>,
    memory: &mut M,
    kind: &Kind,
    shape: &TaskShape,
    found: &Found,
    steps: &mut Steps<L>,
) -> Result<Option<AsRing>, ReadFailed>
    requires kind { kind.now ≡ Tasks shape.now }
    requires inside { IsInside shape.now over.now.types.now }
    ensures exact { IfSome (M.image memory.old) (λ image. IfOk result (λ r. suspected_view kind.now found.now r ≡ suspected image found.now kind.now)) }
    ensures reads { OnlyReads M.image M.files M.through M.most M.faults result memory.old memory.new }
{
    let Some(ring) = task_ring(over, memory, shape, found, steps)? else {
        return Ok(None);
    };
    let head = ring_head(shape, found.start, ring);
    walk_ring(over, memory, kind, found, shape.list, head, steps)
}

// One that lies in a partial list, as that of the list.
fn in_cache<M: Space, L: Ledger>(
    over: &PlanOf<'_>,
    memory: &mut M,
    kind: &Kind,
    shape: &SlubShape,
    found: &Found,
    steps: &mut Steps<L>,
) -> Result<Option<AsRing>, ReadFailed>
    requires kind { kind.now ≡ Slub shape.now }
    ensures exact { IfSome (M.image memory.old) (λ image. IfOk result (λ r. suspected_view kind.now found.now r ≡ suspected image found.now kind.now)) }
    ensures reads { OnlyReads M.image M.files M.through M.most M.faults result memory.old memory.new }
{
    let Some(list) = cache_ring(over, memory, shape, found, steps)? else {
        return Ok(None);
    };
    let head = partial_head(shape, list);
    walk_ring(over, memory, kind, found, shape.list, head, steps)
}

// The question as what a violation is suspected, that an audit of this kind found.
#[derive(Clone, Copy)]
struct Suspecting<'q> {
    over: &'q PlanOf<'q>,
    kind: &'q Kind,
    found: &'q Found,
}

impl<'q> Question for Suspecting<'q> {
    type Answer = Result<Option<AsRing>, ReadFailed>;

    ghost may = { λ of. KindInside (length of.over.now.types.now.records) of.kind.now };

    ghost says = { λ of image answer. IfOk answer (λ r. suspected_view of.kind.now of.found.now r ≡ suspected image of.found.now of.kind.now) };

    ghost leaves = { λ _ answer before after. CountsFailures answer before after };

    fn ask<M: Space, L: Ledger>(
        &self,
        memory: &mut M,
        steps: &mut Steps<L>,
    ) -> Result<Option<AsRing>, ReadFailed> {
        let Suspecting { over, kind, found } = *self;
        match kind {
            Kind::Tasks(shape) => in_tasks(over, memory, kind, shape, found, steps),
            Kind::Slub(shape) => in_cache(over, memory, kind, shape, found, steps),
            _ => Ok(None),
        }
    }
}

/// As what a violation is suspected, over the physical memory of a dump.
///
/// # Errors
///
/// A failed call of the store; no memory was left.
pub(crate) fn as_ring_over<F: Frames>(
    memory: F,
    over: &PlanOf<'_>,
    kind: &Kind,
    found: &Found,
) -> Returned<F, Result<Option<AsRing>, ReadFailed>>
    requires over { FitsTogether over.now }
    requires inside { KindInside (length over.now.types.now.records) kind.now }

    ensures exact { IfSome (with_paging over.now.paging (F.image memory))
        (λ image. IfOk result.answer (λ r. suspected_view kind.now found.now r ≡ suspected image found.now kind.now)) }
    ensures reads { OnlyReadsFrames F.image F.files F.through F.faults result.answer memory result.memory }
{
    let question = Suspecting { over, kind, found };
    let Returned { memory, answer } = ask_over(over.alloc, memory, over.paging, &question);
    Returned {
        memory,
        answer: answer.unwrap_or(Err(ReadFailed::NoMemory)),
    }
}

/// As what one is suspected that is left where some words are changed.
///
/// # Errors
///
/// A failed call of the store; no memory was left.
pub(crate) fn as_ring_left<'s, S: Store>(
    memory: Phys<'s, S>,
    over: &PlanOf<'_>,
    words: &[Suspect],
    kind: &Kind,
    found: &Found,
) -> Returned<Phys<'s, S>, Result<Option<AsRing>, ReadFailed>>
    requires over { FitsTogether over.now }
    requires inside { KindInside (length over.now.types.now.records) kind.now }

    ensures exact { IfSome (with_paging over.now.paging (stored memory.entry.segments.items memory.entry.tail (content (S.files memory.entry.store.now) Dump (S.opened memory.entry.store.now Dump))))
        (λ image. IfOk result.answer (λ r. suspected_view kind.now found.now r ≡ suspected (with_words image words.now) found.now kind.now)) }
    ensures reads { OnlyReadsFrames (λ p. stored p.segments.items p.tail (content (S.files p.store.now) Dump (S.opened p.store.now Dump))) (λ p. S.files p.store.now) (λ p. p.store.ghost_name ∷ []) (λ p. S.faults p.store.now) result.answer memory.entry result.memory }
{
    let question = Suspecting { over, kind, found };
    let Returned { memory, answer } = ask_changed(
        over.alloc,
        memory,
        over.paging,
        words,
        &question,
    );
    Returned {
        memory,
        answer: answer.unwrap_or(Err(ReadFailed::NoMemory)),
    }
}
