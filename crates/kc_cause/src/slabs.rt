// What kslab finds in the slabs of the cache in which a violation lies.
ghost use Rattle.std.specs.Prelude.{◌≡◌, ◌++◌, IfOk, IfSome, OnOk};
ghost use Rattle.kc_repair.specs.Suspect.Answers.{OnlyReads};
ghost use Rattle.kc_slab_page.specs.Frames.Frames.{frames_of};
ghost use Rattle.kc_slabs.specs.Looking.{told_view};
ghost use Rattle.kc_slabs.specs.OfCache.{of_cache};
ghost use Rattle.kc_cause.specs.Explained.{slabs_by, slabs_lines};
ghost use Rattle.kc_cause.specs.Judged.{over_plan};

use crate::judged::PlanOf;
use kc_found::{Found, ReadFailed, Space, WalkStop};
use kc_kinds::Kind;
use kc_slabs::{SlabFrames, SlabShapes, SlabsSeen, push_cache_line, see_cache};
use kc_word::Steps;
use std::sync::ledger::Ledger;

// What is seen of the slabs of a cache, or why that can't be told.
fn look_at_slabs<M: Space, L: Ledger>(
    over: &PlanOf<'_>,
    memory: &mut M,
    shapes: &SlabShapes,
    cache: u64,
    steps: &mut Steps<L>,
) -> Result<Result<SlabsSeen, Found>, ReadFailed>
    ensures exact { IfSome (M.image memory.old) (λ image. IfOk result (λ seen. told_view seen ≡ of_cache image shapes.now cache (frames_of over.now.runs.now))) }
    ensures reads { OnlyReads M.image M.files M.through M.most M.faults result memory.old memory.new }
{
    let frames = SlabFrames {
        btf: over.types,
        shapes,
        runs: over.runs,
    };
    match see_cache(over.alloc, memory, &frames, cache, steps) {
        Ok(seen) => Ok(Ok(seen)),
        Err(WalkStop::Broken(found)) => Ok(Err(found)),
        Err(WalkStop::Fault) => Err(ReadFailed::Fault),
        Err(WalkStop::NoMemory) => Err(ReadFailed::NoMemory),
    }
}

// The line of the slabs of a cache, where the kernel has what tells of slabs.
fn push_slabs_of<M: Space, L: Ledger>(
    text: &mut Vec<u8>,
    over: &PlanOf<'_>,
    memory: &mut M,
    cache: u64,
    steps: &mut Steps<L>,
) -> Result<(), ReadFailed>
    ensures added { OnOk result (IfSome (M.image memory.old) (λ image. text.new.items ≡ text.old.items ++ slabs_by image (frames_of over.now.runs.now) cache over.now.slabs)) }
    ensures reads { OnlyReads M.image M.files M.through M.most M.faults result memory.old memory.new }
{
    let Some(shapes) = &over.slabs else {
        return Ok(());
    };
    let seen = look_at_slabs(over, memory, shapes, cache, steps)?;
    Ok(push_cache_line(text, cache, &seen)?)
}

/// Adds what kslab finds in the slabs of the cache that a violation starts at, where an audit of slab caches found it.
///
/// # Errors
///
/// A failed call of the store; no memory was left.
pub(crate) fn push_slabs<M: Space, L: Ledger>(
    text: &mut Vec<u8>,
    over: &PlanOf<'_>,
    memory: &mut M,
    kind: &Kind,
    found: &Found,
    steps: &mut Steps<L>,
) -> Result<(), ReadFailed>
    ensures added { OnOk result (IfSome (M.image memory.old) (λ image. text.new.items ≡ text.old.items ++ slabs_lines (over_plan over.now image) found.now kind.now)) }
    ensures reads { OnlyReads M.image M.files M.through M.most M.faults result memory.old memory.new }
{
    match kind {
        Kind::Slub(_) => push_slabs_of(text, over, memory, found.start, steps),
        _ => Ok(()),
    }
}
