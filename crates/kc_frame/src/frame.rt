// What a page's descriptor says.
ghost use Rattle.std.specs.Prelude.{◌≡◌, Ok};
ghost use Rattle.kc_memory.specs.Stays.{SpaceStays};
ghost use Rattle.kc_found.specs.Walks.{CountsWalkFaults, OnBroken, WalksAs};
ghost use Rattle.kc_frame.specs.Frames.{frame_by, frame_of, frame_with, free_at, is_marked};

use crate::block::{FreeBlock, read_block};
use crate::shape::FrameShape;
use crate::words::{FrameFlags, FrameMapping, read_flags, read_mapping};
use crate::zone::read_zone_name;
use kc_btf::Btf;
use kc_found::{Name, Space, WalkStop};
use kc_owner::{Page, view_at};
use kc_slab_page::read_mark;
use kc_view::View;
use kc_word::Steps;
use std::alloc::Global;
use std::sync::ledger::Ledger;

/// What a page's descriptor says. What the kernel lacks, or what can't be read, is `None`.
#[derive(Drop)]
pub struct FrameWords {
    /// Its flags and its count.
    pub flags: Option<FrameFlags>,
    /// What it belongs to. A page that is a slab's belongs to nothing else.
    pub mapping: Option<FrameMapping>,
    /// The free block that has it.
    pub free: Option<FreePage>,
}

/// A free page.
#[derive(Drop)]
pub struct FreePage {
    /// The free block that has it.
    pub block: FreeBlock,
    /// The name of its zone, where that is told.
    pub zone: Option<Name>,
}

// The free block that has a page, with the page's zone.
fn read_free<S: Space, L: Ledger>(
    alloc: Global,
    space: &mut S,
    btf: &Btf,
    shape: &FrameShape,
    page: &Page,
    steps: &mut Steps<L>,
) -> Result<Option<FreePage>, WalkStop>
    ensures exact { WalksAs (λ f. f) (λ i. Ok (free_at i shape.now page.now)) (S.image space.old) result }
    ensures broken { OnBroken result ⊥ }
    ensures stays { SpaceStays S.image S.files S.through S.most space.old space.new }
    ensures cause { CountsWalkFaults result (S.faults space.old) (S.faults space.new) }
{
    let Some(block) = read_block(alloc, space, btf, shape, page, steps)? else {
        return Ok(None);
    };
    let zone = read_zone_name(alloc, space, btf, &shape.zones, page.number, steps)?;
    Ok(Some(FreePage { block, zone }))
}

// What the words of a page say that isn't a slab's.
fn frame_with<S: Space, L: Ledger>(
    alloc: Global,
    space: &mut S,
    btf: &Btf,
    shape: &FrameShape,
    page: &Page,
    flags: Option<FrameFlags>,
    steps: &mut Steps<L>,
) -> Result<FrameWords, WalkStop>
    ensures exact { WalksAs (λ f. f) (λ i. Ok (frame_with i shape.now page.now flags)) (S.image space.old) result }
    ensures broken { OnBroken result ⊥ }
    ensures stays { SpaceStays S.image S.files S.through S.most space.old space.new }
    ensures cause { CountsWalkFaults result (S.faults space.old) (S.faults space.new) }
{
    let head = view_at(btf, page.head);
    let mapping = read_mapping(alloc, space, &head, shape, steps)?;
    let free = read_free(alloc, space, btf, shape, page, steps)?;
    Ok(FrameWords {
        flags,
        mapping,
        free,
    })
}

// What a page's words say, where that it is a slab's is known.
fn frame_by<S: Space, L: Ledger>(
    alloc: Global,
    space: &mut S,
    btf: &Btf,
    shape: &FrameShape,
    page: &Page,
    slab: bool,
    steps: &mut Steps<L>,
) -> Result<FrameWords, WalkStop>
    ensures exact { WalksAs (λ f. f) (λ i. Ok (frame_by i shape.now page.now slab)) (S.image space.old) result }
    ensures broken { OnBroken result ⊥ }
    ensures stays { SpaceStays S.image S.files S.through S.most space.old space.new }
    ensures cause { CountsWalkFaults result (S.faults space.old) (S.faults space.new) }
{
    let head = view_at(btf, page.head);
    let flags = read_flags(alloc, space, &head, shape, slab, steps)?;
    if slab {
        Ok(FrameWords {
            flags,
            mapping: None,
            free: None,
        })
    } else {
        frame_with(alloc, space, btf, shape, page, flags, steps)
    }
}

// The head page of a page has the mark of a slab.
fn is_marked<S: Space, L: Ledger>(
    alloc: Global,
    space: &mut S,
    shape: &FrameShape,
    head: &View<'_>,
    steps: &mut Steps<L>,
) -> Result<bool, WalkStop>
    ensures exact { WalksAs (λ b. b) (λ i. Ok (is_marked i shape.now.slab head.now.at)) (S.image space.old) result }
    ensures broken { OnBroken result ⊥ }
    ensures stays { SpaceStays S.image S.files S.through S.most space.old space.new }
    ensures cause { CountsWalkFaults result (S.faults space.old) (S.faults space.new) }
{
    let Some(mark) = &shape.slab else {
        return Ok(false);
    };
    match read_mark(alloc, space, head, mark, steps)? {
        Some(marked) => Ok(marked),
        None => Ok(false),
    }
}

/// What a page's descriptor says, by that of its head page; of a page that is a slab's only its flags and its count: it is one where that is
/// told, or where it has the mark of one. The free block is looked for by the descriptors of those pages that can begin it.
///
/// # Errors
///
/// A failure of the space, whose count of faults then rose; or out of memory.
pub fn read_frame<S: Space, L: Ledger>(
    alloc: Global,
    space: &mut S,
    btf: &Btf,
    shape: &FrameShape,
    page: &Page,
    slab: bool,
    steps: &mut Steps<L>,
) -> Result<FrameWords, WalkStop>
    ensures exact { WalksAs (λ f. f) (λ i. Ok (frame_of i shape.now page.now slab)) (S.image space.old) result }
    ensures broken { OnBroken result ⊥ }
    ensures stays { SpaceStays S.image S.files S.through S.most space.old space.new }
    ensures cause { CountsWalkFaults result (S.faults space.old) (S.faults space.new) }
{
    let marked = is_marked(alloc, space, shape, &view_at(btf, page.head), steps)?;
    frame_by(alloc, space, btf, shape, page, slab || marked, steps)
}
