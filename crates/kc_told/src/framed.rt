// What the descriptor of the page says that has an address.
ghost use Rattle.std.specs.Prelude.{◌≡◌, ◌++◌, OnOk};
ghost use Rattle.kc_memory.specs.Stays.{SpaceStays};
ghost use Rattle.kc_found.specs.Failures.{CountsFailures};
ghost use Rattle.kc_sight.specs.Looks.{LooksAs};
ghost use Rattle.kc_told.specs.Framed.{frame_at, frame_in, framed_lines, may_be_slab};

use crate::told::PageWords;
use kc_btf::Btf;
use kc_found::{Found, ReadFailed, WalkStop};
use kc_frame::{FrameShape, FrameWords, push_frame, read_frame};
use kc_memory::Space;
use kc_owner::{Held, Slab};
use kc_word::{NoMemory, Steps};
use std::alloc::Global;
use std::sync::ledger::Ledger;

// Whether a page is a slab's, or that can't be told.
fn may_be_slab(slab: &Result<Option<Slab>, Found>) -> bool
    ensures { result ≡ may_be_slab slab.now }
{
    match slab {
        Ok(None) => false,
        Ok(Some(_)) | Err(_) => true,
    }
}

// What a page's descriptor says, where the kernel has its words.
fn frame_at<S: Space, L: Ledger>(
    alloc: Global,
    space: &mut S,
    types: &Btf,
    held: &Held,
    shape: &Option<FrameShape>,
    steps: &mut Steps<L>,
) -> Result<Option<FrameWords>, ReadFailed>
    ensures told { LooksAs (λ f. f) (λ image. frame_at image held.now shape.now) (S.image space.old) result }
    ensures stays { SpaceStays S.image S.files S.through S.most space.old space.new }
    ensures cause { CountsFailures result (S.faults space.old) (S.faults space.new) }
{
    let Some(shape) = shape else {
        return Ok(None);
    };
    let slab = may_be_slab(&held.slab);
    match read_frame(alloc, space, types, shape, &held.page, slab, steps) {
        Ok(frame) => Ok(Some(frame)),
        Err(WalkStop::NoMemory) => Err(ReadFailed::NoMemory),
        Err(WalkStop::Fault | WalkStop::Broken(_)) => Err(ReadFailed::Fault),
    }
}

// That of the page that has an address, by what holds it.
pub(crate) fn tell_frame<S: Space, L: Ledger>(
    alloc: Global,
    space: &mut S,
    types: &Btf,
    words: &Option<PageWords>,
    held: &Option<Result<Held, Found>>,
    steps: &mut Steps<L>,
) -> Result<Option<FrameWords>, ReadFailed>
    ensures told { LooksAs (λ f. f) (λ image. frame_in image words.now held.now) (S.image space.old) result }
    ensures stays { SpaceStays S.image S.files S.through S.most space.old space.new }
    ensures cause { CountsFailures result (S.faults space.old) (S.faults space.new) }
{
    let Some(words) = words else {
        return Ok(None);
    };
    let Some(Ok(held)) = held else {
        return Ok(None);
    };
    frame_at(alloc, space, types, held, &words.frame, steps)
}

/// Adds the lines of what a page's descriptor says, where that is told.
pub(crate) fn push_framed(text: &mut Vec<u8>, frame: &Option<FrameWords>) -> Result<(), NoMemory>
    ensures { OnOk result (text.new.items ≡ text.old.items ++ framed_lines frame.now) }
{
    match frame {
        Some(frame) => push_frame(text, frame),
        None => Ok(()),
    }
}
