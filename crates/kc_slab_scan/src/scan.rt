// Page frames, one after the other.
ghost use Rattle.std.specs.Prelude.{◌≡◌, Ok};
ghost use Rattle.kc_memory.specs.Stays.{SpaceStays};
ghost use Rattle.kc_found.specs.Walks.{CountsWalkFaults, OnBroken, WalksAs};
ghost use Rattle.kc_slab_page.specs.Frames.Frames.{frames_in, frames_of};
ghost use Rattle.kc_slab_page.specs.Caches.{caches_view};
ghost use Rattle.kc_slab_page.specs.Pages.{page_seen};
ghost use Rattle.kc_slab_scan.specs.Scans.{scan_from, scanned, with_page};

use crate::totals::Scan;
use kc_btf::Btf;
use kc_found::{Space, WalkStop};
use kc_slab_page::{FrameRun, PageShape, SlabCaches, look_at_page};
use kc_word::Steps;
use std::alloc::Global;
use std::sync::ledger::Ledger;

/// What tells which pages of a kernel are slabs.
#[derive(Clone, Copy)]
pub struct SlabPages<'p> {
    /// The kernel's types.
    pub btf: &'p Btf,
    /// Where the words stand that tell what a page is.
    pub shape: &'p PageShape,
    /// The slab caches.
    pub caches: &'p SlabCaches,
}

// Adds what the page with a number is.
fn scan_page<S: Space, L: Ledger>(
    alloc: Global,
    space: &mut S,
    pages: &SlabPages<'_>,
    number: u64,
    scan: &mut Scan,
    steps: &mut Steps<L>,
) -> Result<(), WalkStop>
    ensures exact { WalksAs (λ _. scan.new)
        (λ i. Ok (with_page scan.old (page_seen i pages.now.shape.now (caches_view pages.now.caches.now) number))) (S.image space.old) result }
    ensures broken { OnBroken result ⊥ }
    ensures stays { SpaceStays S.image S.files S.through S.most space.old space.new }
    ensures cause { CountsWalkFaults result (S.faults space.old) (S.faults space.new) }
{
    let page = look_at_page(
        alloc,
        space,
        pages.btf,
        pages.shape,
        pages.caches,
        number,
        steps,
    )?;
    scan.add_page(page)
}

// Adds what the page frames of a run are.
fn scan_run<S: Space, L: Ledger>(
    alloc: Global,
    space: &mut S,
    pages: &SlabPages<'_>,
    run: FrameRun,
    scan: &mut Scan,
    steps: &mut Steps<L>,
) -> Result<(), WalkStop>
    ensures exact { WalksAs (λ _. scan.new)
        (λ i. Ok (scan_from i pages.now.shape.now (caches_view pages.now.caches.now) scan.old (frames_in run))) (S.image space.old) result }
    ensures broken { OnBroken result ⊥ }
    ensures stays { SpaceStays S.image S.files S.through S.most space.old space.new }
    ensures cause { CountsWalkFaults result (S.faults space.old) (S.faults space.new) }
{
    let mut number = run.first;
    while number < run.end {
        match scan_page(alloc, space, pages, number, scan, steps) {
            Ok(()) => {}
            Err(stop) => return Err(stop),
        }
        number += 1;
    }
    Ok(())
}

/// What the page frames of these runs are, each looked at once, in their order.
///
/// # Errors
///
/// A failure of the space, whose count of faults then rose; or out of memory.
pub fn scan_frames<S: Space, L: Ledger>(
    alloc: Global,
    space: &mut S,
    pages: &SlabPages<'_>,
    runs: &[FrameRun],
    steps: &mut Steps<L>,
) -> Result<Scan, WalkStop>
    ensures exact { WalksAs (λ s. s) (λ i. Ok (scanned i pages.now.shape.now (caches_view pages.now.caches.now) (frames_of runs.now))) (S.image space.old) result }
    ensures broken { OnBroken result ⊥ }
    ensures stays { SpaceStays S.image S.files S.through S.most space.old space.new }
    ensures cause { CountsWalkFaults result (S.faults space.old) (S.faults space.new) }
{
    let mut scan = Scan::none(alloc);
    let mut i = 0;
    while i < runs.len() {
        match scan_run(alloc, space, pages, runs[i], &mut scan, steps) {
            Ok(()) => {}
            Err(stop) => return Err(stop),
        }
        i += 1;
    }
    Ok(scan)
}
