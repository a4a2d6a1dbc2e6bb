// One look at each page frame of a dump.
ghost use Rattle.std.specs.Prelude.{◌≡◌, ◌≤◌, ⊤, IfOk, IfSome};
ghost use Rattle.std.specs.List.{All};
ghost use Rattle.std.specs.Option.{option_copied};
ghost use Rattle.kc_outside.specs.declared.store.Slot.TheVariants.{Dump};
ghost use Rattle.kc_outside.specs.Counts.{Rose};
ghost use Rattle.kc_outside.specs.Files.{content};
ghost use Rattle.kc_memory.specs.Stays.{SpaceStays};
ghost use Rattle.kc_phys.specs.Stored.{AreInside};
ghost use Rattle.kc_found.specs.Failures.{CountsFailures};
ghost use Rattle.kc_found.specs.Walks.{CountsWalkFaults, OnBroken, WalksAs};
ghost use Rattle.kc_question.specs.Memory.{bare_image};
ghost use Rattle.kc_command.specs.Halts.{NotRefused, OnStore, UnlessStore};
ghost use Rattle.kc_command.specs.Paging.{IsTable, by_info};
ghost use Rattle.kc_slab_page.specs.Caches.{caches_view};
ghost use Rattle.kc_slab_page.specs.Frames.Frames.{frames, frames_of, in_memory};
ghost use Rattle.kc_slabs.specs.Looking.{owned_by, owned_in, seen_in, seen_view, told_view};

use kc_btf::Btf;
use kc_command::{Halt, paging_by};
use kc_elf::Core;
use kc_found::{Found, ReadFailed, Space, WalkStop};
use kc_notes::Info;
use kc_outside::Store;
use kc_question::{Question, ask_dump};
use kc_slab_page::{FrameRun, PageShape, SlabCaches, frame_runs, read_caches};
use kc_slab_scan::{
    CpuScan, CpuShape, Processors, Scan, SlabPages, read_cpus, scan_cpus, scan_frames,
};
use kc_word::{Steps, Tail};
use std::alloc::Global;
use std::sync::ledger::Ledger;

/// Where a kernel has the words that tell of its slabs.
#[derive(Clone, Copy, Debug, PartialEq, Eq)]
pub struct SlabShapes {
    /// Those that tell what a page is.
    pub pages: PageShape,
    /// Those that tell which slabs processors own, where the kernel has them.
    pub cpus: Option<CpuShape>,
}

/// What was seen of processors' slabs.
#[derive(Drop)]
pub struct CpusSeen {
    /// How many processors there may be.
    pub count: u64,
    /// What they have of the caches.
    pub scan: CpuScan,
}

/// What was seen of a dump's slabs.
#[derive(Drop)]
pub struct SlabsSeen {
    /// The caches.
    pub caches: SlabCaches,
    /// What the page frames are.
    pub scan: Scan,
    /// What processors have, or why that can't be told; `None` where the kernel lacks the words that tell it.
    pub cpus: Option<Result<CpusSeen, Found>>,
}

// The question what the slabs of these page frames are: of a cache, or all.
#[derive(Drop)]
pub(crate) struct EachSlab<'q> {
    pub(crate) alloc: Global,
    pub(crate) btf: &'q Btf,
    pub(crate) shapes: &'q SlabShapes,
    pub(crate) wanted: Option<&'q [u8]>,
    pub(crate) runs: &'q [FrameRun],
}

// What processors have of these caches.
fn read_owned<S: Space, L: Ledger>(
    alloc: Global,
    space: &mut S,
    pages: &SlabPages<'_>,
    shape: &CpuShape,
    steps: &mut Steps<L>,
) -> Result<CpusSeen, WalkStop>
    ensures exact { WalksAs (λ s. s) (λ i. owned_in i pages.now.shape.now shape.now (caches_view pages.now.caches.now)) (S.image space.old) result }
    ensures stays { SpaceStays S.image S.files S.through S.most space.old space.new }
    ensures cause { CountsWalkFaults result (S.faults space.old) (S.faults space.new) }
{
    let all = read_cpus(alloc, space, shape, steps)?;
    let processors = Processors { shape, all: &all };
    let scan = scan_cpus(alloc, space, pages, &processors, steps)?;
    Ok(CpusSeen {
        count: all.len() as u64,
        scan,
    })
}

// The same, or why it can't be told.
fn tell_owned<S: Space, L: Ledger>(
    alloc: Global,
    space: &mut S,
    pages: &SlabPages<'_>,
    shape: &Option<CpuShape>,
    steps: &mut Steps<L>,
) -> Result<Option<Result<CpusSeen, Found>>, WalkStop>
    ensures exact { WalksAs (λ s. s) (λ i. Ok (owned_by i pages.now.shape.now (caches_view pages.now.caches.now) shape.now)) (S.image space.old) result }
    ensures broken { OnBroken result ⊥ }
    ensures stays { SpaceStays S.image S.files S.through S.most space.old space.new }
    ensures cause { CountsWalkFaults result (S.faults space.old) (S.faults space.new) }
{
    let Some(shape) = shape else {
        return Ok(None);
    };
    match read_owned(alloc, space, pages, shape, steps) {
        Ok(seen) => Ok(Some(Ok(seen))),
        Err(WalkStop::Broken(found)) => Ok(Some(Err(found))),
        Err(WalkStop::Fault) => Err(WalkStop::Fault),
        Err(WalkStop::NoMemory) => Err(WalkStop::NoMemory),
    }
}

// What the slabs are that are asked for.
pub(crate) fn read_seen<S: Space, L: Ledger>(
    space: &mut S,
    asks: &EachSlab<'_>,
    steps: &mut Steps<L>,
) -> Result<SlabsSeen, WalkStop>
    ensures exact { WalksAs seen_view
        (λ i. seen_in i asks.now.shapes.now (option_copied asks.now.wanted) (frames_of asks.now.runs.now)) (S.image space.old) result }
    ensures stays { SpaceStays S.image S.files S.through S.most space.old space.new }
    ensures cause { CountsWalkFaults result (S.faults space.old) (S.faults space.new) }
{
    let alloc = asks.alloc;
    let shape = &asks.shapes.pages;
    let caches = read_caches(alloc, space, asks.btf, shape, asks.wanted, steps)?;
    let pages = SlabPages {
        btf: asks.btf,
        shape,
        caches: &caches,
    };
    let scan = scan_frames(alloc, space, &pages, asks.runs, steps)?;
    let cpus = tell_owned(alloc, space, &pages, &asks.shapes.cpus, steps)?;
    Ok(SlabsSeen { caches, scan, cpus })
}

impl<'q> Question for EachSlab<'q> {
    type Answer = Result<Result<SlabsSeen, Found>, ReadFailed>;

    ghost may = { λ of. ⊤ };

    ghost says = { λ of image answer. IfOk answer (λ told. seen_in image of.shapes.now (option_copied of.wanted) (frames_of of.runs.now) ≡ told_view told) };

    ghost leaves = { λ of answer before after. CountsFailures answer before after };

    fn ask<M: Space, L: Ledger>(
        &self,
        memory: &mut M,
        steps: &mut Steps<L>,
    ) -> Result<Result<SlabsSeen, Found>, ReadFailed> {
        match read_seen(memory, self, steps) {
            Ok(seen) => Ok(Ok(seen)),
            Err(WalkStop::Broken(found)) => Ok(Err(found)),
            Err(WalkStop::Fault) => Err(ReadFailed::Fault),
            Err(WalkStop::NoMemory) => Err(ReadFailed::NoMemory),
        }
    }
}

// What the slabs of the dump in slot Dump are, whose segments and notes were read, or why its caches can't be told.
fn ask_slabs<S: Store>(
    alloc: Global,
    store: &mut S,
    core: &Core,
    info: Info,
    btf: &Btf,
    shapes: &SlabShapes,
    wanted: Option<&[u8]>,
) -> Result<Result<SlabsSeen, Found>, ReadFailed>
    requires table { IsTable info.table }
    requires inside { AreInside (S.sizes store.old Dump) core.now.segments }
    requires memory { All in_memory core.now.segments }

    ensures told { IfOk result (λ seen. IfSome (content (S.files store.old) Dump (S.opened store.old Dump)) (λ bytes.
        told_view seen ≡ seen_in (bare_image bytes core.now.segments (by_info info)) shapes.now (option_copied wanted.entry) (frames core.now.segments))) }
    ensures files { S.files store.new ≡ S.files store.old }
    ensures cause { CountsFailures result (S.faults store.old) (S.faults store.new) }
{
    let segments = core.segments();
    let paging = paging_by(info);
    let runs = frame_runs(alloc, segments)?;
    let asks = EachSlab {
        alloc,
        btf,
        shapes,
        wanted,
        runs: &runs,
    };
    ask_dump(alloc, store, segments, Tail::Absent, paging, &asks)?
}

/// The same, with a failure as what halts a command.
///
/// # Errors
///
/// A failed call of the store; no memory was left.
pub(crate) fn look_at<S: Store>(
    alloc: Global,
    store: &mut S,
    core: &Core,
    info: Info,
    btf: &Btf,
    shapes: &SlabShapes,
    wanted: Option<&[u8]>,
) -> Result<Result<SlabsSeen, Found>, Halt>
    requires table { IsTable info.table }
    requires inside { AreInside (S.sizes store.old Dump) core.now.segments }
    requires memory { All in_memory core.now.segments }

    ensures told { IfOk result (λ seen. IfSome (content (S.files store.old) Dump (S.opened store.old Dump)) (λ bytes.
        told_view seen ≡ seen_in (bare_image bytes core.now.segments (by_info info)) shapes.now (option_copied wanted.entry) (frames core.now.segments))) }
    ensures not_refused { NotRefused result }
    ensures files { S.files store.new ≡ S.files store.old }
    ensures later { S.faults store.old ≤ S.faults store.new }
    ensures quiet { UnlessStore result (S.faults store.new ≡ S.faults store.old) }
    ensures cause { OnStore result (Rose (S.faults store.old) (S.faults store.new)) }
{
    match ask_slabs(alloc, store, core, info, btf, shapes, wanted) {
        Ok(seen) => Ok(seen),
        Err(ReadFailed::Fault) => Err(Halt::Store),
        Err(ReadFailed::NoMemory) => Err(Halt::Memory),
    }
}
