// What was seen so far.
ghost use Rattle.std.specs.Prelude.{◌≡◌, ◌∷◌, ◌++◌, [], OnOk};
ghost use Rattle.kc_found.specs.Walks.{OnBroken, OnWalkFault};
ghost use Rattle.kc_slab_scan.specs.Scans.{added, none_seen, with_absent, with_fenced, with_other, with_page, with_slab, with_state, with_unmarked, with_untold, with_whole};

use kc_found::{Items, WalkStop};
use kc_slab_page::{PageSeen, SlabFault, SlabFree, SlabSeen, SlabState};
use kc_word::NoMemory;
use std::alloc::Global;

/// How many were seen. Each count stays at 2^64 - 1 once it is there.
#[derive(Clone, Copy, Debug, PartialEq, Eq)]
pub struct Totals {
    /// Page frames that were looked at.
    pub frames: u64,
    /// Those whose descriptor can't be read.
    pub absent: u64,
    /// Those whose descriptor names one of the caches, and hasn't the mark of a slab's first page.
    pub unmarked: u64,
    /// Those of KFENCE's pool that have the mark of a slab's first page.
    pub fenced: u64,
    /// Slabs.
    pub slabs: u64,
    /// Of those that break no rule, the ones that a processor owns.
    pub frozen: u64,
    /// Their objects.
    pub objects: u64,
    /// Those of the objects that their slabs' own free lists have.
    pub free: u64,
    /// Slabs of caches of which it can't be told how their objects lie.
    pub untold: u64,
    /// Of those that break no rule, the ones at whose objects slub_debug keeps bytes that were looked at.
    pub guarded: u64,
}

/// A slab that breaks a rule.
#[derive(Drop)]
pub struct BrokenSlab {
    /// The virtual address of its descriptor.
    pub slab: u64,
    /// The virtual address of its cache.
    pub cache: u64,
    /// The first rule that it breaks.
    pub found: SlabFault,
}

/// What was seen of a dump's page frames.
#[derive(Drop)]
pub struct Scan {
    /// How many they are.
    pub totals: Totals,
    /// The slabs that break a rule, in the order of their page frames.
    pub broken: Items<BrokenSlab>,
}

impl Totals {
    // Nothing was seen.
    fn none() -> Totals
        ensures { result ≡ none_seen }
    {
        Totals {
            frames: 0,
            absent: 0,
            unmarked: 0,
            fenced: 0,
            slabs: 0,
            frozen: 0,
            objects: 0,
            free: 0,
            untold: 0,
            guarded: 0,
        }
    }
}

// A count with so many more.
pub(crate) fn added(count: u64, more: u64) -> u64
    ensures { result ≡ added count more }
{
    count.saturating_add(more)
}

// With a page whose descriptor can't be read.
fn with_absent(totals: Totals) -> Totals
    ensures { result ≡ with_absent totals }
{
    Totals {
        frames: added(totals.frames, 1),
        absent: added(totals.absent, 1),
        ..totals
    }
}

// With a page that is no slab.
fn with_other(totals: Totals) -> Totals
    ensures { result ≡ with_other totals }
{
    Totals {
        frames: added(totals.frames, 1),
        ..totals
    }
}

// With one that isn't marked as a slab.
fn with_unmarked(totals: Totals) -> Totals
    ensures { result ≡ with_unmarked totals }
{
    Totals {
        frames: added(totals.frames, 1),
        unmarked: added(totals.unmarked, 1),
        ..totals
    }
}

// With one of KFENCE's pool.
fn with_fenced(totals: Totals) -> Totals
    ensures { result ≡ with_fenced totals }
{
    Totals {
        frames: added(totals.frames, 1),
        fenced: added(totals.fenced, 1),
        ..totals
    }
}

// With a slab.
fn with_slab(totals: Totals) -> Totals
    ensures { result ≡ with_slab totals }
{
    Totals {
        frames: added(totals.frames, 1),
        slabs: added(totals.slabs, 1),
        ..totals
    }
}

// With what a whole slab has.
fn with_whole(totals: Totals, free: SlabFree) -> Totals
    ensures { result ≡ with_whole totals free }
{
    Totals {
        frozen: added(totals.frozen, u64::from(free.frozen)),
        objects: added(totals.objects, free.objects),
        free: added(totals.free, free.free),
        guarded: added(totals.guarded, u64::from(free.guarded)),
        ..totals
    }
}

// With a slab of which nothing can be told.
fn with_untold(totals: Totals) -> Totals
    ensures { result ≡ with_untold totals }
{
    Totals {
        untold: added(totals.untold, 1),
        ..totals
    }
}

// Adds an item to a list.
pub(crate) fn push_item<T: Drop>(items: &mut Items<T>, item: T) -> Result<(), WalkStop>
    ensures added { OnOk result (items.new ≡ items.old ++ item ∷ []) }
    ensures broken { OnBroken result ⊥ }
    ensures no_fault { OnWalkFault result ⊥ }
{
    match items.push(item) {
        Ok(()) => Ok(()),
        Err(NoMemory) => Err(WalkStop::NoMemory),
    }
}

impl Scan {
    // Nothing was seen.
    pub(crate) fn none(alloc: Global) -> Scan
        ensures { result ≡ record { totals = none_seen; broken = [] } }
    {
        Scan {
            totals: Totals::none(),
            broken: Items::new(alloc),
        }
    }

    // Adds what a slab is.
    fn add_slab(&mut self, seen: SlabSeen) -> Result<(), WalkStop>
        ensures added { OnOk result (self.new ≡ with_state self.old seen) }
        ensures broken { OnBroken result ⊥ }
        ensures no_fault { OnWalkFault result ⊥ }
    {
        self.totals = with_slab(self.totals);
        let SlabSeen { slab, cache, state } = seen;
        match state {
            SlabState::Whole(free) => {
                self.totals = with_whole(self.totals, free);
                Ok(())
            }
            SlabState::Broken(found) => push_item(
                &mut self.broken,
                BrokenSlab { slab, cache, found },
            ),
            SlabState::Untold => {
                self.totals = with_untold(self.totals);
                Ok(())
            }
        }
    }

    // Adds what a page is.
    pub(crate) fn add_page(&mut self, page: PageSeen) -> Result<(), WalkStop>
        ensures added { OnOk result (self.new ≡ with_page self.old page) }
        ensures broken { OnBroken result ⊥ }
        ensures no_fault { OnWalkFault result ⊥ }
    {
        match page {
            PageSeen::Absent => {
                self.totals = with_absent(self.totals);
                Ok(())
            }
            PageSeen::Other => {
                self.totals = with_other(self.totals);
                Ok(())
            }
            PageSeen::Unmarked => {
                self.totals = with_unmarked(self.totals);
                Ok(())
            }
            PageSeen::Fenced => {
                self.totals = with_fenced(self.totals);
                Ok(())
            }
            PageSeen::Slab(seen) => self.add_slab(seen),
        }
    }
}
