// The processors' slabs of each cache.
ghost use Rattle.std.specs.Prelude.{◌≡◌, IsTrue, Ok, OnOk};
ghost use Rattle.kc_memory.specs.Stays.{SpaceStays};
ghost use Rattle.kc_found.specs.Walks.{CountsWalkFaults, OnBroken, OnWalkFault, WalksAs};
ghost use Rattle.kc_slab_page.specs.Caches.{caches_view};
ghost use Rattle.kc_slab_page.specs.Slabs.{is_laid};
ghost use Rattle.kc_slab_scan.specs.CpuLists.{cpu_seen};
ghost use Rattle.kc_slab_scan.specs.CpuScans.{cache_from, cpus_scanned, none_seen, nodes_from, with_node, with_seen};

use crate::cpu_list::{CpuBroken, CpuSeen, LaidCache, look_at_cpu};
use crate::cpu_words::CpuShape;
use crate::cpus::{Cpu, Cpus};
use crate::scan::SlabPages;
use crate::totals::{added, push_item};
use kc_found::{Found, Items, Space, WalkStop, Walked};
use kc_slab_page::is_laid;
use kc_word::Steps;
use std::alloc::Global;
use std::sync::ledger::Ledger;

/// The processors of a kernel.
#[derive(Clone, Copy)]
pub struct Processors<'p> {
    /// Where the words stand that tell which slabs they own.
    pub shape: &'p CpuShape,
    /// Those that there may be.
    pub all: &'p Cpus,
}

/// A processor's slab of a cache that breaks a rule.
#[derive(Drop)]
pub struct BrokenCpu {
    /// The processor's number.
    pub cpu: u64,
    /// The virtual address of the cache.
    pub cache: u64,
    /// The virtual address that the processor has as the slab's descriptor.
    pub slab: u64,
    /// The first rule that it breaks.
    pub found: Found,
}

/// What was seen of processors' slabs. Each count stays at 2^64 - 1 once it is there.
#[derive(Drop)]
pub struct CpuScan {
    /// How many there are.
    pub slabs: u64,
    /// How many objects the lists of those have that break no rule.
    pub free: u64,
    /// How often what a processor has of a cache can't be read.
    pub unread: u64,
    /// Those that break a rule.
    pub broken: Items<BrokenCpu>,
}

impl CpuScan {
    // Nothing was seen.
    fn none(alloc: Global) -> CpuScan
        ensures { result ≡ none_seen }
    {
        CpuScan {
            slabs: 0,
            free: 0,
            unread: 0,
            broken: Items::new(alloc),
        }
    }

    // Adds what a processor has of a cache.
    fn add(&mut self, cache: u64, cpu: Cpu, seen: CpuSeen) -> Result<(), WalkStop>
        ensures added { OnOk result (self.new ≡ with_seen self.old cache cpu seen) }
        ensures broken { OnBroken result ⊥ }
        ensures no_fault { OnWalkFault result ⊥ }
    {
        match seen {
            CpuSeen::Unread => {
                self.unread = added(self.unread, 1);
                Ok(())
            }
            CpuSeen::Empty => Ok(()),
            CpuSeen::Whole(list) => {
                self.slabs = added(self.slabs, 1);
                self.free = added(self.free, list.free);
                Ok(())
            }
            CpuSeen::Broken(broken) => {
                self.slabs = added(self.slabs, 1);
                let CpuBroken { slab, found } = broken;
                push_item(
                    &mut self.broken,
                    BrokenCpu {
                        cpu: cpu.number,
                        cache,
                        slab,
                        found,
                    },
                )
            }
        }
    }
}

// Adds what a processor has of a cache whose objects lie so.
fn scan_cpu<S: Space, L: Ledger>(
    alloc: Global,
    space: &mut S,
    shape: &CpuShape,
    cache: &LaidCache<'_>,
    cpu: Cpu,
    scan: &mut CpuScan,
    steps: &mut Steps<L>,
) -> Result<(), WalkStop>
    requires { IsTrue (is_laid cache.now.objects.now) }
    ensures exact { WalksAs (λ _. scan.new)
        (λ i. Ok (with_seen scan.old cache.now.at cpu
        (cpu_seen i shape.now cache.now.shape.now cache.now.bases.now cache.now.objects.now cache.now.at cpu))) (S.image space.old) result }
    ensures broken { OnBroken result ⊥ }
    ensures stays { SpaceStays S.image S.files S.through S.most space.old space.new }
    ensures cause { CountsWalkFaults result (S.faults space.old) (S.faults space.new) }
{
    let seen = look_at_cpu(alloc, space, shape, cache, cpu, steps)?;
    scan.add(cache.at, cpu, seen)
}

// Adds what the processors have of a cache whose objects lie so.
fn scan_cache<S: Space, L: Ledger>(
    alloc: Global,
    space: &mut S,
    processors: &Processors<'_>,
    cache: &LaidCache<'_>,
    scan: &mut CpuScan,
    steps: &mut Steps<L>,
) -> Result<(), WalkStop>
    requires { IsTrue (is_laid cache.now.objects.now) }
    ensures exact { WalksAs (λ _. scan.new)
        (λ i. Ok (cache_from i processors.now.shape.now cache.now.shape.now cache.now.bases.now cache.now.objects.now cache.now.at scan.old
        processors.now.all.now)) (S.image space.old) result }
    ensures broken { OnBroken result ⊥ }
    ensures stays { SpaceStays S.image S.files S.through S.most space.old space.new }
    ensures cause { CountsWalkFaults result (S.faults space.old) (S.faults space.new) }
{
    let cpus = processors.all;
    let mut i = 0;
    while i < cpus.len() {
        let cpu = *cpus.get(i);
        match scan_cpu(alloc, space, processors.shape, cache, cpu, scan, steps) {
            Ok(()) => {}
            Err(stop) => return Err(stop),
        }
        i += 1;
    }
    Ok(())
}

// Adds what the processors have of the cache of a node of the ring of all caches, where it is one of these.
fn scan_node<S: Space, L: Ledger>(
    alloc: Global,
    space: &mut S,
    pages: &SlabPages<'_>,
    processors: &Processors<'_>,
    node: u64,
    scan: &mut CpuScan,
    steps: &mut Steps<L>,
) -> Result<(), WalkStop>
    ensures exact { WalksAs (λ _. scan.new)
        (λ i. Ok (with_node i processors.now.shape.now pages.now.shape.now.objects (caches_view pages.now.caches.now) processors.now.all.now scan.old node))
        (S.image space.old) result }
    ensures broken { OnBroken result ⊥ }
    ensures stays { SpaceStays S.image S.files S.through S.most space.old space.new }
    ensures cause { CountsWalkFaults result (S.faults space.old) (S.faults space.new) }
{
    let shape = &pages.shape.objects;
    let at = node.wrapping_sub(shape.cache_list);
    let Some(seen) = pages.caches.caches.get(&at) else {
        return Ok(());
    };
    let Ok(objects) = &seen.objects else {
        return Ok(());
    };
    if !is_laid(*objects) {
        return Ok(());
    }
    let cache = LaidCache {
        btf: pages.btf,
        shape: &shape.slub,
        bases: &pages.caches.bases,
        objects,
        at,
    };
    scan_cache(alloc, space, processors, &cache, scan, steps)
}

// The same of each of these nodes.
fn scan_nodes<S: Space, L: Ledger>(
    alloc: Global,
    space: &mut S,
    pages: &SlabPages<'_>,
    processors: &Processors<'_>,
    nodes: &Walked,
    steps: &mut Steps<L>,
) -> Result<CpuScan, WalkStop>
    ensures exact { WalksAs (λ s. s)
        (λ i. Ok (nodes_from i processors.now.shape.now pages.now.shape.now.objects (caches_view pages.now.caches.now) processors.now.all.now none_seen nodes.now))
        (S.image space.old) result }
    ensures broken { OnBroken result ⊥ }
    ensures stays { SpaceStays S.image S.files S.through S.most space.old space.new }
    ensures cause { CountsWalkFaults result (S.faults space.old) (S.faults space.new) }
{
    let mut scan = CpuScan::none(alloc);
    let mut i = 0;
    while i < nodes.len() {
        let node = *nodes.get(i);
        match scan_node(alloc, space, pages, processors, node, &mut scan, steps) {
            Ok(()) => {}
            Err(stop) => return Err(stop),
        }
        i += 1;
    }
    Ok(scan)
}

/// What these processors have of each of these caches, in the order in which the ring's nodes were reached.
///
/// # Errors
///
/// A failure of the space, whose count of faults then rose; or out of memory.
pub fn scan_cpus<S: Space, L: Ledger>(
    alloc: Global,
    space: &mut S,
    pages: &SlabPages<'_>,
    processors: &Processors<'_>,
    steps: &mut Steps<L>,
) -> Result<CpuScan, WalkStop>
    ensures exact { WalksAs (λ s. s)
        (λ i. Ok (cpus_scanned i processors.now.shape.now pages.now.shape.now.objects (caches_view pages.now.caches.now) processors.now.all.now))
        (S.image space.old) result }
    ensures broken { OnBroken result ⊥ }
    ensures stays { SpaceStays S.image S.files S.through S.most space.old space.new }
    ensures cause { CountsWalkFaults result (S.faults space.old) (S.faults space.new) }
{
    scan_nodes(alloc, space, pages, processors, &pages.caches.nodes, steps)
}
