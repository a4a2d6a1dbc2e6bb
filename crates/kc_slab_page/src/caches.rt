// The slab caches of a kernel.
ghost use Rattle.std.specs.Prelude.{◌≡◌, [], Ok, OnOk};
ghost use Rattle.std.specs.Option.{option_copied};
ghost use Rattle.std.specs.Ordering.{nat_cmp};
ghost use Rattle.std.specs.BTreeMap.{insert_entry};
ghost use Rattle.kc_memory.specs.Stays.{SpaceStays};
ghost use Rattle.kc_found.specs.Walks.{CountsWalkFaults, OnBroken, OnWalkFault, WalksAs};
ghost use Rattle.kc_view.specs.Caches.{objects_of};
ghost use Rattle.kc_owner.specs.Looked.{looked_at};
ghost use Rattle.kc_owner.specs.Object.Caches.{text_by};
ghost use Rattle.kc_owner.specs.Object.Keys.{cache_by};
ghost use Rattle.kc_owner.specs.Object.Pages.{bases_at};
ghost use Rattle.kc_slab_page.specs.Caches.{cache_seen, caches_from, caches_in, caches_view, is_wanted, with_cache};

use crate::fence::{FencePool, read_pool};
use crate::guards::read_runs;
use crate::shape::PageShape;
use kc_btf::Btf;
use kc_found::{Found, Name, Space, WalkStop, Walked};
use kc_guard::GuardRuns;
use kc_owner::{looked_at, read_known, read_ring, read_text, view_at};
use kc_slub::{read_base, read_objects};
use kc_view::{SlabObjects, SlubBases, View};
use kc_word::Steps;
use std::alloc::Global;
use std::collections::BTreeMap;
use std::sync::ledger::Ledger;

// How many bytes of a name are looked at.
const NAME: u8 = 64;

/// What a slab cache says of itself.
#[derive(Drop)]
pub struct CacheSeen {
    /// Its name, of 64 bytes at most: up to a NUL, or to a byte that can't be read.
    pub name: Name,
    /// How its objects lie in a slab, or why that can't be told.
    pub objects: Result<SlabObjects, Found>,
    /// The bytes that slub_debug keeps at each object.
    pub runs: GuardRuns,
}

/// The slab caches of a kernel, by their virtual addresses.
#[derive(Drop)]
pub struct SlabCaches {
    /// Where page descriptors and physical memory begin.
    pub bases: SlubBases,
    /// The nodes of the ring of all caches that were reached, in the order in which they were.
    pub nodes: Walked,
    /// The rule that this ring breaks, where it does.
    pub broken: Option<Found>,
    /// The caches.
    pub caches: BTreeMap<u64, CacheSeen>,
    /// Whether they are all of the kernel's: no name was asked for, and the ring is whole.
    pub all: bool,
    /// KFENCE's pool, where there is one.
    pub pool: Option<FencePool>,
}

// The address of the cache that has a node of the ring of all caches.
fn cache_by(shape: &PageShape, node: u64) -> u64
    ensures { result ≡ cache_by shape.now.objects node }
{
    node.wrapping_sub(shape.objects.cache_list)
}

// Where page descriptors and physical memory begin.
fn read_bases<S: Space, L: Ledger>(
    alloc: Global,
    space: &mut S,
    shape: &PageShape,
    steps: &mut Steps<L>,
) -> Result<SlubBases, WalkStop>
    ensures exact { WalksAs (λ b. b) (λ i. bases_at i (looked_at shape.now.objects.caches) shape.now.objects.slub) (S.image space.old) result }
    ensures stays { SpaceStays S.image S.files S.through S.most space.old space.new }
    ensures cause { CountsWalkFaults result (S.faults space.old) (S.faults space.new) }
{
    let asked = looked_at(shape.objects.caches);
    let vmemmap = read_base(alloc, space, &asked, shape.objects.slub.vmemmap, steps)?;
    let direct = read_base(alloc, space, &asked, shape.objects.slub.direct, steps)?;
    Ok(SlubBases {
        vmemmap,
        direct,
        nodes: 0,
    })
}

// The text that a pointer leads to, where there is one.
fn read_name<S: Space, L: Ledger>(
    alloc: Global,
    space: &mut S,
    at: Option<u64>,
    steps: &mut Steps<L>,
) -> Result<Name, WalkStop>
    ensures exact { WalksAs (λ n. n) (λ i. Ok (text_by i at)) (S.image space.old) result }
    ensures broken { OnBroken result ⊥ }
    ensures stays { SpaceStays S.image S.files S.through S.most space.old space.new }
    ensures cause { CountsWalkFaults result (S.faults space.old) (S.faults space.new) }
{
    match at {
        Some(at) => read_text(alloc, space, at, NAME, steps),
        None => Ok(Name::new(alloc)),
    }
}

// How the objects of a cache lie, or why that can't be told.
fn tell_objects<S: Space, L: Ledger>(
    alloc: Global,
    space: &mut S,
    shape: &PageShape,
    cache: &View<'_>,
    steps: &mut Steps<L>,
) -> Result<Result<SlabObjects, Found>, WalkStop>
    ensures exact { WalksAs (λ o. o) (λ i. Ok (objects_of i (looked_at cache.now.at) shape.now.objects.slub)) (S.image space.old) result }
    ensures broken { OnBroken result ⊥ }
    ensures stays { SpaceStays S.image S.files S.through S.most space.old space.new }
    ensures cause { CountsWalkFaults result (S.faults space.old) (S.faults space.new) }
{
    let asked = looked_at(cache.at());
    match read_objects(alloc, space, &asked, &shape.objects.slub, cache, steps) {
        Ok(objects) => Ok(Ok(objects)),
        Err(WalkStop::Broken(found)) => Ok(Err(found)),
        Err(WalkStop::Fault) => Err(WalkStop::Fault),
        Err(WalkStop::NoMemory) => Err(WalkStop::NoMemory),
    }
}

// What a cache says of itself.
fn read_cache<S: Space, L: Ledger>(
    alloc: Global,
    space: &mut S,
    shape: &PageShape,
    cache: &View<'_>,
    steps: &mut Steps<L>,
) -> Result<CacheSeen, WalkStop>
    ensures exact { WalksAs (λ c. c) (λ i. Ok (cache_seen i shape.now cache.now.at)) (S.image space.old) result }
    ensures broken { OnBroken result ⊥ }
    ensures stays { SpaceStays S.image S.files S.through S.most space.old space.new }
    ensures cause { CountsWalkFaults result (S.faults space.old) (S.faults space.new) }
{
    let pointer = read_known(alloc, space, cache, &shape.objects.name, steps)?;
    let name = read_name(alloc, space, pointer, steps)?;
    let objects = tell_objects(alloc, space, shape, cache, steps)?;
    let runs = read_runs(alloc, space, &shape.guards, &objects, cache, steps)?;
    Ok(CacheSeen {
        name,
        objects,
        runs,
    })
}

// A cache is wanted: all are, or those with a name.
fn is_wanted(wanted: Option<&[u8]>, name: &Name) -> bool
    ensures { result ≡ is_wanted (option_copied wanted.entry) name.now }
{
    match wanted {
        Some(wanted) => name.as_slice() == wanted,
        None => true,
    }
}

// Adds a cache to others.
fn push_cache(
    caches: &mut BTreeMap<u64, CacheSeen>,
    at: u64,
    cache: CacheSeen,
) -> Result<(), WalkStop>
    ensures added { OnOk result (caches.new.entries ≡ insert_entry nat_cmp caches.old.entries at cache) }
    ensures broken { OnBroken result ⊥ }
    ensures no_fault { OnWalkFault result ⊥ }
{
    match caches.insert(at, cache) {
        Ok(_) => Ok(()),
        Err(_) => Err(WalkStop::NoMemory),
    }
}

// The caches that are asked for: all, or those with a name.
#[derive(Clone, Copy)]
struct CachesAsked<'q> {
    btf: &'q Btf,
    shape: &'q PageShape,
    wanted: Option<&'q [u8]>,
}

// Adds the cache of a node of the ring of all caches, where it is wanted.
fn add_cache<S: Space, L: Ledger>(
    alloc: Global,
    space: &mut S,
    asks: &CachesAsked<'_>,
    node: u64,
    caches: &mut BTreeMap<u64, CacheSeen>,
    steps: &mut Steps<L>,
) -> Result<(), WalkStop>
    ensures added { WalksAs (λ _. caches.new.entries)
        (λ i. Ok (with_cache i asks.now.shape.now (option_copied asks.now.wanted) caches.old.entries node)) (S.image space.old) result }
    ensures broken { OnBroken result ⊥ }
    ensures stays { SpaceStays S.image S.files S.through S.most space.old space.new }
    ensures cause { CountsWalkFaults result (S.faults space.old) (S.faults space.new) }
{
    let at = cache_by(asks.shape, node);
    let cache = read_cache(alloc, space, asks.shape, &view_at(asks.btf, at), steps)?;
    if is_wanted(asks.wanted, &cache.name) {
        return push_cache(caches, at, cache);
    }
    Ok(())
}

// The caches that have these nodes of the ring of all caches.
fn read_nodes<S: Space, L: Ledger>(
    alloc: Global,
    space: &mut S,
    asks: &CachesAsked<'_>,
    nodes: &Walked,
    steps: &mut Steps<L>,
) -> Result<BTreeMap<u64, CacheSeen>, WalkStop>
    ensures exact { WalksAs (λ c. c.entries)
        (λ i. Ok (caches_from i asks.now.shape.now (option_copied asks.now.wanted) [] nodes.now)) (S.image space.old) result }
    ensures stays { SpaceStays S.image S.files S.through S.most space.old space.new }
    ensures cause { CountsWalkFaults result (S.faults space.old) (S.faults space.new) }
{
    let mut caches = BTreeMap::new(alloc);
    for i in 0..nodes.len() {
        add_cache(alloc, space, asks, *nodes.get(i), &mut caches, steps)?;
    }
    Ok(caches)
}

/// The slab caches of the ring `slab_caches`, by their addresses: all of them, or those with a name. Of a broken ring they are those that are
/// reached from its head, by `next` and by `prev`.
///
/// # Errors
///
/// The violation by a word that can't be read, of those that tell where page descriptors and physical memory begin; a failure of the space, whose count of faults then rose; or out of memory.
pub fn read_caches<S: Space, L: Ledger>(
    alloc: Global,
    space: &mut S,
    btf: &Btf,
    shape: &PageShape,
    wanted: Option<&[u8]>,
    steps: &mut Steps<L>,
) -> Result<SlabCaches, WalkStop>
    ensures exact { WalksAs caches_view (λ i. caches_in i shape.now (option_copied wanted.entry)) (S.image space.old) result }
    ensures stays { SpaceStays S.image S.files S.through S.most space.old space.new }
    ensures cause { CountsWalkFaults result (S.faults space.old) (S.faults space.new) }
{
    let bases = read_bases(alloc, space, shape, steps)?;
    let list = &shape.objects.slub.list;
    let ring = read_ring(alloc, space, list, shape.objects.caches, steps)?;
    let asks = CachesAsked { btf, shape, wanted };
    let caches = read_nodes(alloc, space, &asks, &ring.nodes, steps)?;
    let all = wanted.is_none() && ring.broken.is_none();
    let pool = read_pool(space, &bases, &shape.fence, steps)?;
    Ok(SlabCaches {
        bases,
        nodes: ring.nodes,
        broken: ring.broken,
        caches,
        all,
        pool,
    })
}
