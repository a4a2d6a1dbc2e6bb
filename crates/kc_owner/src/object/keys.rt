// The caches that encode the free pointers of their objects.
ghost use Rattle.std.specs.Prelude.{◌≡◌, ◌++◌, option_to_list, Ok, OnOk};
ghost use Rattle.kc_memory.specs.Stays.{SpaceStays};
ghost use Rattle.kc_found.specs.Walks.{CountsWalkFaults, OnBroken, OnWalkFault, WalksAs};
ghost use Rattle.kc_owner.specs.Object.Keys.{cache_by, free_keys, key_of, keys_of, unread, unread_in, unread_of};

use crate::object::bases::read_bases;
use crate::object::cache::{Cache, read_cache};
use crate::object::shape::ObjectShape;
use crate::{looked_at, read_known, read_ring, view_at};
use kc_btf::Btf;
use kc_found::{Found, Items, Space, WalkStop, Walked};
use kc_word::{NoMemory, Steps};
use std::alloc::Global;
use std::sync::ledger::Ledger;

/// A slab cache that encodes the free pointers of its objects.
#[derive(Drop)]
pub struct CacheKey {
    /// The cache.
    pub cache: Cache,
    /// Its random number (`random` of `struct kmem_cache`).
    pub random: u64,
}

/// What the free pointers of a kernel are encoded with.
#[derive(Drop)]
pub struct FreeKeys {
    /// The virtual address at which the direct map of physical memory begins.
    pub direct: u64,
    /// The caches that encode them, in the order of the ring of all caches.
    pub keys: Items<CacheKey>,
    /// The caches whose random number can't be read, where the kernel's caches have one.
    pub unread: Items<Cache>,
    /// What the ring of all caches breaks, where it does: of a broken one the caches are those that it still leads to.
    pub broken: Option<Found>,
}

// The cache that has a node of the ring of all caches.
fn cache_by(shape: &ObjectShape, node: u64) -> u64
    ensures { result ≡ cache_by shape.now node }
{
    node.wrapping_sub(shape.cache_list)
}

// A cache with its random number, where it has one.
fn read_key<S: Space, L: Ledger>(
    alloc: Global,
    space: &mut S,
    btf: &Btf,
    shape: &ObjectShape,
    cache: u64,
    steps: &mut Steps<L>,
) -> Result<Option<CacheKey>, WalkStop>
    ensures exact { WalksAs (λ key. key) (λ i. Ok (key_of i shape.now cache)) (S.image space.old) result }
    ensures stays { SpaceStays S.image S.files S.through S.most space.old space.new }
    ensures cause { CountsWalkFaults result (S.faults space.old) (S.faults space.new) }
{
    let view = view_at(btf, cache);
    let Some(random) = read_known(alloc, space, &view, &shape.slub.random, steps)? else {
        return Ok(None);
    };
    let cache = read_cache(alloc, space, &view, shape, steps)?;
    Ok(Some(CacheKey { cache, random }))
}

// Adds a key, where there is one.
fn push_key(keys: &mut Items<CacheKey>, key: Option<CacheKey>) -> Result<(), WalkStop>
    ensures added { OnOk result (keys.new ≡ keys.old ++ option_to_list key) }
    ensures broken { OnBroken result ⊥ }
    ensures no_fault { OnWalkFault result ⊥ }
{
    let Some(key) = key else {
        return Ok(());
    };
    match keys.push(key) {
        Ok(()) => Ok(()),
        Err(NoMemory) => Err(WalkStop::NoMemory),
    }
}

// The keys of the caches that have these nodes of the ring of all caches.
fn read_keys<S: Space, L: Ledger>(
    alloc: Global,
    space: &mut S,
    btf: &Btf,
    shape: &ObjectShape,
    nodes: &Walked,
    steps: &mut Steps<L>,
) -> Result<Items<CacheKey>, WalkStop>
    ensures exact { WalksAs (λ keys. keys) (λ i. Ok (keys_of i shape.now nodes.now)) (S.image space.old) result }
    ensures stays { SpaceStays S.image S.files S.through S.most space.old space.new }
    ensures cause { CountsWalkFaults result (S.faults space.old) (S.faults space.new) }
{
    let mut keys = Items::new(alloc);
    for i in 0..nodes.len() {
        let cache = cache_by(shape, *nodes.get(i));
        let key = read_key(alloc, space, btf, shape, cache, steps)?;
        push_key(&mut keys, key)?;
    }
    Ok(keys)
}

// A cache whose random number can't be read.
fn read_unkeyed<S: Space, L: Ledger>(
    alloc: Global,
    space: &mut S,
    btf: &Btf,
    shape: &ObjectShape,
    cache: u64,
    steps: &mut Steps<L>,
) -> Result<Option<Cache>, WalkStop>
    ensures exact { WalksAs (λ c. c) (λ i. Ok (unread_of i shape.now cache)) (S.image space.old) result }
    ensures stays { SpaceStays S.image S.files S.through S.most space.old space.new }
    ensures cause { CountsWalkFaults result (S.faults space.old) (S.faults space.new) }
{
    let view = view_at(btf, cache);
    if let Some(_) = read_known(alloc, space, &view, &shape.slub.random, steps)? {
        return Ok(None);
    }
    let cache = read_cache(alloc, space, &view, shape, steps)?;
    Ok(Some(cache))
}

// Adds a cache, where there is one.
fn push_cache(caches: &mut Items<Cache>, cache: Option<Cache>) -> Result<(), WalkStop>
    ensures added { OnOk result (caches.new ≡ caches.old ++ option_to_list cache) }
    ensures broken { OnBroken result ⊥ }
    ensures no_fault { OnWalkFault result ⊥ }
{
    let Some(cache) = cache else {
        return Ok(());
    };
    match caches.push(cache) {
        Ok(()) => Ok(()),
        Err(NoMemory) => Err(WalkStop::NoMemory),
    }
}

// Those of the caches that have these nodes of the ring of all caches.
fn read_unread_in<S: Space, L: Ledger>(
    alloc: Global,
    space: &mut S,
    btf: &Btf,
    shape: &ObjectShape,
    nodes: &Walked,
    steps: &mut Steps<L>,
) -> Result<Items<Cache>, WalkStop>
    ensures exact { WalksAs (λ caches. caches) (λ i. Ok (unread_in i shape.now nodes.now)) (S.image space.old) result }
    ensures stays { SpaceStays S.image S.files S.through S.most space.old space.new }
    ensures cause { CountsWalkFaults result (S.faults space.old) (S.faults space.new) }
{
    let mut caches = Items::new(alloc);
    for i in 0..nodes.len() {
        let at = cache_by(shape, *nodes.get(i));
        let cache = read_unkeyed(alloc, space, btf, shape, at, steps)?;
        push_cache(&mut caches, cache)?;
    }
    Ok(caches)
}

// The same in any kernel: its caches may have no such number.
fn read_unread<S: Space, L: Ledger>(
    alloc: Global,
    space: &mut S,
    btf: &Btf,
    shape: &ObjectShape,
    nodes: &Walked,
    steps: &mut Steps<L>,
) -> Result<Items<Cache>, WalkStop>
    ensures exact { WalksAs (λ caches. caches) (λ i. Ok (unread i shape.now nodes.now)) (S.image space.old) result }
    ensures stays { SpaceStays S.image S.files S.through S.most space.old space.new }
    ensures cause { CountsWalkFaults result (S.faults space.old) (S.faults space.new) }
{
    if shape.slub.random.is_some() {
        read_unread_in(alloc, space, btf, shape, nodes, steps)
    } else {
        Ok(Items::new(alloc))
    }
}

/// What the free pointers of a kernel are encoded with: the random numbers of the caches of the ring `slab_caches`, of those that have
/// one and where it can be read, and the caches where it can't. Of a broken ring they are those that it still leads to.
///
/// # Errors
///
/// A word that can't be read, of those that tell where the direct map begins; a failure of the space, whose count of faults then rose; or out of memory.
pub fn free_keys<S: Space, L: Ledger>(
    alloc: Global,
    space: &mut S,
    btf: &Btf,
    shape: &ObjectShape,
    steps: &mut Steps<L>,
) -> Result<FreeKeys, WalkStop>
    ensures exact { WalksAs (λ keys. keys) (λ i. free_keys i shape.now) (S.image space.old) result }
    ensures stays { SpaceStays S.image S.files S.through S.most space.old space.new }
    ensures cause { CountsWalkFaults result (S.faults space.old) (S.faults space.new) }
{
    let bases = read_bases(alloc, space, &looked_at(shape.caches), &shape.slub, steps)?;
    let ring = read_ring(alloc, space, &shape.slub.list, shape.caches, steps)?;
    let keys = read_keys(alloc, space, btf, shape, &ring.nodes, steps)?;
    let unread = read_unread(alloc, space, btf, shape, &ring.nodes, steps)?;
    Ok(FreeKeys {
        direct: bases.direct,
        keys,
        unread,
        broken: ring.broken,
    })
}
