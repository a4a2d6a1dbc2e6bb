// The partial lists of a slab cache, and the slabs that stand in them.
ghost use Rattle.std.specs.Prelude.{◌≡◌, Ok};
ghost use Rattle.std.specs.List.{range_with_len};
ghost use Rattle.kc_memory.specs.Stays.{SpaceStays};
ghost use Rattle.kc_found.specs.Walks.{CountsWalkFaults, OnBroken, WalksAs};
ghost use Rattle.kc_view.specs.Caches.{count_of, slab_of};
ghost use Rattle.kc_which.specs.CacheRings.{cache_ring, element_at, in_cache, in_node, in_partial, nodes_on, partial_head, pointer_at, slab_in};
ghost use Rattle.kc_which.specs.Ends.{OnlyWalks, asked_of};
ghost use Rattle.kc_which.specs.Firsts.{first_of};

use crate::ends::{asked_of, broken_node, told};
use kc_found::{Found, Space, WalkStop, Walked, low_word, read_bits, stopped};
use kc_list::ring;
use kc_view::{Base, SlubShape};
use kc_word::{Bits, Steps};
use std::alloc::Global;
use std::sync::ledger::Ledger;

/// The partial list of a memory node of a slab cache (`struct kmem_cache_node`).
#[derive(Clone, Copy, Debug, PartialEq, Eq)]
pub struct CacheRing {
    /// The memory node's number: its pointer is the one with this index in the cache's array `node`.
    pub number: u64,
    /// The virtual address of the `kmem_cache_node`, which has the list's head.
    pub knode: u64,
}

/// What has a pointer of such a list, by its virtual address.
#[derive(Clone, Copy, Debug, PartialEq, Eq)]
pub enum SlabElement {
    /// A slab (`struct slab`).
    Slab(u64),
    /// What a cache keeps for a memory node (`struct kmem_cache_node`).
    Node(u64),
}

/// The virtual address of the head of a list.
pub fn partial_head(shape: &SlubShape, list: CacheRing) -> u64
    ensures { result ≡ partial_head shape.now list }
{
    list.knode.wrapping_add(shape.partial)
}

// The slab of a list's node.
fn slab_of(shape: &SlubShape, node: u64) -> u64
    ensures { result ≡ slab_of shape.now node }
{
    node.wrapping_sub(shape.slab_list)
}

// The nodes of a list, which is walked for the audit that found the violation.
fn walk_list<S: Space, L: Ledger>(
    alloc: Global,
    space: &mut S,
    shape: &SlubShape,
    found: &Found,
    which: CacheRing,
    steps: &mut Steps<L>,
) -> Result<Walked, WalkStop>
    ensures exact { WalksAs (λ nodes. nodes) (λ i. nodes_on i shape.now found.now which) (S.image space.old) result }
    ensures reads { OnlyWalks S.image S.files S.through S.most S.faults result space.old space.new }
{
    let head = partial_head(shape, which);
    ring(alloc, space, &shape.list, head, found.audit, steps)
}

// The list of a memory node, where it has the violation.
fn in_partial<S: Space, L: Ledger>(
    alloc: Global,
    space: &mut S,
    shape: &SlubShape,
    found: &Found,
    which: CacheRing,
    steps: &mut Steps<L>,
) -> Result<Option<CacheRing>, WalkStop>
    ensures exact { WalksAs (λ list. list) (λ i. in_partial i shape.now found.now which) (S.image space.old) result }
    ensures reads { OnlyWalks S.image S.files S.through S.most S.faults result space.old space.new }
{
    match walk_list(alloc, space, shape, found, which, steps) {
        Ok(_) => Ok(None),
        Err(stop) => told(found, which, stop),
    }
}

// The pointer to a memory node.
fn read_pointer<S: Space, L: Ledger>(
    alloc: Global,
    space: &mut S,
    shape: &SlubShape,
    found: &Found,
    number: u64,
    steps: &mut Steps<L>,
) -> Result<u64, WalkStop>
    ensures exact { WalksAs (λ n. n) (λ i. pointer_at i shape.now found.now number) (S.image space.old) result }
    ensures reads { OnlyWalks S.image S.files S.through S.most S.faults result space.old space.new }
{
    let asked = asked_of(found);
    let bits = Bits {
        bit: 0,
        width: 64,
        signed: false,
    };
    let at = asked
        .start
        .wrapping_add(shape.node)
        .wrapping_add(number.wrapping_mul(8));
    match read_bits(space, at, bits, steps) {
        Ok(pointer) => Ok(low_word(&pointer)),
        Err(stop) => Err(stopped(alloc, &asked, stop, None)),
    }
}

// The list of the memory node that a pointer leads to, unless the pointer is null.
fn in_node<S: Space, L: Ledger>(
    alloc: Global,
    space: &mut S,
    shape: &SlubShape,
    found: &Found,
    number: u64,
    steps: &mut Steps<L>,
) -> Result<Option<CacheRing>, WalkStop>
    ensures exact { WalksAs (λ list. list) (λ i. in_node i shape.now found.now number) (S.image space.old) result }
    ensures reads { OnlyWalks S.image S.files S.through S.most S.faults result space.old space.new }
{
    let knode = read_pointer(alloc, space, shape, found, number, steps)?;
    if knode == 0 {
        return Ok(None);
    }
    let which = CacheRing { number, knode };
    in_partial(alloc, space, shape, found, which, steps)
}

// The first of the lists of so many memory nodes.
fn in_nodes<S: Space, L: Ledger>(
    alloc: Global,
    space: &mut S,
    shape: &SlubShape,
    found: &Found,
    count: u64,
    steps: &mut Steps<L>,
) -> Result<Option<CacheRing>, WalkStop>
    ensures exact { WalksAs (λ list. list) (λ i. first_of (in_node i shape.now found.now) (range_with_len 0 count)) (S.image space.old) result }
    ensures reads { OnlyWalks S.image S.files S.through S.most S.faults result space.old space.new }
{
    for number in 0..count {
        match in_node(alloc, space, shape, found, number, steps) {
            Ok(None) => {}
            Ok(Some(which)) => return Ok(Some(which)),
            Err(stop) => return Err(stop),
        }
    }
    Ok(None)
}

// How many memory nodes the kernel has, of those that the array has pointers for.
fn read_count<S: Space, L: Ledger>(
    alloc: Global,
    space: &mut S,
    shape: &SlubShape,
    found: &Found,
    steps: &mut Steps<L>,
) -> Result<u64, WalkStop>
    ensures exact { WalksAs (λ n. n) (λ i. count_of i (asked_of found.now) shape.now.nodes shape.now.node_ids) (S.image space.old) result }
    ensures reads { OnlyWalks S.image S.files S.through S.most S.faults result space.old space.new }
{
    let asked = asked_of(found);
    let nodes = u64::from(shape.nodes);
    let bits = Bits {
        bit: 0,
        width: 32,
        signed: false,
    };
    match shape.node_ids {
        Base::Is(number) => Ok(nodes.min(number)),
        Base::At(at) => match read_bits(space, at, bits, steps) {
            Ok(number) => Ok(nodes.min(low_word(&number))),
            Err(stop) => Err(stopped(alloc, &asked, stop, None)),
        },
    }
}

// The first of all lists that is broken, where it has the violation.
fn in_cache<S: Space, L: Ledger>(
    alloc: Global,
    space: &mut S,
    shape: &SlubShape,
    found: &Found,
    steps: &mut Steps<L>,
) -> Result<Option<CacheRing>, WalkStop>
    ensures exact { WalksAs (λ list. list) (λ i. in_cache i shape.now found.now) (S.image space.old) result }
    ensures reads { OnlyWalks S.image S.files S.through S.most S.faults result space.old space.new }
{
    let count = read_count(alloc, space, shape, found, steps)?;
    in_nodes(alloc, space, shape, found, count, steps)
}

/// The partial list in which a violation of an audit of a slab cache lies: the first of the cache's lists that is broken, in the order of
/// its memory nodes, where its violation is of the same rule and about the same address. `None` where it is not, where no list is
/// broken, or where the count of the nodes or the pointer to one can't be read before.
///
/// # Errors
///
/// A failure of the space, whose count of faults then rose; or out of memory.
pub fn find_cache_ring<S: Space, L: Ledger>(
    alloc: Global,
    space: &mut S,
    shape: &SlubShape,
    found: &Found,
    steps: &mut Steps<L>,
) -> Result<Option<CacheRing>, WalkStop>
    ensures exact { WalksAs (λ list. list) (λ i. Ok (cache_ring i shape.now found.now)) (S.image space.old) result }
    ensures broken { OnBroken result ⊥ }
    ensures stays { SpaceStays S.image S.files S.through S.most space.old space.new }
    ensures cause { CountsWalkFaults result (S.faults space.old) (S.faults space.new) }
{
    match in_cache(alloc, space, shape, found, steps) {
        Ok(which) => Ok(which),
        Err(WalkStop::Broken(_)) => Ok(None),
        Err(WalkStop::Fault) => Err(WalkStop::Fault),
        Err(WalkStop::NoMemory) => Err(WalkStop::NoMemory),
    }
}

// What has a node of a list, or its head.
fn element_at(shape: &SlubShape, list: CacheRing, node: u64) -> SlabElement
    ensures { result ≡ element_at shape.now list node }
{
    if node == partial_head(shape, list) {
        SlabElement::Node(list.knode)
    } else {
        SlabElement::Slab(slab_of(shape, node))
    }
}

/// What has the pointer that breaks a rule of a partial list: of L1 the `prev` of a node, of K and N the `next`. `None` where the rule is
/// another one.
pub fn slab_in(shape: &SlubShape, found: &Found, list: CacheRing) -> Option<SlabElement>
    ensures { result ≡ slab_in shape.now found.now list }
{
    let node = broken_node(shape.list, found.rule, found.at)?;
    Some(element_at(shape, list, node))
}
