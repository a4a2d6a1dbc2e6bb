// The partial lists of a cache.
ghost use Rattle.std.specs.Prelude.{◌≡◌, ℕ, ◌∷◌, ◌++◌, [], ◌≤◌, ◌+◌, ◌*◌, ◌^◌, ◌<◌, length, IfOk, IfSome, OnOk};
ghost use Rattle.kc_memory.specs.Stays.{SpaceStays};
ghost use Rattle.kc_found.specs.Walks.{CountsWalkFaults, IsNamed, OnBroken, OnWalkFault, WalksAs};
ghost use Rattle.kc_steps.specs.Chains.{WalkPays, size};
ghost use Rattle.kc_steps.specs.CachesBy.{cache_by, knode_by, node_by, nodes_by, slabs_by};
ghost use Rattle.kc_view.specs.Caches.{IsInside, cache_slabs};
ghost use Rattle.kc_view.specs.FiniteCaches.{NoSlub, Slub};

use crate::cache::{read_bases, read_objects};
use crate::cache_pass::CachePass;
use crate::slab::check_slab;
use crate::walks::Walks;
use kc_btf::Btf;
use kc_found::{
    Asked, Rule, Space, WalkStop, Walked, broken_field, know_most, low_word, push_node, read_bits,
    stopped,
};
use kc_list::know_lists;
use kc_steps::{Chains, know_chains, read_field};
use kc_view::{SlubShape, View};
use kc_word::{Bits, Steps};
use std::alloc::Global;
use std::sync::ledger::Ledger;

// Looks at the slabs of a ring's nodes.
fn check_slabs<S: Space, C: Chains, L: Ledger>(
    pass: &CachePass,
    space: &mut S,
    chains: &mut C,
    btf: &Btf,
    nodes: &Walked,
    slabs: &mut Walked,
    steps: &mut Steps<L>,
) -> Result<(), WalkStop>
    requires some { 1 ≤ pass.now.objects.size }
    requires inside { pass.now.objects.offset + 8 ≤ pass.now.objects.size }
    requires types { IsInside pass.now.shape btf.now }
    ensures exact { WalksAs (λ _. (slabs.new, C.lists chains.new))
        (λ i. slabs_by i (C.free_by i) pass.now.asked pass.now.shape pass.now.bases pass.now.objects slabs.old (C.lists chains.old) nodes.now)
        (S.image space.old) result }
    ensures named { IsNamed result pass.now.asked.audit pass.now.asked.start }
    ensures pays { C.paid → WalkPays result (300 * length nodes.now) (300 * length nodes.now) (size (C.lists chains.old))
        (size (C.lists chains.new)) steps.old steps.new }

    ensures stays { SpaceStays S.image S.files S.through S.most space.old space.new }
    ensures cause { CountsWalkFaults result (S.faults space.old) (S.faults space.new) }
{
    let mut i = 0;
    while i < nodes.len() {
        let at = nodes.get(i).wrapping_sub(pass.shape.slab_list);
        let view = View::new(btf, pass.shape.slab, at);
        let slab = match check_slab(pass, space, chains, &view, steps) {
            Ok(slab) => slab,
            Err(stop) => return Err(stop),
        };
        match push_node(slabs, slab) {
            Ok(()) => {}
            Err(stop) => return Err(stop),
        }
        i += 1;
    }
    Ok(())
}

// Looks at the partial slabs of a node, and at how many it says they are.
fn check_knode<S: Space, C: Chains, L: Ledger>(
    pass: &CachePass,
    space: &mut S,
    chains: &mut C,
    btf: &Btf,
    knode: u64,
    slabs: &mut Walked,
    steps: &mut Steps<L>,
) -> Result<(), WalkStop>
    requires some { 1 ≤ pass.now.objects.size }
    requires inside { pass.now.objects.offset + 8 ≤ pass.now.objects.size }
    requires types { IsInside pass.now.shape btf.now }
    ensures exact { WalksAs (λ _. (slabs.new, C.lists chains.new))
        (λ i. knode_by i (C.ring_by i) (C.free_by i) pass.now.asked pass.now.shape pass.now.bases pass.now.objects slabs.old knode (C.lists chains.old))
        (S.image space.old) result }
    ensures named { IsNamed result pass.now.asked.audit pass.now.asked.start }
    ensures pays { C.paid → WalkPays result 0 60 (size (C.lists chains.old))
        (size (C.lists chains.new)) steps.old steps.new }

    ensures stays { SpaceStays S.image S.files S.through S.most space.old space.new }
    ensures cause { CountsWalkFaults result (S.faults space.old) (S.faults space.new) }
{
    let asked = &pass.asked;
    let shape = &pass.shape;
    let view = View::new(btf, shape.knode, knode);
    let said = read_field(pass.alloc, space, asked, &view, &shape.nr_partial, steps)?;
    let head = knode.wrapping_add(shape.partial);
    let nodes = chains.ring(pass.alloc, space, asked, &shape.list, head, steps)?;
    check_slabs(pass, space, chains, btf, &nodes, slabs, steps)?;
    let wanted = nodes.len() as u64;
    if said.value() != wanted {
        let wanted = Some(wanted);
        return Err(broken_field(pass.alloc, asked, Rule::U7, said.at, &said.number, wanted));
    }
    Ok(())
}

// Looks at the node of a pointer of the array `node`, unless the pointer is null.
fn check_node<S: Space, C: Chains, L: Ledger>(
    pass: &CachePass,
    space: &mut S,
    chains: &mut C,
    btf: &Btf,
    i: u64,
    slabs: &mut Walked,
    steps: &mut Steps<L>,
) -> Result<(), WalkStop>
    requires index { i < 65536 }
    requires some { 1 ≤ pass.now.objects.size }
    requires inside { pass.now.objects.offset + 8 ≤ pass.now.objects.size }
    requires types { IsInside pass.now.shape btf.now }
    ensures exact { WalksAs (λ _. (slabs.new, C.lists chains.new))
        (λ im. node_by im (C.ring_by im) (C.free_by im) pass.now.asked pass.now.shape pass.now.bases pass.now.objects slabs.old i (C.lists chains.old))
        (S.image space.old) result }
    ensures named { IsNamed result pass.now.asked.audit pass.now.asked.start }
    ensures pays { C.paid → WalkPays result 12 72 (size (C.lists chains.old))
        (size (C.lists chains.new)) steps.old steps.new }

    ensures stays { SpaceStays S.image S.files S.through S.most space.old space.new }
    ensures cause { CountsWalkFaults result (S.faults space.old) (S.faults space.new) }
{
    let bits = Bits {
        bit: 0,
        width: 64,
        signed: false,
    };
    know_most(space);
    let array = pass.asked.start.wrapping_add(pass.shape.node);
    let at = array.wrapping_add(8 * i);
    let knode = match read_bits(space, at, bits, steps) {
        Ok(pointer) => low_word(&pointer),
        Err(stop) => return Err(stopped(pass.alloc, &pass.asked, stop, None)),
    };
    if knode == 0 {
        return Ok(());
    }
    check_knode(pass, space, chains, btf, knode, slabs, steps)
}

// Looks at the nodes of the cache, and gives the slabs on their lists.
fn walk_nodes<S: Space, C: Chains, L: Ledger>(
    pass: &CachePass,
    space: &mut S,
    chains: &mut C,
    btf: &Btf,
    steps: &mut Steps<L>,
) -> Result<Walked, WalkStop>
    requires few { pass.now.bases.nodes ≤ 65536 }
    requires some { 1 ≤ pass.now.objects.size }
    requires inside { pass.now.objects.offset + 8 ≤ pass.now.objects.size }
    requires types { IsInside pass.now.shape btf.now }
    ensures exact { WalksAs (λ w. (w, C.lists chains.new))
        (λ i. nodes_by i (C.ring_by i) (C.free_by i) pass.now.asked pass.now.shape pass.now.bases pass.now.objects pass.now.bases.nodes 0 [] (C.lists chains.old))
        (S.image space.old) result }
    ensures named { IsNamed result pass.now.asked.audit pass.now.asked.start }
    ensures pays { C.paid → WalkPays result (12 * pass.now.bases.nodes) (12 * pass.now.bases.nodes + 60) (size (C.lists chains.old))
        (size (C.lists chains.new)) steps.old steps.new }

    ensures stays { SpaceStays S.image S.files S.through S.most space.old space.new }
    ensures cause { CountsWalkFaults result (S.faults space.old) (S.faults space.new) }
{
    let mut slabs = Walked::new(pass.alloc);
    let mut i = 0;
    while i < pass.bases.nodes {
        match check_node(pass, space, chains, btf, i, &mut slabs, steps) {
            Ok(()) => {}
            Err(stop) => return Err(stop),
        }
        i += 1;
    }
    Ok(slabs)
}

/// The slabs on the partial lists of the cache at which the walk starts, node by node, each in the order of its ring, where the
/// rings and the free lists come by `chains`. Where lists pay, those that are used up pay for all steps but 12 for each pointer of
/// the array `node`, and 400.
///
/// # Errors
///
/// The first violation, exactly where the cache has one by such chains; a failure of the space, whose count of faults then
/// rose; or out of memory.
pub fn cache_walk_by<S: Space, C: Chains, L: Ledger>(
    alloc: Global,
    space: &mut S,
    chains: &mut C,
    asked: &Asked,
    btf: &Btf,
    shape: &SlubShape,
    steps: &mut Steps<L>,
) -> Result<Walked, WalkStop>
    requires { IsInside shape.now btf.now }
    ensures walk { WalksAs (λ w. (w, C.lists chains.new))
        (λ i. cache_by i (C.ring_by i) (C.free_by i) shape.now asked.now (C.lists chains.old))
        (S.image space.old) result }
    ensures named { IsNamed result asked.now.audit asked.now.start }
    ensures pays { C.paid → WalkPays result (12 * shape.now.nodes + 400) (12 * shape.now.nodes + 400) (size (C.lists chains.old))
        (size (C.lists chains.new)) steps.old steps.new }

    ensures stays { SpaceStays S.image S.files S.through S.most space.old space.new }
    ensures cause { CountsWalkFaults result (S.faults space.old) (S.faults space.new) }
{
    let bases = read_bases(alloc, space, asked, shape, steps)?;
    let view = View::new(btf, shape.cache, asked.start);
    let objects = read_objects(alloc, space, asked, shape, &view, steps)?;
    let pass = CachePass {
        alloc,
        asked: *asked,
        shape: *shape,
        bases,
        objects,
    };
    walk_nodes(&pass, space, chains, btf, steps)
}

// The slabs on the lists of a cache, whose chains are walked.
fn walk_cache<S: Space, L: Ledger>(
    alloc: Global,
    space: &mut S,
    asked: &Asked,
    btf: &Btf,
    shape: &SlubShape,
    steps: &mut Steps<L>,
) -> Result<Walked, WalkStop>
    requires { IsInside shape.now btf.now }
    ensures exact { WalksAs (λ w. w) (λ i. cache_slabs i shape.now asked.now) (S.image space.old) result }
    ensures named { IsNamed result asked.now.audit asked.now.start }

    ensures stays { SpaceStays S.image S.files S.through S.most space.old space.new }
    ensures cause { CountsWalkFaults result (S.faults space.old) (S.faults space.new) }
{
    know_chains();
    let mut chains = Walks;
    cache_walk_by(alloc, space, &mut chains, asked, btf, shape, steps)
}

/// The slabs on the partial lists of the cache at virtual address `cache`, node by node, each in the order of its ring.
/// The audit's number is named where the cache breaks a rule.
///
/// # Errors
///
/// The first violation, exactly where the cache has one; a failure of the space, whose count of faults then rose; or
/// out of memory.
pub fn cache_walk<S: Space, L: Ledger>(
    alloc: Global,
    space: &mut S,
    btf: &Btf,
    shape: &SlubShape,
    cache: u64,
    audit: u32,
    steps: &mut Steps<L>,
) -> Result<Walked, WalkStop>
    requires { IsInside shape.now btf.now }
    ensures walk { WalksAs (λ w. w) (λ i. cache_slabs i shape.now (record { audit = audit; start = cache }))
        (S.image space.old) result }
    ensures finite { IfOk result (λ slabs. IfSome (S.image space.old) (λ i. Slub i shape.now cache slabs)) }
    ensures none { OnBroken result (IfSome (S.image space.old) (λ i. NoSlub i shape.now cache)) }
    ensures named { IsNamed result audit cache }

    ensures stays { SpaceStays S.image S.files S.through S.most space.old space.new }
    ensures cause { CountsWalkFaults result (S.faults space.old) (S.faults space.new) }
{
    know_lists();
    let asked = Asked {
        audit,
        start: cache,
    };
    walk_cache(alloc, space, &asked, btf, shape, steps)
}
