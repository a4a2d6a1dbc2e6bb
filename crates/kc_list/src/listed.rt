// The words that the lists of rings and hash chains name.
ghost use Rattle.std.specs.Prelude.{◌≡◌, ℕ, ◌+◌, ◌*◌, ◌≤◌, get_or, length, drop};
ghost use Rattle.kc_memory.specs.Stays.{SpaceStays};
ghost use Rattle.kc_memory.specs.Translation.{vword};
ghost use Rattle.kc_found.specs.Tests.{CountsTestFaults, MeetsAs, TellsAs};
ghost use Rattle.kc_list.specs.Listed.{all_met, are_nodes, hash_wants, is_hash_chain, is_node, is_ring, last_or, led_back, met_by, node_wants, ring_wants};

use kc_found::{Claims, HShape, ListShape, Space, Stop, TestStop, Walked, know_most};
use kc_word::{NoMemory, Steps};
use std::alloc::Global;
use std::sync::ledger::Ledger;

/// How the nodes of a ring or of a hash chain are linked. Offsets are in bytes, from the node.
#[derive(Clone, Copy)]
pub struct Linking {
    /// The offset of the word that leads on.
    pub next: u64,
    /// The offset of the word that leads back.
    pub back: u64,
    /// What the word that leads on has in the last node.
    pub end: u64,
    /// The offset of the word in the node before that the word that leads back points to, or `None` where it points to the node
    /// itself.
    pub from: Option<u64>,
}

// Reads a word that must hold a number, and takes it. Only the words that were taken tell a node that the list names twice, or
// two addresses of one word.
fn meet<S: Space, L: Ledger>(
    space: &mut S,
    claims: &mut Claims,
    va: u64,
    value: u64,
    steps: &mut Steps<L>,
) -> Result<(), TestStop>
    ensures met { MeetsAs (λ i. met_by claims.old value (vword i va)) claims.new (S.image space.old) result }
    ensures steps { steps.new ≤ steps.old + 6 }

    ensures stays { SpaceStays S.image S.files S.through S.most space.old space.new }
    ensures cause { CountsTestFaults result (S.faults space.old) (S.faults space.new) }
{
    know_most(space);
    let word = match space.word(va, steps) {
        Ok(word) => word,
        Err(Stop::Miss(_)) => return Err(TestStop::Unfit),
        Err(Stop::Fault) => return Err(TestStop::Fault),
    };
    if word.value != value {
        return Err(TestStop::Unfit);
    }
    match claims.take(word.pa) {
        Ok(true) => Ok(()),
        Ok(false) => Err(TestStop::Unfit),
        Err(NoMemory) => Err(TestStop::NoMemory),
    }
}

// The node with a number, or what stands behind the last one.
fn node_or(nodes: &Walked, i: usize, end: u64) -> u64
    ensures { result ≡ get_or nodes.now i end }
{
    if i < nodes.len() { *nodes.get(i) } else { end }
}

// The last node, or what stands before the first one.
fn last_or(nodes: &Walked, before: u64) -> u64
    ensures { result ≡ last_or before nodes.now }
{
    if nodes.len() == 0 {
        before
    } else {
        *nodes.get(nodes.len() - 1)
    }
}

// What the word that leads back from the next node has.
fn led_back(from: Option<u64>, node: u64) -> u64
    ensures { result ≡ led_back from node }
{
    match from {
        Some(offset) => node.wrapping_add(offset),
        None => node,
    }
}

// The two words of each node.
fn meet_nodes<S: Space, L: Ledger>(
    space: &mut S,
    claims: &mut Claims,
    linking: &Linking,
    first: u64,
    nodes: &Walked,
    steps: &mut Steps<L>,
) -> Result<(), TestStop>
    ensures met { MeetsAs (λ i. all_met (vword i) claims.old (node_wants linking.now first nodes.now)) claims.new (S.image space.old) result }
    ensures steps { steps.new ≤ steps.old + 12 * length nodes.now }

    ensures stays { SpaceStays S.image S.files S.through S.most space.old space.new }
    ensures cause { CountsTestFaults result (S.faults space.old) (S.faults space.new) }
{
    let mut before = first;
    for i in 0..nodes.len() {
        let node = *nodes.get(i);
        let next = node_or(nodes, i + 1, linking.end);
        meet(space, claims, node.wrapping_add(linking.next), next, steps)?;
        meet(
            space,
            claims,
            node.wrapping_add(linking.back),
            before,
            steps,
        )?;
        before = led_back(linking.from, node);
    }
    Ok(())
}

// Whether an address may be a node's.
fn is_node(end: u64, node: u64) -> bool
    ensures { result ≡ is_node end node }
{
    !(node == 0 || (node == 0xdead_0000_0000_0100 || node == 0xdead_0000_0000_0122) || node == end)
}

// Whether these may be the addresses of nodes.
fn are_nodes(end: u64, nodes: &Walked) -> bool
    ensures { result ≡ are_nodes end nodes.now }
{
    for node in nodes.as_slice() {
        if !is_node(end, *node) {
            return false;
        }
    }
    true
}

// The words of a ring.
fn meet_ring<S: Space, L: Ledger>(
    space: &mut S,
    claims: &mut Claims,
    shape: &ListShape,
    head: u64,
    nodes: &Walked,
    steps: &mut Steps<L>,
) -> Result<(), TestStop>
    ensures met { MeetsAs (λ i. all_met (vword i) claims.old (ring_wants shape.now head nodes.now)) claims.new (S.image space.old) result }
    ensures steps { steps.new ≤ steps.old + 12 + 12 * length nodes.now }

    ensures stays { SpaceStays S.image S.files S.through S.most space.old space.new }
    ensures cause { CountsTestFaults result (S.faults space.old) (S.faults space.new) }
{
    let first = node_or(nodes, 0, head);
    meet(space, claims, head.wrapping_add(shape.next), first, steps)?;
    let last = last_or(nodes, head);
    meet(space, claims, head.wrapping_add(shape.prev), last, steps)?;
    let linking = Linking {
        next: shape.next,
        back: shape.prev,
        end: head,
        from: None,
    };
    meet_nodes(space, claims, &linking, head, nodes, steps)
}

// The words of a hash chain.
fn meet_chain<S: Space, L: Ledger>(
    space: &mut S,
    claims: &mut Claims,
    shape: &HShape,
    head: u64,
    nodes: &Walked,
    steps: &mut Steps<L>,
) -> Result<(), TestStop>
    ensures met { MeetsAs (λ i. all_met (vword i) claims.old (hash_wants shape.now head nodes.now)) claims.new (S.image space.old) result }
    ensures steps { steps.new ≤ steps.old + 6 + 12 * length nodes.now }

    ensures stays { SpaceStays S.image S.files S.through S.most space.old space.new }
    ensures cause { CountsTestFaults result (S.faults space.old) (S.faults space.new) }
{
    let from = head.wrapping_add(shape.first);
    let first = node_or(nodes, 0, 0);
    meet(space, claims, from, first, steps)?;
    let linking = Linking {
        next: shape.next,
        back: shape.pprev,
        end: 0,
        from: Some(shape.next),
    };
    meet_nodes(space, claims, &linking, from, nodes, steps)
}

/// Tests whether the nodes at these virtual addresses, in this order, make up the ring whose head is at another. It reads two words
/// of the head and of each node.
///
/// # Errors
///
/// `Unfit` exactly where they don't, a failure of the space, or out of memory.
pub fn test_ring<S: Space, L: Ledger>(
    alloc: Global,
    space: &mut S,
    shape: &ListShape,
    head: u64,
    nodes: &Walked,
    steps: &mut Steps<L>,
) -> Result<(), TestStop>
    ensures test { TellsAs (λ i. is_ring (vword i) shape.now head nodes.now) (S.image space.old) result }
    ensures steps { steps.new ≤ steps.old + 12 + 12 * length nodes.now }

    ensures stays { SpaceStays S.image S.files S.through S.most space.old space.new }
    ensures cause { CountsTestFaults result (S.faults space.old) (S.faults space.new) }
{
    if !are_nodes(head, nodes) {
        return Err(TestStop::Unfit);
    }
    let mut claims = Claims::new(alloc);
    meet_ring(space, &mut claims, shape, head, nodes, steps)
}

/// Tests whether the nodes at these virtual addresses, in this order, make up the hash chain whose head is at another. It reads one
/// word of the head and two of each node.
///
/// # Errors
///
/// `Unfit` exactly where they don't, a failure of the space, or out of memory.
pub fn test_chain<S: Space, L: Ledger>(
    alloc: Global,
    space: &mut S,
    shape: &HShape,
    head: u64,
    nodes: &Walked,
    steps: &mut Steps<L>,
) -> Result<(), TestStop>
    ensures test { TellsAs (λ i. is_hash_chain (vword i) shape.now head nodes.now) (S.image space.old) result }
    ensures steps { steps.new ≤ steps.old + 12 + 12 * length nodes.now }

    ensures stays { SpaceStays S.image S.files S.through S.most space.old space.new }
    ensures cause { CountsTestFaults result (S.faults space.old) (S.faults space.new) }
{
    if !are_nodes(0, nodes) {
        return Err(TestStop::Unfit);
    }
    let mut claims = Claims::new(alloc);
    meet_chain(space, &mut claims, shape, head, nodes, steps)
}
