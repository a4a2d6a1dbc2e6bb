// The nodes of a ring, also where it is broken.
ghost use Rattle.std.specs.Prelude.{◌≡◌, ◌+◌, ◌*◌, ◌≤◌, ◌++◌, Ok, OnOk};
ghost use Rattle.kc_memory.specs.Stays.{SpaceStays};
ghost use Rattle.kc_found.specs.Walks.{CountsWalkFaults, OnBroken, OnWalkFault, WalksAs};
ghost use Rattle.kc_list.specs.Listed.{last_or};
ghost use Rattle.kc_owner.specs.Unread.{IsUnread};
ghost use Rattle.kc_owner.specs.Object.Bounds.{WithinRing};
ghost use Rattle.kc_owner.specs.Rings.{most_nodes, next_in, next_of, parts_of, reached, ring_nodes, ring_view, within, word_at};

use kc_found::{Found, ListShape, Space, Stop, WalkStop, Walked, know_most, push_node};
use kc_list::ring;
use kc_word::Steps;
use std::alloc::Global;
use std::sync::ledger::Ledger;

// How many nodes of a broken ring are looked for from each end, at most.
pub(crate) const MOST: u64 = 1 << 22;

/// The nodes of a ring.
#[derive(Drop)]
pub struct RingNodes {
    /// Their virtual addresses: of a broken ring those that are reached from its head by `next`, and then by `prev`.
    pub nodes: Walked,
    /// The rule that the ring breaks, where it does.
    pub broken: Option<Found>,
}

// How a ring is walked: by which pointer, and by which one the next node leads back.
#[derive(Clone, Copy, Debug, PartialEq, Eq)]
struct Way {
    on: u64,
    back: u64,
}

// Where a walk begins, and which nodes end it.
#[derive(Clone, Copy, Debug, PartialEq, Eq)]
struct Ends {
    head: u64,
    last: u64,
}

// A word that can't be read isn't known.
fn unread(stop: Stop) -> Result<Option<u64>, WalkStop>
    ensures { IsUnread stop result }
{
    match stop {
        Stop::Miss(_) => Ok(None),
        Stop::Fault => Err(WalkStop::Fault),
    }
}

/// The word at a virtual address, where it can be read.
///
/// # Errors
///
/// A failure of the space, whose count of faults then rose.
pub fn read_word<S: Space, L: Ledger>(
    space: &mut S,
    at: u64,
    steps: &mut Steps<L>,
) -> Result<Option<u64>, WalkStop>
    ensures exact { WalksAs (λ w. w) (λ i. Ok (word_at i at)) (S.image space.old) result }
    ensures broken { OnBroken result ⊥ }
    ensures steps { steps.new ≤ steps.old + S.most space.old }
    ensures stays { SpaceStays S.image S.files S.through S.most space.old space.new }
    ensures cause { CountsWalkFaults result (S.faults space.old) (S.faults space.new) }
{
    match space.word(at, steps) {
        Ok(word) => Ok(Some(word.value)),
        Err(stop) => unread(stop),
    }
}

// The node that a node leads to, where that one leads back.
fn read_next<S: Space, L: Ledger>(
    space: &mut S,
    way: Way,
    node: u64,
    steps: &mut Steps<L>,
) -> Result<Option<u64>, WalkStop>
    ensures exact { WalksAs (λ n. n) (λ i. Ok (next_of i way node)) (S.image space.old) result }
    ensures broken { OnBroken result ⊥ }
    ensures steps { steps.new ≤ steps.old + 2 * S.most space.old }
    ensures stays { SpaceStays S.image S.files S.through S.most space.old space.new }
    ensures cause { CountsWalkFaults result (S.faults space.old) (S.faults space.new) }
{
    let Some(next) = read_word(space, node.wrapping_add(way.on), steps)? else {
        return Ok(None);
    };
    let Some(back) = read_word(space, next.wrapping_add(way.back), steps)? else {
        return Ok(None);
    };
    if back == node {
        Ok(Some(next))
    } else {
        Ok(None)
    }
}

// A node, where the walk doesn't end there.
fn within(ends: Ends, next: u64) -> Option<u64>
    ensures { result ≡ within ends next }
{
    if next == ends.head || next == ends.last {
        None
    } else {
        Some(next)
    }
}

// The node that a node leads to, where that one leads back and the walk doesn't end there.
fn read_within<S: Space, L: Ledger>(
    space: &mut S,
    way: Way,
    ends: Ends,
    node: u64,
    steps: &mut Steps<L>,
) -> Result<Option<u64>, WalkStop>
    ensures exact { WalksAs (λ n. n) (λ i. Ok (next_in i way ends node)) (S.image space.old) result }
    ensures broken { OnBroken result ⊥ }
    ensures steps { steps.new ≤ steps.old + 12 }
    ensures stays { SpaceStays S.image S.files S.through S.most space.old space.new }
    ensures cause { CountsWalkFaults result (S.faults space.old) (S.faults space.new) }
{
    know_most(space);
    match read_next(space, way, node, steps)? {
        Some(next) => Ok(within(ends, next)),
        None => Ok(None),
    }
}

// The nodes that are reached one way, in that order.
fn reach<S: Space, L: Ledger>(
    alloc: Global,
    space: &mut S,
    way: Way,
    ends: Ends,
    steps: &mut Steps<L>,
) -> Result<Walked, WalkStop>
    ensures exact { WalksAs (λ ns. ns) (λ i. Ok (reached i way ends most_nodes ends.head)) (S.image space.old) result }
    ensures broken { OnBroken result ⊥ }
    ensures steps { steps.new ≤ steps.old + 12 * most_nodes }
    ensures stays { SpaceStays S.image S.files S.through S.most space.old space.new }
    ensures cause { CountsWalkFaults result (S.faults space.old) (S.faults space.new) }
{
    let mut nodes = Walked::new(alloc);
    let mut node = ends.head;
    let mut left = MOST;
    while left > 0 {
        let next = match read_within(space, way, ends, node, steps) {
            Ok(Some(next)) => next,
            Ok(None) => return Ok(nodes),
            Err(stop) => return Err(stop),
        };
        push_node(&mut nodes, next)?;
        node = next;
        left -= 1;
    }
    Ok(nodes)
}

// The last of some nodes, or the ring's head.
fn last_or(head: u64, nodes: &Walked) -> u64
    ensures { result ≡ last_or head nodes.now }
{
    if nodes.len() == 0 {
        head
    } else {
        *nodes.get(nodes.len() - 1)
    }
}

// Adds nodes to others.
pub(crate) fn join(nodes: &mut Walked, more: &[u64]) -> Result<(), WalkStop>
    ensures added { OnOk result (nodes.new ≡ nodes.old ++ more.now) }
    ensures broken { OnBroken result ⊥ }
    ensures no_fault { OnWalkFault result ⊥ }
{
    for node in more {
        push_node(nodes, *node)?;
    }
    Ok(())
}

// The nodes of a broken ring that are reached from its head by `next`, and then by `prev`.
fn read_parts<S: Space, L: Ledger>(
    alloc: Global,
    space: &mut S,
    list: &ListShape,
    head: u64,
    steps: &mut Steps<L>,
) -> Result<Walked, WalkStop>
    ensures exact { WalksAs (λ ns. ns) (λ i. Ok (parts_of i list.now head)) (S.image space.old) result }
    ensures broken { OnBroken result ⊥ }
    ensures steps { steps.new ≤ steps.old + 24 * most_nodes }
    ensures stays { SpaceStays S.image S.files S.through S.most space.old space.new }
    ensures cause { CountsWalkFaults result (S.faults space.old) (S.faults space.new) }
{
    let on = Way {
        on: list.next,
        back: list.prev,
    };
    let back = Way {
        on: list.prev,
        back: list.next,
    };
    let mut nodes = reach(alloc, space, on, Ends { head, last: head }, steps)?;
    let last = last_or(head, &nodes);
    let others = reach(alloc, space, back, Ends { head, last }, steps)?;
    join(&mut nodes, others.as_slice())?;
    Ok(nodes)
}

/// The nodes of the ring with a head at virtual address `head`, without the head: of a broken ring those that are reached from its head by
/// `next`, and then by `prev`, of which each node and the one before it name each other, 4,194,304 at most from each end. What is broken names
/// audit 0.
///
/// # Errors
///
/// A failure of the space, whose count of faults then rose; or out of memory.
pub fn read_ring<S: Space, L: Ledger>(
    alloc: Global,
    space: &mut S,
    list: &ListShape,
    head: u64,
    steps: &mut Steps<L>,
) -> Result<RingNodes, WalkStop>
    ensures exact { WalksAs ring_view (λ i. Ok (ring_nodes i list.now head)) (S.image space.old) result }
    ensures broken { OnBroken result ⊥ }
    ensures bound { WithinRing (S.image space.old) list.now head (S.most space.old) 1 0 steps.old steps.new }
    ensures stays { SpaceStays S.image S.files S.through S.most space.old space.new }
    ensures cause { CountsWalkFaults result (S.faults space.old) (S.faults space.new) }
{
    match ring(alloc, space, list, head, 0, steps) {
        Ok(nodes) => Ok(RingNodes {
            nodes,
            broken: None,
        }),
        Err(WalkStop::Broken(found)) => {
            let nodes = read_parts(alloc, space, list, head, steps)?;
            Ok(RingNodes {
                nodes,
                broken: Some(found),
            })
        }
        Err(WalkStop::Fault) => Err(WalkStop::Fault),
        Err(WalkStop::NoMemory) => Err(WalkStop::NoMemory),
    }
}
