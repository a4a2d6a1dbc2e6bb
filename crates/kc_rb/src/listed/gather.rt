// The numbers of a tree, by its pointers alone.
ghost use Rattle.std.specs.Prelude.{◌≡◌, ◌+◌, ◌*◌, ◌≤◌, length};
ghost use Rattle.kc_memory.specs.Stays.{SpaceStays};
ghost use Rattle.kc_memory.specs.Translation.{vword};
ghost use Rattle.kc_found.specs.Nodes.{at_offset};
ghost use Rattle.kc_found.specs.Tests.{CountsTestFaults};
ghost use Rattle.kc_rb.specs.Listed.Collected.{Collected, CollectsTree, ReadsAs};

use crate::listed::laws::know_listed_trees;
use kc_found::{RbShape, Space, Stop, TestStop, Walked};
use kc_word::{NoMemory, Steps};
use std::alloc::Global;
use std::sync::ledger::Ledger;

// The pointer at an address.
fn pointer_at<S: Space, L: Ledger>(
    space: &mut S,
    va: u64,
    steps: &mut Steps<L>,
) -> Result<u64, TestStop>
    ensures reads { ReadsAs (λ i. vword i va) (S.image space.old) result }

    ensures stays { SpaceStays S.image S.files S.through S.most space.old space.new }
    ensures cause { CountsTestFaults result (S.faults space.old) (S.faults space.new) }
{
    match space.word(va, steps) {
        Ok(word) => Ok(word.value),
        Err(Stop::Miss(_)) => Err(TestStop::Unfit),
        Err(Stop::Fault) => Err(TestStop::Fault),
    }
}

// The numbers of the tree that a pointer leads to, in preorder, where it has so many at most.
fn collect<S: Space, L: Ledger>(
    alloc: Global,
    space: &mut S,
    shape: &RbShape,
    root: u64,
    limit: usize,
    steps: &mut Steps<L>,
) -> Result<Walked, TestStop>
    ensures numbers { Collected shape.now root limit (S.image space.old) result }

    ensures stays { SpaceStays S.image S.files S.through S.most space.old space.new }
    ensures cause { CountsTestFaults result (S.faults space.old) (S.faults space.new) }
{
    let mut numbers = Walked::new(alloc);
    let mut pending = Vec::new(alloc);
    match pending.push(root) {
        Ok(()) => {}
        Err(_) => return Err(TestStop::NoMemory),
    }
    for i in 0..limit {
        let node = match pending.pop() {
            Some(node) => node,
            None => return Ok(numbers),
        };
        match numbers.push(node) {
            Ok(()) => {}
            Err(NoMemory) => return Err(TestStop::NoMemory),
        }
        if node == 0 {
            continue;
        }
        let right = pointer_at(space, node.wrapping_add(shape.right), steps)?;
        let left = pointer_at(space, node.wrapping_add(shape.left), steps)?;
        match pending.push(right) {
            Ok(()) => {}
            Err(_) => return Err(TestStop::NoMemory),
        }
        match pending.push(left) {
            Ok(()) => {}
            Err(_) => return Err(TestStop::NoMemory),
        }
    }
    if pending.len() == 0 {
        Ok(numbers)
    } else {
        Err(TestStop::Unfit)
    }
}

/// The numbers in preorder of the red-black tree whose root is at a virtual address and whose nodes from left to right these are: the
/// virtual address of each node, and 0 for a null. It goes along the pointers, to two numbers for each node and one more at most,
/// and checks nothing.
///
/// # Errors
///
/// `Unfit` only where these aren't the nodes of a red-black tree there, a failure of the space, or out of memory.
pub fn collect_tree<S: Space, L: Ledger>(
    alloc: Global,
    space: &mut S,
    shape: &RbShape,
    start: u64,
    nodes: &Walked,
    steps: &mut Steps<L>,
) -> Result<Walked, TestStop>
    ensures numbers { CollectsTree shape.now start nodes.now (S.image space.old) result }

    ensures stays { SpaceStays S.image S.files S.through S.most space.old space.new }
    ensures cause { CountsTestFaults result (S.faults space.old) (S.faults space.new) }
{
    know_listed_trees();
    let limit = 2 * nodes.as_slice().len() + 1;
    let root = pointer_at(space, start.wrapping_add(shape.root), steps)?;
    collect(alloc, space, shape, root, limit, steps)
}
