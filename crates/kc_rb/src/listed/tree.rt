// The words that the list of a red-black tree names.
ghost use Rattle.std.specs.Prelude.{◌≡◌, ◌+◌, ◌*◌, ◌≤◌, ◌<◌, ◌^◌, ◌-◌, ◌++◌, ◌∷◌, [], None, IfErr, IfOk, OnOk, get_or, length};
ghost use Rattle.kc_memory.specs.Stays.{SpaceStays};
ghost use Rattle.kc_found.specs.RbTrees.{course_of, differs, left_spot, right_spot};
ghost use Rattle.kc_rb.specs.Faults.{or_else};
ghost use Rattle.kc_found.specs.Tests.{CountsTestFaults, TellsAs};
ghost use Rattle.kc_rb.specs.Listed.Trees.{is_first, is_tree, listed, turn};

use crate::node::enter_node;
use crate::reading::enter_head;
use crate::spots::{left_of, right_of, root_of};
use kc_found::{
    Asked, Claims, RbKey, RbLinks, RbShape, RbSpot, Space, TestStop, VWord, Walked, know_most,
    test_stop_of,
};
use kc_word::{NoMemory, Steps};
use std::alloc::Global;
use std::sync::ledger::Ledger;

// A tree that is tested: the allocator, who asked, and where the words stand.
#[derive(Drop)]
struct RbPass {
    alloc: Global,
    asked: Asked,
    shape: RbShape,
}

// Whether another number of black nodes stands above a null than above the first one.
fn differs(first: Option<u64>, black: u64) -> bool
    ensures { result ≡ differs first black }
{
    match first {
        Some(number) => number != black,
        None => false,
    }
}

// The number of the first null.
fn or_else(first: Option<u64>, black: u64) -> u64
    ensures { result ≡ or_else first black }
{
    match first {
        Some(number) => number,
        None => black,
    }
}

// Adds a position.
fn push_spot(pending: &mut Vec<RbSpot>, spot: RbSpot) -> Result<(), TestStop>
    ensures added { OnOk result (pending.new.items ≡ pending.old.items ++ spot ∷ []) }
    ensures memory { IfErr result (λ halt. halt ≡ TestStop.NoMemory) }
{
    match pending.push(spot) {
        Ok(()) => Ok(()),
        Err(_) => Err(TestStop::NoMemory),
    }
}

// Adds the positions below a node. The left child is looked at first.
fn push_children(
    pending: &mut Vec<RbSpot>,
    spot: &RbSpot,
    links: &RbLinks,
    key: &Option<RbKey>,
) -> Result<(), TestStop>
    requires { spot.now.black < 2 ^ 64 - 1 }
    ensures added { OnOk result (pending.new.items ≡ pending.old.items ++ right_spot spot.now links.now key.now ∷ left_spot spot.now links.now key.now ∷ []) }
    ensures memory { IfErr result (λ halt. halt ≡ TestStop.NoMemory) }
{
    push_spot(pending, right_of(spot, links, key))?;
    push_spot(pending, left_of(spot, links, key))
}

// Tests whether these numbers are the tree at a position.
fn test_numbers<S: Space, L: Ledger>(
    pass: &RbPass,
    space: &mut S,
    claims: &mut Claims,
    root: RbSpot,
    numbers: &Walked,
    steps: &mut Steps<L>,
) -> Result<(), TestStop>
    requires { root.black ≡ 0 }
    ensures test { TellsAs (λ i. listed (course_of i pass.now.shape pass.now.asked) None claims.old (root ∷ []) numbers.now) (S.image space.old) result }
    ensures steps { steps.new ≤ steps.old + 30 * length numbers.now }

    ensures stays { SpaceStays S.image S.files S.through S.most space.old space.new }
    ensures cause { CountsTestFaults result (S.faults space.old) (S.faults space.new) }
{
    let alloc = pass.alloc;
    let asked = &pass.asked;
    let shape = &pass.shape;
    let mut pending = Vec::new(alloc);
    push_spot(&mut pending, root)?;
    let mut first = None;
    for i in 0..numbers.len() {
        let number = *numbers.get(i);
        let spot = match pending.pop() {
            Some(spot) => spot,
            None => return Err(TestStop::Unfit),
        };
        if number != spot.link.value {
            return Err(TestStop::Unfit);
        }
        if number == 0 {
            if differs(first, spot.black) {
                return Err(TestStop::Unfit);
            }
            first = Some(or_else(first, spot.black));
            continue;
        }
        know_most(space);
        let (links, key) = match enter_node(alloc, space, shape, asked, claims, &spot, steps) {
            Ok(entered) => entered,
            Err(stop) => return Err(test_stop_of(stop)),
        };
        push_children(&mut pending, &spot, &links, &key)?;
    }
    if pending.len() == 0 {
        Ok(())
    } else {
        Err(TestStop::Unfit)
    }
}

/// The nodes from left to right of the tree that has these numbers in preorder, the virtual address of each node and 0 for a null.
///
/// # Errors
///
/// Out of memory.
pub fn turned(alloc: Global, numbers: &Walked) -> Result<Walked, NoMemory>
    ensures { IfOk result (λ nodes. nodes ≡ turn [] numbers.now) }
{
    let mut nodes = Walked::new(alloc);
    let mut above = Vec::new(alloc);
    for i in 0..numbers.len() {
        let number = *numbers.get(i);
        if number != 0 {
            above.push(number)?;
            continue;
        }
        let node = match above.pop() {
            Some(node) => node,
            None => return Ok(nodes),
        };
        nodes.push(node)?;
    }
    Ok(nodes)
}

// The first node, or 0.
fn first_of(nodes: &Walked) -> u64
    ensures { result ≡ get_or nodes.now 0 0 }
{
    if nodes.len() == 0 { 0 } else { *nodes.get(0) }
}

// Whether the word of a cached root leads to the first node.
fn is_first(alloc: Global, leftmost: &Option<VWord>, numbers: &Walked) -> Result<bool, NoMemory>
    ensures { IfOk result (λ b. b ≡ is_first leftmost.now (turn [] numbers.now)) }
{
    match leftmost {
        Some(word) => {
            let nodes = turned(alloc, numbers)?;
            Ok(word.value == first_of(&nodes))
        }
        None => Ok(true),
    }
}

/// Tests whether these numbers are the red-black tree whose root is at a virtual address: in preorder, the virtual address of each
/// node and 0 for a null. It reads the words of the root, and three words and the key of each node.
///
/// # Errors
///
/// `Unfit` exactly where they aren't, a failure of the space, or out of memory.
pub fn test_tree<S: Space, L: Ledger>(
    alloc: Global,
    space: &mut S,
    shape: &RbShape,
    start: u64,
    numbers: &Walked,
    steps: &mut Steps<L>,
) -> Result<(), TestStop>
    ensures test { TellsAs (λ i. is_tree i shape.now start numbers.now) (S.image space.old) result }
    ensures steps { steps.new ≤ steps.old + 12 + 30 * length numbers.now }

    ensures stays { SpaceStays S.image S.files S.through S.most space.old space.new }
    ensures cause { CountsTestFaults result (S.faults space.old) (S.faults space.new) }
{
    let asked = Asked { audit: 0, start };
    let mut claims = Claims::new(alloc);
    know_most(space);
    let head = match enter_head(alloc, space, shape, &asked, &mut claims, steps) {
        Ok(head) => head,
        Err(stop) => return Err(test_stop_of(stop)),
    };
    let pass = RbPass {
        alloc,
        asked,
        shape: *shape,
    };
    let root = root_of(head.root);
    test_numbers(&pass, space, &mut claims, root, numbers, steps)?;
    match is_first(alloc, &head.leftmost, numbers) {
        Ok(true) => Ok(()),
        Ok(false) => Err(TestStop::Unfit),
        Err(NoMemory) => Err(TestStop::NoMemory),
    }
}
