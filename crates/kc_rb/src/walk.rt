// The walk of a red-black tree.
ghost use Rattle.std.specs.Prelude.{◌≡◌, ◌<◌, ◌-◌, ◌^◌, ◌++◌, ◌∷◌, [], None, IfErr, IfOk, IfSome, OnOk};
ghost use Rattle.kc_memory.specs.Stays.{SpaceStays};
ghost use Rattle.kc_found.specs.RbFinite.{AreRising, NoRbTree, RbTree, keys_in};
ghost use Rattle.kc_found.specs.RbTrees.{left_spot, reads_of, right_spot, tree_walk};
ghost use Rattle.kc_found.specs.Walks.{CountsWalkFaults, IsNamed, OnBroken, WalksAs, WithinSteps};
ghost use Rattle.kc_rb.specs.declared.walk.Task.TheVariants.{Give, Visit};

use crate::node::enter_node;
use crate::reading::enter_head;
use crate::rules::{judge_leftmost, judge_null};
use crate::spots::{left_of, right_of, root_of};
use kc_found::{
    Asked, Claims, RbKey, RbLinks, RbShape, RbSpot, Space, WalkStop, Walked, push_node,
};
use kc_word::Steps;
use std::alloc::Global;
use std::sync::ledger::Ledger;

// What is still to be done.
#[derive(Clone, Copy)]
pub enum Task {
    // The tree at a position, so many nodes below the top.
    Visit(RbSpot, u64),
    // A node's place in the walked list.
    Give(u64),
}

// Adds a task.
fn push_task(pending: &mut Vec<Task>, task: Task) -> Result<(), WalkStop>
    ensures added { OnOk result (pending.new.items ≡ pending.old.items ++ task ∷ []) }
    ensures memory { IfErr result (λ stop. stop ≡ WalkStop.NoMemory) }
{
    match pending.push(task) {
        Ok(()) => Ok(()),
        Err(_) => Err(WalkStop::NoMemory),
    }
}

// Adds what is below a node, and the node itself between its children. The left child is looked at first.
fn push_children(
    pending: &mut Vec<Task>,
    spot: &RbSpot,
    links: &RbLinks,
    key: &Option<RbKey>,
    depth: u64,
) -> Result<(), WalkStop>
    requires { spot.now.black < 2 ^ 64 - 1 }
    ensures added { OnOk result (pending.new.items ≡ pending.old.items ++ Visit (right_spot spot.now links.now key.now) depth ∷ Give spot.now.link.value ∷ Visit (left_spot spot.now links.now key.now) depth ∷ []) }
    ensures memory { IfErr result (λ stop. stop ≡ WalkStop.NoMemory) }
{
    push_task(pending, Task::Visit(right_of(spot, links, key), depth))?;
    push_task(pending, Task::Give(spot.link.value))?;
    push_task(pending, Task::Visit(left_of(spot, links, key), depth))
}

// Walks a tree, with a stack of its own: no call goes down with the depth of the tree.
fn walk_tree<S: Space, L: Ledger>(
    alloc: Global,
    space: &mut S,
    shape: &RbShape,
    asked: &Asked,
    steps: &mut Steps<L>,
) -> Result<Walked, WalkStop>
    ensures walk { WalksAs (λ w. w) (λ image. tree_walk image shape.now asked.now.audit asked.now.start) (S.image space.old) result }
    ensures named { IsNamed result asked.now.audit asked.now.start }
    ensures bound { WithinSteps (S.image space.old) (S.most space.old) steps.old steps.new }

    ensures stays { SpaceStays S.image S.files S.through S.most space.old space.new }
    ensures cause { CountsWalkFaults result (S.faults space.old) (S.faults space.new) }
{
    let mut claims = Claims::new(alloc);
    let head = enter_head(alloc, space, shape, asked, &mut claims, steps)?;
    let mut walked = Walked::new(alloc);
    let mut pending = Vec::new(alloc);
    push_task(&mut pending, Task::Visit(root_of(head.root), 0))?;
    let mut first = None;
    while let Some(task) = pending.pop() {
        let (spot, depth) = match task {
            Task::Give(node) => {
                push_node(&mut walked, node)?;
                continue;
            }
            Task::Visit(spot, depth) => (spot, depth),
        };
        if spot.link.value == 0 {
            let number = judge_null(alloc, asked, &spot, first)?;
            first = Some(number);
            continue;
        }
        let (links, key) = enter_node(alloc, space, shape, asked, &mut claims, &spot, steps)?;
        push_children(&mut pending, &spot, &links, &key, depth + 1)?;
    }
    judge_leftmost(alloc, asked, &head.leftmost, &walked)?;
    Ok(walked)
}

/// The nodes of the red-black tree with a root at virtual address `start`, from left to right. The audit's number is
/// named where the tree breaks a rule. It keeps a stack of its own, whose memory grows with the depth of the tree.
///
/// # Errors
///
/// The first violation, exactly where the tree has one; a failure of the space, whose count of faults then rose; or out
/// of memory.
pub fn rb_walk<S: Space, L: Ledger>(
    alloc: Global,
    space: &mut S,
    shape: &RbShape,
    start: u64,
    audit: u32,
    steps: &mut Steps<L>,
) -> Result<Walked, WalkStop>
    ensures walk { WalksAs (λ w. w) (λ image. tree_walk image shape.now audit start) (S.image space.old) result }
    ensures finite { IfOk result (λ ns. IfSome (S.image space.old) (λ image. RbTree (reads_of image) shape.now start ns)) }
    ensures none { OnBroken result (IfSome (S.image space.old) (λ image. NoRbTree (reads_of image) shape.now start)) }
    ensures rising { IfOk result (λ ns. IfSome (S.image space.old) (λ image. AreRising shape.now.unique None (keys_in (reads_of image) shape.now ns))) }
    ensures named { IsNamed result audit start }
    ensures bound { WithinSteps (S.image space.old) (S.most space.old) steps.old steps.new }

    ensures stays { SpaceStays S.image S.files S.through S.most space.old space.new }
    ensures cause { CountsWalkFaults result (S.faults space.old) (S.faults space.new) }
{
    let asked = Asked { audit, start };
    walk_tree(alloc, space, shape, &asked, steps)
}
