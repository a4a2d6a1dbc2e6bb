// A thread: what it shares with its group, its children, and its stack.
ghost use Rattle.std.specs.Prelude.{◌≡◌, ◌≤◌, ◌+◌, ◌*◌, length};
ghost use Rattle.kc_memory.specs.declared.rule.Rule.TheVariants.{T5};
ghost use Rattle.kc_memory.specs.Stays.{SpaceStays};
ghost use Rattle.kc_found.specs.Walks.{CountsWalkFaults, IsNamed, WalksAs};
ghost use Rattle.kc_view.specs.Fields.{holds};
ghost use Rattle.kc_steps.specs.Chains.{WalkPays, size};
ghost use Rattle.kc_steps.specs.TasksBy.{children_by, thread_by};
ghost use Rattle.kc_view.specs.TaskLists.{IsInside, all_pass, end_checked, shared_checked, stack_checked};

use crate::pass::TaskPass;
use crate::rings::tasks_on;
use kc_btf::Btf;
use kc_found::{Rule, Space, WalkStop, Walked, broken_at, know_most, stopped};
use kc_steps::{Rings, check_field, read_field};
use kc_view::{ThreadGroup, View};
use kc_word::Steps;
use std::sync::ledger::Ledger;

// The word at the end of a kernel stack.
const STACK_END: u64 = 0x57ac_6e9d;

// Looks at the parent of each of these children.
fn check_parents<S: Space, L: Ledger>(
    pass: &TaskPass,
    space: &mut S,
    btf: &Btf,
    owner: u64,
    children: &Walked,
    steps: &mut Steps<L>,
) -> Result<(), WalkStop>
    requires { IsInside pass.now.shape btf.now }
    ensures exact { WalksAs (λ _. tt)
        (λ i. all_pass (λ child. holds i pass.now.asked T5 child pass.now.shape.real_parent owner) children.now)
        (S.image space.old) result }
    ensures named { IsNamed result pass.now.asked.audit pass.now.asked.start }
    ensures steps { steps.new ≤ steps.old + 60 * length children.now }

    ensures stays { SpaceStays S.image S.files S.through S.most space.old space.new }
    ensures cause { CountsWalkFaults result (S.faults space.old) (S.faults space.new) }
{
    let alloc = pass.alloc;
    let asked = &pass.asked;
    let shape = &pass.shape;
    let mut i = 0;
    while i < children.len() {
        let child = View::new(btf, shape.task, *children.get(i));
        let parent = &shape.real_parent;
        match check_field(alloc, space, asked, Rule::T5, &child, parent, owner, steps) {
            Ok(()) => {}
            Err(stop) => return Err(stop),
        }
        i += 1;
    }
    Ok(())
}

// Looks at the children of a task.
fn check_children<S: Space, R: Rings, L: Ledger>(
    pass: &TaskPass,
    space: &mut S,
    rings: &mut R,
    btf: &Btf,
    owner: u64,
    steps: &mut Steps<L>,
) -> Result<(), WalkStop>
    requires { IsInside pass.now.shape btf.now }
    ensures exact { WalksAs (λ _. R.lists rings.new)
        (λ i. children_by i (R.ring_by i) pass.now.asked pass.now.shape owner (R.lists rings.old)) (S.image space.old) result }
    ensures named { IsNamed result pass.now.asked.audit pass.now.asked.start }
    ensures pays { R.paid → WalkPays result 0 0 (size (R.lists rings.old))
        (size (R.lists rings.new)) steps.old steps.new }

    ensures stays { SpaceStays S.image S.files S.through S.most space.old space.new }
    ensures cause { CountsWalkFaults result (S.faults space.old) (S.faults space.new) }
{
    let head = owner.wrapping_add(pass.shape.children);
    let children = tasks_on(pass, space, rings, head, pass.shape.sibling, steps)?;
    check_parents(pass, space, btf, owner, &children, steps)
}

// Looks at the last word of a stack, unless there is no stack.
fn check_end<S: Space, L: Ledger>(
    pass: &TaskPass,
    space: &mut S,
    stack: u64,
    steps: &mut Steps<L>,
) -> Result<(), WalkStop>
    ensures exact { WalksAs (λ _. tt) (λ i. end_checked i pass.now.asked stack) (S.image space.old) result }
    ensures named { IsNamed result pass.now.asked.audit pass.now.asked.start }
    ensures steps { steps.new ≤ steps.old + 6 }

    ensures stays { SpaceStays S.image S.files S.through S.most space.old space.new }
    ensures cause { CountsWalkFaults result (S.faults space.old) (S.faults space.new) }
{
    know_most(space);
    if stack == 0 {
        return Ok(());
    }
    let word = match space.word(stack, steps) {
        Ok(word) => word,
        Err(stop) => return Err(stopped(pass.alloc, &pass.asked, stop, None)),
    };
    if word.value != STACK_END {
        return Err(broken_at(pass.alloc, &pass.asked, Rule::T6, &word, Some(STACK_END)));
    }
    Ok(())
}

// Looks at the stack of a task.
fn check_stack<S: Space, L: Ledger>(
    pass: &TaskPass,
    space: &mut S,
    task: &View<'_>,
    steps: &mut Steps<L>,
) -> Result<(), WalkStop>
    ensures exact { WalksAs (λ _. tt) (λ i. stack_checked i pass.now.asked pass.now.shape task.now.at)
        (S.image space.old) result }
    ensures named { IsNamed result pass.now.asked.audit pass.now.asked.start }
    ensures steps { steps.new ≤ steps.old + 66 }

    ensures stays { SpaceStays S.image S.files S.through S.most space.old space.new }
    ensures cause { CountsWalkFaults result (S.faults space.old) (S.faults space.new) }
{
    let field = &pass.shape.stack;
    let stack = read_field(pass.alloc, space, &pass.asked, task, field, steps)?.value();
    check_end(pass, space, stack, steps)
}

// Looks at what a thread shares with its group.
fn check_shared<S: Space, L: Ledger>(
    pass: &TaskPass,
    space: &mut S,
    group: &ThreadGroup,
    thread: &View<'_>,
    steps: &mut Steps<L>,
) -> Result<(), WalkStop>
    ensures exact { WalksAs (λ _. tt) (λ i. shared_checked i pass.now.asked pass.now.shape group.now thread.now.at)
        (S.image space.old) result }
    ensures named { IsNamed result pass.now.asked.audit pass.now.asked.start }
    ensures steps { steps.new ≤ steps.old + 180 }

    ensures stays { SpaceStays S.image S.files S.through S.most space.old space.new }
    ensures cause { CountsWalkFaults result (S.faults space.old) (S.faults space.new) }
{
    let alloc = pass.alloc;
    let asked = &pass.asked;
    let shape = &pass.shape;
    let ThreadGroup {
        leader,
        signal,
        tgid,
    } = *group;
    let field = &shape.group_leader;
    check_field(alloc, space, asked, Rule::T1, thread, field, leader, steps)?;
    let field = &shape.signal;
    check_field(alloc, space, asked, Rule::T3, thread, field, signal, steps)?;
    let field = &shape.tgid;
    check_field(alloc, space, asked, Rule::T4, thread, field, tgid, steps)
}

// Looks at a thread of a group.
pub(crate) fn check_thread<S: Space, R: Rings, L: Ledger>(
    pass: &TaskPass,
    space: &mut S,
    rings: &mut R,
    btf: &Btf,
    group: &ThreadGroup,
    at: u64,
    steps: &mut Steps<L>,
) -> Result<(), WalkStop>
    requires { IsInside pass.now.shape btf.now }
    ensures exact { WalksAs (λ _. R.lists rings.new)
        (λ i. thread_by i (R.ring_by i) pass.now.asked pass.now.shape group.now at (R.lists rings.old)) (S.image space.old) result }
    ensures named { IsNamed result pass.now.asked.audit pass.now.asked.start }
    ensures pays { R.paid → WalkPays result 246 246 (size (R.lists rings.old))
        (size (R.lists rings.new)) steps.old steps.new }

    ensures stays { SpaceStays S.image S.files S.through S.most space.old space.new }
    ensures cause { CountsWalkFaults result (S.faults space.old) (S.faults space.new) }
{
    let thread = View::new(btf, pass.shape.task, at);
    check_shared(pass, space, group, &thread, steps)?;
    check_children(pass, space, rings, btf, at, steps)?;
    check_stack(pass, space, &thread, steps)
}
