// The task whose stack has an address.
ghost use Rattle.std.specs.Prelude.{◌≡◌, ◌∷◌, map, Ok, IfOk};
ghost use Rattle.kc_memory.specs.Stays.{SpaceStays};
ghost use Rattle.kc_found.specs.Walks.{CountsWalkFaults, OnBroken, OnWalkFault, WalksAs};
ghost use Rattle.kc_view.specs.TaskLists.{IsInside, task_of};
ghost use Rattle.kc_owner.specs.Firsts.{first_of};
ghost use Rattle.kc_owner.specs.Area.Stacks.{groups_of, in_stack, led_to, owner, stack_at, threads_of};
ghost use Rattle.kc_owner.specs.Rings.{ring_nodes};

use crate::area::shape::StackShape;
use crate::firsts::{byte_of, despite, none_found, pass_broken};
use crate::ring::{MOST, join};
use crate::{looked_at, read_known, read_ring, read_text, view_at};
use kc_btf::Btf;
use kc_found::{Found, Name, Space, WalkStop, Walked, push_node};
use kc_steps::read_field;
use kc_task::tasks_walk;
use kc_view::TaskShape;
use kc_word::Steps;
use std::alloc::Global;
use std::sync::ledger::Ledger;

/// A task, and a byte of its stack.
#[derive(Drop)]
pub struct InStack {
    /// The virtual address of the task (`struct task_struct`).
    pub task: u64,
    /// Its number.
    pub pid: u64,
    /// Its name.
    pub comm: Name,
    /// The byte, counted from the stack's lowest one.
    pub byte: u64,
}

// A task that has this byte of its stack at the address.
fn read_owner<S: Space, L: Ledger>(
    alloc: Global,
    space: &mut S,
    btf: &Btf,
    shape: &StackShape,
    task: u64,
    byte: Option<u64>,
    steps: &mut Steps<L>,
) -> Result<Option<InStack>, WalkStop>
    ensures exact { WalksAs (λ found. found) (λ i. owner i shape.now task byte) (S.image space.old) result }
    ensures stays { SpaceStays S.image S.files S.through S.most space.old space.new }
    ensures cause { CountsWalkFaults result (S.faults space.old) (S.faults space.new) }
{
    let Some(byte) = byte else {
        return Ok(None);
    };
    let asked = looked_at(task);
    let view = view_at(btf, task);
    let pid = read_field(alloc, space, &asked, &view, &shape.tasks.pid, steps)?.value();
    let at = task.wrapping_add(shape.comm.byte);
    let comm = read_text(alloc, space, at, shape.comm.count, steps)?;
    Ok(Some(InStack {
        task,
        pid,
        comm,
        byte,
    }))
}

// A task that has an address in its stack.
fn in_stack<S: Space, L: Ledger>(
    alloc: Global,
    space: &mut S,
    btf: &Btf,
    shape: &StackShape,
    address: u64,
    task: u64,
    steps: &mut Steps<L>,
) -> Result<Option<InStack>, WalkStop>
    ensures exact { WalksAs (λ found. found) (λ i. in_stack i shape.now address task) (S.image space.old) result }
    ensures stays { SpaceStays S.image S.files S.through S.most space.old space.new }
    ensures cause { CountsWalkFaults result (S.faults space.old) (S.faults space.new) }
{
    let asked = looked_at(task);
    let view = view_at(btf, task);
    let stack = read_field(alloc, space, &asked, &view, &shape.tasks.stack, steps)?.value();
    let byte = byte_of(stack, shape.bytes, address);
    read_owner(alloc, space, btf, shape, task, byte, steps)
}

// The first of these tasks that has an address in its stack.
fn in_stacks<S: Space, L: Ledger>(
    alloc: Global,
    space: &mut S,
    btf: &Btf,
    shape: &StackShape,
    address: u64,
    tasks: &Walked,
    steps: &mut Steps<L>,
) -> Result<Option<InStack>, WalkStop>
    ensures exact { WalksAs (λ found. found) (λ i. first_of (in_stack i shape.now address) tasks.now) (S.image space.old) result }
    ensures stays { SpaceStays S.image S.files S.through S.most space.old space.new }
    ensures cause { CountsWalkFaults result (S.faults space.old) (S.faults space.new) }
{
    let mut missed: Option<Found> = None;
    let mut i = 0;
    while i < tasks.len() {
        let task = *tasks.get(i);
        let told = in_stack(alloc, space, btf, shape, address, task, steps);
        match pass_broken(&mut missed, told) {
            Ok(None) => {}
            Ok(Some(found)) => return Ok(Some(found)),
            Err(stop) => return Err(stop),
        }
        i += 1;
    }
    none_found(missed)
}

// The tasks that these nodes stand in, each at an offset, after another one.
fn tasks_from(alloc: Global, first: u64, nodes: &Walked, offset: u64) -> Result<Walked, WalkStop>
    ensures tasks { IfOk result (λ tasks. tasks ≡ first ∷ map (task_of offset) nodes.now) }
    ensures broken { OnBroken result ⊥ }
    ensures no_fault { OnWalkFault result ⊥ }
{
    let mut tasks = Walked::new(alloc);
    push_node(&mut tasks, first)?;
    for i in 0..nodes.len() {
        push_node(&mut tasks, nodes.get(i).wrapping_sub(offset))?;
    }
    Ok(tasks)
}

// A task, and those of a ring, each at an offset, also where that is broken.
fn read_tasks<S: Space, L: Ledger>(
    alloc: Global,
    space: &mut S,
    shape: &TaskShape,
    first: u64,
    head: u64,
    offset: u64,
    steps: &mut Steps<L>,
) -> Result<Walked, WalkStop>
    ensures exact { WalksAs (λ ts. ts) (λ i. Ok (first ∷ map (task_of offset) (ring_nodes i shape.now.list head).nodes)) (S.image space.old) result }
    ensures broken { OnBroken result ⊥ }
    ensures stays { SpaceStays S.image S.files S.through S.most space.old space.new }
    ensures cause { CountsWalkFaults result (S.faults space.old) (S.faults space.new) }
{
    let ring = read_ring(alloc, space, &shape.list, head, steps)?;
    tasks_from(alloc, first, &ring.nodes, offset)
}

// A leader, and the threads of its group.
fn read_group<S: Space, L: Ledger>(
    alloc: Global,
    space: &mut S,
    btf: &Btf,
    shape: &TaskShape,
    leader: u64,
    steps: &mut Steps<L>,
) -> Result<Walked, WalkStop>
    ensures exact { WalksAs (λ ts. ts) (λ i. Ok (leader ∷ threads_of i shape.now leader)) (S.image space.old) result }
    ensures broken { OnBroken result ⊥ }
    ensures stays { SpaceStays S.image S.files S.through S.most space.old space.new }
    ensures cause { CountsWalkFaults result (S.faults space.old) (S.faults space.new) }
{
    let view = view_at(btf, leader);
    let field = Some(shape.signal);
    let Some(signal) = read_known(alloc, space, &view, &field, steps)? else {
        return tasks_from(alloc, leader, &Walked::new(alloc), 0);
    };
    let head = signal.wrapping_add(shape.thread_head);
    read_tasks(alloc, space, shape, leader, head, shape.thread_node, steps)
}

// The tasks of these groups, each leader before its threads, group after group until there are so many.
fn read_groups<S: Space, L: Ledger>(
    alloc: Global,
    space: &mut S,
    btf: &Btf,
    shape: &TaskShape,
    leaders: &Walked,
    steps: &mut Steps<L>,
) -> Result<Walked, WalkStop>
    ensures exact { WalksAs (λ ts. ts) (λ i. Ok (groups_of i shape.now 0 leaders.now)) (S.image space.old) result }
    ensures broken { OnBroken result ⊥ }
    ensures stays { SpaceStays S.image S.files S.through S.most space.old space.new }
    ensures cause { CountsWalkFaults result (S.faults space.old) (S.faults space.new) }
{
    let mut tasks = Walked::new(alloc);
    let mut i = 0;
    while i < leaders.len() {
        if tasks.len() as u64 >= MOST {
            return Ok(tasks);
        }
        let leader = *leaders.get(i);
        let group = read_group(alloc, space, btf, shape, leader, steps)?;
        join(&mut tasks, group.as_slice())?;
        i += 1;
    }
    Ok(tasks)
}

// The first task that the rings of a broken task list lead to and that has an address in its stack.
fn in_rings<S: Space, L: Ledger>(
    alloc: Global,
    space: &mut S,
    btf: &Btf,
    shape: &StackShape,
    address: u64,
    steps: &mut Steps<L>,
) -> Result<Option<InStack>, WalkStop>
    ensures exact { WalksAs (λ found. found) (λ i. first_of (in_stack i shape.now address) (led_to i shape.now)) (S.image space.old) result }
    ensures stays { SpaceStays S.image S.files S.through S.most space.old space.new }
    ensures cause { CountsWalkFaults result (S.faults space.old) (S.faults space.new) }
{
    let tasks = &shape.tasks;
    let head = shape.first.wrapping_add(tasks.tasks);
    let leaders = read_tasks(alloc, space, tasks, shape.first, head, tasks.tasks, steps)?;
    let tasks = read_groups(alloc, space, btf, tasks, &leaders, steps)?;
    in_stacks(alloc, space, btf, shape, address, &tasks, steps)
}

// The first task of the task list that has an address in its stack; where that breaks a rule, of those that its rings still lead to.
pub(crate) fn read_stack<S: Space, L: Ledger>(
    alloc: Global,
    space: &mut S,
    btf: &Btf,
    shape: &StackShape,
    address: u64,
    steps: &mut Steps<L>,
) -> Result<Option<InStack>, WalkStop>
    requires { IsInside shape.now.tasks btf.now }
    ensures exact { WalksAs (λ found. found) (λ i. stack_at i shape.now address) (S.image space.old) result }
    ensures stays { SpaceStays S.image S.files S.through S.most space.old space.new }
    ensures cause { CountsWalkFaults result (S.faults space.old) (S.faults space.new) }
{
    match tasks_walk(alloc, space, btf, &shape.tasks, shape.first, 0, steps) {
        Ok(tasks) => in_stacks(alloc, space, btf, shape, address, &tasks, steps),
        Err(WalkStop::Broken(broken)) => {
            let found = in_rings(alloc, space, btf, shape, address, steps);
            despite(broken, found)
        }
        Err(WalkStop::Fault) => Err(WalkStop::Fault),
        Err(WalkStop::NoMemory) => Err(WalkStop::NoMemory),
    }
}
