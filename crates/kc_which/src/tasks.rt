// The rings of tasks, and the tasks that stand in them.
ghost use Rattle.std.specs.Prelude.{◌≡◌, Ok};
ghost use Rattle.kc_memory.specs.Stays.{SpaceStays};
ghost use Rattle.kc_found.specs.Walks.{CountsWalkFaults, OnBroken, WalksAs};
ghost use Rattle.kc_view.specs.TaskLists.{IsInside, task_of};
ghost use Rattle.kc_which.specs.Ends.{OnlyWalks};
ghost use Rattle.kc_which.specs.Firsts.{first_of};
ghost use Rattle.kc_which.specs.TaskRings.{element_at, in_children, in_group, in_leaders, in_tasks, in_threads, link_of, nodes_on, ring_head, task_ring, task_in, with_head};

use crate::ends::{asked_of, broken_node, told};
use kc_btf::Btf;
use kc_found::{Found, Space, WalkStop, Walked};
use kc_list::ring;
use kc_steps::read_field;
use kc_view::{TaskShape, View};
use kc_word::Steps;
use std::alloc::Global;
use std::sync::ledger::Ledger;

/// One of the rings of tasks.
#[derive(Clone, Copy, Debug, PartialEq, Eq)]
pub enum TaskRing {
    /// The ring of the leaders of thread groups, which the task at which the walk starts is in.
    Tasks,
    /// The ring of a group's threads: the virtual addresses of its leader (`struct task_struct`) and of what its threads share
    /// (`struct signal_struct`), which has the ring's head.
    Threads { leader: u64, signal: u64 },
    /// The ring of a task's children: the virtual address of the task, which has the ring's head.
    Children { parent: u64 },
}

/// What has a pointer of one of these rings, by its virtual address.
#[derive(Clone, Copy, Debug, PartialEq, Eq)]
pub enum TaskElement {
    /// A task (`struct task_struct`).
    Task(u64),
    /// What the threads of a group share (`struct signal_struct`).
    Signal(u64),
}

// The task that has a node, at an offset from its address.
fn task_of(offset: u64, node: u64) -> u64
    ensures { result ≡ task_of offset node }
{
    node.wrapping_sub(offset)
}

/// The virtual address of the head of a ring, where the walk of the tasks starts at a task.
pub fn ring_head(shape: &TaskShape, start: u64, ring: TaskRing) -> u64
    ensures { result ≡ ring_head shape.now start ring }
{
    match ring {
        TaskRing::Tasks => start.wrapping_add(shape.tasks),
        TaskRing::Threads { signal, .. } => signal.wrapping_add(shape.thread_head),
        TaskRing::Children { parent } => parent.wrapping_add(shape.children),
    }
}

// The offset of a ring's nodes from the addresses of their tasks.
fn link_of(shape: &TaskShape, ring: TaskRing) -> u64
    ensures { result ≡ link_of shape.now ring }
{
    match ring {
        TaskRing::Tasks => shape.tasks,
        TaskRing::Threads { .. } => shape.thread_node,
        TaskRing::Children { .. } => shape.sibling,
    }
}

// The nodes of a ring, which is walked for the audit that found the violation.
fn walk_ring<S: Space, L: Ledger>(
    alloc: Global,
    space: &mut S,
    shape: &TaskShape,
    found: &Found,
    which: TaskRing,
    steps: &mut Steps<L>,
) -> Result<Walked, WalkStop>
    ensures exact { WalksAs (λ nodes. nodes) (λ i. nodes_on i shape.now found.now which) (S.image space.old) result }
    ensures reads { OnlyWalks S.image S.files S.through S.most S.faults result space.old space.new }
{
    let head = ring_head(shape, found.start, which);
    ring(alloc, space, &shape.list, head, found.audit, steps)
}

// The ring of a task's children, where it has the violation.
fn in_children<S: Space, L: Ledger>(
    alloc: Global,
    space: &mut S,
    shape: &TaskShape,
    found: &Found,
    parent: u64,
    steps: &mut Steps<L>,
) -> Result<Option<TaskRing>, WalkStop>
    ensures exact { WalksAs (λ ring. ring) (λ i. in_children i shape.now found.now parent) (S.image space.old) result }
    ensures reads { OnlyWalks S.image S.files S.through S.most S.faults result space.old space.new }
{
    let which = TaskRing::Children { parent };
    match walk_ring(alloc, space, shape, found, which, steps) {
        Ok(_) => Ok(None),
        Err(stop) => told(found, which, stop),
    }
}

// The first of the rings of children, of the threads that have these nodes.
fn in_all_children<S: Space, L: Ledger>(
    alloc: Global,
    space: &mut S,
    shape: &TaskShape,
    found: &Found,
    nodes: &Walked,
    steps: &mut Steps<L>,
) -> Result<Option<TaskRing>, WalkStop>
    ensures exact { WalksAs (λ ring. ring)
        (λ i. first_of (λ node. in_children i shape.now found.now (task_of shape.now.thread_node node)) nodes.now)
        (S.image space.old) result }
    ensures reads { OnlyWalks S.image S.files S.through S.most S.faults result space.old space.new }
{
    let mut i = 0;
    while i < nodes.len() {
        let node = *nodes.get(i);
        let thread = task_of(shape.thread_node, node);
        match in_children(alloc, space, shape, found, thread, steps) {
            Ok(None) => {}
            Ok(Some(which)) => return Ok(Some(which)),
            Err(stop) => return Err(stop),
        }
        i += 1;
    }
    Ok(None)
}

// The ring of a group's threads, or else the first of its threads' rings.
fn in_threads<S: Space, L: Ledger>(
    alloc: Global,
    space: &mut S,
    shape: &TaskShape,
    found: &Found,
    leader: u64,
    signal: u64,
    steps: &mut Steps<L>,
) -> Result<Option<TaskRing>, WalkStop>
    ensures exact { WalksAs (λ ring. ring) (λ i. in_threads i shape.now found.now leader signal) (S.image space.old) result }
    ensures reads { OnlyWalks S.image S.files S.through S.most S.faults result space.old space.new }
{
    let which = TaskRing::Threads { leader, signal };
    match walk_ring(alloc, space, shape, found, which, steps) {
        Ok(nodes) => in_all_children(alloc, space, shape, found, &nodes, steps),
        Err(stop) => told(found, which, stop),
    }
}

// The ring of the threads of a leader's group, or else the first of its threads' rings.
fn in_group<S: Space, L: Ledger>(
    alloc: Global,
    space: &mut S,
    btf: &Btf,
    shape: &TaskShape,
    found: &Found,
    leader: u64,
    steps: &mut Steps<L>,
) -> Result<Option<TaskRing>, WalkStop>
    requires { IsInside shape.now btf.now }
    ensures exact { WalksAs (λ ring. ring) (λ i. in_group i shape.now found.now leader) (S.image space.old) result }
    ensures reads { OnlyWalks S.image S.files S.through S.most S.faults result space.old space.new }
{
    let asked = asked_of(found);
    let task = View::new(btf, shape.task, leader);
    let signal = read_field(alloc, space, &asked, &task, &shape.signal, steps)?.value();
    in_threads(alloc, space, shape, found, leader, signal, steps)
}

// The first of the rings of groups, of the leaders that have these nodes.
fn in_all_groups<S: Space, L: Ledger>(
    alloc: Global,
    space: &mut S,
    btf: &Btf,
    shape: &TaskShape,
    found: &Found,
    nodes: &Walked,
    steps: &mut Steps<L>,
) -> Result<Option<TaskRing>, WalkStop>
    requires { IsInside shape.now btf.now }
    ensures exact { WalksAs (λ ring. ring)
        (λ i. first_of (λ node. in_group i shape.now found.now (task_of shape.now.tasks node)) nodes.now)
        (S.image space.old) result }
    ensures reads { OnlyWalks S.image S.files S.through S.most S.faults result space.old space.new }
{
    let mut i = 0;
    while i < nodes.len() {
        let node = *nodes.get(i);
        let leader = task_of(shape.tasks, node);
        match in_group(alloc, space, btf, shape, found, leader, steps) {
            Ok(None) => {}
            Ok(Some(which)) => return Ok(Some(which)),
            Err(stop) => return Err(stop),
        }
        i += 1;
    }
    Ok(None)
}

// The first of the rings of the groups, of the leader at the start and then of those that have these nodes.
fn in_leaders<S: Space, L: Ledger>(
    alloc: Global,
    space: &mut S,
    btf: &Btf,
    shape: &TaskShape,
    found: &Found,
    nodes: &Walked,
    steps: &mut Steps<L>,
) -> Result<Option<TaskRing>, WalkStop>
    requires { IsInside shape.now btf.now }
    ensures exact { WalksAs (λ ring. ring) (λ i. in_leaders i shape.now found.now nodes.now) (S.image space.old) result }
    ensures reads { OnlyWalks S.image S.files S.through S.most S.faults result space.old space.new }
{
    match in_group(alloc, space, btf, shape, found, found.start, steps)? {
        Some(which) => Ok(Some(which)),
        None => in_all_groups(alloc, space, btf, shape, found, nodes, steps),
    }
}

// The first of all rings that is broken, where it has the violation.
fn in_tasks<S: Space, L: Ledger>(
    alloc: Global,
    space: &mut S,
    btf: &Btf,
    shape: &TaskShape,
    found: &Found,
    steps: &mut Steps<L>,
) -> Result<Option<TaskRing>, WalkStop>
    requires { IsInside shape.now btf.now }
    ensures exact { WalksAs (λ ring. ring) (λ i. in_tasks i shape.now found.now) (S.image space.old) result }
    ensures reads { OnlyWalks S.image S.files S.through S.most S.faults result space.old space.new }
{
    let which = TaskRing::Tasks;
    match walk_ring(alloc, space, shape, found, which, steps) {
        Ok(nodes) => in_leaders(alloc, space, btf, shape, found, &nodes, steps),
        Err(stop) => told(found, which, stop),
    }
}

/// The ring in which a violation of an audit of tasks lies: the first of their rings that is broken, in the order in which the audit
/// walks them, where its violation is of the same rule and about the same address. `None` where it is not, where no ring is broken,
/// or where a leader's `signal` can't be read before one is.
///
/// # Errors
///
/// A failure of the space, whose count of faults then rose; or out of memory.
pub fn find_task_ring<S: Space, L: Ledger>(
    alloc: Global,
    space: &mut S,
    btf: &Btf,
    shape: &TaskShape,
    found: &Found,
    steps: &mut Steps<L>,
) -> Result<Option<TaskRing>, WalkStop>
    requires { IsInside shape.now btf.now }
    ensures exact { WalksAs (λ ring. ring) (λ i. Ok (task_ring i shape.now found.now)) (S.image space.old) result }
    ensures broken { OnBroken result ⊥ }
    ensures stays { SpaceStays S.image S.files S.through S.most space.old space.new }
    ensures cause { CountsWalkFaults result (S.faults space.old) (S.faults space.new) }
{
    match in_tasks(alloc, space, btf, shape, found, steps) {
        Ok(which) => Ok(which),
        Err(WalkStop::Broken(_)) => Ok(None),
        Err(WalkStop::Fault) => Err(WalkStop::Fault),
        Err(WalkStop::NoMemory) => Err(WalkStop::NoMemory),
    }
}

// What has the head of a ring.
fn with_head(start: u64, ring: TaskRing) -> TaskElement
    ensures { result ≡ with_head start ring }
{
    match ring {
        TaskRing::Tasks => TaskElement::Task(start),
        TaskRing::Threads { signal, .. } => TaskElement::Signal(signal),
        TaskRing::Children { parent } => TaskElement::Task(parent),
    }
}

// What has a node of a ring, or its head.
fn element_at(shape: &TaskShape, start: u64, ring: TaskRing, node: u64) -> TaskElement
    ensures { result ≡ element_at shape.now start ring node }
{
    if node == ring_head(shape, start, ring) {
        with_head(start, ring)
    } else {
        TaskElement::Task(task_of(link_of(shape, ring), node))
    }
}

/// What has the pointer that breaks a rule of a ring of tasks: of L1 the `prev` of a node, of K and N the `next`. `None` where the rule is
/// another one.
pub fn task_in(shape: &TaskShape, found: &Found, ring: TaskRing) -> Option<TaskElement>
    ensures { result ≡ task_in shape.now found.now ring }
{
    let node = broken_node(shape.list, found.rule, found.at)?;
    Some(element_at(shape, found.start, ring, node))
}
