// The task list.
ghost use Rattle.std.specs.Prelude.{◌≡◌, ◌*◌, length, ℕ, List, ◌∷◌, ◌++◌, [], IfOk, IfSome, OnOk, Ok};
ghost use Rattle.kc_memory.specs.Stays.{SpaceStays};
ghost use Rattle.kc_found.specs.Trials.{and_then};
ghost use Rattle.kc_found.specs.Walks.{CountsWalkFaults, IsNamed, OnBroken, WalksAs};
ghost use Rattle.kc_view.specs.FiniteTasks.{NoTasks, Tasks};
ghost use Rattle.kc_steps.specs.Chains.{WalkPays, size};
ghost use Rattle.kc_steps.specs.TasksBy.{gathered_by, leader_by, tasks_all_by};
ghost use Rattle.kc_view.specs.TaskLists.{IsInside, task_list};

use crate::group::check_leader;
use crate::pass::TaskPass;
use crate::rings::tasks_on;
use crate::walks::Walks;
use kc_btf::Btf;
use kc_found::{Asked, Space, WalkStop, Walked};
use kc_list::know_lists;
use kc_steps::{Rings, know_chains};
use kc_view::TaskShape;
use kc_word::{NoMemory, Steps};
use std::alloc::Global;
use std::sync::ledger::Ledger;

// Adds tasks at the end of others.
fn append(tasks: &mut Walked, more: &Walked) -> Result<(), NoMemory>
    ensures { OnOk result (tasks.new ≡ tasks.old ++ more.now) }
{
    for task in more.as_slice() {
        tasks.push(*task)?;
    }
    Ok(())
}

// The first leader, and then the others.
fn all_leaders(alloc: Global, first: u64, others: &Walked) -> Result<Walked, NoMemory>
    ensures { IfOk result (λ leaders. leaders ≡ first ∷ others.now) }
{
    let mut leaders = Walked::new(alloc);
    leaders.push(first)?;
    append(&mut leaders, others)?;
    Ok(leaders)
}

// Looks at the group of a leader, and adds its threads.
fn add_threads<S: Space, R: Rings, L: Ledger>(
    pass: &TaskPass,
    space: &mut S,
    rings: &mut R,
    btf: &Btf,
    leader: u64,
    threads: &mut Walked,
    steps: &mut Steps<L>,
) -> Result<(), WalkStop>
    requires { IsInside pass.now.shape btf.now }
    ensures exact { WalksAs {B = List ℕ × List (List ℕ)} (λ _. (threads.new, R.lists rings.new))
        (λ i. and_then (leader_by i (R.ring_by i) pass.now.asked pass.now.shape leader (R.lists rings.old))
        (λ r. Ok (threads.old ++ r.0, r.1)))
        (S.image space.old) result }
    ensures named { IsNamed result pass.now.asked.audit pass.now.asked.start }
    ensures pays { R.paid → WalkPays result 240 240 (size (R.lists rings.old))
        (size (R.lists rings.new)) steps.old steps.new }

    ensures stays { SpaceStays S.image S.files S.through S.most space.old space.new }
    ensures cause { CountsWalkFaults result (S.faults space.old) (S.faults space.new) }
{
    let more = check_leader(pass, space, rings, btf, leader, steps)?;
    match append(threads, &more) {
        Ok(()) => Ok(()),
        Err(NoMemory) => Err(WalkStop::NoMemory),
    }
}

// Looks at the groups of these leaders, and gives their threads.
fn walk_groups<S: Space, R: Rings, L: Ledger>(
    pass: &TaskPass,
    space: &mut S,
    rings: &mut R,
    btf: &Btf,
    leaders: &Walked,
    steps: &mut Steps<L>,
) -> Result<Walked, WalkStop>
    requires { IsInside pass.now.shape btf.now }
    ensures exact { WalksAs (λ threads. (threads, R.lists rings.new))
        (λ i. gathered_by (leader_by i (R.ring_by i) pass.now.asked pass.now.shape) [] (R.lists rings.old) leaders.now)
        (S.image space.old) result }
    ensures named { IsNamed result pass.now.asked.audit pass.now.asked.start }
    ensures pays { R.paid → WalkPays result (240 * length leaders.now) (240 * length leaders.now) (size (R.lists rings.old))
        (size (R.lists rings.new)) steps.old steps.new }

    ensures stays { SpaceStays S.image S.files S.through S.most space.old space.new }
    ensures cause { CountsWalkFaults result (S.faults space.old) (S.faults space.new) }
{
    let mut threads = Walked::new(pass.alloc);
    let mut i = 0;
    while i < leaders.len() {
        let leader = *leaders.get(i);
        match add_threads(pass, space, rings, btf, leader, &mut threads, steps) {
            Ok(()) => {}
            Err(stop) => return Err(stop),
        }
        i += 1;
    }
    Ok(threads)
}

/// The threads of the task list at which the walk starts, group by group, each in the order of its ring, where the rings come by
/// `rings`. Where lists pay, those that are used up pay for all steps.
///
/// # Errors
///
/// The first violation, exactly where the list has one by such rings; a failure of the space, whose count of faults then
/// rose; or out of memory.
pub fn tasks_walk_by<S: Space, R: Rings, L: Ledger>(
    alloc: Global,
    space: &mut S,
    rings: &mut R,
    asked: &Asked,
    btf: &Btf,
    shape: &TaskShape,
    steps: &mut Steps<L>,
) -> Result<Walked, WalkStop>
    requires { IsInside shape.now btf.now }
    ensures walk { WalksAs (λ tasks. (tasks, R.lists rings.new))
        (λ i. tasks_all_by i (R.ring_by i) shape.now asked.now (R.lists rings.old)) (S.image space.old) result }
    ensures named { IsNamed result asked.now.audit asked.now.start }
    ensures pays { R.paid → WalkPays result 0 0 (size (R.lists rings.old))
        (size (R.lists rings.new)) steps.old steps.new }

    ensures stays { SpaceStays S.image S.files S.through S.most space.old space.new }
    ensures cause { CountsWalkFaults result (S.faults space.old) (S.faults space.new) }
{
    let head = asked.start.wrapping_add(shape.tasks);
    let pass = TaskPass {
        alloc,
        asked: *asked,
        shape: *shape,
    };
    let others = tasks_on(&pass, space, rings, head, shape.tasks, steps)?;
    let leaders = match all_leaders(alloc, asked.start, &others) {
        Ok(leaders) => leaders,
        Err(NoMemory) => return Err(WalkStop::NoMemory),
    };
    walk_groups(&pass, space, rings, btf, &leaders, steps)
}

// The threads of the task list, whose rings are walked.
fn walk_list<S: Space, L: Ledger>(
    alloc: Global,
    space: &mut S,
    asked: &Asked,
    btf: &Btf,
    shape: &TaskShape,
    steps: &mut Steps<L>,
) -> Result<Walked, WalkStop>
    requires { IsInside shape.now btf.now }
    ensures exact { WalksAs (λ tasks. tasks) (λ i. task_list i shape.now asked.now) (S.image space.old) result }
    ensures named { IsNamed result asked.now.audit asked.now.start }

    ensures stays { SpaceStays S.image S.files S.through S.most space.old space.new }
    ensures cause { CountsWalkFaults result (S.faults space.old) (S.faults space.new) }
{
    know_chains();
    let mut rings = Walks;
    tasks_walk_by(alloc, space, &mut rings, asked, btf, shape, steps)
}

/// The threads of the task list (`struct task_struct`) that starts at virtual address `start`, group by group, each in
/// the order of its ring. The audit's number is named where the list breaks a rule.
///
/// # Errors
///
/// The first violation, exactly where the list has one; a failure of the space, whose count of faults then rose; or out
/// of memory.
pub fn tasks_walk<S: Space, L: Ledger>(
    alloc: Global,
    space: &mut S,
    btf: &Btf,
    shape: &TaskShape,
    start: u64,
    audit: u32,
    steps: &mut Steps<L>,
) -> Result<Walked, WalkStop>
    requires { IsInside shape.now btf.now }
    ensures walk { WalksAs (λ tasks. tasks) (λ i. task_list i shape.now (record { audit = audit; start = start }))
        (S.image space.old) result }
    ensures finite { IfOk result (λ tasks. IfSome (S.image space.old) (λ i. Tasks i shape.now start tasks)) }
    ensures none { OnBroken result (IfSome (S.image space.old) (λ i. NoTasks i shape.now start)) }
    ensures named { IsNamed result audit start }

    ensures stays { SpaceStays S.image S.files S.through S.most space.old space.new }
    ensures cause { CountsWalkFaults result (S.faults space.old) (S.faults space.new) }
{
    know_lists();
    let asked = Asked { audit, start };
    walk_list(alloc, space, &asked, btf, shape, steps)
}
