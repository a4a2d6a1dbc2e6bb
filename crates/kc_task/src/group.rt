// A thread group: its leader, what its threads share, and its threads.
ghost use Rattle.std.specs.Prelude.{◌≡◌, ◌≤◌, ◌+◌, ◌*◌, length};
ghost use Rattle.kc_memory.specs.Stays.{SpaceStays};
ghost use Rattle.kc_found.specs.Walks.{CountsWalkFaults, IsNamed, WalksAs};
ghost use Rattle.kc_steps.specs.Chains.{WalkPays, size};
ghost use Rattle.kc_steps.specs.TasksBy.{leader_by, passed_by, thread_by, threads_by};
ghost use Rattle.kc_view.specs.TaskLists.{IsInside, among_checked, group_of, is_among, tgid_checked, thread_head};

use crate::pass::TaskPass;
use crate::rings::tasks_on;
use crate::thread::check_thread;
use kc_btf::Btf;
use kc_found::{Rule, Space, WalkStop, Walked, broken_at, broken_field, know_most, stopped};
use kc_steps::{Rings, check_field, read_field};
use kc_view::{TaskShape, ThreadGroup, View};
use kc_word::Steps;
use std::sync::ledger::Ledger;

// The head of the ring of a group's threads.
fn thread_head(shape: &TaskShape, group: &ThreadGroup) -> u64
    ensures { result ≡ thread_head shape.now group.now }
{
    group.signal.wrapping_add(shape.thread_head)
}

// Looks at the numbers of a leader, and gives that of its group.
fn check_tgid<S: Space, L: Ledger>(
    pass: &TaskPass,
    space: &mut S,
    leader: &View<'_>,
    steps: &mut Steps<L>,
) -> Result<u64, WalkStop>
    ensures exact { WalksAs (λ n. n) (λ i. tgid_checked i pass.now.asked pass.now.shape leader.now.at)
        (S.image space.old) result }
    ensures named { IsNamed result pass.now.asked.audit pass.now.asked.start }
    ensures steps { steps.new ≤ steps.old + 120 }

    ensures stays { SpaceStays S.image S.files S.through S.most space.old space.new }
    ensures cause { CountsWalkFaults result (S.faults space.old) (S.faults space.new) }
{
    let alloc = pass.alloc;
    let asked = &pass.asked;
    let shape = &pass.shape;
    let pid = read_field(alloc, space, asked, leader, &shape.pid, steps)?;
    let tgid = read_field(alloc, space, asked, leader, &shape.tgid, steps)?.value();
    if pid.value() != tgid {
        return Err(broken_field(alloc, asked, Rule::T2, pid.at, &pid.number, Some(tgid)));
    }
    Ok(tgid)
}

// Looks at a leader, and gives what its group shares.
fn read_group<S: Space, L: Ledger>(
    pass: &TaskPass,
    space: &mut S,
    btf: &Btf,
    leader: u64,
    steps: &mut Steps<L>,
) -> Result<ThreadGroup, WalkStop>
    requires { IsInside pass.now.shape btf.now }
    ensures exact { WalksAs (λ g. g) (λ i. group_of i pass.now.asked pass.now.shape leader) (S.image space.old) result }
    ensures named { IsNamed result pass.now.asked.audit pass.now.asked.start }
    ensures steps { steps.new ≤ steps.old + 240 }

    ensures stays { SpaceStays S.image S.files S.through S.most space.old space.new }
    ensures cause { CountsWalkFaults result (S.faults space.old) (S.faults space.new) }
{
    let alloc = pass.alloc;
    let asked = &pass.asked;
    let shape = &pass.shape;
    let task = View::new(btf, shape.task, leader);
    let field = &shape.group_leader;
    check_field(alloc, space, asked, Rule::T1, &task, field, leader, steps)?;
    let tgid = check_tgid(pass, space, &task, steps)?;
    let signal = read_field(alloc, space, asked, &task, &shape.signal, steps)?.value();
    Ok(ThreadGroup {
        leader,
        signal,
        tgid,
    })
}

// Whether a task is among these.
fn is_among(tasks: &Walked, task: u64) -> bool
    ensures { result ≡ is_among tasks.now task }
{
    tasks.as_slice().contains(&task)
}

// Looks at whether the leader of a group is among its threads.
fn check_among<S: Space, L: Ledger>(
    pass: &TaskPass,
    space: &mut S,
    group: &ThreadGroup,
    threads: &Walked,
    steps: &mut Steps<L>,
) -> Result<(), WalkStop>
    ensures exact { WalksAs (λ _. tt) (λ i. among_checked i pass.now.asked pass.now.shape group.now threads.now)
        (S.image space.old) result }
    ensures named { IsNamed result pass.now.asked.audit pass.now.asked.start }
    ensures steps { steps.new ≤ steps.old + 6 }

    ensures stays { SpaceStays S.image S.files S.through S.most space.old space.new }
    ensures cause { CountsWalkFaults result (S.faults space.old) (S.faults space.new) }
{
    know_most(space);
    if is_among(threads, group.leader) {
        return Ok(());
    }
    let next = thread_head(&pass.shape, group).wrapping_add(pass.shape.list.next);
    match space.word(next, steps) {
        Ok(word) => Err(broken_at(pass.alloc, &pass.asked, Rule::T7, &word, Some(group.leader))),
        Err(stop) => Err(stopped(pass.alloc, &pass.asked, stop, None)),
    }
}

// Looks at the threads of a group, one by one.
fn check_all<S: Space, R: Rings, L: Ledger>(
    pass: &TaskPass,
    space: &mut S,
    rings: &mut R,
    btf: &Btf,
    group: &ThreadGroup,
    threads: &Walked,
    steps: &mut Steps<L>,
) -> Result<(), WalkStop>
    requires { IsInside pass.now.shape btf.now }
    ensures exact { WalksAs (λ _. R.lists rings.new)
        (λ i. passed_by (thread_by i (R.ring_by i) pass.now.asked pass.now.shape group.now) threads.now (R.lists rings.old))
        (S.image space.old) result }
    ensures named { IsNamed result pass.now.asked.audit pass.now.asked.start }
    ensures pays { R.paid → WalkPays result (246 * length threads.now) (246 * length threads.now) (size (R.lists rings.old))
        (size (R.lists rings.new)) steps.old steps.new }

    ensures stays { SpaceStays S.image S.files S.through S.most space.old space.new }
    ensures cause { CountsWalkFaults result (S.faults space.old) (S.faults space.new) }
{
    let mut i = 0;
    while i < threads.len() {
        let at = *threads.get(i);
        match check_thread(pass, space, rings, btf, group, at, steps) {
            Ok(()) => {}
            Err(stop) => return Err(stop),
        }
        i += 1;
    }
    Ok(())
}

// Looks at the threads of a group, and gives them.
fn check_threads<S: Space, R: Rings, L: Ledger>(
    pass: &TaskPass,
    space: &mut S,
    rings: &mut R,
    btf: &Btf,
    group: &ThreadGroup,
    steps: &mut Steps<L>,
) -> Result<Walked, WalkStop>
    requires { IsInside pass.now.shape btf.now }
    ensures exact { WalksAs (λ threads. (threads, R.lists rings.new))
        (λ i. threads_by i (R.ring_by i) pass.now.asked pass.now.shape group.now (R.lists rings.old)) (S.image space.old) result }
    ensures named { IsNamed result pass.now.asked.audit pass.now.asked.start }
    ensures pays { R.paid → WalkPays result 0 0 (size (R.lists rings.old))
        (size (R.lists rings.new)) steps.old steps.new }

    ensures stays { SpaceStays S.image S.files S.through S.most space.old space.new }
    ensures cause { CountsWalkFaults result (S.faults space.old) (S.faults space.new) }
{
    let head = thread_head(&pass.shape, group);
    let threads = tasks_on(pass, space, rings, head, pass.shape.thread_node, steps)?;
    check_among(pass, space, group, &threads, steps)?;
    check_all(pass, space, rings, btf, group, &threads, steps)?;
    Ok(threads)
}

// Looks at the group of a leader, and gives its threads.
pub(crate) fn check_leader<S: Space, R: Rings, L: Ledger>(
    pass: &TaskPass,
    space: &mut S,
    rings: &mut R,
    btf: &Btf,
    leader: u64,
    steps: &mut Steps<L>,
) -> Result<Walked, WalkStop>
    requires { IsInside pass.now.shape btf.now }
    ensures exact { WalksAs (λ threads. (threads, R.lists rings.new))
        (λ i. leader_by i (R.ring_by i) pass.now.asked pass.now.shape leader (R.lists rings.old)) (S.image space.old) result }
    ensures named { IsNamed result pass.now.asked.audit pass.now.asked.start }
    ensures pays { R.paid → WalkPays result 240 240 (size (R.lists rings.old))
        (size (R.lists rings.new)) steps.old steps.new }

    ensures stays { SpaceStays S.image S.files S.through S.most space.old space.new }
    ensures cause { CountsWalkFaults result (S.faults space.old) (S.faults space.new) }
{
    let group = read_group(pass, space, btf, leader, steps)?;
    check_threads(pass, space, rings, btf, &group, steps)
}
