// A process id: its number, and the tasks on its chain.
ghost use Rattle.std.specs.Prelude.{◌≤◌, ◌+◌, ◌*◌, length};
ghost use Rattle.kc_memory.specs.Stays.{SpaceStays};
ghost use Rattle.kc_found.specs.Walks.{CountsWalkFaults, IsNamed, WalksAs};
ghost use Rattle.kc_view.specs.PidTables.{task_names};
ghost use Rattle.kc_view.specs.TaskLists.{all_pass};
ghost use Rattle.kc_steps.specs.Chains.{WalkPays, size};
ghost use Rattle.kc_steps.specs.PidsBy.{pid_by};

use crate::pass::PidPass;
use kc_btf::Btf;
use kc_found::{Rule, Space, WalkStop, Walked, XaItem};
use kc_steps::{HashChains, check_field};
use kc_view::View;
use kc_word::Steps;
use std::sync::ledger::Ledger;

// The type `void`, which every file has. Which type a struct has doesn't bear on the fields that a shape has found.
const ANY_TYPE: u32 = 0;

// Looks at whether each of the tasks that these nodes stand in names its process id.
fn check_tasks<S: Space, L: Ledger>(
    pass: &PidPass,
    space: &mut S,
    btf: &Btf,
    pid: u64,
    nodes: &Walked,
    steps: &mut Steps<L>,
) -> Result<(), WalkStop>
    ensures exact { WalksAs (λ _. tt) (λ i. all_pass (task_names i pass.now.asked pass.now.shape pid) nodes.now)
        (S.image space.old) result }
    ensures named { IsNamed result pass.now.asked.audit pass.now.asked.start }
    ensures steps { steps.new ≤ steps.old + 60 * length nodes.now }

    ensures stays { SpaceStays S.image S.files S.through S.most space.old space.new }
    ensures cause { CountsWalkFaults result (S.faults space.old) (S.faults space.new) }
{
    let alloc = pass.alloc;
    let asked = &pass.asked;
    let shape = &pass.shape;
    let mut i = 0;
    while i < nodes.len() {
        let task = View::new(btf, ANY_TYPE, nodes.get(i).wrapping_sub(shape.links));
        let named = &shape.thread_pid;
        match check_field(alloc, space, asked, Rule::G2, &task, named, pid, steps) {
            Ok(()) => {}
            Err(stop) => return Err(stop),
        }
        i += 1;
    }
    Ok(())
}

// Looks at a process id, which has its index as its number, and at the tasks on its chain.
pub(crate) fn check_pid<S: Space, C: HashChains, L: Ledger>(
    pass: &PidPass,
    space: &mut S,
    chains: &mut C,
    btf: &Btf,
    item: &XaItem,
    steps: &mut Steps<L>,
) -> Result<(), WalkStop>
    ensures exact { WalksAs (λ _. C.lists chains.new)
        (λ i. pid_by i (C.hash_by i) pass.now.asked pass.now.shape item.now (C.lists chains.old)) (S.image space.old) result }
    ensures named { IsNamed result pass.now.asked.audit pass.now.asked.start }
    ensures pays { C.paid → WalkPays result 0 60 (size (C.lists chains.old))
        (size (C.lists chains.new)) steps.old steps.new }

    ensures stays { SpaceStays S.image S.files S.through S.most space.old space.new }
    ensures cause { CountsWalkFaults result (S.faults space.old) (S.faults space.new) }
{
    let alloc = pass.alloc;
    let asked = &pass.asked;
    let shape = &pass.shape;
    let XaItem { index, entry } = *item;
    let pid = View::new(btf, ANY_TYPE, entry);
    let number = &shape.nr;
    check_field(alloc, space, asked, Rule::G1, &pid, number, index, steps)?;
    let head = entry.wrapping_add(shape.tasks);
    let nodes = chains.hash_chain(alloc, space, asked, &shape.chain, head, steps)?;
    check_tasks(pass, space, btf, entry, &nodes, steps)
}
