// The tasks that stand in rings.
ghost use Rattle.std.specs.Prelude.{◌≡◌, map, IfOk};
ghost use Rattle.kc_memory.specs.Stays.{SpaceStays};
ghost use Rattle.kc_found.specs.Walks.{CountsWalkFaults, IsNamed, WalksAs};
ghost use Rattle.kc_steps.specs.Chains.{ChainPays, size};
ghost use Rattle.kc_steps.specs.TasksBy.{tasks_by};
ghost use Rattle.kc_view.specs.TaskLists.{task_of};

use crate::pass::TaskPass;
use kc_found::{Space, WalkStop, Walked};
use kc_steps::Rings;
use kc_word::{NoMemory, Steps};
use std::alloc::Global;
use std::sync::ledger::Ledger;

// The tasks that these nodes stand in, each at an offset.
fn tasks_of(alloc: Global, nodes: &Walked, offset: u64) -> Result<Walked, NoMemory>
    ensures { IfOk result (λ tasks. tasks ≡ map (task_of offset) nodes.now) }
{
    let mut tasks = Walked::new(alloc);
    for i in 0..nodes.len() {
        tasks.push(nodes.get(i).wrapping_sub(offset))?;
    }
    Ok(tasks)
}

// The tasks that the nodes of a ring stand in, by the ring's head.
pub(crate) fn tasks_on<S: Space, R: Rings, L: Ledger>(
    pass: &TaskPass,
    space: &mut S,
    rings: &mut R,
    head: u64,
    offset: u64,
    steps: &mut Steps<L>,
) -> Result<Walked, WalkStop>
    ensures exact { WalksAs (λ tasks. (tasks, R.lists rings.new))
        (λ i. tasks_by (R.ring_by i) pass.now.asked pass.now.shape head offset (R.lists rings.old)) (S.image space.old) result }
    ensures named { IsNamed result pass.now.asked.audit pass.now.asked.start }
    ensures pays { R.paid → ChainPays result (size (R.lists rings.old)) (size (R.lists rings.new)) steps.old steps.new }

    ensures stays { SpaceStays S.image S.files S.through S.most space.old space.new }
    ensures cause { CountsWalkFaults result (S.faults space.old) (S.faults space.new) }
{
    let list = &pass.shape.list;
    let nodes = rings.ring(pass.alloc, space, &pass.asked, list, head, steps)?;
    match tasks_of(pass.alloc, &nodes, offset) {
        Ok(tasks) => Ok(tasks),
        Err(NoMemory) => Err(WalkStop::NoMemory),
    }
}
