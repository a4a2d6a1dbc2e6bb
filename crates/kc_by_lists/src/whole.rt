// Whether lists are those of a slab cache or of tasks.
ghost use Rattle.std.specs.Prelude.{◌≡◌, ◌+◌, ◌*◌, ◌≤◌, [], length, drop, IfErr, OnOk};
ghost use Rattle.kc_memory.specs.Stays.{SpaceStays};
ghost use Rattle.kc_view.specs.Caches as caches;
ghost use Rattle.kc_view.specs.TaskLists as tasks;
ghost use Rattle.kc_steps.specs.Chains.{size};
ghost use Rattle.kc_found.specs.Tests.{CountsTestFaults, TellsAs};
ghost use Rattle.kc_by_lists.specs.Tests.{are_cache_lists, are_task_lists};

use crate::given::GivenLists;
use crate::laws::know_given_lists;
use kc_btf::Btf;
use kc_found::{Asked, Items, Space, TestStop, WalkStop, Walked};
use kc_slub::cache_walk_by;
use kc_task::tasks_walk_by;
use kc_view::{SlubShape, TaskShape};
use kc_word::Steps;
use std::alloc::Global;
use std::sync::ledger::Ledger;

/// Whether no list is left.
///
/// # Errors
///
/// `Unfit` exactly where one is.
pub fn all_taken(given: &GivenLists<'_>) -> Result<(), TestStop>
    ensures taken { OnOk result (drop given.now.at given.now.lists.now ≡ []) }
    ensures left { IfErr result (λ halt. (halt ≡ TestStop.Unfit) × (1 ≤ length (drop given.now.at given.now.lists.now))) }
{
    if given.at < given.lists.len() {
        Err(TestStop::Unfit)
    } else {
        Ok(())
    }
}

/// Tests whether these are the lists of the slab cache at which a walk starts: for each pointer of `node` that isn't null the nodes
/// of its ring, and then for each of its slabs, in the order of the ring, the free pointers. It reads what the lists name, and the
/// fields of the cache.
///
/// # Errors
///
/// `Unfit` exactly where they aren't, a failure of the space, or out of memory.
pub fn test_cache<S: Space, L: Ledger>(
    alloc: Global,
    space: &mut S,
    btf: &Btf,
    shape: &SlubShape,
    asked: &Asked,
    lists: &Items<Walked>,
    steps: &mut Steps<L>,
) -> Result<(), TestStop>
    requires { caches.IsInside shape.now btf.now }
    ensures test { TellsAs (λ i. are_cache_lists i shape.now asked.now lists.now) (S.image space.old) result }
    ensures steps { steps.new ≤ steps.old + 800000 + 1000 * size lists.now }

    ensures stays { SpaceStays S.image S.files S.through S.most space.old space.new }
    ensures cause { CountsTestFaults result (S.faults space.old) (S.faults space.new) }
{
    know_given_lists();
    let mut chains = GivenLists { lists, at: 0 };
    match cache_walk_by(alloc, space, &mut chains, asked, btf, shape, steps) {
        Ok(_) => {}
        Err(WalkStop::Broken(_)) => return Err(TestStop::Unfit),
        Err(WalkStop::Fault) => return Err(TestStop::Fault),
        Err(WalkStop::NoMemory) => return Err(TestStop::NoMemory),
    }
    all_taken(&chains)
}

/// Tests whether these are the lists of the tasks at which a walk starts: the nodes of the ring that has the leaders, and then for
/// each leader the nodes of the ring of its threads, and those of the ring of `children` of each of them. It reads what the lists
/// name.
///
/// # Errors
///
/// `Unfit` exactly where they aren't, a failure of the space, or out of memory.
pub fn test_tasks<S: Space, L: Ledger>(
    alloc: Global,
    space: &mut S,
    btf: &Btf,
    shape: &TaskShape,
    asked: &Asked,
    lists: &Items<Walked>,
    steps: &mut Steps<L>,
) -> Result<(), TestStop>
    requires { tasks.IsInside shape.now btf.now }
    ensures test { TellsAs (λ i. are_task_lists i shape.now asked.now lists.now) (S.image space.old) result }
    ensures steps { steps.new ≤ steps.old + 1000 * size lists.now }

    ensures stays { SpaceStays S.image S.files S.through S.most space.old space.new }
    ensures cause { CountsTestFaults result (S.faults space.old) (S.faults space.new) }
{
    know_given_lists();
    let mut rings = GivenLists { lists, at: 0 };
    match tasks_walk_by(alloc, space, &mut rings, asked, btf, shape, steps) {
        Ok(_) => {}
        Err(WalkStop::Broken(_)) => return Err(TestStop::Unfit),
        Err(WalkStop::Fault) => return Err(TestStop::Fault),
        Err(WalkStop::NoMemory) => return Err(TestStop::NoMemory),
    }
    all_taken(&rings)
}
