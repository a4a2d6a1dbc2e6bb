// Lists that are tested, and the process ids that they give.
ghost use Rattle.std.specs.Prelude.{◌≡◌, ◌+◌, ◌*◌, ◌≤◌, IfOk};
ghost use Rattle.kc_memory.specs.Stays.{SpaceStays};
ghost use Rattle.kc_steps.specs.Chains.{size};
ghost use Rattle.kc_found.specs.Tests.{CountsTestFaults, TellsAs};
ghost use Rattle.kc_by_lists.specs.Pids.Tests.{are_pid_lists};
ghost use Rattle.kc_by_lists.specs.Pids.Tests as tests;

use crate::pids::laws::know_pid_lists;
use crate::{GivenLists, all_taken};
use kc_btf::Btf;
use kc_found::{Asked, Items, Space, TestStop, WalkStop, Walked};
use kc_pid::pids_walk_by;
use kc_view::PidShape;
use kc_word::{NoMemory, Steps};
use kc_xa::{pointers_in, xarray_items};
use std::alloc::Global;
use std::sync::ledger::Ledger;

/// Tests whether these are the lists of the table of process ids at which a walk starts: the entries of its xarray, and then for each of
/// its pointers, in order, the nodes of its hash chain. It reads what the lists name.
///
/// # Errors
///
/// `Unfit` exactly where they aren't, a failure of the space, or out of memory.
pub fn test_pids<S: Space, L: Ledger>(
    alloc: Global,
    space: &mut S,
    btf: &Btf,
    shape: &PidShape,
    asked: &Asked,
    lists: &Items<Walked>,
    steps: &mut Steps<L>,
) -> Result<(), TestStop>
    ensures test { TellsAs (λ i. are_pid_lists i shape.now asked.now lists.now) (S.image space.old) result }
    ensures steps { steps.new ≤ steps.old + 1000 * size lists.now }

    ensures stays { SpaceStays S.image S.files S.through S.most space.old space.new }
    ensures cause { CountsTestFaults result (S.faults space.old) (S.faults space.new) }
{
    know_pid_lists();
    if lists.len() == 0 {
        return Err(TestStop::Unfit);
    }
    let numbers = lists.get(0);
    let table = asked.start.wrapping_add(shape.idr_rt);
    let items = xarray_items(alloc, space, &shape.xa, table, numbers, steps)?;
    let mut chains = GivenLists { lists, at: 1 };
    match pids_walk_by(alloc, space, &mut chains, asked, btf, shape, &items, steps) {
        Ok(()) => {}
        Err(WalkStop::Broken(_)) => return Err(TestStop::Unfit),
        Err(WalkStop::Fault) => return Err(TestStop::Fault),
        Err(WalkStop::NoMemory) => return Err(TestStop::NoMemory),
    }
    all_taken(&chains)
}

/// The process ids that the lists of a table give, by rising number.
///
/// # Errors
///
/// Out of memory.
pub fn pid_nodes(alloc: Global, lists: &Items<Walked>) -> Result<Walked, NoMemory>
    ensures { IfOk result (λ pids. pids ≡ tests.pid_nodes lists.now) }
{
    if lists.len() == 0 {
        return Ok(Walked::new(alloc));
    }
    pointers_in(alloc, lists.get(0))
}
