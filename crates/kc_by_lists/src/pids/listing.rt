// Lists that are made.
ghost use Rattle.std.specs.Prelude.{◌≡◌, ◌∷◌, [], IfOk, not, IsTrue};
ghost use Rattle.kc_memory.specs.Stays.{SpaceStays};
ghost use Rattle.kc_found.specs.Nodes.{at_offset};
ghost use Rattle.kc_found.specs.Violations.{is_of_reading};
ghost use Rattle.kc_found.specs.Walks.{CountsWalkFaults, IsBroken, IsNamed, OnBroken, OnWalkFault};
ghost use Rattle.kc_steps.specs.Given.{misfit};
ghost use Rattle.kc_xa.specs.Listed.Entries.{is_xarray};
ghost use Rattle.kc_by_lists.specs.Pids.Tests.{ListsNumbers, ListsPids};

use crate::pids::laws::know_pid_lists;
use kc_btf::Btf;
use kc_found::{Asked, Items, Places, Rule, Space, TestStop, WalkStop, Walked, broken_by};
use kc_pid::{ids_in, pids_walk_by};
use kc_slub::Kept;
use kc_steps::know_hash_chains;
use kc_view::PidShape;
use kc_word::{NoMemory, Steps};
use kc_xa::{know_entries, list_xarray};
use std::alloc::Global;
use std::sync::ledger::Ledger;

// What is told where a memory doesn't stay, and what was walked isn't found again: a violation at the start that no word shows.
fn gone(alloc: Global, asked: &Asked) -> WalkStop
    ensures { IsBroken result (misfit asked.now Rule.X1 asked.now.start) }
{
    broken_by(asked, Rule::X1, asked.start, None, Places::new(alloc))
}

// The entries of the table's xarray, after it was walked.
fn table_numbers<S: Space, L: Ledger>(
    alloc: Global,
    space: &mut S,
    asked: &Asked,
    shape: &PidShape,
    steps: &mut Steps<L>,
) -> Result<Walked, WalkStop>
    ensures numbers { ListsNumbers (λ i ns. is_xarray i shape.now.xa (at_offset asked.now.start shape.now.idr_rt) ns) (S.image space.old) result }
    ensures named { IsNamed result asked.now.audit asked.now.start }

    ensures stays { SpaceStays S.image S.files S.through S.most space.old space.new }
    ensures cause { CountsWalkFaults result (S.faults space.old) (S.faults space.new) }
{
    let table = asked.start.wrapping_add(shape.idr_rt);
    match list_xarray(alloc, space, &shape.xa, table, steps) {
        Ok(numbers) => Ok(numbers),
        Err(TestStop::Unfit) => Err(gone(alloc, asked)),
        Err(TestStop::Fault) => Err(WalkStop::Fault),
        Err(TestStop::NoMemory) => Err(WalkStop::NoMemory),
    }
}

// A list alone, behind which others are kept.
fn kept_behind(alloc: Global, numbers: Walked) -> Result<Kept, WalkStop>
    ensures first { IfOk result (λ kept. kept.lists ≡ numbers ∷ []) }
    ensures broken { OnBroken result ⊥ }
    ensures no_fault { OnWalkFault result ⊥ }
{
    let mut lists = Items::new(alloc);
    match lists.push(numbers) {
        Ok(()) => Ok(Kept { lists }),
        Err(NoMemory) => Err(WalkStop::NoMemory),
    }
}

/// The lists of the table of process ids at which a walk starts, which pass the test of lists, as it is walked.
///
/// # Errors
///
/// The first violation, exactly where the table has one; a failure of the space, whose count of faults then rose; or out of
/// memory.
pub fn list_pids<S: Space, L: Ledger>(
    alloc: Global,
    space: &mut S,
    btf: &Btf,
    shape: &PidShape,
    asked: &Asked,
    steps: &mut Steps<L>,
) -> Result<Items<Walked>, WalkStop>
    ensures lists { ListsPids shape.now asked.now (S.image space.old) result }
    ensures named { IsNamed result asked.now.audit asked.now.start }

    ensures stays { SpaceStays S.image S.files S.through S.most space.old space.new }
    ensures cause { CountsWalkFaults result (S.faults space.old) (S.faults space.new) }
{
    know_entries();
    know_hash_chains();
    know_pid_lists();
    let items = ids_in(alloc, space, asked, shape, steps)?;
    let numbers = table_numbers(alloc, space, asked, shape, steps)?;
    let mut kept = kept_behind(alloc, numbers)?;
    pids_walk_by(alloc, space, &mut kept, asked, btf, shape, &items, steps)?;
    Ok(kept.lists)
}
