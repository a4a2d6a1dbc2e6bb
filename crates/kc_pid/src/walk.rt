// The table of process ids.
ghost use Rattle.std.specs.Prelude.{◌≡◌, IfOk, IfSome};
ghost use Rattle.kc_memory.specs.Stays.{SpaceStays};
ghost use Rattle.kc_found.specs.Walks.{CountsWalkFaults, IsNamed, OnBroken, OnWalkFault, WalksAs};
ghost use Rattle.kc_found.specs.XaSites.{entries};
ghost use Rattle.kc_view.specs.FinitePids.{NoPids, Pids};
ghost use Rattle.kc_view.specs.PidTables.{ids_in, pid_table};
ghost use Rattle.kc_steps.specs.Chains.{WalkPays, size};
ghost use Rattle.kc_steps.specs.PidsBy.{pids_by};

use crate::pass::PidPass;
use crate::pid::check_pid;
use crate::walks::Walks;
use kc_btf::Btf;
use kc_found::{Asked, Space, WalkStop, Walked, XaWalked};
use kc_list::know_lists;
use kc_steps::{HashChains, know_hash_chains};
use kc_view::{PidShape, started_at};
use kc_word::{NoMemory, Steps};
use kc_xa::{know_xarrays, xa_walk};
use std::alloc::Global;
use std::sync::ledger::Ledger;

/// Looks at the process ids that these pointers of a table's xarray are, in order, where their hash chains come by `chains`. Where
/// lists pay, those that are used up pay for all steps, but for 60 where it ends at a violation.
///
/// # Errors
///
/// The first violation, exactly where the process ids have one by such chains; a failure of the space, whose count of faults
/// then rose; or out of memory.
pub fn pids_walk_by<S: Space, C: HashChains, L: Ledger>(
    alloc: Global,
    space: &mut S,
    chains: &mut C,
    asked: &Asked,
    btf: &Btf,
    shape: &PidShape,
    items: &XaWalked,
    steps: &mut Steps<L>,
) -> Result<(), WalkStop>
    ensures walk { WalksAs (λ _. C.lists chains.new)
        (λ i. pids_by i (C.hash_by i) shape.now asked.now items.now (C.lists chains.old)) (S.image space.old) result }
    ensures named { IsNamed result asked.now.audit asked.now.start }
    ensures pays { C.paid → WalkPays result 0 60 (size (C.lists chains.old))
        (size (C.lists chains.new)) steps.old steps.new }

    ensures stays { SpaceStays S.image S.files S.through S.most space.old space.new }
    ensures cause { CountsWalkFaults result (S.faults space.old) (S.faults space.new) }
{
    let pass = PidPass {
        alloc,
        asked: *asked,
        shape: *shape,
    };
    let mut i = 0;
    while i < items.len() {
        let item = items.get(i);
        match check_pid(&pass, space, chains, btf, item, steps) {
            Ok(()) => {}
            Err(stop) => return Err(stop),
        }
        i += 1;
    }
    Ok(())
}

/// The pointers of the xarray of the table at which a walk starts, by rising index: its process ids. A violation is one of the walk
/// that asks.
///
/// # Errors
///
/// The first violation, exactly where the xarray has one; a failure of the space, whose count of faults then rose; or out of
/// memory.
pub fn ids_in<S: Space, L: Ledger>(
    alloc: Global,
    space: &mut S,
    asked: &Asked,
    shape: &PidShape,
    steps: &mut Steps<L>,
) -> Result<XaWalked, WalkStop>
    ensures exact { WalksAs (λ items. items) (λ i. ids_in i asked.now shape.now) (S.image space.old) result }
    ensures named { IsNamed result asked.now.audit asked.now.start }

    ensures stays { SpaceStays S.image S.files S.through S.most space.old space.new }
    ensures cause { CountsWalkFaults result (S.faults space.old) (S.faults space.new) }
{
    let table = asked.start.wrapping_add(shape.idr_rt);
    match xa_walk(alloc, space, &shape.xa, table, asked.audit, steps) {
        Ok(items) => Ok(items),
        Err(stop) => Err(started_at(stop, asked.start)),
    }
}

// The pointers, without their indexes.
fn entries_of(alloc: Global, items: &XaWalked) -> Result<Walked, WalkStop>
    ensures exact { IfOk result (λ pids. pids ≡ entries items.now) }
    ensures broken { OnBroken result ⊥ }
    ensures no_fault { OnWalkFault result ⊥ }
{
    let mut pids = Walked::new(alloc);
    for item in items.as_slice() {
        match pids.push(item.entry) {
            Ok(()) => {}
            Err(NoMemory) => return Err(WalkStop::NoMemory),
        }
    }
    Ok(pids)
}

// The process ids of the table, whose chains are walked.
fn walk_table<S: Space, L: Ledger>(
    alloc: Global,
    space: &mut S,
    asked: &Asked,
    btf: &Btf,
    shape: &PidShape,
    steps: &mut Steps<L>,
) -> Result<Walked, WalkStop>
    ensures exact { WalksAs (λ pids. pids) (λ i. pid_table i shape.now asked.now) (S.image space.old) result }
    ensures named { IsNamed result asked.now.audit asked.now.start }

    ensures stays { SpaceStays S.image S.files S.through S.most space.old space.new }
    ensures cause { CountsWalkFaults result (S.faults space.old) (S.faults space.new) }
{
    know_hash_chains();
    let mut chains = Walks;
    let items = match ids_in(alloc, space, asked, shape, steps) {
        Ok(items) => items,
        Err(stop) => return Err(stop),
    };
    match pids_walk_by(alloc, space, &mut chains, asked, btf, shape, &items, steps) {
        Ok(()) => entries_of(alloc, &items),
        Err(stop) => Err(stop),
    }
}

/// The process ids of the table (`struct idr`) that starts at virtual address `start`, by rising number. The audit's number is named
/// where the table breaks a rule.
///
/// # Errors
///
/// The first violation, exactly where the table has one; a failure of the space, whose count of faults then rose; or out
/// of memory.
pub fn pids_walk<S: Space, L: Ledger>(
    alloc: Global,
    space: &mut S,
    btf: &Btf,
    shape: &PidShape,
    start: u64,
    audit: u32,
    steps: &mut Steps<L>,
) -> Result<Walked, WalkStop>
    ensures walk { WalksAs (λ pids. pids) (λ i. pid_table i shape.now (record { audit = audit; start = start }))
        (S.image space.old) result }
    ensures finite { IfOk result (λ pids. IfSome (S.image space.old) (λ i. Pids i shape.now start pids)) }
    ensures none { OnBroken result (IfSome (S.image space.old) (λ i. NoPids i shape.now start)) }
    ensures named { IsNamed result audit start }

    ensures stays { SpaceStays S.image S.files S.through S.most space.old space.new }
    ensures cause { CountsWalkFaults result (S.faults space.old) (S.faults space.new) }
{
    know_lists();
    know_xarrays();
    let asked = Asked { audit, start };
    walk_table(alloc, space, &asked, btf, shape, steps)
}
