// The elements of an xarray: its pointers.
ghost use Rattle.std.specs.Prelude.{◌≡◌, IfOk};
ghost use Rattle.kc_memory.specs.Stays.{SpaceStays};
ghost use Rattle.kc_found.specs.Walks.{CountsWalkFaults, IsNamed, WalksAs};
ghost use Rattle.kc_found.specs.XaSites.{xa_judged};
ghost use Rattle.kc_found.specs.XaSites.{entries, entries_in};

use kc_found::{Asked, Space, WalkStop, Walked, XaShape, XaWalked};
use kc_word::{NoMemory, Steps};
use kc_xa::xa_walk;
use std::alloc::Global;
use std::sync::ledger::Ledger;

// The pointers, without their indexes.
fn entries_of(alloc: Global, items: &XaWalked) -> Result<Walked, NoMemory>
    ensures { IfOk result (λ nodes. nodes ≡ entries items.now) }
{
    let mut nodes = Walked::new(alloc);
    for i in 0..items.len() {
        nodes.push(items.get(i).entry)?;
    }
    Ok(nodes)
}

// The pointers of an xarray by rising index, or its first violation.
pub(crate) fn xarray<S: Space, L: Ledger>(
    alloc: Global,
    space: &mut S,
    shape: &XaShape,
    asked: &Asked,
    steps: &mut Steps<L>,
) -> Result<Walked, WalkStop>
    ensures walk { WalksAs (λ nodes. nodes)
        (λ image. entries_in (xa_judged image shape.now asked.now.audit asked.now.start)) (S.image space.old) result }
    ensures named { IsNamed result asked.now.audit asked.now.start }

    ensures stays { SpaceStays S.image S.files S.through S.most space.old space.new }
    ensures cause { CountsWalkFaults result (S.faults space.old) (S.faults space.new) }
{
    let items = xa_walk(alloc, space, shape, asked.start, asked.audit, steps)?;
    match entries_of(alloc, &items) {
        Ok(nodes) => Ok(nodes),
        Err(NoMemory) => Err(WalkStop::NoMemory),
    }
}
