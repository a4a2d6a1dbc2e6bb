// Lists of entries that are made.
ghost use Rattle.std.specs.Prelude.{◌≡◌, [], ◌∷◌, ◌++◌, reverse, IfErr, OnOk};
ghost use Rattle.std.specs.List.{AllByRecursion};
ghost use Rattle.kc_memory.specs.Stays.{SpaceStays};
ghost use Rattle.kc_found.specs.XaSites.{xa_course};
ghost use Rattle.kc_found.specs.Tests.{CountsTestFaults};
ghost use Rattle.kc_xa.specs.Listed.Answers.{ListsAs};
ghost use Rattle.kc_xa.specs.Listed.Entries.{is_xarray, listed};
ghost use Rattle.kc_xa.specs.Listed.Falling.{IsSound};

use crate::listed::spots::XaSpot;
use crate::listed::steps::{enter_head, pass_spot};
use crate::pass::XaPass;
use kc_found::{Asked, Claims, Space, TestStop, Walked, XaShape};
use kc_word::{NoMemory, Steps};
use std::alloc::Global;
use std::sync::ledger::Ledger;

// Adds a number.
fn push_number(numbers: &mut Walked, number: u64) -> Result<(), TestStop>
    ensures added { OnOk result (numbers.new ≡ numbers.old ++ number ∷ []) }
    ensures memory { IfErr result (λ halt. halt ≡ TestStop.NoMemory) }
{
    match numbers.push(number) {
        Ok(()) => Ok(()),
        Err(NoMemory) => Err(TestStop::NoMemory),
    }
}

// The entries at positions, the last one first, with all below them. A node's shift is below that of the node above it, so this
// ends whatever the memory tells.
fn list_numbers<S: Space, L: Ledger>(
    pass: &XaPass,
    space: &mut S,
    claims: &mut Claims,
    pending: &mut Vec<XaSpot>,
    steps: &mut Steps<L>,
) -> Result<Walked, TestStop>
    requires { AllByRecursion (IsSound pass.now.shape.chunk) pending.old.items }
    ensures lists { ListsAs (λ i ns. listed (xa_course i pass.now.shape pass.now.asked) claims.old (reverse pending.old.items) ns) (S.image space.old) result }

    ensures stays { SpaceStays S.image S.files S.through S.most space.old space.new }
    ensures cause { CountsTestFaults result (S.faults space.old) (S.faults space.new) }
{
    let mut numbers = Walked::new(pass.alloc);
    while let Some(spot) = pending.pop() {
        push_number(&mut numbers, spot.word.value)?;
        pass_spot(pass, space, claims, pending, &spot, steps)?;
    }
    Ok(numbers)
}

/// The entries of the xarray at a virtual address: the head's, and after each node's those of all its slots, the lowest first.
///
/// # Errors
///
/// `Unfit` exactly where there is no such list, as the xarray breaks a rule; a failure of the space, or out of memory.
pub fn list_xarray<S: Space, L: Ledger>(
    alloc: Global,
    space: &mut S,
    shape: &XaShape,
    start: u64,
    steps: &mut Steps<L>,
) -> Result<Walked, TestStop>
    ensures lists { ListsAs (λ i ns. is_xarray i shape.now start ns) (S.image space.old) result }

    ensures stays { SpaceStays S.image S.files S.through S.most space.old space.new }
    ensures cause { CountsTestFaults result (S.faults space.old) (S.faults space.new) }
{
    let mut claims = Claims::new(alloc);
    let mut pending = Vec::new(alloc);
    enter_head(alloc, space, shape, start, &mut claims, &mut pending, steps)?;
    let pass = XaPass {
        alloc,
        asked: Asked { audit: 0, start },
        shape: *shape,
    };
    list_numbers(&pass, space, &mut claims, &mut pending, steps)
}
