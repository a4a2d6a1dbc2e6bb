// Lists of entries that are tested.
ghost use Rattle.std.specs.Prelude.{◌≡◌, ◌+◌, ◌*◌, ◌≤◌, ◌++◌, [], length, reverse, IfErr, IfOk, IfSome, OnOk};
ghost use Rattle.std.specs.List.{AllByRecursion};
ghost use Rattle.kc_memory.specs.Stays.{SpaceStays};
ghost use Rattle.kc_found.specs.XaSites.{xa_course};
ghost use Rattle.kc_found.specs.Tests.{CountsTestFaults, TellsAs};
ghost use Rattle.kc_xa.specs.Listed.Entries.{is_xarray, item_at, items_at, items_in, listed, pointers};
ghost use Rattle.kc_xa.specs.Listed.Falling.{IsSound};

use crate::entry_of;
use crate::listed::spots::XaSpot;
use crate::listed::steps::{enter_head, pass_spot};
use crate::pass::XaPass;
use kc_found::{Asked, Claims, Space, TestStop, Walked, XaEntry, XaItem, XaShape, XaWalked};
use kc_word::{NoMemory, Steps};
use std::alloc::Global;
use std::sync::ledger::Ledger;

// Adds the pointer at a position, if there is one.
fn push_pointer(items: &mut XaWalked, shape: &XaShape, spot: &XaSpot) -> Result<(), TestStop>
    ensures added { OnOk result (items.new ≡ items.old ++ item_at shape.now.chunk spot.now) }
    ensures memory { IfErr result (λ halt. halt ≡ TestStop.NoMemory) }
{
    match entry_of(shape, &spot.word) {
        XaEntry::Pointer => {}
        XaEntry::Nothing
        | XaEntry::Node
        | XaEntry::Odd
        | XaEntry::Zero
        | XaEntry::Sibling(_)
        | XaEntry::Bad => return Ok(()),
    }
    let item = XaItem {
        index: spot.index,
        entry: spot.word.value,
    };
    match items.push(item) {
        Ok(()) => Ok(()),
        Err(NoMemory) => Err(TestStop::NoMemory),
    }
}

// Tests whether these numbers are the entries at positions, the last one first, with all below them, and gives the pointers among
// them.
fn test_numbers<S: Space, L: Ledger>(
    pass: &XaPass,
    space: &mut S,
    claims: &mut Claims,
    pending: &mut Vec<XaSpot>,
    numbers: &Walked,
    steps: &mut Steps<L>,
) -> Result<XaWalked, TestStop>
    requires { AllByRecursion (IsSound pass.now.shape.chunk) pending.old.items }
    ensures test { TellsAs (λ i. listed (xa_course i pass.now.shape pass.now.asked) claims.old (reverse pending.old.items) numbers.now) (S.image space.old) result }
    ensures items { IfOk result (λ items. IfSome (S.image space.old) (λ i. items ≡ items_at (xa_course i pass.now.shape pass.now.asked) (reverse pending.old.items) numbers.now)) }
    ensures steps { steps.new ≤ steps.old + 420 * length numbers.now }

    ensures stays { SpaceStays S.image S.files S.through S.most space.old space.new }
    ensures cause { CountsTestFaults result (S.faults space.old) (S.faults space.new) }
{
    let mut items = XaWalked::new(pass.alloc);
    for i in 0..numbers.len() {
        let number = *numbers.get(i);
        let spot = match pending.pop() {
            Some(spot) => spot,
            None => return Err(TestStop::Unfit),
        };
        if number != spot.word.value {
            return Err(TestStop::Unfit);
        }
        push_pointer(&mut items, &pass.shape, &spot)?;
        pass_spot(pass, space, claims, pending, &spot, steps)?;
    }
    if pending.len() == 0 {
        Ok(items)
    } else {
        Err(TestStop::Unfit)
    }
}

/// Tests whether these numbers are the entries of the xarray at a virtual address: the head's, and after each node's those of all its
/// slots, the lowest first. It gives the pointers among them, by rising index. It reads the word of the head, and the words of the
/// nodes whose entries stand in the list.
///
/// # Errors
///
/// `Unfit` exactly where they aren't, a failure of the space, or out of memory.
pub fn xarray_items<S: Space, L: Ledger>(
    alloc: Global,
    space: &mut S,
    shape: &XaShape,
    start: u64,
    numbers: &Walked,
    steps: &mut Steps<L>,
) -> Result<XaWalked, TestStop>
    ensures test { TellsAs (λ i. is_xarray i shape.now start numbers.now) (S.image space.old) result }
    ensures items { IfOk result (λ items. IfSome (S.image space.old) (λ i. items ≡ items_in i shape.now start numbers.now)) }
    ensures steps { steps.new ≤ steps.old + 12 + 420 * length numbers.now }

    ensures stays { SpaceStays S.image S.files S.through S.most space.old space.new }
    ensures cause { CountsTestFaults result (S.faults space.old) (S.faults space.new) }
{
    let mut claims = Claims::new(alloc);
    let mut pending = Vec::new(alloc);
    enter_head(alloc, space, shape, start, &mut claims, &mut pending, steps)?;
    let pass = XaPass {
        alloc,
        asked: Asked { audit: 0, start },
        shape: *shape,
    };
    test_numbers(&pass, space, &mut claims, &mut pending, numbers, steps)
}

/// Tests whether these numbers are the entries of the xarray at a virtual address, as `xarray_items` does.
///
/// # Errors
///
/// As `xarray_items`.
pub fn test_xarray<S: Space, L: Ledger>(
    alloc: Global,
    space: &mut S,
    shape: &XaShape,
    start: u64,
    numbers: &Walked,
    steps: &mut Steps<L>,
) -> Result<(), TestStop>
    ensures test { TellsAs (λ i. is_xarray i shape.now start numbers.now) (S.image space.old) result }
    ensures steps { steps.new ≤ steps.old + 12 + 420 * length numbers.now }

    ensures stays { SpaceStays S.image S.files S.through S.most space.old space.new }
    ensures cause { CountsTestFaults result (S.faults space.old) (S.faults space.new) }
{
    xarray_items(alloc, space, shape, start, numbers, steps)?;
    Ok(())
}

/// The pointers among entries, in their order: the numbers that aren't 0 and whose bits 1:0 are 0.
///
/// # Errors
///
/// Out of memory.
pub fn pointers_in(alloc: Global, numbers: &Walked) -> Result<Walked, NoMemory>
    ensures exact { IfOk result (λ found. found ≡ pointers numbers.now) }
    ensures few { IfOk result (λ found. length found ≤ length numbers.now) }
{
    let mut found = Walked::new(alloc);
    for number in numbers.as_slice() {
        if *number != 0 && *number % 4 == 0 {
            found.push(*number)?;
        }
    }
    Ok(found)
}
