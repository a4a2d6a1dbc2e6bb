// The steps along a list of entries, whether it is tested or made: the head, and what follows a position.
ghost use Rattle.std.specs.Prelude.{◌≡◌, ℕ, ◌+◌, ◌*◌, ◌≤◌, ◌<◌, List, [], ◌∷◌, ◌++◌, length, reverse, OnOk, IfOk, IfErr, IfSome};
ghost use Rattle.std.specs.List.{AllByRecursion};
ghost use Rattle.kc_memory.specs.Stays.{SpaceStays};
ghost use Rattle.kc_found.specs.XaSites.{xa_course};
ghost use Rattle.kc_found.specs.Tests.{CountsTestFaults};
ghost use Rattle.kc_xa.specs.Listed.Answers.{PassesAs};
ghost use Rattle.kc_xa.specs.Listed.Entries.{is_xarray, items_at, items_in, listed, spots_next};
ghost use Rattle.kc_xa.specs.Listed.Falling.{IsSound, weights, weight};

use crate::listed::spots::{XaSpot, head_spot, push_slots, push_spot};
use crate::pass::XaPass;
use crate::{entry_of, know_chunk, open_node, read_head};
use kc_found::{
    Asked, Claims, Space, TestStop, XaEntry, XaShape, know_most, take_word, test_stop_of,
};
use kc_word::Steps;
use std::alloc::Global;
use std::sync::ledger::Ledger;

// Reads the head and takes it. Its position is then all that is to be looked at.
#[tactic(auto, unfolding(crate::specs::Listed::Entries::is_xarray))]
pub(crate) fn enter_head<S: Space, L: Ledger>(
    alloc: Global,
    space: &mut S,
    shape: &XaShape,
    start: u64,
    claims: &mut Claims,
    pending: &mut Vec<XaSpot>,
    steps: &mut Steps<L>,
) -> Result<(), TestStop>
    requires none { claims.old ≡ [] }
    requires empty { pending.old.items ≡ [] }
    ensures passes { PassesAs (λ i ns. is_xarray i shape.now start ns) (λ i ns. listed (xa_course i shape.now (record { audit = 0; start = start })) claims.new (reverse pending.new.items) ns) (S.image space.old) result }
    ensures items { OnOk result (IfSome (S.image space.old) (λ i. (ns : List ℕ) → items_in i shape.now start ns ≡ items_at (xa_course i shape.now (record { audit = 0; start = start })) (reverse pending.new.items) ns)) }
    ensures sound { OnOk result (AllByRecursion (IsSound shape.now.chunk) pending.new.items) }
    ensures steps { steps.new ≤ steps.old + 6 }

    ensures stays { SpaceStays S.image S.files S.through S.most space.old space.new }
    ensures cause { CountsTestFaults result (S.faults space.old) (S.faults space.new) }
{
    let asked = Asked { audit: 0, start };
    know_most(space);
    let head = match read_head(alloc, space, shape, &asked, steps) {
        Ok(head) => head,
        Err(stop) => return Err(test_stop_of(stop)),
    };
    match take_word(alloc, claims, &asked, &head) {
        Ok(()) => {}
        Err(stop) => return Err(test_stop_of(stop)),
    }
    push_spot(pending, head_spot(shape, head))
}

// Whether an entry leads to a node.
fn is_node(kind: XaEntry) -> bool
    ensures { result ≡ Rattle.kc_xa.specs.Listed.Entries.is_node kind }
{
    match kind {
        XaEntry::Node => true,
        XaEntry::Nothing
        | XaEntry::Pointer
        | XaEntry::Odd
        | XaEntry::Zero
        | XaEntry::Sibling(_)
        | XaEntry::Bad => false,
    }
}

// What follows a position: its entry breaks no rule, and where it leads to a node, that node's words are read and taken, and its
// slots are to be looked at next.
pub(crate) fn pass_spot<S: Space, L: Ledger>(
    pass: &XaPass,
    space: &mut S,
    claims: &mut Claims,
    pending: &mut Vec<XaSpot>,
    spot: &XaSpot,
    steps: &mut Steps<L>,
) -> Result<(), TestStop>
    requires spot { IsSound pass.now.shape.chunk spot.now }
    requires pending { AllByRecursion (IsSound pass.now.shape.chunk) pending.old.items }
    ensures passes { PassesAs (λ i ns. listed (xa_course i pass.now.shape pass.now.asked) claims.old (spot.now ∷ reverse pending.old.items) (spot.now.word.value ∷ ns)) (λ i ns. listed (xa_course i pass.now.shape pass.now.asked) claims.new (reverse pending.new.items) ns) (S.image space.old) result }
    ensures next { OnOk result (IfSome (S.image space.old) (λ i. reverse pending.new.items ≡ spots_next (xa_course i pass.now.shape pass.now.asked) spot.now ++ reverse pending.old.items)) }
    ensures sound { OnOk result (AllByRecursion (IsSound pass.now.shape.chunk) pending.new.items) }
    ensures falls { OnOk result (weights pending.new.items < weight spot.now + weights pending.old.items) }
    ensures steps { steps.new ≤ steps.old + 420 }

    ensures stays { SpaceStays S.image S.files S.through S.most space.old space.new }
    ensures cause { CountsTestFaults result (S.faults space.old) (S.faults space.new) }
{
    if spot.fault.is_some() {
        return Err(TestStop::Unfit);
    }
    if !is_node(entry_of(&pass.shape, &spot.word)) {
        return Ok(());
    }
    know_most(space);
    know_chunk(&pass.shape);
    let node = match open_node(
        pass.alloc,
        space,
        &pass.shape,
        &pass.asked,
        claims,
        spot.holder,
        spot.word,
        spot.index,
        steps,
    ) {
        Ok(node) => node,
        Err(stop) => return Err(test_stop_of(stop)),
    };
    push_slots(pending, &pass.shape, &node)
}
