// Slots of an xarray's node that may have been null.
ghost use Rattle.std.specs.Prelude.{◌≡◌, ◌++◌, OnOk, IfOk, IfSome};
ghost use Rattle.kc_repair.specs.Suspect.Answers.{OnlyReads};
ghost use Rattle.kc_repair.specs.Suspect.Slots.{all_emptied, emptied, leads_nowhere, slot_at, slots_of};

use crate::suspect::change::Changes;
use crate::suspect::links::node_of;
use crate::suspect::rules::to;
use crate::suspect::words::read_word;
use kc_found::{Found, ReadFailed, Space, XaShape};
use kc_kinds::Kind;
use kc_word::Steps;
use std::sync::ledger::Ledger;

// Whether no word can be read where an entry leads.
fn leads_nowhere<S: Space, L: Ledger>(
    space: &mut S,
    entry: u64,
    steps: &mut Steps<L>,
) -> Result<bool, ReadFailed>
    ensures nowhere { IfOk result (λ nowhere. IfSome (S.image space.old) (λ image. nowhere ≡ leads_nowhere image entry)) }
    ensures reads { OnlyReads S.image S.files S.through S.most S.faults result space.old space.new }
{
    let word = read_word(space, entry / 8 * 8, steps)?;
    Ok(word.is_none())
}

// Adds a slot as null, where its entry leads nowhere.
fn push_emptied<S: Space, L: Ledger>(
    changes: &mut Changes,
    at: u64,
    space: &mut S,
    steps: &mut Steps<L>,
) -> Result<(), ReadFailed>
    ensures added { OnOk result (IfSome (S.image space.old) (λ image. changes.new ≡ changes.old ++ emptied image at)) }
    ensures reads { OnlyReads S.image S.files S.through S.most S.faults result space.old space.new }
{
    let Some(slot) = read_word(space, at, steps)? else {
        return Ok(());
    };
    if leads_nowhere(space, slot.value, steps)? {
        changes.push(to(slot.va, 0))?;
    }
    Ok(())
}

// The address of a slot of a node.
pub(crate) fn slot_at(shape: &XaShape, node: u64, k: u64) -> u64
    ensures { result ≡ slot_at shape.now node k }
{
    let first = node.wrapping_add(shape.slots);
    first.wrapping_add(8u64.wrapping_mul(k))
}

// Adds those of all slots of a node.
fn push_all_emptied<S: Space, L: Ledger>(
    changes: &mut Changes,
    shape: &XaShape,
    node: u64,
    space: &mut S,
    steps: &mut Steps<L>,
) -> Result<(), ReadFailed>
    ensures added { OnOk result (IfSome (S.image space.old) (λ image. changes.new ≡ changes.old ++ all_emptied image shape.now node shape.now.chunk)) }
    ensures reads { OnlyReads S.image S.files S.through S.most S.faults result space.old space.new }
{
    for k in 0..shape.chunk {
        push_emptied(changes, slot_at(shape, node, k), space, steps)?;
    }
    Ok(())
}

// Adds those of the node that has a wrong number of slots in use.
pub(crate) fn push_slots<S: Space, L: Ledger>(
    changes: &mut Changes,
    kind: &Kind,
    found: &Found,
    space: &mut S,
    steps: &mut Steps<L>,
) -> Result<(), ReadFailed>
    ensures added { OnOk result (IfSome (S.image space.old) (λ image. changes.new ≡ changes.old ++ slots_of image kind.now found.now)) }
    ensures reads { OnlyReads S.image S.files S.through S.most S.faults result space.old space.new }
{
    let shape = match kind {
        Kind::Xarray(shape) => shape,
        Kind::Pids(pids) => &pids.xa,
        _ => return Ok(()),
    };
    let node = node_of(found.at, shape.count);
    push_all_emptied(changes, shape, node, space, steps)
}
