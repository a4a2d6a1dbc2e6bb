// Positions: entries that are still to be looked at.
ghost use Rattle.std.specs.Prelude.{◌≡◌, ◌<◌, ◌≤◌, [], ◌∷◌, ◌++◌, length, reverse, IfErr, OnOk};
ghost use Rattle.kc_xa.specs.Listed.Entries.{head_spot, slot_spot, slot_spots};

use crate::{entry_of, head_fault, index_of, slot_fault};
use kc_found::{Rule, TestStop, VWord, XaHolder, XaNode, XaShape};

/// A position in an xarray: its head, or a slot.
#[derive(Clone, Copy, Debug, PartialEq, Eq)]
pub struct XaSpot {
    /// The word that has the entry.
    pub word: VWord,
    /// The first rule that the entry breaks there.
    pub fault: Option<Rule>,
    /// The slot, or `None` for the head.
    pub holder: Option<XaHolder>,
    /// The index, or 0 where it is at or above 2^64.
    pub index: u64,
}

// The position of the head.
pub(crate) fn head_spot(shape: &XaShape, head: VWord) -> XaSpot
    ensures { result ≡ head_spot shape.now.chunk head }
{
    let fault = head_fault(entry_of(shape, &head));
    XaSpot {
        word: head,
        fault,
        holder: None,
        index: 0,
    }
}

// The position of a slot.
fn slot_spot(shape: &XaShape, node: &XaNode, slot: u64, word: VWord) -> XaSpot
    requires small { node.now.shift ≤ 60 }
    requires slot { slot < 64 }
    ensures { result ≡ slot_spot shape.now.chunk node.now slot word }
{
    let index = index_of(node.base, slot, node.shift);
    let kind = entry_of(shape, &word);
    let fault = slot_fault(shape.chunk, &node.slots, node.shift, slot, index, kind);
    XaSpot {
        word,
        fault,
        holder: Some(XaHolder {
            node: node.node,
            slot,
            shift: node.shift,
        }),
        index: index.unwrap_or(0),
    }
}

// Adds a position.
pub(crate) fn push_spot(pending: &mut Vec<XaSpot>, spot: XaSpot) -> Result<(), TestStop>
    ensures added { OnOk result (pending.new.items ≡ pending.old.items ++ spot ∷ []) }
    ensures memory { IfErr result (λ halt. halt ≡ TestStop.NoMemory) }
{
    match pending.push(spot) {
        Ok(()) => Ok(()),
        Err(_) => Err(TestStop::NoMemory),
    }
}

// Adds the positions of a node's slots. The lowest is looked at first.
pub(crate) fn push_slots(
    pending: &mut Vec<XaSpot>,
    shape: &XaShape,
    node: &XaNode,
) -> Result<(), TestStop>
    requires small { node.now.shift ≤ 60 }
    requires size { length node.now.slots ≤ 64 }
    ensures added { OnOk result (pending.new.items ≡ pending.old.items ++ reverse (slot_spots shape.now.chunk node.now 0 node.now.slots)) }
    ensures memory { IfErr result (λ halt. halt ≡ TestStop.NoMemory) }
{
    let count = node.slots.len();
    for i in 0..count {
        let slot = count - 1 - i;
        let spot = slot_spot(shape, node, slot as u64, *node.slots.get(slot));
        push_spot(pending, spot)?;
    }
    Ok(())
}
