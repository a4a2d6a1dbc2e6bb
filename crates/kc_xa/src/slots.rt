// The slots of a node, each with all below it.
ghost use Rattle.std.specs.Prelude.{◌≡◌, ℕ, ◌+◌, ◌*◌, ◌<◌, ◌≤◌, List, [], ◌∷◌, ◌++◌, length, IfErr, IfOk, OnOk, IfSome, IfNone};
ghost use Rattle.kc_memory.specs.Held.{word_count};
ghost use Rattle.kc_memory.specs.Stays.{SpaceStays};
ghost use Rattle.kc_found.specs.Walks.{CountsWalkFaults, IsNamed};
ghost use Rattle.kc_found.specs.XaSites.{xa_course};
ghost use Rattle.kc_xa.specs.Steps.{Enters, Kept, Pays, PaysIn, Walks, node_steps};

use crate::entries::{entry_of, index_of, slot_fault};
use crate::nodes::open_node;
use crate::pass::{SlotWord, XaPass};
use kc_found::{Claims, Space, WalkStop, XaEntry, XaHolder, XaItem, XaNode, XaWalked, broken_at};
use kc_word::{NoMemory, Steps};
use std::sync::ledger::Ledger;

// Adds a pointer to the walked list.
pub(crate) fn push_item(walked: &mut XaWalked, index: u64, entry: u64) -> Result<(), WalkStop>
    ensures added { OnOk result (walked.new ≡ walked.old ++ (record { index = index; entry = entry }) ∷ []) }
    ensures memory { IfErr result (λ stop. stop ≡ WalkStop.NoMemory) }
{
    match walked.push(XaItem { index, entry }) {
        Ok(()) => Ok(()),
        Err(NoMemory) => Err(WalkStop::NoMemory),
    }
}

// Tries the entry of a slot, and opens the node that it leads to.
fn enter_slot<S: Space, L: Ledger>(
    pass: &XaPass,
    space: &mut S,
    claims: &mut Claims,
    walked: &mut XaWalked,
    node: &XaNode,
    entry: SlotWord,
    steps: &mut Steps<L>,
) -> Result<Option<XaNode>, WalkStop>
    requires chunk { pass.now.shape.chunk ≤ 64 }
    requires slot { entry.slot < 64 }
    requires small { node.now.shift ≤ 60 }
    ensures enters { IfSome (S.image space.old) (λ i. Enters i (xa_course i pass.now.shape pass.now.asked) node.now entry.slot entry.word claims.old claims.new walked.old walked.new result) }
    ensures falls { IfOk result (λ r. IfSome r (λ child. child.shift < node.now.shift)) }
    ensures size { IfOk result (λ r. IfSome r (λ child. length child.slots ≡ pass.now.shape.chunk)) }
    ensures none { IfOk result (λ r. IfNone r (claims.new ≡ claims.old)) }
    ensures more { IfOk result (λ r. IfSome r (λ child. length claims.new ≡ length claims.old + (pass.now.shape.chunk + 2))) }
    ensures named { IsNamed result pass.now.asked.audit pass.now.asked.start }
    ensures steps { steps.new ≤ steps.old + node_steps (S.most space.old) pass.now.shape.chunk }
    ensures still { IfOk result (λ r. IfNone r (steps.new ≤ steps.old)) }

    ensures stays { SpaceStays S.image S.files S.through S.most space.old space.new }
    ensures cause { CountsWalkFaults result (S.faults space.old) (S.faults space.new) }
{
    let SlotWord { slot, word } = entry;
    let alloc = pass.alloc;
    let asked = &pass.asked;
    let shape = &pass.shape;
    let kind = entry_of(shape, &word);
    let index = index_of(node.base, slot, node.shift);
    if let Some(rule) = slot_fault(shape.chunk, &node.slots, node.shift, slot, index, kind) {
        return Err(broken_at(alloc, asked, rule, &word, None));
    }
    let Some(index) = index else {
        return Ok(None);
    };
    match kind {
        XaEntry::Pointer => {
            push_item(walked, index, word.value)?;
            Ok(None)
        }
        XaEntry::Node => {
            let holder = Some(XaHolder {
                node: node.node,
                slot,
                shift: node.shift,
            });
            match open_node(
                alloc, space, shape, asked, claims, holder, word, index, steps,
            ) {
                Ok(child) => Ok(Some(child)),
                Err(stop) => Err(stop),
            }
        }
        _ => Ok(None),
    }
}

// Walks the slots of a node, each with all below it. A node's shift is less than that of the node above it, so no more
// than 16 calls stand one in the other.
pub(crate) fn walk_slots<S: Space, L: Ledger>(
    pass: &XaPass,
    space: &mut S,
    claims: &mut Claims,
    walked: &mut XaWalked,
    node: &XaNode,
    steps: &mut Steps<L>,
) -> Result<(), WalkStop>
    requires chunk { pass.now.shape.chunk ≤ 64 }
    requires some { 2 ≤ pass.now.shape.chunk }
    requires size { length node.now.slots ≡ pass.now.shape.chunk }
    requires small { node.now.shift ≤ 60 }
    ensures walks { IfSome (S.image space.old) (λ i. Walks i (xa_course i pass.now.shape pass.now.asked) node.now claims.old claims.new walked.old walked.new result) }
    ensures pays { OnOk result (Pays (S.most space.old) claims.old claims.new steps.old steps.new) }
    ensures bound { IfSome (S.image space.old) (λ i. PaysIn i (S.most space.old) claims.old steps.old steps.new) }
    ensures grows { OnOk result (length claims.old ≤ length claims.new) }
    ensures named { IsNamed result pass.now.asked.audit pass.now.asked.start }

    ensures stays { SpaceStays S.image S.files S.through S.most space.old space.new }
    ensures cause { CountsWalkFaults result (S.faults space.old) (S.faults space.new) }
{
    for (i, word) in node.slots.as_slice().iter().enumerate() {
        let entry = SlotWord {
            slot: i as u64,
            word: *word,
        };
        let child = match enter_slot(pass, space, claims, walked, node, entry, steps) {
            Ok(Some(child)) => child,
            Ok(None) => continue,
            Err(stop) => return Err(stop),
        };
        match walk_slots(pass, space, claims, walked, &child, steps) {
            Ok(()) => continue,
            Err(stop) => return Err(stop),
        }
    }
    Ok(())
}
