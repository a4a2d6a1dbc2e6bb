// Nodes, read, taken and judged.
ghost use Rattle.std.specs.Prelude.{◌≡◌, ℕ, ◌+◌, ◌-◌, ◌*◌, ◌≤◌, List, length, IfOk, OnOk, IfSome, IsTrue, Some};
ghost use Rattle.kc_memory.specs.Stays.{SpaceStays};
ghost use Rattle.kc_memory.specs.Translation.{vword};
ghost use Rattle.kc_found.specs.Trials.{passed};
ghost use Rattle.kc_found.specs.Walks.{CountsWalkFaults, IsNamed, WalksAs};
ghost use Rattle.kc_found.specs.XaNodes.{behind_entry, is_shift, xa_words};
ghost use Rattle.kc_found.specs.XaSites.{node_site};
ghost use Rattle.kc_xa.specs.Steps.{IsOpened, node_steps};

use crate::rules::judge_node;
use crate::words::{read_node, take_node};
use kc_found::{Asked, Claims, Space, VWord, WalkStop, XaHolder, XaNode, XaShape};
use kc_word::Steps;
use std::alloc::Global;
use std::sync::ledger::Ledger;

/// Opens the node that the entry `led` leads to, with the index of its first slot: its words are read and taken, and its own rules
/// X1 to X6 hold.
///
/// # Errors
///
/// The first violation there, exactly where there is one; a failure of the space, whose count of faults then rose; or out of
/// memory.
pub fn open_node<S: Space, L: Ledger>(
    alloc: Global,
    space: &mut S,
    shape: &XaShape,
    asked: &Asked,
    claims: &mut Claims,
    holder: Option<XaHolder>,
    led: VWord,
    base: u64,
    steps: &mut Steps<L>,
) -> Result<XaNode, WalkStop>
    requires { shape.now.chunk ≤ 64 }
    ensures site { WalksAs (λ _. claims.new) (λ i. passed claims.old (node_site asked.now shape.now holder (led.value - 2) (xa_words (behind_entry (vword i) asked.now (Some led)) shape.now (led.value - 2)))) (S.image space.old) result }
    ensures opened { IfOk result (λ o. IfSome (S.image space.old) (λ i. IsOpened shape.now led base (xa_words (behind_entry (vword i) asked.now (Some led)) shape.now (led.value - 2)) o)) }
    ensures is { IfOk result (λ o. IsTrue (is_shift shape.now.chunk holder o.shift)) }
    ensures base { IfOk result (λ o. o.base ≡ base) }
    ensures size { IfOk result (λ o. length o.slots ≡ shape.now.chunk) }
    ensures more { OnOk result (length claims.new ≡ length claims.old + (shape.now.chunk + 2)) }
    ensures named { IsNamed result asked.now.audit asked.now.start }
    ensures steps { steps.new ≤ steps.old + node_steps (S.most space.old) shape.now.chunk }

    ensures stays { SpaceStays S.image S.files S.through S.most space.old space.new }
    ensures cause { CountsWalkFaults result (S.faults space.old) (S.faults space.new) }
{
    let node = led.value.saturating_sub(2);
    let words = match read_node(alloc, space, shape, asked, node, led, steps) {
        Ok(words) => words,
        Err(stop) => return Err(stop),
    };
    match take_node(alloc, claims, asked, &words) {
        Ok(()) => {}
        Err(stop) => return Err(stop),
    }
    let shift = match judge_node(alloc, shape, asked, holder, node, &words) {
        Ok(shift) => shift,
        Err(stop) => return Err(stop),
    };
    Ok(XaNode {
        node,
        shift,
        base,
        slots: words.slots,
    })
}
