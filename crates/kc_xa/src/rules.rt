// The rules X1 to X6 of a node.
ghost use Rattle.std.specs.Prelude.{◌≡◌, ℕ, ◌<◌, ◌≤◌, List, false, None, IsTrue, IfOk};
ghost use Rattle.kc_found.specs.Trials.{passed};
ghost use Rattle.kc_found.specs.Violations.{is_of_reading};
ghost use Rattle.kc_found.specs.Walks.{IsBroken, IsNamed, IsWalk, OnWalkFault};
ghost use Rattle.kc_found.specs.XaEntries.{kind};
ghost use Rattle.kc_found.specs.XaNodes.{breaks_in, shift_in, xa_rules};

use crate::entries::kind_of;
use crate::words::byte_of;
use kc_found::{
    Asked, Items, Places, Rule, VWord, WalkStop, XaEntry, XaHolder, XaShape, XaWords, broken_at,
    broken_by, place_of,
};
use kc_word::NoMemory;
use std::alloc::Global;

// The violation of a rule at an address, which a word shows.
fn broken_in(
    alloc: Global,
    asked: &Asked,
    rule: Rule,
    at: u64,
    word: &VWord,
    expected: Option<u64>,
) -> WalkStop
    requires { is_of_reading rule ≡ false }
    ensures { IsBroken result (breaks_in asked.now rule at word.now expected) }
{
    let mut places = Places::new(alloc);
    match places.push(place_of(word)) {
        Ok(()) => broken_by(asked, rule, at, expected, places),
        Err(NoMemory) => WalkStop::NoMemory,
    }
}

// How many bits of an index a level takes.
fn chunk_shift(chunk: u64) -> u64
    ensures { result ≡ Rattle.kc_found.specs.XaNodes.chunk_shift chunk }
{
    if chunk == 64 { 6 } else { 4 }
}

// X1: whether a shift fits the level, by the slot that the node hangs in.
fn is_shift(chunk: u64, holder: Option<XaHolder>, shift: u64) -> bool
    ensures { result ≡ Rattle.kc_found.specs.XaNodes.is_shift chunk holder shift }
{
    match holder {
        None => shift % chunk_shift(chunk) == 0 && shift <= 60,
        Some(holder) => shift == holder.shift.saturating_sub(chunk_shift(chunk)),
    }
}

// The shift that X1 expects, below the root.
fn shift_wanted(chunk: u64, holder: Option<XaHolder>) -> Option<u64>
    ensures { result ≡ Rattle.kc_found.specs.XaNodes.shift_wanted chunk holder }
{
    match holder {
        None => None,
        Some(holder) => Some(holder.shift.saturating_sub(chunk_shift(chunk))),
    }
}

// X2: whether an offset is the number of the slot that the node hangs in.
fn is_slot(holder: Option<XaHolder>, offset: u64) -> bool
    ensures { result ≡ Rattle.kc_found.specs.XaNodes.is_slot holder offset }
{
    match holder {
        None => true,
        Some(holder) => offset == holder.slot,
    }
}

// The offset that X2 expects.
fn slot_wanted(holder: Option<XaHolder>) -> Option<u64>
    ensures { result ≡ Rattle.kc_found.specs.XaNodes.slot_wanted holder }
{
    match holder {
        None => None,
        Some(holder) => Some(holder.slot),
    }
}

// The parent that X3 expects.
fn parent_wanted(holder: Option<XaHolder>) -> u64
    ensures { result ≡ Rattle.kc_found.specs.XaNodes.parent_wanted holder }
{
    match holder {
        None => 0,
        Some(holder) => holder.node,
    }
}

// How many slots aren't null.
#[tactic(auto, unfolding(kc_found::specs::XaNodes::filled))]
fn filled(slots: &Items<VWord>) -> u64
    ensures { result ≡ Rattle.kc_found.specs.XaNodes.filled slots.now }
{
    slots
        .as_slice()
        .iter()
        .filter(|word| word.value != 0)
        .count() as u64
}

// How many slots hold an odd entry.
#[tactic(auto, unfolding(kc_found::specs::XaNodes::odd))]
fn odd(slots: &Items<VWord>) -> u64
    ensures { result ≡ Rattle.kc_found.specs.XaNodes.odd slots.now }
{
    slots
        .as_slice()
        .iter()
        .filter(|word| word.value % 2 == 1)
        .count() as u64
}

// Whether an entry is a sibling.
fn is_sibling(chunk: u64, entry: u64) -> bool
    ensures { result ≡ Rattle.kc_found.specs.XaEntries.is_sibling (kind chunk entry) }
{
    match kind_of(chunk, entry) {
        XaEntry::Sibling(_) => true,
        XaEntry::Nothing
        | XaEntry::Pointer
        | XaEntry::Odd
        | XaEntry::Node
        | XaEntry::Zero
        | XaEntry::Bad => false,
    }
}

// Whether a slot holds a sibling.
#[tactic(auto, unfolding(kc_found::specs::XaNodes::has_sibling))]
fn has_sibling(chunk: u64, slots: &Items<VWord>) -> bool
    ensures { result ≡ Rattle.kc_found.specs.XaNodes.has_sibling chunk slots.now }
{
    slots
        .as_slice()
        .iter()
        .any(|word| is_sibling(chunk, word.value))
}

// X5: whether a count is that of the slots.
fn is_count(shape: &XaShape, count: u64, slots: &Items<VWord>) -> bool
    ensures { result ≡ Rattle.kc_found.specs.XaNodes.is_count shape.now count slots.now }
{
    let filled = filled(slots);
    if shape.idr {
        filled <= count && count <= shape.chunk
    } else {
        count == filled
    }
}

// X6: whether a count is that of the odd entries, unless there is a sibling.
fn is_odd_count(shape: &XaShape, values: u64, slots: &Items<VWord>) -> bool
    ensures { result ≡ Rattle.kc_found.specs.XaNodes.is_odd_count shape.now values slots.now }
{
    has_sibling(shape.chunk, slots) || values == odd(slots)
}

// Tries the rules of a node, and answers its shift.
#[tactic(auto, unfolding(kc_found::specs::XaNodes::xa_rules))]
pub(crate) fn judge_node(
    alloc: Global,
    shape: &XaShape,
    asked: &Asked,
    holder: Option<XaHolder>,
    node: u64,
    words: &XaWords,
) -> Result<u64, WalkStop>
    ensures rules { (taken : List ℕ) → IsWalk (λ _. taken) (passed taken (xa_rules shape.now asked.now holder node words.now)) result }
    ensures named { IsNamed result asked.now.audit asked.now.start }
    ensures no_fault { OnWalkFault result ⊥ }
    ensures shift { IfOk result (λ s. s ≡ shift_in shape.now node words.now) }
    ensures is { IfOk result (λ s. IsTrue (Rattle.kc_found.specs.XaNodes.is_shift shape.now.chunk holder s)) }
{
    let at = node.wrapping_add(shape.shift);
    let shift = byte_of(at, &words.shift);
    if !is_shift(shape.chunk, holder, shift) {
        let wanted = shift_wanted(shape.chunk, holder);
        return Err(broken_in(alloc, asked, Rule::X1, at, &words.shift, wanted));
    }
    let at = node.wrapping_add(shape.offset);
    if !is_slot(holder, byte_of(at, &words.offset)) {
        let wanted = slot_wanted(holder);
        return Err(broken_in(alloc, asked, Rule::X2, at, &words.offset, wanted));
    }
    let parent = parent_wanted(holder);
    if words.parent.value != parent {
        return Err(broken_at(alloc, asked, Rule::X3, &words.parent, Some(parent)));
    }
    if words.array.value != asked.start {
        return Err(broken_at(alloc, asked, Rule::X4, &words.array, Some(asked.start)));
    }
    let at = node.wrapping_add(shape.count);
    if !is_count(shape, byte_of(at, &words.count), &words.slots) {
        let wanted = Some(filled(&words.slots));
        return Err(broken_in(alloc, asked, Rule::X5, at, &words.count, wanted));
    }
    let at = node.wrapping_add(shape.nr_values);
    if !is_odd_count(shape, byte_of(at, &words.values), &words.slots) {
        let wanted = Some(odd(&words.slots));
        return Err(broken_in(alloc, asked, Rule::X6, at, &words.values, wanted));
    }
    Ok(shift)
}
