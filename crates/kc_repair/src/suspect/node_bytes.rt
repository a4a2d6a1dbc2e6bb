// The bytes of an xarray's node, all of which one write may have destroyed.
ghost use Rattle.std.specs.Prelude.{◌≡◌, ◌+◌, ◌*◌, ◌%◌, ◌≤◌, ◌++◌, [], ◌∷◌, option_to_list, position, OnOk, IfOk, IfSome};
ghost use Rattle.kc_memory.specs.Translation.{vword};
ghost use Rattle.kc_found.specs.Nodes.{at_offset, readable};
ghost use Rattle.kc_found.specs.XaNodes.{chunk_shift, filled, odd};
ghost use Rattle.kc_repair.specs.Suspect.Answers.{OnlyReads};
ghost use Rattle.kc_repair.specs.Suspect.NodeBytes.{bytes_by, first_word, has_entry, offset_below, offset_by, slot_in, slot_number, slots_in, whole_by, whole_word, whole_words, with_byte, with_shift, with_shifts};

use crate::suspect::change::{Change, Changes};
use crate::suspect::links::node_of;
use crate::suspect::rules::to;
use crate::suspect::slots::slot_at;
use crate::suspect::words::{read_word, with_bits};
use kc_found::{Found, Items, ReadFailed, Space, VWord, XaShape};
use kc_kinds::Kind;
use kc_word::{NoMemory, Steps};
use std::alloc::Global;
use std::sync::ledger::Ledger;

// What a node's bytes hold but for `shift`.
#[derive(Clone, Copy, Debug, PartialEq, Eq)]
pub(crate) struct NodeBytes {
    // The number of the slot that leads to it.
    pub offset: u64,
    // How many of its slots aren't null.
    pub count: u64,
    // How many hold an odd entry.
    pub values: u64,
}

// Adds the word in a slot, where it can be read.
fn push_slot<S: Space, L: Ledger>(
    slots: &mut Items<VWord>,
    at: u64,
    space: &mut S,
    steps: &mut Steps<L>,
) -> Result<(), ReadFailed>
    ensures added { OnOk result (IfSome (S.image space.old) (λ image. slots.new ≡ slots.old ++ slot_in image at)) }
    ensures reads { OnlyReads S.image S.files S.through S.most S.faults result space.old space.new }
{
    if let Some(slot) = read_word(space, at, steps)? {
        slots.push(slot)?;
    }
    Ok(())
}

// The words in the slots of a node, but for those that can't be read.
fn read_slots<S: Space, L: Ledger>(
    alloc: Global,
    shape: &XaShape,
    node: u64,
    space: &mut S,
    steps: &mut Steps<L>,
) -> Result<Items<VWord>, ReadFailed>
    ensures slots { IfOk result (λ slots. IfSome (S.image space.old) (λ image. slots ≡ slots_in image shape.now node shape.now.chunk)) }
    ensures reads { OnlyReads S.image S.files S.through S.most S.faults result space.old space.new }
{
    let mut slots = Items::new(alloc);
    for k in 0..shape.chunk {
        push_slot(&mut slots, slot_at(shape, node, k), space, steps)?;
    }
    Ok(slots)
}

// The number of the slot with an entry, where there is one.
fn find_entry(entry: u64, slots: &[VWord]) -> Option<usize>
    ensures { result ≡ position (has_entry entry) slots.now }
{
    slots.iter().position(|slot| slot.value == entry)
}

// The number of the slot with an entry, or else 0.
fn slot_number(entry: u64, slots: &[VWord]) -> u64
    ensures { result ≡ slot_number entry slots.now }
{
    match find_entry(entry, slots) {
        Some(number) => number as u64,
        None => 0,
    }
}

// `offset` by the slots of a node's parent.
fn offset_below<S: Space, L: Ledger>(
    alloc: Global,
    shape: &XaShape,
    node: u64,
    parent: u64,
    space: &mut S,
    steps: &mut Steps<L>,
) -> Result<u64, ReadFailed>
    ensures offset { IfOk result (λ offset. IfSome (S.image space.old) (λ image. offset ≡ offset_below image shape.now node parent)) }
    ensures reads { OnlyReads S.image S.files S.through S.most S.faults result space.old space.new }
{
    if parent == 0 {
        return Ok(0);
    }
    let slots = read_slots(alloc, shape, parent, space, steps)?;
    Ok(slot_number(node.wrapping_add(2), slots.as_slice()))
}

// `offset` by the word that leads to a node's parent, where it can be read.
fn read_offset<S: Space, L: Ledger>(
    alloc: Global,
    shape: &XaShape,
    node: u64,
    space: &mut S,
    steps: &mut Steps<L>,
) -> Result<u64, ReadFailed>
    ensures offset { IfOk result (λ offset. IfSome (S.image space.old) (λ image. offset ≡ offset_by image shape.now node (readable (vword image (at_offset node shape.now.parent))))) }
    ensures reads { OnlyReads S.image S.files S.through S.most S.faults result space.old space.new }
{
    match read_word(space, node.wrapping_add(shape.parent), steps)? {
        Some(parent) => offset_below(alloc, shape, node, parent.value, space, steps),
        None => Ok(0),
    }
}

// How many slots aren't null.
#[tactic(auto, unfolding(kc_found::specs::XaNodes::filled))]
fn filled(slots: &Items<VWord>) -> u64
    ensures { result ≡ filled slots.now }
{
    let slots = slots.as_slice().iter();
    slots.filter(|slot| slot.value != 0).count() as u64
}

// How many hold an odd entry.
#[tactic(auto, unfolding(kc_found::specs::XaNodes::odd))]
fn odd(slots: &Items<VWord>) -> u64
    ensures { result ≡ odd slots.now }
{
    let slots = slots.as_slice().iter();
    slots.filter(|slot| slot.value % 2 == 1).count() as u64
}

// What a node's bytes hold but for `shift`, by its own slots and those of its parent.
fn read_bytes<S: Space, L: Ledger>(
    alloc: Global,
    shape: &XaShape,
    node: u64,
    space: &mut S,
    steps: &mut Steps<L>,
) -> Result<NodeBytes, ReadFailed>
    ensures bytes { IfOk result (λ bytes. IfSome (S.image space.old) (λ image. bytes ≡ bytes_by image shape.now node (slots_in image shape.now node shape.now.chunk))) }
    ensures reads { OnlyReads S.image S.files S.through S.most S.faults result space.old space.new }
{
    let offset = read_offset(alloc, shape, node, space, steps)?;
    let slots = read_slots(alloc, shape, node, space, steps)?;
    Ok(NodeBytes {
        offset,
        count: filled(&slots),
        values: odd(&slots),
    })
}

// A word in which the byte at an address becomes a number.
fn with_byte(at: u64, number: u64, word: u64) -> u64
    ensures { result ≡ with_byte at number word }
{
    with_bits(8 * (at % 8) as u32, 8, number, word)
}

// The node's first word.
fn first_word(shape: &XaShape, node: u64, shift: u64, bytes: &NodeBytes) -> u64
    ensures { result ≡ first_word shape.now node shift bytes.now }
{
    let word = with_byte(node.wrapping_add(shape.nr_values), bytes.values, 0);
    let word = with_byte(node.wrapping_add(shape.count), bytes.count, word);
    let word = with_byte(node.wrapping_add(shape.offset), bytes.offset, word);
    with_byte(node.wrapping_add(shape.shift), shift, word)
}

// The word that has a node's bytes becomes what it is with a shift.
fn with_shift(shape: &XaShape, node: u64, bytes: &NodeBytes, shift: u64) -> Change
    ensures { result ≡ with_shift shape.now node bytes.now shift }
{
    let at = node.wrapping_add(shape.shift);
    to(at - at % 8, first_word(shape, node, shift, bytes))
}

// How many bits of an index a level takes.
fn level_bits(shape: &XaShape) -> u64
    ensures value { result ≡ chunk_shift shape.now.chunk }
    ensures small { result ≤ 6 }
    ensures some { 4 ≤ result }
{
    if shape.chunk == 64 { 6 } else { 4 }
}

// Adds it with the shift of each of so many levels.
fn push_shifts(
    changes: &mut Changes,
    shape: &XaShape,
    node: u64,
    bytes: &NodeBytes,
    levels: u64,
) -> Result<(), NoMemory>
    requires { levels ≤ 16 }
    ensures { OnOk result (changes.new ≡ changes.old ++ with_shifts shape.now node bytes.now levels) }
{
    for level in 0..levels {
        changes.push(with_shift(shape, node, bytes, level * level_bits(shape)))?;
    }
    Ok(())
}

// Adds it with the shift that is expected, or of the root with each.
fn push_whole(
    changes: &mut Changes,
    shape: &XaShape,
    node: u64,
    bytes: &NodeBytes,
    expected: Option<u64>,
) -> Result<(), NoMemory>
    ensures { OnOk result (changes.new ≡ changes.old ++ whole_by shape.now node bytes.now expected) }
{
    match expected {
        Some(shift) => changes.push(with_shift(shape, node, bytes, shift)),
        None => push_shifts(changes, shape, node, bytes, 60 / level_bits(shape) + 1),
    }
}

// Adds the first word of the node that has a wrong `shift`.
pub(crate) fn push_first_word<S: Space, L: Ledger>(
    alloc: Global,
    changes: &mut Changes,
    kind: &Kind,
    found: &Found,
    space: &mut S,
    steps: &mut Steps<L>,
) -> Result<(), ReadFailed>
    ensures added { OnOk result (IfSome (S.image space.old) (λ image. changes.new ≡ changes.old ++ whole_words image kind.now found.now)) }
    ensures reads { OnlyReads S.image S.files S.through S.most S.faults result space.old space.new }
{
    let shape = match kind {
        Kind::Xarray(shape) => shape,
        Kind::Pids(pids) => &pids.xa,
        _ => return Ok(()),
    };
    let node = node_of(found.at, shape.shift);
    let bytes = read_bytes(alloc, shape, node, space, steps)?;
    Ok(push_whole(changes, shape, node, &bytes, found.expected)?)
}
