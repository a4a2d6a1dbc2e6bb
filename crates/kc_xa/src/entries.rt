// The entries of an xarray.
ghost use Rattle.std.specs.Prelude.{◌≡◌, ◌+◌, ◌*◌, ◌^◌, ◌≤◌, ◌<◌};
ghost use Rattle.kc_found.specs.XaEntries.{fit, names};
ghost use Rattle.kc_found.specs.XaLayouts.{IsChunk};

use kc_found::{Items, Rule, VWord, XaEntry, XaShape};

// The least entry that is an error: an internal one with the number -4095.
const FIRST_ERROR: u64 = 0xffff_ffff_ffff_c006;

// The number of the zero entry.
const ZERO: u64 = 257;

// What an entry is, in a node of `chunk` slots.
#[tactic(auto, unfolding(kc_found::specs::XaEntries::kind))]
pub(crate) fn kind_of(chunk: u64, entry: u64) -> XaEntry
    ensures { result ≡ Rattle.kc_found.specs.XaEntries.kind chunk entry }
{
    if entry == 0 {
        return XaEntry::Nothing;
    }
    if entry % 4 == 0 {
        return XaEntry::Pointer;
    }
    if entry % 2 == 1 {
        return XaEntry::Odd;
    }
    if 4096 < entry && entry < FIRST_ERROR {
        return XaEntry::Node;
    }
    if entry / 4 == ZERO {
        return XaEntry::Zero;
    }
    if entry / 4 + 2 <= chunk {
        return XaEntry::Sibling(entry / 4);
    }
    XaEntry::Bad
}

/// Does nothing. A node has 16 or 64 slots.
pub fn know_chunk(shape: &XaShape)
    ensures is { IsChunk shape.now.chunk }
    ensures small { shape.now.chunk ≤ 64 }
    ensures some { 2 ≤ shape.now.chunk }
{
    let _chunk = shape.chunk;
}

/// What a word of an xarray holds.
pub fn entry_of(shape: &XaShape, word: &VWord) -> XaEntry
    ensures { result ≡ Rattle.kc_found.specs.XaEntries.kind shape.now.chunk word.now.value }
{
    kind_of(shape.chunk, word.value)
}

// Whether an entry may have siblings.
fn may_have_siblings(kind: XaEntry) -> bool
    ensures { result ≡ Rattle.kc_found.specs.XaEntries.may_have_siblings kind }
{
    match kind {
        XaEntry::Pointer | XaEntry::Odd | XaEntry::Zero => true,
        XaEntry::Nothing | XaEntry::Node | XaEntry::Sibling(_) | XaEntry::Bad => false,
    }
}

// Whether a sibling may name a slot.
fn may_name(chunk: u64, slots: &Items<VWord>, slot: u64) -> bool
    ensures { result ≡ names chunk slots.now slot }
{
    match slots.as_slice().get(slot as usize) {
        Some(word) => may_have_siblings(kind_of(chunk, word.value)),
        None => false,
    }
}

/// The index of a slot, where it is below 2^64, by the index of its node's slot 0 and the node's shift.
pub fn index_of(base: u64, slot: u64, shift: u64) -> Option<u64>
    requires small { shift ≤ 60 }
    requires slot { slot < 64 }
    ensures { result ≡ fit (base + slot * 2 ^ shift) }
{
    let index = u128::from(base) + u128::from(slot) * (1u128 << shift);
    if index < 1u128 << 64 {
        Some(index as u64)
    } else {
        None
    }
}

/// The first rule that an entry in a slot breaks: X7, X8 or X9.
pub fn slot_fault(
    chunk: u64,
    slots: &Items<VWord>,
    shift: u64,
    slot: u64,
    index: Option<u64>,
    kind: XaEntry,
) -> Option<Rule>
    ensures { result ≡ Rattle.kc_found.specs.XaEntries.slot_fault chunk slots.now shift slot index kind }
{
    if kind == XaEntry::Nothing {
        return None;
    }
    if index.is_none() || kind == XaEntry::Bad {
        return Some(Rule::X7);
    }
    match kind {
        XaEntry::Sibling(named) => {
            if named < slot && may_name(chunk, slots, named) {
                None
            } else {
                Some(Rule::X8)
            }
        }
        XaEntry::Node => { if shift == 0 { Some(Rule::X9) } else { None } }
        _ => None,
    }
}

/// The first rule that the head's entry breaks: X7.
pub fn head_fault(kind: XaEntry) -> Option<Rule>
    ensures { result ≡ Rattle.kc_found.specs.XaEntries.head_fault kind }
{
    match kind {
        XaEntry::Sibling(_) | XaEntry::Bad => Some(Rule::X7),
        _ => None,
    }
}
