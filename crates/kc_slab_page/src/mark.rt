// The kernel's own mark of a slab's first page.
ghost use Rattle.std.specs.Prelude.{◌≡◌, ◌≤◌, ◌+◌, codes, length, option_and_then, option_map, Ok, IfSome};
ghost use Rattle.kc_btf.specs.Btf.{Types};
ghost use Rattle.kc_memory.specs.Stays.{SpaceStays};
ghost use Rattle.kc_found.specs.Walks.{CountsWalkFaults, OnBroken, WalksAs};
ghost use Rattle.kc_kinds.specs.Kernels.{kernel};
ghost use Rattle.kc_slab_page.specs.Marks.{bit_of, field_in, flag_mark, has_mark, mask_of, mark_of, marked, number_of, slab_mark, type_mark, word_of};

use kc_btf::Btf;
use kc_found::{Space, WalkStop};
use kc_kinds::Known;
use kc_layout::Field;
use kc_notes::value;
use kc_owner::{read_known, scalar_in, struct_named};
use kc_view::View;
use kc_word::{Steps, read_dec};
use std::alloc::Global;
use std::sync::ledger::Ledger;

/// How a kernel marks the first page of a slab in the page's descriptor.
#[derive(Clone, Copy, Debug, PartialEq, Eq)]
pub enum Mark {
    /// A bit of the field `flags` is set.
    Flag {
        /// The field.
        flags: Option<Field>,
        /// The bit, as a number that has no other.
        bit: u64,
    },
    /// The field `page_type` is a number.
    PageType {
        /// The field.
        page_type: Option<Field>,
        /// The number, of 32 bits.
        number: u64,
    },
}

// The number of a key of the dump's notes.
fn number_of(note: &[u8], key: &[u8]) -> Option<i64>
    ensures { result ≡ number_of note.now key.now }
{
    read_dec(value(note, key)?)
}

// A number that has one bit, where there is such a bit.
#[tactic(auto, unfolding(crate::specs::Marks::mask_of))]
fn mask_of(bit: Option<i64>) -> Option<u64>
    ensures { result ≡ option_and_then mask_of bit }
{
    let bit = bit?;
    if bit < 0 || bit > 63 {
        return None;
    }
    Some(1 << bit as u32)
}

// A number as one of 32 bits.
fn word_of(number: i64) -> u64
    ensures { result ≡ word_of number }
{
    number.rem_euclid(1 << 32) as u64
}

// The bit of `flags` that marks a slab's first page.
fn bit_of(note: &[u8]) -> Option<u64>
    ensures { result ≡ bit_of note.now }
{
    mask_of(number_of(note, b"NUMBER(PG_slab)"))
}

// The mark by a bit of `flags`.
fn flag_mark(types: &Btf, page: Option<u32>, note: &[u8]) -> Option<Mark>
    requires { IfSome page (λ id. id ≤ length types.now.records) }
    ensures { result ≡ flag_mark types.now page note.now }
{
    let bit = bit_of(note)?;
    Some(Mark::Flag {
        flags: scalar_in(types, page, b"flags"),
        bit,
    })
}

// The mark by `page_type`.
fn type_mark(types: &Btf, page: Option<u32>, note: &[u8]) -> Option<Mark>
    requires { IfSome page (λ id. id ≤ length types.now.records) }
    ensures { result ≡ type_mark types.now page note.now }
{
    let number = word_of(number_of(note, b"NUMBER(PAGE_SLAB_MAPCOUNT_VALUE)")?);
    Some(Mark::PageType {
        page_type: scalar_in(types, page, b"page_type"),
        number,
    })
}

// How a kernel marks a slab's first page, by its type of page descriptors and the text of the dump's VMCOREINFO.
fn mark_of(types: &Btf, page: Option<u32>, note: &[u8]) -> Option<Mark>
    requires { IfSome page (λ id. id ≤ length types.now.records) }
    ensures { result ≡ mark_of types.now page note.now }
{
    match flag_mark(types, page, note) {
        Some(mark) => Some(mark),
        None => type_mark(types, page, note),
    }
}

/// How a kernel marks a slab's first page, by its types and the text of its dump's VMCOREINFO, or `None` where these tell neither mark.
pub fn slab_mark(known: &Known<'_>, note: &[u8]) -> Option<Mark>
    ensures { result ≡ slab_mark (kernel known.now) note.now }
{
    mark_of(known.btf, struct_named(known, b"page"), note)
}

// A number has a mark, which is a bit of it or the number itself.
fn has_mark(mark: &Mark, number: u64) -> bool
    ensures { result ≡ has_mark mark.now number }
{
    match *mark {
        Mark::Flag { flags: _, bit } => number & bit != 0,
        Mark::PageType {
            page_type: _,
            number: wanted,
        } => number == wanted,
    }
}

// The field that has a mark.
fn field_in(mark: &Mark) -> &Option<Field>
    ensures { result.now ≡ field_in mark.now }
{
    match mark {
        Mark::Flag { flags, bit: _ } => flags,
        Mark::PageType {
            page_type,
            number: _,
        } => page_type,
    }
}

/// Whether a page's descriptor has the mark, or `None` where that can't be read.
///
/// # Errors
///
/// A failure to read the dump; no memory was left.
pub fn read_mark<S: Space, L: Ledger>(
    alloc: Global,
    space: &mut S,
    view: &View<'_>,
    mark: &Mark,
    steps: &mut Steps<L>,
) -> Result<Option<bool>, WalkStop>
    ensures exact { WalksAs (λ m. m) (λ i. Ok (marked i mark.now view.now.at)) (S.image space.old) result }
    ensures broken { OnBroken result ⊥ }
    ensures stays { SpaceStays S.image S.files S.through S.most space.old space.new }
    ensures cause { CountsWalkFaults result (S.faults space.old) (S.faults space.new) }
{
    match read_known(alloc, space, view, field_in(mark), steps)? {
        Some(number) => Ok(Some(has_mark(mark, number))),
        None => Ok(None),
    }
}
