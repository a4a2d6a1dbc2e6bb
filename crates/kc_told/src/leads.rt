// What a number leads to that may come to stand in a word.
ghost use Rattle.std.specs.Prelude.{◌≡◌, ◌++◌, option_map, OnOk};
ghost use Rattle.kc_memory.specs.Stays.{SpaceStays};
ghost use Rattle.kc_found.specs.Failures.{CountsFailures};
ghost use Rattle.kc_sight.specs.Looks.{LooksAs};
ghost use Rattle.kc_sight.specs.Meanings.{meaning};
ghost use Rattle.kc_sight.specs.Views.{image_symbols, symbol_view};
ghost use Rattle.kc_told.specs.Leads.{is_led, is_told, leads_line};
ghost use Rattle.kc_told.specs.Near.{lead_as};

use crate::near::{Lead, lead_at, nothing};
use crate::near_text::object_in;
use crate::text::push_meaning;
use crate::told::Words;
use kc_btf::Btf;
use kc_found::{ReadFailed, Space};
use kc_sight::{ImageMap, Meaning, Symbol, meaning_of};
use kc_text::push;
use kc_word::{NoMemory, Steps};
use std::alloc::Global;
use std::sync::ledger::Ledger;

/// What a number leads to that may come to stand in the word at a virtual address; nothing is asked of one that says something else than a number.
///
/// # Errors
///
/// A failure to read the dump; no memory was left.
pub fn read_lead<S: Space, L: Ledger>(
    alloc: Global,
    space: &mut S,
    types: &Btf,
    words: &Words,
    va: u64,
    value: u64,
    steps: &mut Steps<L>,
) -> Result<Lead, ReadFailed>
    ensures told { LooksAs (λ l. l) (λ image. lead_as image words.now.objects words.now.cpus (meaning va value) value) (S.image space.old) result }
    ensures stays { SpaceStays S.image S.files S.through S.most space.old space.new }
    ensures cause { CountsFailures result (S.faults space.old) (S.faults space.new) }
{
    match meaning_of(va, value) {
        Meaning::Number => lead_at(alloc, space, types, words, value, steps),
        _ => Ok(nothing()),
    }
}

// Whether a number is an address of the image, of an object, or of a page's descriptor.
fn is_led(symbol: Option<Symbol<'_>>, lead: &Lead) -> bool
    ensures { result ≡ is_led (option_map symbol_view symbol.entry) lead.now }
{
    match symbol {
        Some(_) => true,
        None => object_in(lead).is_some() || lead.described.is_some(),
    }
}

// Whether something is told of it.
fn is_told(image: &ImageMap<'_>, lead: &Lead, meaning: Meaning, value: u64) -> bool
    ensures { result ≡ is_told (image_symbols image.now) lead.now meaning value }
{
    match meaning {
        Meaning::Number => is_led(image.symbol(value), lead),
        _ => true,
    }
}

// The line of what it leads to, by what it says.
fn push_told_lead(
    text: &mut Vec<u8>,
    image: &ImageMap<'_>,
    lead: &Lead,
    meaning: Meaning,
    value: u64,
) -> Result<(), NoMemory>
    ensures { OnOk result (text.new.items ≡ text.old.items ++ leads_line (image_symbols image.now) lead.now meaning value) }
{
    if !is_told(image, lead, meaning, value) {
        return Ok(());
    }
    push(text, b"leads ")?;
    push_meaning(text, image, lead, meaning, value)?;
    push(text, b"\n")
}

/// Adds what a number leads to that may come to stand in the word at a virtual address, in the words of a line on a word beside an address, but of
/// one that may be anything.
///
/// # Errors
///
/// No memory was left.
pub fn push_leads(
    text: &mut Vec<u8>,
    image: &ImageMap<'_>,
    lead: &Lead,
    va: u64,
    value: u64,
) -> Result<(), NoMemory>
    ensures { OnOk result (text.new.items ≡ text.old.items ++ leads_line (image_symbols image.now) lead.now (meaning va value) value) }
{
    push_told_lead(text, image, lead, meaning_of(va, value), value)
}
