// What is printed of where a word beside an address leads to.
ghost use Rattle.std.specs.Prelude.{◌≡◌, ◌++◌, option_map, OnOk};
ghost use Rattle.kc_told.specs.NearText.{described_text, descriptor_text, free_mark, in_object_text, kept_mark, lead_text, object_in, place_mark};
ghost use Rattle.kc_told.specs.Views.{in_object_view};

use crate::near::Lead;
use crate::told::Kept;
use kc_found::{Found, Name};
use kc_owner::{Described, FreeSpot, Spot};
use kc_text::{push, push_hex, push_name, push_numbered};
use kc_word::NoMemory;

// A byte of an object.
#[derive(Clone, Copy)]
pub(crate) struct InObject<'h> {
    // The name of the object's cache.
    pub(crate) name: &'h Name,
    // The byte, counted from the object's first one.
    pub(crate) byte: u64,
    // What is said of whether the object is free.
    pub(crate) mark: &'static [u8],
}

// What is said of an object by where the list of a processor that owns its slab has it.
fn kept_mark(kept: &Kept) -> &'static [u8]
    ensures { result.now ≡ kept_mark kept.now }
{
    match kept {
        Some(Ok(Some(_))) => b" free",
        Some(Ok(None)) => b"",
        Some(Err(_)) | None => b" frozen",
    }
}

// The same by where its slab's own free list has it, or else such a processor's.
fn place_mark(place: Option<u64>, frozen: bool, kept: &Kept) -> &'static [u8]
    ensures { result.now ≡ place_mark place frozen kept.now }
{
    match place {
        Some(_) => b" free",
        None if frozen => kept_mark(kept),
        None => b"",
    }
}

// The same, where that list may be broken before it comes to the object.
fn free_mark(free: &Result<FreeSpot, Found>, frozen: bool, kept: &Kept) -> &'static [u8]
    ensures { result.now ≡ free_mark free.now frozen kept.now }
{
    match free {
        Ok(free) => place_mark(free.place, frozen, kept),
        Err(_) => b" unknown",
    }
}

// The object that holds an address.
pub(crate) fn object_in(lead: &Lead) -> Option<InObject<'_>>
    ensures { option_map in_object_view result ≡ object_in lead.now.kept lead.now.held }
{
    let Some(Ok(held)) = &lead.held else {
        return None;
    };
    let Ok(Some(slab)) = &held.slab else {
        return None;
    };
    match &slab.spot {
        Spot::Object(object) => Some(InObject {
            name: &slab.cache.name,
            byte: object.byte,
            mark: free_mark(&slab.free, slab.counts.frozen, &lead.kept),
        }),
        _ => None,
    }
}

fn push_in_object(text: &mut Vec<u8>, object: &InObject<'_>) -> Result<(), NoMemory>
    ensures { OnOk result (text.new.items ≡ text.old.items ++ in_object_text (in_object_view object.now)) }
{
    push(text, b"object ")?;
    push_name(text, object.name.as_slice())?;
    push_numbered(text, b"+", object.byte)?;
    push(text, object.mark)
}

// The page whose descriptor it is.
fn push_descriptor(text: &mut Vec<u8>, page: Described) -> Result<(), NoMemory>
    ensures { OnOk result (text.new.items ≡ text.old.items ++ descriptor_text page) }
{
    push(text, b"descriptor ")?;
    push_hex(text, page.number)?;
    push_numbered(text, b"+", page.byte)
}

// The same, or that it is a number.
fn push_described(text: &mut Vec<u8>, page: Option<Described>) -> Result<(), NoMemory>
    ensures { OnOk result (text.new.items ≡ text.old.items ++ described_text page) }
{
    match page {
        Some(page) => push_descriptor(text, page),
        None => push(text, b"number"),
    }
}

// What is led to.
pub(crate) fn push_lead(text: &mut Vec<u8>, lead: &Lead) -> Result<(), NoMemory>
    ensures { OnOk result (text.new.items ≡ text.old.items ++ lead_text lead.now) }
{
    match object_in(lead) {
        Some(object) => push_in_object(text, &object),
        None => push_described(text, lead.described),
    }
}
