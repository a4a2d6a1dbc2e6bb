// The object that has an address, whether it is free, and how words that say the same lie in it.
ghost use Rattle.std.specs.Prelude.{◌≡◌, ◌++◌, option_map, OnOk};
ghost use Rattle.kc_told.specs.Inside.{after_text, before_text, cover, cover_in, cover_line, cover_lines, cover_object, cover_page, is_free, is_free_by, is_kept, is_whole, object_at, object_bytes, part_text};
ghost use Rattle.kc_told.specs.Views.{in_slab_view};

use crate::span::Bounds;
use crate::told::Kept;
use kc_found::Found;
use kc_owner::{FreeSpot, Held, ObjectSpot, Slab, Spot};
use kc_text::{push, push_decimal, push_numbered};
use kc_word::NoMemory;

// An object, and its slab.
#[derive(Clone, Copy)]
pub(crate) struct InSlab<'h> {
    // The slab.
    pub(crate) slab: &'h Slab,
    // The object, and a byte of it.
    pub(crate) object: &'h ObjectSpot,
}

// How words that say the same lie in an object.
#[derive(Clone, Copy)]
pub(crate) struct Cover {
    // How many of their bytes are before the object.
    pub(crate) before: u64,
    // The first byte of the object's that they have.
    pub(crate) first: u64,
    // The last one.
    pub(crate) last: u64,
    // How many of their bytes are after the object.
    pub(crate) after: u64,
    // How many bytes the object has.
    pub(crate) bytes: u64,
}

// The object that has an address.
pub(crate) fn object_at(held: &Option<Result<Held, Found>>) -> Option<InSlab<'_>>
    ensures { option_map in_slab_view result ≡ object_at held.now }
{
    let Some(Ok(held)) = held else {
        return None;
    };
    let Ok(Some(slab)) = &held.slab else {
        return None;
    };
    match &slab.spot {
        Spot::Object(object) => Some(InSlab { slab, object }),
        _ => None,
    }
}

// A processor's own free list has the object.
fn is_kept(kept: &Kept) -> bool
    ensures { result ≡ is_kept kept.now }
{
    matches!(kept, Some(Ok(Some(_))))
}

// So has its slab's, or such a processor's.
pub(crate) fn is_free(free: &Result<FreeSpot, Found>, kept: &Kept) -> bool
    ensures { result ≡ is_free free.now kept.now }
{
    match free {
        Ok(free) => free.place.is_some() || is_kept(kept),
        Err(_) => false,
    }
}

// How words lie in an object that begin so many bytes below one of its bytes and end so many above it.
fn cover_of(below: u64, above: u64, byte: u64, bytes: u64) -> Cover
    ensures { result ≡ cover below above byte bytes }
{
    let behind = bytes.saturating_sub(byte).saturating_sub(1);
    Cover {
        before: below.saturating_sub(byte),
        first: byte.saturating_sub(below),
        last: byte.saturating_add(above).min(bytes.saturating_sub(1)),
        after: above.saturating_sub(behind),
        bytes,
    }
}

// How they lie in the object that has an address between them.
fn cover_in(address: u64, bounds: Bounds, inside: &InSlab<'_>) -> Cover
    ensures { result ≡ cover_in address bounds (in_slab_view inside.now) }
{
    let objects = &inside.slab.objects;
    cover_of(
        address.saturating_sub(bounds.first),
        bounds.last.saturating_sub(address),
        inside.object.byte,
        objects.size.saturating_sub(objects.left_pad),
    )
}

// They have all of it.
fn is_whole(cover: Cover) -> bool
    ensures { result ≡ is_whole cover }
{
    cover.first == 0 && cover.last == cover.bytes.saturating_sub(1)
}

fn push_part(text: &mut Vec<u8>, cover: Cover) -> Result<(), NoMemory>
    ensures { OnOk result (text.new.items ≡ text.old.items ++ part_text cover) }
{
    if is_whole(cover) {
        return push(text, b"object");
    }
    push_numbered(text, b"byte ", cover.first)?;
    push_numbered(text, b" to ", cover.last)?;
    push_numbered(text, b" of ", cover.bytes)
}

fn push_before(text: &mut Vec<u8>, count: u64) -> Result<(), NoMemory>
    ensures { OnOk result (text.new.items ≡ text.old.items ++ before_text count) }
{
    if count == 0 {
        return Ok(());
    }
    push_decimal(text, count)?;
    push(text, b" before and ")
}

fn push_after(text: &mut Vec<u8>, count: u64) -> Result<(), NoMemory>
    ensures { OnOk result (text.new.items ≡ text.old.items ++ after_text count) }
{
    if count == 0 {
        return Ok(());
    }
    push_numbered(text, b" and ", count)?;
    push(text, b" after")
}

// The line of how they lie in an object.
fn push_cover(text: &mut Vec<u8>, cover: Cover) -> Result<(), NoMemory>
    ensures { OnOk result (text.new.items ≡ text.old.items ++ cover_line cover) }
{
    push(text, b"covers ")?;
    push_before(text, cover.before)?;
    push_part(text, cover)?;
    push_after(text, cover.after)?;
    push(text, b"\n")
}

// The same where the address lies in an object.
fn push_cover_object(
    text: &mut Vec<u8>,
    address: u64,
    bounds: Bounds,
    inside: Option<InSlab<'_>>,
) -> Result<(), NoMemory>
    ensures { OnOk result (text.new.items ≡ text.old.items ++ cover_object address bounds (option_map in_slab_view inside.entry)) }
{
    match inside {
        Some(inside) => push_cover(text, cover_in(address, bounds, &inside)),
        None => Ok(()),
    }
}

// The line of a whole page.
fn push_cover_page(text: &mut Vec<u8>, bounds: Bounds) -> Result<(), NoMemory>
    ensures { OnOk result (text.new.items ≡ text.old.items ++ cover_page bounds) }
{
    if bounds.last.saturating_sub(bounds.first) == 4095 {
        push(text, b"covers page\n")
    } else {
        Ok(())
    }
}

/// Adds the lines of how the words that say the same around an address lie in their page, and in the object that has the address.
pub(crate) fn push_covers(
    text: &mut Vec<u8>,
    address: u64,
    bounds: Option<Bounds>,
    held: &Option<Result<Held, Found>>,
) -> Result<(), NoMemory>
    ensures { OnOk result (text.new.items ≡ text.old.items ++ cover_lines address bounds (object_at held.now)) }
{
    let Some(bounds) = bounds else {
        return Ok(());
    };
    push_cover_page(text, bounds)?;
    push_cover_object(text, address, bounds, object_at(held))
}
