// What is printed of the object that has an address.
ghost use Rattle.std.specs.Prelude.{◌≡◌, ◌++◌, map, OnOk};
ghost use Rattle.kc_text.specs.Compose.{texts};
ghost use Rattle.kc_text.specs.Text.{hex};
ghost use Rattle.kc_sight.specs.Views.{symbol_view};
ghost use Rattle.kc_told.specs.ObjectText.{cache_line, free_text, held_lines, holder_line, holder_text, kept_text, object_lines, object_text, page_line, place_text, slab_line, slab_lines, spot_line, unknown_text, users_text, whole_slab};

use crate::framed::push_framed;
use crate::told::Kept;
use kc_found::Found;
use kc_frame::FrameWords;
use kc_owner::{Cache, FreeSpot, Held, ObjectSpot, Page, Slab, Spot};
use kc_report::rule_code;
use kc_sight::Symbol;
use kc_text::{push, push_hex, push_name, push_numbered};
use kc_word::NoMemory;

// The least number of 64 bits that is negative.
pub(crate) const NEGATIVE: u64 = 1 << 63;

/// Adds why something can't be told: the rule, and the address that it is about.
///
/// # Errors
///
/// No memory was left.
pub fn push_unknown(text: &mut Vec<u8>, found: &Found) -> Result<(), NoMemory>
    ensures { OnOk result (text.new.items ≡ text.old.items ++ unknown_text found.now) }
{
    push(text, b" unknown ")?;
    push(text, rule_code(found.rule))?;
    push(text, b" ")?;
    push_hex(text, found.at)?;
    push(text, b"\n")
}

// A number of 16 digits, after what it is.
fn push_address(text: &mut Vec<u8>, label: &[u8], number: u64) -> Result<(), NoMemory>
    ensures { OnOk result (text.new.items ≡ text.old.items ++ (label.now ++ hex number)) }
{
    push(text, label)?;
    push_hex(text, number)
}

// The line of a page.
fn push_page(text: &mut Vec<u8>, page: &Page) -> Result<(), NoMemory>
    ensures { OnOk result (text.new.items ≡ text.old.items ++ page_line page.now) }
{
    push_address(text, b"descriptor ", page.descriptor)?;
    push_address(text, b" page ", page.number)?;
    push_address(text, b" head ", page.head)?;
    push(text, b"\n")
}

// How many users a cache has; one that is never merged has a negative number there.
fn push_users(text: &mut Vec<u8>, users: Option<u64>) -> Result<(), NoMemory>
    ensures { OnOk result (text.new.items ≡ text.old.items ++ users_text users) }
{
    match users {
        Some(users) if users < NEGATIVE => push_numbered(text, b" users ", users),
        _ => Ok(()),
    }
}

// The line of a cache, whose objects have this size.
fn push_cache(text: &mut Vec<u8>, cache: &Cache, size: u64) -> Result<(), NoMemory>
    ensures { OnOk result (text.new.items ≡ text.old.items ++ cache_line cache.now size) }
{
    push(text, b"cache ")?;
    push_hex(text, cache.at)?;
    push(text, b" ")?;
    push_name(text, cache.name.as_slice())?;
    push_numbered(text, b" size ", size)?;
    push_users(text, cache.users)?;
    push(text, b"\n")
}

// The line of a slab, with its descriptor.
fn push_slab(text: &mut Vec<u8>, head: u64, slab: &Slab) -> Result<(), NoMemory>
    ensures { OnOk result (text.new.items ≡ text.old.items ++ slab_line head slab.now) }
{
    push_address(text, b"slab ", head)?;
    push_address(text, b" first ", slab.first)?;
    push_numbered(text, b" objects ", slab.counts.objects)?;
    push_numbered(text, b" inuse ", slab.counts.inuse)?;
    push(text, b"\n")
}

// Where the list of a processor that owns the slab has the object.
fn push_kept(text: &mut Vec<u8>, kept: &Kept) -> Result<(), NoMemory>
    ensures { OnOk result (text.new.items ≡ text.old.items ++ kept_text kept.now) }
{
    match kept {
        Some(Ok(Some(spot))) => {
            push_numbered(text, b" free ", spot.place)?;
            push_numbered(text, b" of ", spot.length)?;
            push_numbered(text, b" processor ", spot.cpu)?;
            push(text, b"\n")
        }
        Some(Ok(None)) => push(text, b" used\n"),
        Some(Err(found)) => {
            push(text, b" frozen")?;
            push_unknown(text, found)
        }
        None => push(text, b" frozen\n"),
    }
}

// Where the slab's own free list has it, or else such a processor's.
fn push_place(
    text: &mut Vec<u8>,
    place: Option<u64>,
    length: u64,
    frozen: bool,
    kept: &Kept,
) -> Result<(), NoMemory>
    ensures { OnOk result (text.new.items ≡ text.old.items ++ place_text place length frozen kept.now) }
{
    match place {
        Some(place) => {
            push_numbered(text, b" free ", place)?;
            push_numbered(text, b" of ", length)?;
            push(text, b"\n")
        }
        None if frozen => push_kept(text, kept),
        None => push(text, b" used\n"),
    }
}

fn push_free(
    text: &mut Vec<u8>,
    free: &Result<FreeSpot, Found>,
    frozen: bool,
    kept: &Kept,
) -> Result<(), NoMemory>
    ensures { OnOk result (text.new.items ≡ text.old.items ++ free_text free.now frozen kept.now) }
{
    match free {
        Ok(free) => push_place(text, free.place, free.length, frozen, kept),
        Err(found) => push_unknown(text, found),
    }
}

// The start of the line of an object.
fn push_object(text: &mut Vec<u8>, object: &ObjectSpot) -> Result<(), NoMemory>
    ensures { OnOk result (text.new.items ≡ text.old.items ++ object_text object.now) }
{
    push(text, b"object ")?;
    push_hex(text, object.first)?;
    push_numbered(text, b" number ", object.number)?;
    push_numbered(text, b" byte ", object.byte)
}

// The line of where in its slab the address lies.
fn push_spot(
    text: &mut Vec<u8>,
    spot: &Spot,
    free: &Result<FreeSpot, Found>,
    frozen: bool,
    kept: &Kept,
) -> Result<(), NoMemory>
    ensures { OnOk result (text.new.items ≡ text.old.items ++ spot_line spot.now free.now frozen kept.now) }
{
    match spot {
        Spot::Object(object) => {
            push_object(text, object)?;
            push_free(text, free, frozen, kept)
        }
        Spot::Pad(number) => {
            push_numbered(text, b"pad number ", *number)?;
            push(text, b"\n")
        }
        Spot::Past => push(text, b"past\n"),
        Spot::Before => push(text, b"before\n"),
    }
}

// The names of symbols, a space before each.
fn push_holders(text: &mut Vec<u8>, holders: &[Symbol<'_>]) -> Result<(), NoMemory>
    ensures { OnOk result (text.new.items ≡ text.old.items ++ texts holder_text (map symbol_view holders.now)) }
{
    for symbol in holders {
        push(text, b" ")?;
        push_name(text, symbol.name)?;
    }
    Ok(())
}

// The line of the symbols whose words hold a cache's address.
fn push_holder_line(text: &mut Vec<u8>, holders: &[Symbol<'_>]) -> Result<(), NoMemory>
    ensures { OnOk result (text.new.items ≡ text.old.items ++ holder_line (map symbol_view holders.now)) }
{
    if holders.is_empty() {
        return Ok(());
    }
    push(text, b"held by")?;
    push_holders(text, holders)?;
    push(text, b"\n")
}

fn push_whole_slab(
    text: &mut Vec<u8>,
    head: u64,
    holders: &[Symbol<'_>],
    kept: &Kept,
    slab: &Slab,
) -> Result<(), NoMemory>
    ensures { OnOk result (text.new.items ≡ text.old.items ++ whole_slab head (map symbol_view holders.now) kept.now slab.now) }
{
    push_cache(text, &slab.cache, slab.objects.size)?;
    push_holder_line(text, holders)?;
    push_slab(text, head, slab)?;
    push_spot(text, &slab.spot, &slab.free, slab.counts.frozen, kept)
}

// The lines of a slab, where there is one.
fn push_slab_lines(
    text: &mut Vec<u8>,
    head: u64,
    holders: &[Symbol<'_>],
    kept: &Kept,
    slab: &Result<Option<Slab>, Found>,
) -> Result<(), NoMemory>
    ensures { OnOk result (text.new.items ≡ text.old.items ++ slab_lines head (map symbol_view holders.now) kept.now slab.now) }
{
    match slab {
        Ok(Some(slab)) => push_whole_slab(text, head, holders, kept, slab),
        Ok(None) => Ok(()),
        Err(found) => {
            push(text, b"slab")?;
            push_unknown(text, found)
        }
    }
}

// The lines of what holds an address.
fn push_held(
    text: &mut Vec<u8>,
    holders: &[Symbol<'_>],
    kept: &Kept,
    frame: &Option<FrameWords>,
    held: &Result<Held, Found>,
) -> Result<(), NoMemory>
    ensures { OnOk result (text.new.items ≡ text.old.items ++ held_lines (map symbol_view holders.now) kept.now frame.now held.now) }
{
    match held {
        Ok(held) => {
            push_page(text, &held.page)?;
            push_framed(text, frame)?;
            push_slab_lines(text, held.page.head, holders, kept, &held.slab)
        }
        Err(found) => {
            push(text, b"descriptor")?;
            push_unknown(text, found)
        }
    }
}

/// Adds the lines of what holds an address, where that is told, with what its page's descriptor says, the symbols whose words hold the cache's
/// address, and where a processor's own free list has the object.
pub fn push_objects(
    text: &mut Vec<u8>,
    holders: &[Symbol<'_>],
    kept: &Kept,
    frame: &Option<FrameWords>,
    held: &Option<Result<Held, Found>>,
) -> Result<(), NoMemory>
    ensures { OnOk result (text.new.items ≡ text.old.items ++ object_lines (map symbol_view holders.now) kept.now frame.now held.now) }
{
    match held {
        Some(held) => push_held(text, holders, kept, frame, held),
        None => Ok(()),
    }
}
