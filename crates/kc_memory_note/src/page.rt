// A page of memory that may begin with the note.
ghost use Rattle.std.specs.Prelude.{◌≡◌, ◌+◌, ◌≤◌, ◌==◌, IsSome, IfOk, IfSome, option_map};
ghost use Rattle.std.specs.List.{before_first};
ghost use Rattle.std.specs.Option.{ForSome};
ghost use Rattle.kc_outside.specs.declared.store.Slot.TheVariants.{Dump};
ghost use Rattle.kc_outside.specs.Files.{content};
ghost use Rattle.kc_elf.specs.Headers.{part};
ghost use Rattle.kc_elf.specs.Stays.{StoreStays};
ghost use Rattle.kc_found.specs.Failures.{CountsFailures};
ghost use Rattle.kc_memory_note.specs.Notes.{size_in, text_at};

use crate::head::{HEAD_BYTES, size_in, text_length};
use kc_found::ReadFailed;
use kc_outside::{Slot, Store};
use std::alloc::Global;

// Where the text stands, in bytes after the note's start.
const TEXT_AT: u64 = 24;

// How many bytes the text has at most.
const MOST_BYTES: u32 = 1 << 16;

// How many bytes the text has of the note that begins at a file offset, if one does.
fn read_size<S: Store>(store: &mut S, off: u64) -> Result<Option<u32>, ReadFailed>
    requires learnt { IsSome (S.sizes store.old Dump) }
    requires within { ForSome (S.sizes store.old Dump) (λ size. off + 34 ≤ size) }

    ensures size { IfOk result (λ size. IfSome (content (S.files store.old) Dump (S.opened store.old Dump)) (λ bytes. size ≡ size_in (part off 34 bytes))) }
    ensures stays { StoreStays S.opened S.sizes S.files S.may S.asked store.old store.new }
    ensures cause { CountsFailures result (S.faults store.old) (S.faults store.new) }
{
    let mut head = [0; HEAD_BYTES];
    store.read_at(Slot::Dump, off, &mut head)?;
    Ok(size_in(&head))
}

// The text of so many bytes at most, from a file offset on.
fn read_text<S: Store>(
    alloc: Global,
    store: &mut S,
    off: u64,
    count: u32,
) -> Result<Vec<u8>, ReadFailed>
    requires learnt { IsSome (S.sizes store.old Dump) }
    requires within { ForSome (S.sizes store.old Dump) (λ size. off + count ≤ size) }

    ensures text { IfOk result (λ text. IfSome (content (S.files store.old) Dump (S.opened store.old Dump)) (λ bytes.
        text.items ≡ before_first (λ c. c == 0) (part off count bytes))) }
    ensures stays { StoreStays S.opened S.sizes S.files S.may S.asked store.old store.new }
    ensures cause { CountsFailures result (S.faults store.old) (S.faults store.new) }
{
    let mut bytes = vec![in alloc; 0; count as usize]?;
    store.read_at(Slot::Dump, off, &mut bytes)?;
    let end = text_length(&bytes);
    bytes.truncate(end);
    Ok(bytes)
}

/// The text of the note that begins at a file offset, if one does that lies whole in `room` bytes.
pub fn read_page_text<S: Store>(
    alloc: Global,
    store: &mut S,
    off: u64,
    room: u64,
) -> Result<Option<Vec<u8>>, ReadFailed>
    requires learnt { IsSome (S.sizes store.old Dump) }
    requires within { ForSome (S.sizes store.old Dump) (λ size. off + room ≤ size) }

    ensures text { IfOk result (λ text. IfSome (content (S.files store.old) Dump (S.opened store.old Dump)) (λ bytes.
        option_map (λ v. v.items) text ≡ text_at bytes off room)) }
    ensures stays { StoreStays S.opened S.sizes S.files S.may S.asked store.old store.new }
    ensures cause { CountsFailures result (S.faults store.old) (S.faults store.new) }
{
    if room < HEAD_BYTES as u64 {
        return Ok(None);
    }
    let Some(count) = read_size(store, off)? else {
        return Ok(None);
    };
    if count > MOST_BYTES || room < TEXT_AT + u64::from(count) {
        return Ok(None);
    }
    Ok(Some(read_text(alloc, store, off + TEXT_AT, count)?))
}
