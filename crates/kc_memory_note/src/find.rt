// The first page of memory that begins with the note.
ghost use Rattle.std.specs.Prelude.{◌≡◌, ◌+◌, ◌<◌, ◌≤◌, ◌^◌, IsSome, IfOk, IfSome, option_map};
ghost use Rattle.std.specs.List.{All};
ghost use Rattle.std.specs.Option.{ForSome};
ghost use Rattle.kc_outside.specs.declared.store.Slot.TheVariants.{Dump};
ghost use Rattle.kc_outside.specs.Files.{content};
ghost use Rattle.kc_elf.specs.Stays.{StoreStays};
ghost use Rattle.kc_found.specs.Failures.{CountsFailures};
ghost use Rattle.kc_memory_note.specs.Notes.{IsInside, memory_note, page_count, page_place, page_text, segment_note};

use crate::page::read_page_text;
use kc_found::ReadFailed;
use kc_outside::Store;
use kc_word::Segment;
use std::alloc::Global;

const PAGE_BYTES: u64 = 4096;

// How many bytes of a segment come before its first page.
fn skipped(segment: &Segment) -> u64
    ensures value { result ≡ page_place segment.now 0 }
    ensures few { result < 4096 }
{
    (PAGE_BYTES - segment.paddr % PAGE_BYTES) % PAGE_BYTES
}

// How many pages begin in the file bytes of a segment.
fn page_count(segment: &Segment) -> u64
    ensures { result ≡ page_count segment.now }
{
    let left = segment.filesz.saturating_sub(skipped(segment));
    if left == 0 {
        0
    } else {
        (left - 1) / PAGE_BYTES + 1
    }
}

// How many bytes of a segment come before the page with this number.
fn page_place(segment: &Segment, page: u64) -> u64
    requires small { segment.now.filesz < 2 ^ 64 }
    requires page { page < page_count segment.now }
    ensures value { result ≡ page_place segment.now page }
    ensures within { result < segment.now.filesz }
{
    skipped(segment) + PAGE_BYTES * page
}

// The text of the page with this number, if it begins with the note.
fn read_page<S: Store>(
    alloc: Global,
    store: &mut S,
    segment: &Segment,
    page: u64,
) -> Result<Option<Vec<u8>>, ReadFailed>
    requires page { page < page_count segment.now }
    requires learnt { IsSome (S.sizes store.old Dump) }
    requires within { ForSome (S.sizes store.old Dump) (λ size. IsInside size segment.now) }

    ensures text { IfOk result (λ text. IfSome (content (S.files store.old) Dump (S.opened store.old Dump)) (λ bytes.
        option_map (λ v. v.items) text ≡ page_text bytes segment.now page)) }
    ensures stays { StoreStays S.opened S.sizes S.files S.may S.asked store.old store.new }
    ensures cause { CountsFailures result (S.faults store.old) (S.faults store.new) }
{
    let place = page_place(segment, page);
    let off = segment.offset + place;
    read_page_text(alloc, store, off, segment.filesz - place)
}

// The text of the first page of a segment that begins with the note.
fn read_segment<S: Store>(
    alloc: Global,
    store: &mut S,
    segment: &Segment,
) -> Result<Option<Vec<u8>>, ReadFailed>
    requires learnt { IsSome (S.sizes store.old Dump) }
    requires within { ForSome (S.sizes store.old Dump) (λ size. IsInside size segment.now) }

    ensures text { IfOk result (λ text. IfSome (content (S.files store.old) Dump (S.opened store.old Dump)) (λ bytes.
        option_map (λ v. v.items) text ≡ segment_note bytes segment.now)) }
    ensures stays { StoreStays S.opened S.sizes S.files S.may S.asked store.old store.new }
    ensures cause { CountsFailures result (S.faults store.old) (S.faults store.new) }
{
    let pages = page_count(segment);
    for page in 0..pages {
        if let Some(text) = read_page(alloc, store, segment, page)? {
            return Ok(Some(text));
        }
    }
    Ok(None)
}

/// The text of the VMCOREINFO note in the memory of the dump in slot Dump: that of the first page which begins with it, one segment after the
/// other in the order of the table, each by rising address. Of each page 34 bytes are read. `None` where no page does.
///
/// # Errors
///
/// A failure of the store, whose count of failures then rose; or out of memory.
pub fn find_memory_note<S: Store>(
    alloc: Global,
    store: &mut S,
    segments: &[Segment],
) -> Result<Option<Vec<u8>>, ReadFailed>
    requires learnt { IsSome (S.sizes store.old Dump) }
    requires within { ForSome (S.sizes store.old Dump) (λ size. All (IsInside size) segments.now) }

    ensures text { IfOk result (λ text. IfSome (content (S.files store.old) Dump (S.opened store.old Dump)) (λ bytes.
        option_map (λ v. v.items) text ≡ memory_note bytes segments.now)) }
    ensures stays { StoreStays S.opened S.sizes S.files S.may S.asked store.old store.new }
    ensures cause { CountsFailures result (S.faults store.old) (S.faults store.new) }
{
    for segment in segments {
        if let Some(text) = read_segment(alloc, store, segment)? {
            return Ok(Some(text));
        }
    }
    Ok(None)
}
