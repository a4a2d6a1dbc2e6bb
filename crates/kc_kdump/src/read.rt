// Reading a dump's container from a store.
ghost use Rattle.std.specs.Prelude.{◌≡◌, ℕ, ◌*◌, ◌+◌, ◌≤◌, ◌<◌, ◌%◌, ◌^◌, List, [], length, IfSome, IfOk, Some, vec_len};
ghost use Rattle.kc_outside.specs.declared.store.Slot.TheVariants.{Dump};
ghost use Rattle.kc_outside.specs.Files.{content, HasPart};
ghost use Rattle.kc_kdump.specs.Answers.{Answers, IsFaultless, OnTooMany};
ghost use Rattle.kc_kdump.specs.Bytes.{part};
ghost use Rattle.kc_kdump.specs.Dump.{dump_in, dump_of, few};
ghost use Rattle.kc_kdump.specs.Erased.{joined, joined_size};
ghost use Rattle.kc_kdump.specs.Frames.{frames_of};
ghost use Rattle.kc_kdump.specs.Header.{layout_of, table_in};
ghost use Rattle.kc_kdump.specs.Runs.{empty_at, end_of, page_count, reach, runs_of};
ghost use Rattle.kc_kdump.specs.Stays.{CountsFaults, StoreStays};
ghost use Rattle.kc_kdump.specs.Walk.{runs_after};

use crate::erased::join;
use crate::fault::{KdumpFault, KdumpStop};
use crate::kdump::Kdump;
use crate::layout::{BLOCK_BYTES, HEADER_BYTES, Layout, SUB_HEADER_BYTES, layout_in};
use crate::there::{cut_runs, pages_there};
use crate::walk::Walk;
use kc_outside::{Slot, Store, know_size};
use std::alloc::Global;

// A file of fewer bytes has no room for the headers.
const LEAST_BYTES: u64 = BLOCK_BYTES + SUB_HEADER_BYTES as u64;

// Where the parts of the dump are.
#[tactic(auto, unfolding(crate::specs::Header::layout_of))]
fn read_layout<S: Store>(store: &mut S, size: u64) -> Result<Layout, KdumpStop>
    requires { S.sizes store.old Dump ≡ Some size }

    ensures told { Answers (λ layout. layout) (content (S.files store.old) Dump (S.opened store.old Dump)) result (layout_of size) }
    ensures inside { IfOk result (λ layout. table_in layout ≤ size) }
    ensures bits { IfOk result (λ layout. layout.frames ≤ 8 * layout.half) }
    ensures small { IfOk result (λ layout. layout.half ≤ 2 ^ 44) }
    ensures blocks { IfOk result (λ layout. layout.half % 4096 ≡ 0) }
    ensures notes { IfOk result (λ layout. layout.note_offset + layout.note_size ≤ size) }
    ensures erased { IfOk result (λ layout. layout.erase_offset + layout.erase_size ≤ size) }
    ensures few { IfOk result (λ layout. joined_size layout.note_size layout.erase_size ≤ 16777216) }

    ensures stays { StoreStays S.opened S.sizes S.files S.may S.asked store.old store.new }
    ensures counts { CountsFaults result (S.faults store.old) (S.faults store.new) }
{
    if size < LEAST_BYTES {
        return Err(KdumpStop::Fault(KdumpFault::K1));
    }
    let mut header = [0; HEADER_BYTES];
    store.read_at(Slot::Dump, 0, &mut header)?;
    let mut sub = [0; SUB_HEADER_BYTES];
    store.read_at(Slot::Dump, BLOCK_BYTES, &mut sub)?;
    Ok(layout_in(size, &header, &sub)?)
}

// Walks over all page frames, by both bitmaps.
fn walk_bitmaps<S: Store>(
    store: &mut S,
    walk: &mut Walk,
    layout: &Layout,
    size: u64,
) -> Result<(), KdumpStop>
    requires learnt { S.sizes store.old Dump ≡ Some size }
    requires inside { table_in layout.now ≤ size }
    requires bits { layout.now.frames ≤ 8 * layout.now.half }
    requires small { layout.now.half ≤ 2 ^ 44 }
    requires blocks { layout.now.half % 4096 ≡ 0 }
    requires begun { walk.old.run ≡ empty_at 0 }
    requires none { walk.old.runs.items ≡ [] }

    ensures told { IfOk result (λ _. IfSome (content (S.files store.old) Dump (S.opened store.old Dump)) (λ bytes. runs_after walk.new [] ≡ runs_of (frames_of layout.now bytes))) }
    ensures many { OnTooMany result (IfSome (content (S.files store.old) Dump (S.opened store.old Dump)) (λ bytes. 4194304 < length (runs_of (frames_of layout.now bytes)))) }
    ensures end { IfOk result (λ _. end_of walk.new.run ≡ layout.now.frames) }

    ensures stays { StoreStays S.opened S.sizes S.files S.may S.asked store.old store.new }
    ensures counts { CountsFaults result (S.faults store.old) (S.faults store.new) }
{
    let mut memory = [0; 4096];
    let mut dumped = [0; 4096];
    let mut at = 0;
    let mut left = layout.frames;
    while left > 0 {
        store.read_at(Slot::Dump, layout.bitmaps + at, &mut memory)?;
        store.read_at(Slot::Dump, layout.bitmaps + layout.half + at, &mut dumped)?;
        walk.take_bytes(&memory, &dumped, left)?;
        at += BLOCK_BYTES;
        left = left.saturating_sub(8 * BLOCK_BYTES);
    }
    Ok(())
}

// The runs of page frames.
fn read_runs<S: Store>(
    alloc: Global,
    store: &mut S,
    layout: &Layout,
    size: u64,
) -> Result<Walk, KdumpStop>
    requires learnt { S.sizes store.old Dump ≡ Some size }
    requires inside { table_in layout.now ≤ size }
    requires bits { layout.now.frames ≤ 8 * layout.now.half }
    requires small { layout.now.half ≤ 2 ^ 44 }
    requires blocks { layout.now.half % 4096 ≡ 0 }

    ensures told { Answers (λ walk. walk.runs.items) (content (S.files store.old) Dump (S.opened store.old Dump)) result (λ bytes. few (runs_of (frames_of layout.now bytes))) }
    ensures pages { IfOk result (λ walk. walk.pages ≡ page_count walk.runs.items) }
    ensures bound { IfOk result (λ walk. walk.pages ≤ layout.now.frames) }
    ensures reach { IfOk result (λ walk. reach walk.runs.items ≤ layout.now.frames) }

    ensures stays { StoreStays S.opened S.sizes S.files S.may S.asked store.old store.new }
    ensures counts { CountsFaults result (S.faults store.old) (S.faults store.new) }
{
    let mut walk = Walk::new(alloc);
    walk_bitmaps(store, &mut walk, layout, size)?;
    walk.finish()?;
    Ok(walk)
}

// So many bytes from an offset on.
fn read_part<S: Store>(
    alloc: Global,
    store: &mut S,
    offset: u64,
    count: u64,
    size: u64,
) -> Result<Vec<u8>, KdumpStop>
    requires learnt { S.sizes store.old Dump ≡ Some size }
    requires within { offset + count ≤ size }

    ensures told { IfOk result (λ bytes. IfSome (content (S.files store.old) Dump (S.opened store.old Dump)) (λ file. bytes.items ≡ part offset count file)) }
    ensures long { IfOk result (λ bytes. vec_len bytes ≡ count) }
    ensures faultless { IsFaultless result }

    ensures stays { StoreStays S.opened S.sizes S.files S.may S.asked store.old store.new }
    ensures counts { CountsFaults result (S.faults store.old) (S.faults store.new) }
{
    let mut bytes = vec![in alloc; 0; count as usize]?;
    store.read_at(Slot::Dump, offset, &mut bytes)?;
    Ok(bytes)
}

// The bytes of the notes, and after them the erase info as one.
fn read_notes<S: Store>(
    alloc: Global,
    store: &mut S,
    layout: &Layout,
    size: u64,
) -> Result<Vec<u8>, KdumpStop>
    requires learnt { S.sizes store.old Dump ≡ Some size }
    requires within { layout.now.note_offset + layout.now.note_size ≤ size }
    requires erased { layout.now.erase_offset + layout.now.erase_size ≤ size }
    requires few { joined_size layout.now.note_size layout.now.erase_size ≤ 16777216 }

    ensures told { IfOk result (λ notes. IfSome (content (S.files store.old) Dump (S.opened store.old Dump)) (λ bytes. notes.items ≡ joined (part layout.now.note_offset layout.now.note_size bytes) (part layout.now.erase_offset layout.now.erase_size bytes))) }
    ensures few { IfOk result (λ notes. vec_len notes ≤ 16777216) }
    ensures faultless { IsFaultless result }

    ensures stays { StoreStays S.opened S.sizes S.files S.may S.asked store.old store.new }
    ensures counts { CountsFaults result (S.faults store.old) (S.faults store.new) }
{
    let notes = read_part(alloc, store, layout.note_offset, layout.note_size, size)?;
    let erased = read_part(alloc, store, layout.erase_offset, layout.erase_size, size)?;
    Ok(join(alloc, notes, &erased)?)
}

/// Reads the container of the compressed dump in slot Dump, whose size was learnt, in bytes: its headers, its bitmaps by
/// blocks, and its notes, but no page. Of a dump that isn't whole the descriptors are read too, up to the first whose page isn't there.
///
/// # Errors
///
/// The file's first fault; `ReadFault` where a call of the store failed, which ends the reading; or want of memory.
#[tactic(auto, unfolding(crate::specs::Dump::dump_in))]
pub fn read_kdump<S: Store>(alloc: Global, store: &mut S, size: u64) -> Result<Kdump, KdumpStop>
    requires { S.sizes store.old Dump ≡ Some size }

    // Where files are told, the answer is what the file's bytes mean: what they hold, or the first fault.
    ensures told { Answers (λ dump. record { layout = dump.layout; runs = dump.runs.items; is_whole = dump.is_whole; notes = dump.notes.items }) (content (S.files store.old) Dump (S.opened store.old Dump)) result (dump_in size) }
    // Of every store, the descriptors of all pages are inside the file.
    ensures inside { IfOk result (λ dump. table_in dump.layout + 24 * dump.pages ≤ size) }
    ensures notes { IfOk result (λ dump. vec_len dump.notes ≤ 16777216) }
    ensures frames { IfOk result (λ dump. dump.layout.frames ≤ 2 ^ 47) }
    ensures pages { IfOk result (λ dump. dump.pages ≤ 2 ^ 47) }

    ensures stays { StoreStays S.opened S.sizes S.files S.may S.asked store.old store.new }
    ensures counts { CountsFaults result (S.faults store.old) (S.faults store.new) }
{
    let layout = read_layout(store, size)?;
    let walk = read_runs(alloc, store, &layout, size)?;
    let there = pages_there(store, &layout, size, walk.pages)?;
    let runs = cut_runs(alloc, walk.runs, walk.pages, there.pages)?;
    let notes = read_notes(alloc, store, &layout, size)?;
    Ok(Kdump {
        layout,
        runs,
        pages: there.pages,
        is_whole: there.is_whole,
        notes,
    })
}
