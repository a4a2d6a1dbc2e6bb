// Reading a core file from a store.
ghost use Rattle.std.specs.Prelude.{◌≡◌, ℕ, ◌*◌, ◌+◌, ◌<◌, ◌≤◌, ◌^◌, List, length, max, map, All, Some, IsSome, IfSome, IfOk, vec_len};
ghost use Rattle.std.specs.Option.{ForSome};
ghost use Rattle.std.specs.Bool.{OnTrue};
ghost use Rattle.kc_outside.specs.declared.store.Slot.{Slot};
ghost use Rattle.kc_outside.specs.Counts.{Rose};
ghost use Rattle.kc_outside.specs.Files.{content, OthersStay, HasPart};
ghost use Rattle.kc_word.specs.Answers.{GivesTold};
ghost use Rattle.kc_elf.specs.Answers.{Answers, IsFaultless, OnReadFault, UnlessReadFault, told};
ghost use Rattle.kc_elf.specs.Stays.{CountsFaults, StoreStays};
ghost use Rattle.kc_elf.specs.CoreFile.{table_by, table_of, headers_of, split_of, parts_of, core_of, core};
ghost use Rattle.kc_elf.specs.FileHeader.{header_count};

use crate::fault::{CoreFault, CoreStop};
use crate::file_header::{FILE_HEADER_BYTES, MOST_HEADERS, Table, header_fault, table_at};
use crate::parts::Core;
use crate::program_header::{
    HEADER_BYTES, Kind, ProgramHeader, are_within, first_bad, is_inside, of_kind, read_headers,
};
use byteorder::{ByteOrder, LittleEndian};
use kc_outside::{Slot, Store, know_learnt, know_size};
use kc_word::Segment;
use std::alloc::Global;

// At most so many bytes of notes are read.
const MOST_NOTE_BYTES: u64 = 16 * 1024 * 1024;

// How many program headers the file header names.
fn read_count<S: Store>(
    store: &mut S,
    slot: Slot,
    header: &[u8],
    size: u64,
) -> Result<u32, CoreStop>
    requires learnt { S.sizes store.old slot ≡ Some size }
    requires whole { 64 ≤ length header.now }

    ensures told { Answers (λ n. n) (content (S.files store.old) slot (S.opened store.old slot)) result (header_count header.now size) }

    ensures stays { StoreStays S.opened S.sizes S.files S.may S.asked store.old store.new }
    ensures counts { CountsFaults result (S.faults store.old) (S.faults store.new) }
{
    let count = LittleEndian::read_u16(&header[56..]);
    if count != u16::MAX {
        return Ok(u32::from(count));
    }
    let section = LittleEndian::read_u64(&header[40..]);
    if !is_inside(section, 64, size) {
        return Err(CoreStop::Fault(CoreFault::E7));
    }
    let mut bytes = [0; 4];
    store.read_at(slot, section + 44, &mut bytes)?;
    Ok(LittleEndian::read_u32(&bytes))
}

// Where the program headers stand by this file header, and how many there are.
#[tactic(auto, unfolding(crate::specs::CoreFile::table_by))]
fn place_table<S: Store>(
    store: &mut S,
    slot: Slot,
    most: u32,
    header: &[u8],
    size: u64,
) -> Result<Table, CoreStop>
    requires learnt { S.sizes store.old slot ≡ Some size }
    requires whole { 64 ≤ length header.now }

    ensures told { Answers (λ table. table) (content (S.files store.old) slot (S.opened store.old slot)) result (table_by most header.now size) }
    ensures inside { IfOk result (λ table. table.offset + 56 * table.count ≤ size) }

    ensures stays { StoreStays S.opened S.sizes S.files S.may S.asked store.old store.new }
    ensures counts { CountsFaults result (S.faults store.old) (S.faults store.new) }
{
    let count = read_count(store, slot, header, size)?;
    Ok(table_at(most, LittleEndian::read_u64(&header[32..]), count, size)?)
}

// Where the program headers stand, and how many there are.
#[tactic(auto, unfolding(crate::specs::CoreFile::table_of))]
fn find_table<S: Store>(store: &mut S, slot: Slot, most: u32, size: u64) -> Result<Table, CoreStop>
    requires { S.sizes store.old slot ≡ Some size }

    ensures told { Answers (λ table. table) (content (S.files store.old) slot (S.opened store.old slot)) result (table_of most size) }
    ensures inside { IfOk result (λ table. table.offset + 56 * table.count ≤ size) }

    ensures stays { StoreStays S.opened S.sizes S.files S.may S.asked store.old store.new }
    ensures counts { CountsFaults result (S.faults store.old) (S.faults store.new) }
{
    if size < FILE_HEADER_BYTES {
        return Err(CoreStop::Fault(CoreFault::E1));
    }
    let mut header = [0; 64];
    store.read_at(slot, 0, &mut header)?;
    if let Some(fault) = header_fault(&header) {
        return Err(CoreStop::Fault(fault));
    }
    place_table(store, slot, most, &header, size)
}

// So many bytes of the file, from an offset on.
fn read_part<S: Store>(
    alloc: Global,
    store: &mut S,
    slot: Slot,
    offset: u64,
    count: u64,
    size: u64,
) -> Result<Vec<u8>, CoreStop>
    requires learnt { S.sizes store.old slot ≡ Some size }
    requires within { offset + count ≤ size }

    ensures told { IfOk result (λ bytes. HasPart (content (S.files store.old) slot (S.opened store.old slot)) offset count bytes.items) }
    ensures long { IfOk result (λ bytes. vec_len bytes ≡ count) }
    ensures faultless { IsFaultless result }

    ensures stays { StoreStays S.opened S.sizes S.files S.may S.asked store.old store.new }
    ensures counts { CountsFaults result (S.faults store.old) (S.faults store.new) }
{
    let mut bytes = vec![in alloc; 0; count as usize]?;
    store.read_at(slot, offset, &mut bytes)?;
    Ok(bytes)
}

// The program headers of a table.
fn read_table<S: Store>(
    alloc: Global,
    store: &mut S,
    slot: Slot,
    table: Table,
    size: u64,
) -> Result<Vec<ProgramHeader>, CoreStop>
    requires learnt { S.sizes store.old slot ≡ Some size }
    requires within { table.offset + 56 * table.count ≤ size }

    ensures told { IfOk result (λ headers. IfSome (content (S.files store.old) slot (S.opened store.old slot)) (λ bytes. headers.items ≡ headers_of table bytes)) }
    ensures count { IfOk result (λ headers. vec_len headers ≡ table.count) }
    ensures faultless { IsFaultless result }

    ensures stays { StoreStays S.opened S.sizes S.files S.may S.asked store.old store.new }
    ensures counts { CountsFaults result (S.faults store.old) (S.faults store.new) }
{
    let count = HEADER_BYTES as u64 * u64::from(table.count);
    let bytes = read_part(alloc, store, slot, table.offset, count, size)?;
    Ok(read_headers(alloc, &bytes, table.count as usize)?)
}

// The segments of memory and those of notes, where no program header is out of bounds.
#[tactic(auto, using(crate::proofs::BoundLemmas::loads_inside, crate::proofs::BoundLemmas::loads_below, crate::proofs::BoundLemmas::notes_inside), unfolding(crate::specs::CoreFile::split_of))]
fn split(
    alloc: Global,
    headers: &[ProgramHeader],
    size: u64,
) -> Result<(Vec<Segment>, Vec<Segment>), CoreStop>
    requires { length headers.now < 2 ^ 32 }

    ensures exact { GivesTold told (λ both. (both.0.items, both.1.items)) result (split_of size headers.now) }
    ensures loads_inside { IfOk result (λ both. All (λ s. s.offset + s.filesz ≤ size) both.0.items) }
    ensures loads_below { IfOk result (λ both. All (λ s. s.paddr + max s.filesz s.memsz ≤ 2 ^ 64) both.0.items) }
    ensures notes_inside { IfOk result (λ both. All (λ s. s.offset + s.filesz ≤ size) both.1.items) }
    ensures few { IfOk result (λ both. vec_len both.1 < 2 ^ 32) }
    ensures unread { OnReadFault result ⊥ }
{
    if let Some(index) = first_bad(headers, size) {
        return Err(CoreStop::Fault(CoreFault::E9(index as u32)));
    }
    let notes = of_kind(alloc, headers, Kind::Note)?;
    if !are_within(&notes, MOST_NOTE_BYTES) {
        return Err(CoreStop::Fault(CoreFault::E10));
    }
    let loads = of_kind(alloc, headers, Kind::Load)?;
    Ok((loads, notes))
}

// The file's bytes of each segment.
fn read_parts<S: Store>(
    alloc: Global,
    store: &mut S,
    slot: Slot,
    segments: &[Segment],
    size: u64,
) -> Result<Vec<Vec<u8>>, CoreStop>
    requires learnt { S.sizes store.old slot ≡ Some size }
    requires within { All (λ s. s.offset + s.filesz ≤ size) segments.now }

    ensures told { IfOk result (λ parts. IfSome (content (S.files store.old) slot (S.opened store.old slot)) (λ bytes. map (λ v. v.items) parts.items ≡ parts_of segments.now bytes)) }
    ensures count { IfOk result (λ parts. vec_len parts ≡ length segments.now) }
    ensures faultless { IsFaultless result }

    ensures stays { StoreStays S.opened S.sizes S.files S.may S.asked store.old store.new }
    ensures counts { CountsFaults result (S.faults store.old) (S.faults store.new) }
{
    let mut parts = Vec::new(alloc);
    for segment in segments {
        let part = read_part(alloc, store, slot, segment.offset, segment.filesz, size)?;
        parts.push(part)?;
    }
    Ok(parts)
}

// Reads a core file of this size.
fn read_sized<S: Store>(
    alloc: Global,
    store: &mut S,
    slot: Slot,
    most: u32,
    size: u64,
) -> Result<Core, CoreStop>
    requires { S.sizes store.old slot ≡ Some size }

    ensures told { Answers (λ parts. parts) (content (S.files store.old) slot (S.opened store.old slot)) result (core_of most size) }
    ensures inside { IfOk result (λ parts. All (λ s. s.offset + s.filesz ≤ size) parts.segments) }
    ensures below { IfOk result (λ parts. All (λ s. s.paddr + max s.filesz s.memsz ≤ 2 ^ 64) parts.segments) }

    ensures stays { StoreStays S.opened S.sizes S.files S.may S.asked store.old store.new }
    ensures counts { CountsFaults result (S.faults store.old) (S.faults store.new) }
{
    let table = find_table(store, slot, most, size)?;
    let headers = read_table(alloc, store, slot, table, size)?;
    let (loads, notes) = split(alloc, &headers, size)?;
    let parts = read_parts(alloc, store, slot, &notes, size)?;
    Ok(Core::new(loads, parts))
}

/// Reads a core file of at most `most` program headers, whose size was learnt, in bytes: the program headers
/// and the notes, and of the memory only where it stands.
///
/// # Errors
///
/// The file's first fault; `ReadFault` where a call of the store failed, which ends the reading; or want
/// of memory.
pub fn read_core_of<S: Store>(
    alloc: Global,
    store: &mut S,
    slot: Slot,
    most: u32,
    size: u64,
) -> Result<Core, CoreStop>
    requires { S.sizes store.old slot ≡ Some size }

    // Where files are told, the answer is what the file's bytes mean: what they hold, or the first fault.
    ensures told { Answers (λ parts. parts) (content (S.files store.old) slot (S.opened store.old slot)) result (core most) }

    // Of every store. A segment's bytes are inside the file, and its memory ends at 2^64 at the latest.
    ensures inside { IfOk result (λ parts. All (λ s. s.offset + s.filesz ≤ size) parts.segments) }
    ensures below { IfOk result (λ parts. All (λ s. s.paddr + max s.filesz s.memsz ≤ 2 ^ 64) parts.segments) }

    // What stays of the store, and the failures of its calls.
    ensures sizes { S.sizes store.new ≡ S.sizes store.old }
    ensures opened { S.opened store.new ≡ S.opened store.old }
    ensures files { S.files store.new ≡ S.files store.old }
    ensures may { (s : Slot) (n : List ℕ) → S.may store.old s n → S.may store.new s n }
    ensures may_no_more { (s : Slot) (n : List ℕ) → S.may store.new s n → S.may store.old s n }
    ensures later { S.faults store.old ≤ S.faults store.new }
    ensures quiet { UnlessReadFault result (S.faults store.new ≡ S.faults store.old) }
    ensures cause { OnReadFault result (Rose (S.faults store.old) (S.faults store.new)) }
    ensures asked_later { S.asked store.old ≤ S.asked store.new }
{
    know_size(store, slot, size);
    read_sized(alloc, store, slot, most, size)
}

/// Asks the size of a core file again, and reads it as `read_core_of` does, with at most 65,536 program headers.
///
/// # Errors
///
/// The file's first fault; `ReadFault` where a call of the store failed, which ends the reading; or want
/// of memory.
pub fn read_core<S: Store>(alloc: Global, store: &mut S, slot: Slot) -> Result<Core, CoreStop>
    requires { IsSome (S.sizes store.old slot) }

    // Where files are told, the answer is what the file's bytes mean: what they hold, or the first fault.
    ensures told { Answers (λ parts. parts) (content (S.files store.old) slot (S.opened store.old slot)) result (core 65536) }

    // Of every store. A segment's bytes are inside the file, and its memory ends at 2^64 at the latest.
    ensures inside { IfOk result (λ parts. ForSome (S.sizes store.new slot) (λ size. All (λ s. s.offset + s.filesz ≤ size) parts.segments)) }
    ensures below { IfOk result (λ parts. All (λ s. s.paddr + max s.filesz s.memsz ≤ 2 ^ 64) parts.segments) }

    // What stays of the store, and the failures of its calls.
    ensures learnt { IsSome (S.sizes store.new slot) }
    ensures others_sizes { OthersStay slot (S.sizes store.old) (S.sizes store.new) }
    ensures opened { S.opened store.new ≡ S.opened store.old }
    ensures files { S.files store.new ≡ S.files store.old }
    ensures may { (s : Slot) (n : List ℕ) → S.may store.old s n → S.may store.new s n }
    ensures may_no_more { (s : Slot) (n : List ℕ) → S.may store.new s n → S.may store.old s n }
    ensures later { S.faults store.old ≤ S.faults store.new }
    ensures quiet { UnlessReadFault result (S.faults store.new ≡ S.faults store.old) }
    ensures cause { OnReadFault result (Rose (S.faults store.old) (S.faults store.new)) }
    ensures asked_later { S.asked store.old ≤ S.asked store.new }
{
    know_learnt(store, slot);
    let size = store.size(slot)?;
    read_core_of(alloc, store, slot, MOST_HEADERS, size)
}
