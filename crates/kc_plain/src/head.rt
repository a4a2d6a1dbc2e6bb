// What stands before the pages of a plain core file.
ghost use Rattle.std.specs.Prelude.{◌≡◌, ℕ, ◌+◌, ◌-◌, ◌*◌, ◌/◌, ◌^◌, ◌<◌, ◌≤◌, ◌++◌, List, length, vec_len, replicate, Option, IfSome, IfOk, OnOk};
ghost use Rattle.kc_kdump.specs.declared.run.PageRun.{PageRun};
ghost use Rattle.kc_kdump.specs.Runs.{end_of, page_count, reach};
ghost use Rattle.kc_plain.specs.Fields.{spelled};
ghost use Rattle.kc_plain.specs.Root.{IsPage, root_of};
ghost use Rattle.kc_plain.specs.Head.{file_fields, head_by, head_of, header_count, headers_of, is_extended, load_fields, load_headers, note_fields, notes_at, root_count, root_header, section_fields, section_header, start, table_end};

use crate::fields::{Field, push_fields};
use crate::pad::pad;
use crate::root::{Root, root_of};
use kc_kdump::{Kdump, PageRun};
use kc_word::NoMemory;
use std::alloc::Global;

// How many bytes a page has.
const PAGE_BYTES: u64 = 4096;

// Addresses from here on are none of x86-64.
const NO_ADDRESS: u64 = 1 << 63;

// How many program headers the top page table has.
fn root_count(root: Option<Root>) -> u64
    ensures value { result ≡ root_count root }
    ensures small { result ≤ 1 }
{
    match root {
        Some(_) => 1,
        None => 0,
    }
}

// How many program headers there are.
fn header_count(runs: &[PageRun], root: Option<Root>) -> u64
    requires { length runs.now ≤ 4194304 }
    ensures value { result ≡ header_count runs.now root }
    ensures small { result ≤ 4194306 }
{
    1 + runs.len() as u64 + root_count(root)
}

// Whether their number stands in a section header.
fn is_extended(count: u64) -> bool
    ensures { result ≡ is_extended count }
{
    count >= 0xffff
}

// Where the program headers end.
fn table_end(count: u64) -> u64
    requires { count ≤ 4194306 }
    ensures { result ≡ table_end count }
{
    64 + 56 * count
}

// Where the notes begin.
fn notes_at(count: u64) -> u64
    requires { count ≤ 4194306 }
    ensures value { result ≡ notes_at count }
    ensures small { result ≤ 2 ^ 28 }
{
    if is_extended(count) {
        table_end(count) + 64
    } else {
        table_end(count)
    }
}

// Where the pages begin.
fn start(count: u64, notes: u64) -> u64
    requires count { count ≤ 4194306 }
    requires notes { notes ≤ 16777216 }
    ensures value { result ≡ (notes_at count + notes + 4095) / 4096 * 4096 }
    ensures after { notes_at count + notes ≤ result }
    ensures small { result ≤ 2 ^ 29 }
{
    (notes_at(count) + notes + 4095) / PAGE_BYTES * PAGE_BYTES
}

// Puts the file header.
fn push_file_header(bytes: &mut Vec<u8>, count: u64) -> Result<(), NoMemory>
    requires { count ≤ 4194306 }
    ensures { OnOk result (bytes.new.items ≡ bytes.old.items ++ spelled (file_fields count)) }
{
    let extended = is_extended(count);
    let sections = if extended { table_end(count) } else { 0 };
    let headers = if extended { 0xffff } else { count as u16 };
    let size = if extended { 64 } else { 0 };
    let number = if extended { 1 } else { 0 };
    push_fields(
        bytes,
        &[
            Field::U32(0x464c_457f),
            Field::U32(0x01_0102),
            Field::U64(0),
            Field::U16(4),
            Field::U16(62),
            Field::U32(1),
            Field::U64(0),
            Field::U64(64),
            Field::U64(sections),
            Field::U32(0),
            Field::U16(64),
            Field::U16(56),
            Field::U16(headers),
            Field::U16(size),
            Field::U16(number),
            Field::U16(0),
        ],
    )
}

// Puts the program header of the notes.
fn push_note_header(bytes: &mut Vec<u8>, offset: u64, size: u64) -> Result<(), NoMemory>
    ensures { OnOk result (bytes.new.items ≡ bytes.old.items ++ spelled (note_fields offset size)) }
{
    push_fields(
        bytes,
        &[
            Field::U32(4),
            Field::U32(0),
            Field::U64(offset),
            Field::U64(0),
            Field::U64(0),
            Field::U64(size),
            Field::U64(size),
            Field::U64(4),
        ],
    )
}

// Puts the program header of a run whose pages begin at a file offset.
fn push_load_header(bytes: &mut Vec<u8>, offset: u64, run: PageRun) -> Result<(), NoMemory>
    requires { end_of run ≤ 2 ^ 47 }
    ensures { OnOk result (bytes.new.items ≡ bytes.old.items ++ spelled (load_fields offset run)) }
{
    let paddr = PAGE_BYTES * run.first;
    push_fields(
        bytes,
        &[
            Field::U32(1),
            Field::U32(7),
            Field::U64(offset),
            Field::U64(NO_ADDRESS + paddr),
            Field::U64(paddr),
            Field::U64(PAGE_BYTES * run.dumped),
            Field::U64(PAGE_BYTES * (run.dumped + run.left)),
            Field::U64(0),
        ],
    )
}

// Puts the program headers of runs, whose pages begin at a file offset.
fn push_load_headers(bytes: &mut Vec<u8>, first: u64, runs: &[PageRun]) -> Result<(), NoMemory>
    requires reach { reach runs.now ≤ 2 ^ 47 }
    requires fits { first + 4096 * page_count runs.now < 2 ^ 64 }
    ensures { OnOk result (bytes.new.items ≡ bytes.old.items ++ load_headers first runs.now) }
{
    let mut offset = first;
    for run in runs {
        push_load_header(bytes, offset, *run)?;
        offset += PAGE_BYTES * run.dumped;
    }
    Ok(())
}

// Puts the program header of the top page table, where it is known.
fn push_root_header(bytes: &mut Vec<u8>, first: u64, root: Option<Root>) -> Result<(), NoMemory>
    requires fits { IfSome root (λ r. first + 4096 * r.number < 2 ^ 64) }
    ensures { OnOk result (bytes.new.items ≡ bytes.old.items ++ root_header first root) }
{
    let Some(root) = root else {
        return Ok(());
    };
    push_fields(
        bytes,
        &[
            Field::U32(1),
            Field::U32(7),
            Field::U64(first + PAGE_BYTES * root.number),
            Field::U64(root.address),
            Field::U64(root.physical),
            Field::U64(PAGE_BYTES),
            Field::U64(PAGE_BYTES),
            Field::U64(0),
        ],
    )
}

// Puts the section header, where there is one.
fn push_section_header(bytes: &mut Vec<u8>, count: u64) -> Result<(), NoMemory>
    requires { count ≤ 4194306 }
    ensures { OnOk result (bytes.new.items ≡ bytes.old.items ++ section_header count) }
{
    if !is_extended(count) {
        return Ok(());
    }
    push_fields(
        bytes,
        &[
            Field::U32(0),
            Field::U32(0),
            Field::U64(0),
            Field::U64(0),
            Field::U64(0),
            Field::U64(0),
            Field::U32(0),
            Field::U32(count as u32),
            Field::U64(0),
            Field::U64(0),
        ],
    )
}

// The headers.
#[tactic(auto, unfolding(crate::specs::Head::headers_of))]
fn headers_of(
    alloc: Global,
    runs: &[PageRun],
    root: Option<Root>,
    notes: &[u8],
    first: u64,
) -> Result<Vec<u8>, NoMemory>
    requires few { length runs.now ≤ 4194304 }
    requires reach { reach runs.now ≤ 2 ^ 47 }
    requires pages { page_count runs.now ≤ 2 ^ 47 }
    requires page { IfSome root (λ r. IsPage (page_count runs.now) r) }
    requires near { first ≤ 2 ^ 29 }
    requires place { first ≡ start runs.now root notes.now }
    ensures { IfOk result (λ bytes. bytes.items ≡ headers_of runs.now root notes.now) }
{
    let count = header_count(runs, root);
    let mut bytes = Vec::new(alloc);
    push_file_header(&mut bytes, count)?;
    push_note_header(&mut bytes, notes_at(count), notes.len() as u64)?;
    push_load_headers(&mut bytes, first, runs)?;
    push_root_header(&mut bytes, first, root)?;
    push_section_header(&mut bytes, count)?;
    Ok(bytes)
}

// Does nothing. A caller learns from it how long the headers are.
fn know_headers(runs: &[PageRun], root: Option<Root>, notes: &[u8], bytes: &[u8])
    requires { bytes.now ≡ headers_of runs.now root notes.now }
    ensures { length bytes.now ≡ notes_at (header_count runs.now root) }
{}

// What stands before the pages, with the top page table if it is known.
#[tactic(auto, unfolding(crate::specs::Head::head_by))]
fn head_by(alloc: Global, dump: &Kdump, root: Option<Root>) -> Result<Vec<u8>, NoMemory>
    requires notes { vec_len dump.now.notes ≤ 16777216 }
    requires pages { dump.now.pages ≤ 2 ^ 47 }
    requires page { IfSome root (λ r. IsPage dump.now.pages r) }
    ensures value { IfOk result (λ head. head.items ≡ head_by dump.now.runs.items root dump.now.notes.items) }
    ensures small { IfOk result (λ head. vec_len head ≤ 2 ^ 29) }
    ensures end { IfOk result (λ head. vec_len head ≡ start dump.now.runs.items root dump.now.notes.items) }
{
    let count = header_count(&dump.runs, root);
    let notes = dump.notes.len() as u64;
    let first = start(count, notes);
    let mut bytes = headers_of(alloc, &dump.runs, root, &dump.notes, first)?;
    know_headers(&dump.runs, root, &dump.notes, &bytes);
    bytes.extend_from_slice(&dump.notes)?;
    pad(&mut bytes, first)?;
    Ok(bytes)
}

/// What stands before the pages of the plain core file that stands for a dump: headers and notes, up to a multiple of 4096 bytes.
///
/// # Errors
///
/// `NoMemory` where no memory is left: it takes 56 bytes a run, and as many as the notes have.
pub fn head_of(alloc: Global, dump: &Kdump) -> Result<Vec<u8>, NoMemory>
    requires notes { vec_len dump.now.notes ≤ 16777216 }
    requires pages { dump.now.pages ≤ 2 ^ 47 }
    ensures value { IfOk result (λ head. head.items ≡ head_of dump.now.runs.items dump.now.notes.items) }
    ensures small { IfOk result (λ head. vec_len head ≤ 2 ^ 29) }
    ensures end { IfOk result (λ head. vec_len head ≡ start dump.now.runs.items (root_of dump.now.runs.items dump.now.notes.items) dump.now.notes.items) }
{
    head_by(alloc, dump, root_of(&dump.runs, &dump.notes))
}
