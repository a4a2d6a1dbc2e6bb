// Core files and their notes.
use crate::bytes::bytes_of;
use anyhow::{Context, Result, bail};
use kc_cases::{Case, CaseFile};
use kc_elf::{Core, CoreStop, read_core};
use kc_fixture::{number, push_numbers, put_bytes};
use kc_notes::{Info, kernel_info, value, vmcoreinfo};
use kc_outside::{MemStore, Slot, Store};
use std::alloc::{AllocError, Global};
use std::str;

/// The segments and notes of a core file, of which a case gives the number of the call that fails, the size, and the bytes that are
/// changed; or its first fault.
pub fn core_answer(alloc: Global, case: &Case<'_>) -> Result<String> {
    let (fails, file) = case.given.split_once(' ').context("no file")?;
    let (size, places) = file.split_once(' ').unwrap_or((file, ""));
    let mut bytes = vec![in alloc; 0; number(size) as usize]?;
    put_bytes(&mut bytes, case.file.section("file")?);
    put_bytes(&mut bytes, places);
    match read(alloc, &bytes, u64::from(number(fails)))? {
        Ok(core) => Ok(core_text(alloc, &core)?),
        Err(CoreStop::Fault(fault)) => Ok(format!(in alloc; "{fault:?}")?),
        Err(stop) => Ok(format!(in alloc; "{stop:?}")?),
    }
}

// What is read of a file, where the call of the store with a number fails; 0 is none.
fn read(alloc: Global, bytes: &[u8], fails: u64) -> Result<Result<Core, CoreStop>> {
    let mut store = MemStore::new(alloc);
    store.add("core", bytes)?;
    store.fail(fails)?;
    let Ok(()) = store.open_file(Slot::Dump, "core") else {
        bail!("no file");
    };
    let Ok(_) = store.size(Slot::Dump) else {
        bail!("no size");
    };
    Ok(read_core(alloc, &mut store, Slot::Dump))
}

// The segments, and the bytes of each part of notes.
fn core_text(alloc: Global, core: &Core) -> Result<String, AllocError> {
    let mut text = String::new(alloc);
    for segment in core.segments() {
        write!(
            &mut text,
            "{:x}+{:x}+{:x}@{:x} ",
            segment.paddr, segment.filesz, segment.memsz, segment.offset
        )?;
    }
    text.push_str("notes")?;
    for part in 0..core.notes() {
        text.push(' ')?;
        push_bytes(&mut text, core.note(part))?;
    }
    Ok(text)
}

fn push_bytes(text: &mut String, bytes: &[u8]) -> Result<(), AllocError> {
    for byte in bytes {
        write!(text, "{byte:02x}")?;
    }
    Ok(())
}

/// The note that is found in a core file, or the value of a line.
pub fn note_answer(alloc: Global, case: &Case<'_>) -> Result<String> {
    let (question, of) = case.given.split_once(' ').context("no question")?;
    match question {
        "part" => {
            let core = core_of(alloc, case.file, &part_of(alloc, of)?)?;
            match vmcoreinfo(&core) {
                Ok(text) => Ok(format!(in alloc; "{:?}", str::from_utf8(text)?)?),
                Err(fault) => Ok(format!(in alloc; "{fault:?}")?),
            }
        }
        "value" => {
            let text = bytes_of(alloc, case.file.section("text")?.trim())?;
            match value(&text, of.as_bytes()) {
                Some(value) => Ok(format!(in alloc; "{:?}", str::from_utf8(value)?)?),
                None => Ok(String::from_str(alloc, "none")?),
            }
        }
        _ => bail!("an unknown question"),
    }
}

// The core file with one part of notes, behind the header that the file of cases has.
fn core_of(alloc: Global, file: &CaseFile, part: &[u8]) -> Result<Core> {
    let mut bytes = vec![in alloc; 0; 120]?;
    put_bytes(&mut bytes, file.section("head")?);
    put_bytes(&mut bytes, format!(in alloc; "96={}", part.len())?.as_str());
    bytes.extend_from_slice(part)?;
    Ok(read(alloc, &bytes, 0)??)
}

// Notes, each of three numbers and what stands behind them, with `~` for a NUL.
fn part_of(alloc: Global, notes: &str) -> Result<Vec<u8>, AllocError> {
    let mut part = Vec::new(alloc);
    for note in notes.split(" + ") {
        let (numbers, text) = note.rsplit_once(' ').unwrap_or(("", note));
        push_numbers(&mut part, numbers)?;
        part.extend_from_slice(text.replace(alloc, "~", "\0")?.as_bytes())?;
    }
    Ok(part)
}

/// What a note's text says, or its first fault. The first line of a case is what is told of the others.
pub fn note_values_answer(alloc: Global, case: &Case<'_>) -> Result<String> {
    let (_, text) = case.given.split_once('\n').context("no text")?;
    let told = info_text(alloc, &bytes_of(alloc, text)?)?;
    Ok(format!(in alloc; "{told}\n{text}")?)
}

fn info_text(alloc: Global, text: &[u8]) -> Result<String, AllocError> {
    match kernel_info(text) {
        Ok(
            Info {
                table,
                five,
                sme,
                kaslr,
                phys_base,
            },
        ) => format!(in alloc;
            "table {table:x} five {five} sme {sme:x} kaslr {kaslr:x} phys_base {phys_base:x}"
        ),
        Err(fault) => format!(in alloc; "{fault:?}"),
    }
}
