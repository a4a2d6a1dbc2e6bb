// The files of a case, before words and bytes of them are changed.
ghost use Rattle.std.specs.Prelude.{◌≤◌};

use crate::case::{hex, small};
use crate::pids::TABLE;
use crate::texts::Texts;
use kc_fixture::{
    MAP, NOTE, Types, btf_file, btf_with_pids, core_with_note, lines_behind, push_line,
    push_numbers,
};
use kc_gen::make;
use kc_outside::MemStore;
use kc_word::NoMemory;
use std::alloc::{AllocError, Global};

/// The files that a program finds, by the names that cases use.
#[derive(Drop)]
pub struct CaseFiles {
    /// `z.core`.
    pub dump: Vec<u8>,
    /// `z.btf`.
    pub types: Vec<u8>,
    map: Vec<u8>,
    plan: Vec<u8>,
    /// `z.mod`.
    pub split: Vec<u8>,
    cert: Vec<u8>,
    missing: Vec<String>,
}

// The text of the kernel's note: `note` lines in its place, or `stated` lines before it and a `last` one after it, which ends
// without a newline.
fn note_text(alloc: Global, lines: &str) -> Result<Vec<u8>, AllocError> {
    let other = lines_behind(alloc, lines, "note ")?;
    let mut text = lines_behind(alloc, lines, "stated ")?;
    text.extend_from_slice(if other.is_empty() { NOTE } else { &other })?;
    let last = lines_behind(alloc, lines, "last ")?;
    text.extend_from_slice(last.strip_suffix(b"\n").unwrap_or(b""))?;
    Ok(text)
}

// The dump with its note, and zeros after it up to the length of a `grown` line.
fn dump_file(alloc: Global, lines: &str) -> Result<Vec<u8>, AllocError> {
    let mut dump = core_with_note(alloc, &note_text(alloc, lines)?)?;
    for line in lines.lines() {
        if let Some(length) = line.strip_prefix("grown ") {
            dump.resize(small(length), 0)?;
        }
    }
    Ok(dump)
}

// The file of types: the usual ones, those of `type` lines, the bytes of a `typefile` line, or so many zeros.
fn types_file(alloc: Global, lines: &str) -> Result<Vec<u8>, AllocError> {
    let mut types = Types::new(alloc)?;
    let mut count: usize = 0;
    for line in lines.lines() {
        match line.split_once(' ').unwrap_or((line, "")) {
            ("type", text) => {
                types.add(text)?;
                count = count.saturating_add(1);
            }
            ("typefile", pairs) => return bytes_of(alloc, pairs),
            ("pids", _) => return btf_with_pids(alloc),
            ("types_size", length) => return vec![in alloc; 0; small(length)],
            _ => {}
        }
    }
    if count == 0 {
        btf_file(alloc)
    } else {
        types.file(alloc)
    }
}

// The bytes that pairs of hex digits give.
fn bytes_of(alloc: Global, pairs: &str) -> Result<Vec<u8>, AllocError> {
    let mut bytes = Vec::new(alloc);
    for pair in pairs.split(' ') {
        bytes.push((hex(pair) & 0xff) as u8)?;
    }
    Ok(bytes)
}

// Adds names, each with a NUL after it.
fn push_names(file: &mut Vec<u8>, names: &str) -> Result<(), AllocError> {
    for name in names.split(' ') {
        file.extend_from_slice(name.as_bytes())?;
        file.push(0)?;
    }
    Ok(())
}

// The file of a module's types: the numbers of `module` lines and the names of `names` lines, as the lines come, or so many
// zeros.
fn split_file(alloc: Global, lines: &str) -> Result<Vec<u8>, AllocError> {
    let mut file = Vec::new(alloc);
    for line in lines.lines() {
        match line.split_once(' ').unwrap_or((line, "")) {
            ("module", numbers) => push_numbers(&mut file, numbers)?,
            ("names", names) => push_names(&mut file, names)?,
            ("module_size", length) => return vec![in alloc; 0; small(length)],
            _ => {}
        }
    }
    Ok(file)
}

// The map: the usual rows or those of `map` lines, and `row` lines after them; or so many zeros.
fn map_text(alloc: Global, lines: &str) -> Result<Vec<u8>, AllocError> {
    let mut text = lines_behind(alloc, lines, "map ")?;
    if text.is_empty() {
        text.extend_from_slice(MAP.as_bytes())?;
    }
    for line in lines.lines() {
        match line.split_once(' ').unwrap_or((line, "")) {
            ("row", row) => push_line(&mut text, row)?,
            ("pids", _) => push_line(&mut text, TABLE)?,
            ("map_size", length) => return vec![in alloc; 0; small(length)],
            _ => {}
        }
    }
    Ok(text)
}

// A number of items, in hex, as near as there may be so many.
fn count_of(text: &str) -> u32
    ensures some { 1 ≤ result }
    ensures few { result ≤ 100000 }
{
    hex(text).clamp(1, 100_000) as u32
}

// The plan: one by its name and `plan` lines after it, or so many zeros or spaces.
fn plan_text(alloc: Global, lines: &str, texts: &Texts) -> Result<Vec<u8>, AllocError> {
    let mut text = Vec::new(alloc);
    for line in lines.lines() {
        match line.split_once(' ').unwrap_or((line, "")) {
            ("planned", name) => text.extend_from_slice(texts.plan(name).as_bytes())?,
            ("plan", value) => push_line(&mut text, value)?,
            ("plan_size", length) => return vec![in alloc; 0; small(length)],
            ("plan_spaces", length) => return vec![in alloc; b' '; small(length)],
            _ => {}
        }
    }
    Ok(text)
}

// The certificate: its `cert` lines and the text of a `cert_end` line, after which no newline stands, or so many zeros.
fn cert_text(alloc: Global, lines: &str) -> Result<Vec<u8>, AllocError> {
    let mut text = Vec::new(alloc);
    for line in lines.lines() {
        match line.split_once(' ').unwrap_or((line, "")) {
            ("cert", value) => push_line(&mut text, value)?,
            ("cert_end", value) => text.extend_from_slice(value.as_bytes())?,
            ("cert_size", length) => return vec![in alloc; 0; small(length)],
            _ => {}
        }
    }
    Ok(text)
}

impl CaseFiles {
    /// The files that the lines of a case tell: those of so many made items, with a certificate, or else the usual ones with what is
    /// changed of them.
    /// `without` a name, that file isn't there.
    pub fn read(alloc: Global, lines: &str, texts: &Texts) -> Result<CaseFiles, AllocError> {
        for line in lines.lines() {
            if let Some(count) = line.strip_prefix("made ") {
                return CaseFiles::made(alloc, count_of(count), lines);
            }
        }
        let mut missing = Vec::new(alloc);
        for line in lines.lines() {
            if let Some(name) = line.strip_prefix("without ") {
                missing.push(String::from_str(alloc, name)?)?;
            }
        }
        Ok(CaseFiles {
            dump: dump_file(alloc, lines)?,
            types: types_file(alloc, lines)?,
            map: map_text(alloc, lines)?,
            plan: plan_text(alloc, lines, texts)?,
            split: split_file(alloc, lines)?,
            cert: cert_text(alloc, lines)?,
            missing,
        })
    }

    // The files of so many made items, and the certificate of the lines.
    fn made(alloc: Global, count: u32, lines: &str) -> Result<CaseFiles, AllocError>
        requires some { 1 ≤ count }
        requires few { count ≤ 100000 }
    {
        let Ok(files) = make(alloc, count, None) else {
            return Err(AllocError);
        };
        Ok(CaseFiles {
            dump: Vec::from_slice(alloc, files.dump.as_slice())?,
            types: Vec::from_slice(alloc, files.btf.as_slice())?,
            map: Vec::from_slice(alloc, files.map.as_slice())?,
            plan: Vec::from_slice(alloc, files.plan.as_slice())?,
            split: Vec::new(alloc),
            cert: cert_text(alloc, lines)?,
            missing: Vec::new(alloc),
        })
    }

    fn is_missing(&self, name: &str) -> bool {
        self.missing.iter().any(|word| word.as_str() == name)
    }

    /// A store of these files, of which the call with a number fails, if it isn't 0.
    pub fn store(&self, alloc: Global, fails: u64) -> Result<MemStore, NoMemory> {
        let mut store = MemStore::new(alloc);
        for (name, bytes) in [
            ("z.core", &self.dump),
            ("z.btf", &self.types),
            ("z.map", &self.map),
            ("z.plan", &self.plan),
            ("z.mod", &self.split),
            ("z.cert", &self.cert),
        ] {
            if !self.is_missing(name) {
                store.add(name, bytes)?;
            }
        }
        store.fail(fails)?;
        Ok(store)
    }
}
