// A case: the words of a program, its files, and how it is to end.
use crate::files::CaseFiles;
use crate::pids::put_pids;
use crate::spine::put_spine;
use crate::texts::Texts;
use kc_fixture::{push_line, set_bytes, set_word};
use kc_word::read_hex;
use std::alloc::{AllocError, Global};

/// The longest text that a sink takes, where a case doesn't limit it.
pub const ENOUGH: usize = 1 << 16;

/// How a program ends: its status, and what the two sinks take.
#[derive(Debug, Drop, PartialEq, Eq)]
pub struct Ended {
    /// The status.
    pub status: u8,
    /// Of standard output.
    pub out: Vec<u8>,
    /// Of standard error.
    pub err: Vec<u8>,
}

/// A case as its lines tell it.
#[derive(Drop)]
pub struct ProgramCase {
    /// The words after the program's name.
    pub words: Vec<String>,
    /// The files that the program finds.
    pub files: CaseFiles,
    /// The number of the call of the store that fails, from 1 on, or 0.
    pub fails: u64,
    /// How many bytes standard output takes.
    pub out_limit: usize,
    /// How many bytes standard error takes.
    pub err_limit: usize,
    /// How it is to end.
    pub wanted: Ended,
    /// The calls of the store that are to be made, if the case tells them.
    pub calls: Vec<String>,
}

/// The number of a text in hex.
pub fn hex(text: &str) -> u64 {
    read_hex(text.as_bytes()).unwrap_or(u64::MAX)
}

/// A number, or a length, that is meant to be small.
pub fn small(text: &str) -> usize {
    usize::try_from(hex(text)).unwrap_or(usize::MAX)
}

// Puts bytes that are given as pairs of hex digits.
fn put_pairs(file: &mut Vec<u8>, offset: usize, pairs: &str) {
    let mut at = offset;
    for pair in pairs.split(' ') {
        set_bytes(file, at, &[(hex(pair) & 0xff) as u8]);
        at = at.saturating_add(1);
    }
}

// Has each word of physical memory from one address to another name itself, by its address in the direct map.
fn put_selves(file: &mut Vec<u8>, from: u64, to: u64) {
    for place in from / 8..to / 8 {
        let pa = place.saturating_mul(8);
        set_word(file, pa, pa.saturating_add(0xffff_8880_0000_0000));
    }
}

// Adds the words that a line separates by spaces.
fn push_words(alloc: Global, words: &mut Vec<String>, line: &str) -> Result<(), AllocError> {
    for word in line.split(' ') {
        words.push(String::from_str(alloc, word)?)?;
    }
    Ok(())
}

impl ProgramCase {
    /// Reads the lines of a case, in which `planned` and `usage` name texts.
    pub fn read(alloc: Global, lines: &str, texts: &Texts) -> Result<ProgramCase, AllocError> {
        let mut case = ProgramCase {
            words: Vec::new(alloc),
            files: CaseFiles::read(alloc, lines, texts)?,
            fails: 0,
            out_limit: ENOUGH,
            err_limit: ENOUGH,
            wanted: Ended {
                status: 0,
                out: Vec::new(alloc),
                err: Vec::new(alloc),
            },
            calls: Vec::new(alloc),
        };
        for line in lines.lines() {
            let (name, value) = line.split_once(' ').unwrap_or((line, ""));
            case.take(alloc, name, value)?;
            if name == "usage" {
                case.wanted.err.extend_from_slice(texts.usage.as_bytes())?;
            }
        }
        Ok(case)
    }

    // Takes one line: the words, a limit, what is wanted, or a change of a file.
    fn take(&mut self, alloc: Global, name: &str, value: &str) -> Result<(), AllocError> {
        match name {
            "words" => push_words(alloc, &mut self.words, value)?,
            "word" => self.words.push(String::from_str(alloc, value)?)?,
            "fails" => self.fails = hex(value),
            "out_limit" => self.out_limit = small(value),
            "err_limit" => self.err_limit = small(value),
            "status" => self.wanted.status = u8::try_from(hex(value)).unwrap_or(u8::MAX),
            "out" => push_line(&mut self.wanted.out, value)?,
            "err" => push_line(&mut self.wanted.err, value)?,
            "call" => self.calls.push(String::from_str(alloc, value)?)?,
            _ => self.change(name, value),
        }
        Ok(())
    }

    // Takes one line that changes bytes of a file.
    fn change(&mut self, name: &str, value: &str) {
        let (at, rest) = value.split_once(' ').unwrap_or((value, ""));
        match name {
            "put" => set_word(&mut self.files.dump, hex(at), hex(rest)),
            "spine" => put_spine(&mut self.files.dump, hex(at).min(100_000)),
            "pids" => put_pids(&mut self.files.dump),
            "selves" => put_selves(&mut self.files.dump, hex(at), hex(rest)),
            "bytes" => put_pairs(&mut self.files.dump, small(at), rest),
            "types" => put_pairs(&mut self.files.types, small(at), rest),
            "length" => self.files.dump.truncate(small(at)),
            "types_length" => self.files.types.truncate(small(at)),
            "module_bytes" => put_pairs(&mut self.files.split, small(at), rest),
            "module_length" => self.files.split.truncate(small(at)),
            _ => {}
        }
    }
}
