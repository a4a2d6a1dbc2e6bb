//! Tries kplain on the lines of the file `cases`: each has the words of a command line. It prints the words, what standard output took, or
//! how many bytes that were and their sum where they are no text, what standard error took, and the status.
//!
//! The dumps are made: `z.kdump` has a small kernel, `small.kdump` a few pages. Of the flattened ones `whole.flat` has a page, and
//! so have `snappy.flat`, `zstd.flat` and `one.flat`, of version 1; `cut.flat` and `unwritten.flat` lack theirs. Each other is refused by the code of its name, or its
//! page is; `old.flat` is of the older format.
#![tactic(auto)]

ghost use Rattle.std.specs.Prelude.{ℕ, List};
ghost use Rattle.kc_outside.specs.declared.store.Slot.{Slot};

use anyhow::Result;
use kc_any_dump::any_dump;
use kc_kplain::kplain;
use kc_outside::{FileStore, MemSink, Store};
use std::{fs, str};

// How many bytes a sink takes.
const LIMIT: usize = 1 << 20;

// The sum of bytes, each by its place.
fn sum_of(bytes: &[u8]) -> u64 {
    let mut sum = 0u64;
    for byte in bytes {
        sum = sum.wrapping_mul(31).wrapping_add(u64::from(*byte));
    }
    sum
}

// Prints what a sink took.
fn print_taken(rt: &HostRuntime, bytes: &[u8]) -> Result<()> {
    match str::from_utf8(bytes) {
        Ok(text) => print!(rt; "{text}")?,
        Err(_) => {
            let count = bytes.len();
            let sum = sum_of(bytes);
            println!(rt; "bytes {count} sum {sum}")?;
        }
    }
    Ok(())
}

// Runs kplain on words, and prints how it ended.
fn try_words<S: Store + Drop>(rt: &HostRuntime, words: &[String], store: S) -> Result<()>
    requires { (slot : Slot) (name : List ℕ) → S.may store slot name }
{
    let mut dump = any_dump(rt.alloc(), store)?;
    let mut out = MemSink::new(rt.alloc(), LIMIT)?;
    let mut err = MemSink::new(rt.alloc(), LIMIT)?;
    let status = kplain(rt.alloc(), words, &mut dump, &mut out, &mut err);
    print_taken(rt, out.bytes())?;
    print_taken(rt, err.bytes())?;
    println!(rt; "status {}", u8::from(status))?;
    Ok(())
}

// Runs it on a line's words.
fn try_line(rt: &HostRuntime, line: &str) -> Result<()> {
    let mut words = Vec::new(rt.alloc());
    for word in line.split_whitespace() {
        words.push(String::from_str(rt.alloc(), word)?)?;
    }
    println!(rt; "$ kplain {line}")?;
    try_words(rt, &words, FileStore::new(rt))
}

fn main(rt: HostRuntime) -> Result<()> {
    let text = fs::read_to_string(&rt, "cases")?;
    for line in text.as_str().lines() {
        try_line(&rt, line)?;
    }
    Ok(())
}
