//! Tries streams of zstd frames, a line of a file each: the size in bytes that is wanted, the stream's bytes in hex, ` : `, and what
//! should come of it: the bytes in hex, or the name of the fault. It prints each line that differs, and then how many lines there are.
//! The file is the program's argument, or `streams.cases`.
#![tactic(auto)]

use anyhow::{Context, Result};
use kc_zstd::{ZstdTables, unzstd};
use std::alloc::Global;
use std::{env, fs};

// What comes of a stream, as a text.
fn answer_text(
    alloc: Global,
    tables: &mut ZstdTables,
    size: usize,
    stream: &[u8],
) -> Result<String> {
    let mut out = vec![in alloc; 0u8; size]?;
    match unzstd(tables, stream, &mut out) {
        Ok(()) => Ok(hex::encode(alloc, out.as_slice())?),
        Err(fault) => Ok(format!(in alloc; "{fault:?}")?),
    }
}

// Whether an answer is the one that is wanted. Of a fault the name is compared, and not which fault of the coding it has.
fn is_wanted(answer: &str, wanted: &str) -> bool {
    match answer.split_once('(') {
        Some((name, _)) => name == wanted,
        None => answer == wanted,
    }
}

// What came of a line's stream, where it isn't what is wanted.
fn difference(alloc: Global, tables: &mut ZstdTables, line: &str) -> Result<Option<String>> {
    let (given, wanted) = line.split_once(" : ").context("a line without an answer")?;
    let (size, stream) = given.split_once(' ').context("a line without a stream")?;
    let size = size
        .parse::<usize>()
        .ok()
        .context("a size that is no number")?;
    let stream = hex::decode(alloc, stream)?;
    let answer = answer_text(alloc, tables, size, &stream)?;
    if is_wanted(answer.as_str(), wanted) {
        Ok(None)
    } else {
        Ok(Some(answer))
    }
}

fn main(rt: HostRuntime) -> Result<()> {
    let mut words = env::args(&rt)?;
    let _program = words.next();
    let text = match words.next() {
        Some(path) => fs::read_to_string(&rt, path.as_str())?,
        None => fs::read_to_string(&rt, "streams.cases")?,
    };
    let mut tables = ZstdTables::new(rt.alloc())?;
    let mut count = 0u64;
    for line in text.as_str().lines() {
        count = count.saturating_add(1);
        if let Some(answer) = difference(rt.alloc(), &mut tables, line)? {
            println!(rt; "{line}\n  has: {answer}")?;
        }
    }
    println!(rt; "streams {count}")?;
    Ok(())
}
