// WordsCase that are asked in turn. The first line of a case has how many translations are kept; the others say what memory holds, or give
// an address, the physical one and the word there, and how many words are read for that.
use crate::frames::{Dump, hex};
use crate::walk::Walks;
use anyhow::{Context, Result};
use kc_cases::Case;
use kc_mem::Memory;
use kc_memory::{Miss, Space, Stop, VWord};
use kc_word::{PageCfg, Steps};
use std::alloc::{AllocError, Global};
use std::sync::ledger::Ledger;

/// WordsCase of virtual memory.
pub struct WordsCase;

impl Walks for WordsCase {
    fn answer<L: Ledger>(
        &self,
        alloc: Global,
        case: &Case<'_>,
        steps: &mut Steps<L>,
    ) -> Result<String> {
        let (kept, rest) = case.given.split_once('\n').context("no lines")?;
        let mut memory = memory_of(alloc, kept)?;
        let mut text = String::from_str(alloc, kept)?;
        for line in rest.lines() {
            text.push('\n')?;
            if let Some((address, _)) = line.split_once(" : ") {
                let before = memory.frames.reads;
                let found = memory.word(hex(address)?, steps);
                let told = word_text(alloc, found)?;
                let reads = memory.frames.reads.saturating_sub(before);
                text.push_str(&format!(in alloc; "{address} : {told} {reads}")?)?;
            } else {
                memory.frames.take(line)?;
                text.push_str(line)?;
            }
        }
        Ok(text)
    }
}

fn memory_of(alloc: Global, kept: &str) -> Result<Memory<Dump>> {
    let paging = PageCfg {
        table: 0x1000,
        five: false,
        sme: 0,
    };
    let kept: usize = kept.parse().unwrap_or(0);
    Memory::new(alloc, Dump::new(alloc)?, paging, kept.max(1))
        .ok()
        .context("out of memory")
}

fn word_text(alloc: Global, found: Result<VWord, Stop>) -> Result<String, AllocError> {
    match found {
        Ok(word) => format!(in alloc; "{:x} {:x}", word.pa, word.value),
        Err(Stop::Miss(Miss { rule, .. })) => format!(in alloc; "{rule:?}"),
        Err(Stop::Fault) => String::from_str(alloc, "fails"),
    }
}
