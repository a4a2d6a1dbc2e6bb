// Physical memory of the made dump.
ghost use Rattle.std.specs.Prelude.{None, []};

use anyhow::{Context, Result};
use kc_fixture::{core_file, set_word};
use kc_memory::{FrameStop, Frames, Origin, PWord};
use kc_word::{Steps, get_u64, read_hex};
use std::alloc::Global;
use std::sync::ledger::Ledger;

/// The physical memory of the made dump. It counts the words that are read, and at one address reading fails.
#[derive(Drop)]
pub struct Dump {
    file: Vec<u8>,
    failing: u64,
    pub reads: u64,
    faults: u64,
}

impl Dump {
    /// The memory of which nothing was read.
    pub fn new(alloc: Global) -> Result<Dump> {
        Ok(Dump {
            file: core_file(alloc)?,
            failing: u64::MAX,
            reads: 0,
            faults: 0,
        })
    }

    /// Takes a line that says what the memory holds, or where reading fails.
    pub fn take(&mut self, line: &str) -> Result<()> {
        if let Some(address) = line.strip_prefix("fails ") {
            self.failing = hex(address)?;
        }
        if let Some(put) = line.strip_prefix("put ")
            && let Some((address, word)) = put.split_once(' ')
        {
            self.put(hex(address)?, hex(word)?);
        }
        Ok(())
    }

    /// Puts a word at a physical address, if the file has it.
    pub fn put(&mut self, address: u64, word: u64) {
        set_word(&mut self.file, address, word);
    }
}

impl Frames for Dump {
    ghost image = { λ d. None };

    ghost files = { λ d. None };

    ghost faults = { λ d. d.faults };

    ghost through = { λ d. [] };

    fn word<L: Ledger>(&mut self, pa: u64, steps: &mut Steps<L>) -> Result<PWord, FrameStop> {
        steps.tick();
        self.reads = self.reads.saturating_add(1);
        if pa == self.failing {
            self.faults = self.faults.saturating_add(1);
            return Err(FrameStop::Fault);
        }
        let off = pa.saturating_add(0x2000);
        match get_u64(&self.file, off as usize) {
            Some(value) => Ok(PWord {
                value,
                off: Origin::File(off),
            }),
            None => Err(FrameStop::Absent),
        }
    }
}

/// The number that a text is in hex.
pub fn hex(text: &str) -> Result<u64> {
    read_hex(text.as_bytes()).context("no number")
}
