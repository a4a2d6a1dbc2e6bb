// Numbers of a memory. A case gives an address, the first bit from there on, how many they are, and whether they have a sign.
use crate::walk::Walks;
use anyhow::{Context, Result};
use kc_cases::Case;
use kc_memory::{Scalar, Stop, read_bits};
use kc_word::{Bits, Steps, read_hex};
use std::alloc::{AllocError, Global};
use std::sync::ledger::Ledger;

/// Numbers that are read bit by bit.
pub struct Numbers;

impl Walks for Numbers {
    fn answer<L: Ledger>(
        &self,
        alloc: Global,
        case: &Case<'_>,
        steps: &mut Steps<L>,
    ) -> Result<String> {
        let Case { file, given } = case;
        let (at, bits) = given.split_once(' ').context("no bits")?;
        let at = read_hex(at.as_bytes()).context("no address")?;
        let mut space = file.memory(alloc, "", file.section("words")?)?;
        let found = read_bits(&mut space, at, bits_of(bits), steps);
        Ok(number_text(alloc, found)?)
    }
}

// The first bit, how many, and `signed` where they have a sign.
fn bits_of(words: &str) -> Bits {
    let (bit, rest) = words.split_once(' ').unwrap_or((words, ""));
    let (width, sign) = rest.split_once(' ').unwrap_or((rest, ""));
    Bits {
        bit: bit.parse().unwrap_or(0) % (1 << 36),
        width: width.parse().unwrap_or(0).clamp(1, 64),
        signed: sign == "signed",
    }
}

// A number in hex with its sign, and the address of its second word if it has two; or the address of the word that
// isn't there.
fn number_text(alloc: Global, found: Result<Scalar, Stop>) -> Result<String, AllocError> {
    match found {
        Ok(Scalar { value, second, .. }) => {
            let sign = if value < 0 { "-" } else { "" };
            let size = value.unsigned_abs();
            match second.and_then(|place| place.va) {
                Some(va) => format!(in alloc; "{sign}{size:x} and {va:x}"),
                None => format!(in alloc; "{sign}{size:x}"),
            }
        }
        Err(stop) => missing_text(alloc, stop),
    }
}

/// The address at which reading stopped.
pub fn missing_text(alloc: Global, stop: Stop) -> Result<String, AllocError> {
    match stop {
        Stop::Miss(miss) => format!(in alloc; "not {:x}", miss.va),
        Stop::Fault => String::from_str(alloc, "failed"),
    }
}
