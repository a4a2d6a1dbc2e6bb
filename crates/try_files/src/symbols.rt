// Maps of symbols. A case gives an address that is asked, or a map.
use crate::bytes::bytes_of;
use anyhow::{Context, Result, bail};
use kc_cases::Case;
use kc_syms::{SymFault, SymStop, Symbols};
use kc_word::read_hex;
use std::alloc::{AllocError, Global};

/// The address of a symbol, or whether a text is a map.
pub fn map_answer(alloc: Global, case: &Case<'_>) -> Result<String> {
    let (question, of) = case.given.split_once(' ').context("no question")?;
    match question {
        "address" => {
            let (kaslr, name) = of.split_once(' ').context("no name")?;
            let kaslr = read_hex(kaslr.as_bytes()).context("no number")?;
            let map = bytes_of(alloc, case.file.section("map")?.trim())?;
            address_text(alloc, &map, name.as_bytes(), kaslr)
        }
        "map" => map_text(alloc, &bytes_of(alloc, of)?),
        _ => bail!("an unknown question"),
    }
}

fn address_text(alloc: Global, map: &[u8], name: &[u8], kaslr: u64) -> Result<String> {
    let symbols = Symbols::read(alloc, map)?;
    match symbols.address(name, kaslr) {
        Ok(address) => Ok(format!(in alloc; "{address:x}")?),
        Err(SymFault::S2) => Ok(String::from_str(alloc, "S2")?),
        Err(SymFault::S3(first, other)) => Ok(format!(in alloc; "S3 {first:x} {other:x}")?),
    }
}

fn map_text(alloc: Global, map: &[u8]) -> Result<String> {
    match Symbols::read(alloc, map) {
        Ok(_) => Ok(String::from_str(alloc, "read")?),
        Err(SymStop::S1(line)) => Ok(format!(in alloc; "S1 {line}")?),
        Err(SymStop::NoMemory) => Err(AllocError.into()),
    }
}
