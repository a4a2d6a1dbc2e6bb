// Plans over the types, the symbols and the notes of the made dump, to which the map adds two rows of `twin`. The first line of a case
// is what is told: the rule, the audit and the key of the first fault, or the audits with their numbers; then, after a bar, a word that
// stands in the types for another one; and after a second one rows of the map, with a `;` between two, and `five` for five levels of
// page tables. The other lines are the plan.
use crate::bytes::bytes_of;
use crate::plan_text::plan_text;
use anyhow::{Context, Result};
use kc_btf::Btf;
use kc_cases::Case;
use kc_fixture::{MAP, btf_file, set_bytes};
use kc_notes::Info;
use kc_plan::{PlanFault, PlanStop, read_plan};
use kc_syms::Symbols;
use std::alloc::{AllocError, Global};

/// What a plan is over the types and symbols of the made dump, or its first fault.
pub fn plan_answer(alloc: Global, case: &Case<'_>) -> Result<String> {
    let (first, plan) = case.given.split_once('\n').context("no plan")?;
    let (wanted, changes) = first.split_once('|').unwrap_or((first, ""));
    let told = told(alloc, &bytes_of(alloc, plan)?, changes)?;
    let rest = case.given.strip_prefix(wanted).unwrap_or("");
    Ok(format!(in alloc; "{told}{rest}")?)
}

// Two rows of the map more, so that a symbol has two addresses.
const TWIN: &str = "ffffffff8000b200 D twin\nffffffff8000b208 D twin\n";

// What a plan is, as a text, with these changes.
fn told(alloc: Global, plan: &[u8], changes: &str) -> Result<String> {
    let (words, rows) = changes.split_once('|').unwrap_or((changes, ""));
    let btf = Btf::read(alloc, types_with(alloc, words)?)?;
    let map = map_with(alloc, rows)?;
    let symbols = Symbols::read(alloc, &map)?;
    let five = rows.contains("five");
    match read_plan(alloc, plan, &btf, &symbols, &info(five)) {
        Ok(plan) => Ok(plan_text(alloc, &plan)?),
        Err(PlanStop::Fault(fault)) => Ok(fault_text(alloc, &fault)?),
        Err(PlanStop::NoMemory) => Ok(String::from_str(alloc, "no memory")?),
    }
}

// What the notes say.
fn info(five: bool) -> Info {
    Info {
        table: 0x1000,
        five,
        sme: 0,
        kaslr: 0x1000,
        phys_base: 0,
    }
}

// The types, where each place of a word is another word's of the same length: `OTHER for WORD`.
fn types_with(alloc: Global, words: &str) -> Result<Vec<u8>, AllocError> {
    let (other, word) = words.split_once(" for ").unwrap_or(("", ""));
    let (other, word) = (bytes_of(alloc, other)?, bytes_of(alloc, word)?);
    let usual = btf_file(alloc)?;
    let mut types = usual.to_vec(alloc)?;
    for (at, _) in usual.iter().enumerate() {
        if usual[at..].starts_with(&word) {
            set_bytes(&mut types, at, &other);
        }
    }
    Ok(types)
}

/// The rule of a fault, its audit and its key.
pub fn fault_text(alloc: Global, fault: &PlanFault) -> Result<String, AllocError> {
    let mut text = format!(in alloc; "{:?}", fault.rule)?;
    if let Some(audit) = fault.audit {
        write!(&mut text, " {audit}")?;
    }
    if let Some(key) = fault.key {
        write!(&mut text, " {key:?}")?;
    }
    Ok(text)
}

// The map with these rows more.
fn map_with(alloc: Global, rows: &str) -> Result<Vec<u8>, AllocError> {
    let mut map = MAP.as_bytes().to_vec(alloc)?;
    map.extend_from_slice(TWIN.as_bytes())?;
    for row in rows.split(';') {
        if row != "five" && !row.is_empty() {
            map.extend_from_slice(row.as_bytes())?;
            map.push(b'\n')?;
        }
    }
    Ok(map)
}
