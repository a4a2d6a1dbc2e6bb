// Plans of process ids, over types that a file of cases has, each with a change. What a case gives is the words of its plan's one audit
// behind its name, then a bar, and changes of the types with a `;` between two: a line, or a part of one, and behind `=>` what stands in
// its place. Empty words are those of the usual plan, and a line that is changed has to stand in the types.
use crate::plan_text::plan_text;
use crate::plans::fault_text;
use anyhow::{Context, Result, bail};
use kc_btf::Btf;
use kc_cases::Case;
use kc_fixture::Types;
use kc_notes::Info;
use kc_plan::{PlanStop, read_plan};
use kc_syms::Symbols;
use std::alloc::{AllocError, Global};

const MAP: &[u8] = b"ffffffff80014000 D my_idr\n";

const INFO: Info = Info {
    table: 0x1000,
    five: false,
    sme: 0,
    kaslr: 0x1000,
    phys_base: 0,
};

/// What a plan of process ids is, or its first fault.
pub fn pid_plan_answer(alloc: Global, case: &Case<'_>) -> Result<String> {
    let (words, changes) = case.given.split_once('|').context("no changes")?;
    let plan = plan_with(alloc, words.trim())?;
    let types = changed(alloc, case.file.section("types")?, changes.trim())?;
    let mut made = Types::new(alloc)?;
    made.add(&types)?;
    let btf = Btf::read(alloc, made.file(alloc)?)?;
    let symbols = Symbols::read(alloc, MAP)?;
    match read_plan(alloc, plan.as_bytes(), &btf, &symbols, &INFO) {
        Ok(plan) => Ok(plan_text(alloc, &plan)?),
        Err(PlanStop::Fault(fault)) => Ok(fault_text(alloc, &fault)?),
        Err(PlanStop::NoMemory) => bail!("no memory"),
    }
}

// The plan of one audit with these words.
fn plan_with(alloc: Global, words: &str) -> Result<String, AllocError> {
    let words = if words.is_empty() {
        "root = 'my_idr'"
    } else {
        words
    };
    format!(in alloc; "version = 1\naudit = [{{ kind = 'pids', name = 'p', {words} }}]\n")
}

// The types, with these changes.
fn changed(alloc: Global, types: &str, changes: &str) -> Result<String> {
    let mut text = String::from_str(alloc, types.trim_end())?;
    for change in changes.split(';').filter(|change| !change.is_empty()) {
        let (old, new) = change.split_once("=>").context("no change")?;
        let Some((before, after)) = text.split_once(old) else {
            bail!("the types lack what is changed");
        };
        text = format!(in alloc; "{before}{new}{after}")?;
    }
    Ok(text)
}
