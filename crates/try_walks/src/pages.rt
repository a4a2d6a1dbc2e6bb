// PagesCase that are translated in turn. The first line of a case has the page tables; the others say what memory holds, or give an
// address, where it leads, and how many words are read for that.
use crate::frames::{Dump, hex};
use crate::walk::Walks;
use anyhow::{Context, Result};
use kc_cases::Case;
use kc_memory::{Miss, Stop};
use kc_tlb::Tlb;
use kc_word::{Pa, PageCfg, Steps};
use std::alloc::{AllocError, Global};
use std::sync::ledger::Ledger;

/// Translations of pages that are kept.
pub struct PagesCase;

impl Walks for PagesCase {
    fn answer<L: Ledger>(
        &self,
        alloc: Global,
        case: &Case<'_>,
        steps: &mut Steps<L>,
    ) -> Result<String> {
        let (first, rest) = case.given.split_once('\n').context("no lines")?;
        let mut tlb = tables(alloc, first)?;
        let mut dump = Dump::new(alloc)?;
        let mut text = String::from_str(alloc, first)?;
        for line in rest.lines() {
            text.push('\n')?;
            if let Some((address, _)) = line.split_once(" : ") {
                let before = dump.reads;
                let found = tlb.translate(&mut dump, hex(address)?, steps);
                let told = page_text(alloc, found)?;
                let reads = dump.reads.saturating_sub(before);
                text.push_str(&format!(in alloc; "{address} : {told} {reads}")?)?;
            } else {
                dump.take(line)?;
                text.push_str(line)?;
            }
        }
        Ok(text)
    }
}

// So many places, all empty, the levels of the tables, and the mask of memory encryption.
fn tables(alloc: Global, line: &str) -> Result<Tlb> {
    let (kept, rest) = line.split_once(' ').context("no levels")?;
    let (levels, mask) = rest.split_once(' ').context("no mask")?;
    let five = levels == "5";
    let paging = PageCfg {
        table: if five { 0x12000 } else { 0x1000 },
        five,
        sme: hex(mask)?,
    };
    let kept: usize = kept.parse().unwrap_or(0);
    Tlb::new(alloc, paging, kept.max(1))
        .ok()
        .context("out of memory")
}

fn page_text(alloc: Global, found: Result<Pa, Stop>) -> Result<String, AllocError> {
    match found {
        Ok(Pa(pa)) => format!(in alloc; "{pa:x}"),
        Err(Stop::Miss(Miss { rule, .. })) => format!(in alloc; "{rule:?}"),
        Err(Stop::Fault) => String::from_str(alloc, "fails"),
    }
}
