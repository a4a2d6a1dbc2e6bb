// Xarrays. A case gives what one is made of, and its words that are changed.
use crate::walk::Walks;
use anyhow::Result;
use kc_cases::{Case, stop_text};
use kc_found::{XaItem, XaShape, XaWalked};
use kc_word::Steps;
use kc_xa::xa_walk;
use std::alloc::{AllocError, Global};
use std::sync::ledger::Ledger;

/// Xarrays, of nodes with 16 slots or with 64.
pub struct Xarrays;

impl Walks for Xarrays {
    fn answer<L: Ledger>(
        &self,
        alloc: Global,
        case: &Case<'_>,
        steps: &mut Steps<L>,
    ) -> Result<String> {
        let Case { file, given } = case;
        let xa = file.number("xa")?;
        let (base, changed) = given.split_once(' ').unwrap_or((given, ""));
        // An IDR has the words of a leaf.
        let words = file.section(if base == "idr" { "leaf" } else { base })?;
        let mut space = file.memory(alloc, changed, words)?;
        match xa_walk(alloc, &mut space, &shape_of(base), xa, 7, steps) {
            Ok(walked) => Ok(pointers_text(alloc, &walked)?),
            Err(stop) => Ok(stop_text(alloc, &stop, xa)?),
        }
    }
}

fn shape_of(base: &str) -> XaShape {
    let split = base == "split";
    let wide = base == "wide" || base == "high";
    XaShape {
        head: 8,
        shift: 0,
        offset: 1,
        count: if split { 168 } else { 2 },
        nr_values: if split { 169 } else { 3 },
        parent: 8,
        array: 16,
        slots: 24,
        chunk: if wide { 64 } else { 16 },
        idr: base == "idr",
    }
}

// The pointers of an xarray as words, each its index and then the pointer; `none` where there is none.
fn pointers_text(alloc: Global, walked: &XaWalked) -> Result<String, AllocError> {
    if walked.len() == 0 {
        return String::from_str(alloc, "none");
    }
    let mut text = String::new(alloc);
    for XaItem { index, entry } in walked.as_slice() {
        let gap = if text.is_empty() { "" } else { " " };
        text.push_str(&format!(in alloc; "{gap}{index:x}={entry:x}")?)?;
    }
    Ok(text)
}
