// Reports. The first line of a case is what is told of the others.
use crate::bytes::bytes_of;
use anyhow::{Context, Result};
use kc_cases::Case;
use kc_report::{ReportStop, read_report, text};
use std::alloc::{AllocError, Global};

/// Whether bytes are a report, or where they are refused.
pub fn report_answer(alloc: Global, case: &Case<'_>) -> Result<String> {
    let (_, lines) = case.given.split_once('\n').context("no report")?;
    let bytes = bytes_of(alloc, format!(in alloc; "{lines}\n")?.as_str())?;
    match refused_at(alloc, &bytes)? {
        Some(place) => Ok(format!(in alloc; "{place}\n{lines}")?),
        None => Ok(format!(in alloc; "read\n{lines}")?),
    }
}

// The place at which bytes are refused, or none where the report that they tell is written so again.
fn refused_at(alloc: Global, bytes: &[u8]) -> Result<Option<u64>> {
    match read_report(alloc, bytes) {
        Ok(report) => {
            let again = text(alloc, &report)?;
            let same = again.as_slice() == bytes;
            Ok(if same { None } else { Some(u64::MAX) })
        }
        Err(ReportStop::Y1(at)) => Ok(Some(at)),
        Err(ReportStop::NoMemory) => Err(AllocError.into()),
    }
}

/// Which fronts of a report are reports; it is cut at each byte, and each byte is changed.
pub fn report_cuts_answer(alloc: Global, case: &Case<'_>) -> Result<String> {
    let (_, lines) = case.given.split_once('\n').context("no report")?;
    let whole = format!(in alloc; "{lines}\n")?;
    let read = fronts_text(alloc, whole.as_bytes())?;
    Ok(format!(in alloc; "{read}\n{lines}")?)
}

// The lengths of the fronts of a report that are reports, and those at which bytes aren't refused at their place.
fn fronts_text(alloc: Global, whole: &[u8]) -> Result<String> {
    let mut read = String::new(alloc);
    for (at, _) in whole.iter().enumerate() {
        let gap = if read.is_empty() { "" } else { " " };
        let mut changed = whole.to_vec(alloc)?;
        if let Some(byte) = changed.get_mut(at) {
            *byte = b'~';
        }
        let front = refused_at(alloc, &whole[..at])?;
        if refused_at(alloc, &changed)? != Some(at as u64) {
            write!(&mut read, "{gap}changed {at}")?;
        } else if front.is_none() {
            write!(&mut read, "{gap}{at}")?;
        } else if front != Some(at as u64) {
            write!(&mut read, "{gap}cut {at}")?;
        }
    }
    Ok(read)
}
