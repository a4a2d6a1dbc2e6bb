// What a walk answers, as a text. Numbers are in hex.
use kc_found::{Found, Places, WalkStop, Walked};
use std::alloc::{AllocError, Global};

/// What a walk from a start answers for the audit 7: the addresses that it met, `none` where it met none; or why it ended.
pub fn answer_text(
    alloc: Global,
    walk: Result<Walked, WalkStop>,
    start: u64,
) -> Result<String, AllocError> {
    match walk {
        Ok(walked) => walked_text(alloc, &walked),
        Err(stop) => stop_text(alloc, &stop, start),
    }
}

fn walked_text(alloc: Global, walked: &Walked) -> Result<String, AllocError> {
    if walked.len() == 0 {
        return String::from_str(alloc, "none");
    }
    let mut text = String::new(alloc);
    for address in walked.as_slice() {
        let gap = if text.is_empty() { "" } else { " " };
        text.push_str(&format!(in alloc; "{gap}{address:x}")?)?;
    }
    Ok(text)
}

/// Why a walk ended early. A violation is its rule, `at` and its address, `by` and the words that show it, if there are any,
/// and `not` and the number that is expected, if there is one; it is of the audit 7 from this start, or `elsewhere`.
pub fn stop_text(alloc: Global, stop: &WalkStop, start: u64) -> Result<String, AllocError> {
    match stop {
        WalkStop::Broken(found) if found.audit == 7 && found.start == start => {
            found_text(alloc, found)
        }
        WalkStop::Broken(_) => String::from_str(alloc, "elsewhere"),
        WalkStop::Fault => String::from_str(alloc, "failed"),
        WalkStop::NoMemory => String::from_str(alloc, "out of memory"),
    }
}

fn found_text(alloc: Global, found: &Found) -> Result<String, AllocError> {
    let mut text = format!(in alloc; "{:?} at {:x}", found.rule, found.at)?;
    push_places(alloc, &mut text, &found.places)?;
    if let Some(expected) = found.expected {
        text.push_str(&format!(in alloc; " not {expected:x}")?)?;
    }
    Ok(text)
}

fn push_places(alloc: Global, text: &mut String, places: &Places) -> Result<(), AllocError> {
    for (at, place) in places.as_slice().iter().enumerate() {
        let head = if at == 0 { " by" } else { "" };
        let va = place.va.unwrap_or(place.pa);
        text.push_str(&format!(in alloc; "{head} {va:x}={:x}", place.value)?)?;
    }
    Ok(())
}
