// Reports read back from their text.
ghost use Rattle.std.specs.Prelude.{◌≡◌, ◌<◌, ◌≤◌, ◌∷◌, [], ◌++◌, codes, length, IfOk, IfErr, OnOk, IsTrue, Ok};
ghost use Rattle.std.proofs.Common.{inl};
ghost use Rattle.kc_text.specs.Answers.{Gives};
ghost use Rattle.kc_text.specs.Compose.{after, ends, lines};
ghost use Rattle.kc_text.specs.Readers.{decimal_below, is_name, name_and};
ghost use Rattle.kc_text.specs.Reading.{and_then};
ghost use Rattle.kc_report.specs.declared.report.Report.{Report};
ghost use Rattle.kc_report.specs.Faults.{IsRefused};
ghost use Rattle.kc_report.specs.Formats.{broken_format, clean_format, each_format, end_of, line_format, place_format, report_format, report_from, result_format, root_format, roots_format};
ghost use Rattle.kc_report.specs.Heads.{IsHead, head_broken};
ghost use Rattle.kc_report.specs.IsReport.{IsReport};
ghost use Rattle.kc_report.specs.Reads.{AddsOne, ReadsOne, ReadsReport, report_in};

use crate::read::{Head, read_head, read_line, read_place};
use crate::report::{BrokenText, CleanLine, CleanLines, Report, RootResult, RootText, RootTexts};
use crate::stops::{ReadStop, ReportStop};
use kc_found::{Name, Places};
use kc_text::{read_decimal_to, read_literal, read_name, shorter};
use kc_word::NoMemory;
use std::alloc::Global;

/// The report whose text these bytes are. No other report has that text.
///
/// # Errors
///
/// Y1 exactly where no report has these bytes as its text, with the length of their longest front that begins some
/// report's text; or out of memory.
pub fn read_report(alloc: Global, bytes: &[u8]) -> Result<Report, ReportStop>
    ensures report { IfOk result (λ report. IsReport bytes.now report) }
    ensures only { IfOk result (λ report. (other : Report) → IsReport bytes.now other → other ≡ report) }
    ensures refused { IfErr result (λ stop. IsRefused stop bytes.now) }
    ensures made { ReadsReport (report_in bytes.now) result }
{
    match read_any(alloc, bytes) {
        Ok((report, _)) => Ok(report),
        Err(ReadStop::At(rest)) => Err(ReportStop::Y1((bytes.len() - rest.len()) as u64)),
        Err(ReadStop::NoMemory) => Err(ReportStop::NoMemory),
    }
}

// Adds an audit that found nothing.
fn add_line(
    alloc: Global,
    lines: &mut CleanLines,
    name: &[u8],
    walks: u64,
    elements: u64,
) -> Result<(), NoMemory>
    requires { IsTrue (is_name name.now) }
    ensures { OnOk result (lines.new ≡ lines.old ++ record { name = name.now; walks = walks; elements = elements } ∷ []) }
{
    let name = Name::of_slice(alloc, name)?;
    lines.push(CleanLine {
        name,
        walks,
        elements,
    })
}

// Reads the line of an audit, adds it, and gives the bytes after it.
fn next_line<'a>(
    alloc: Global,
    lines: &mut CleanLines,
    bytes: &'a [u8],
) -> Result<&'a [u8], ReadStop<'a>>
    ensures { AddsOne (line_format.read bytes.now) lines.old lines.new result }
{
    match read_line(bytes) {
        Ok(((name, walks, elements), rest)) => match add_line(alloc, lines, name, walks, elements) {
            Ok(()) => Ok(rest),
            Err(NoMemory) => Err(ReadStop::NoMemory),
        },
        Err(stop) => Err(ReadStop::At(stop)),
    }
}

// Whether lines end here: where the bytes do or, where another root follows, before its line.
fn ends(bytes: &[u8], more: bool) -> bool
    ensures { result ≡ ends (end_of more) bytes.now }
{
    match bytes {
        [] => !more,
        [c, ..] => more && *c == b'r',
    }
}

// Reads the lines of audits to their end.
fn read_lines(alloc: Global, bytes: &[u8], more: bool) -> Result<(CleanLines, &[u8]), ReadStop<'_>>
    ensures { ReadsOne ((lines (end_of more) line_format).read bytes.now) result }
{
    let mut lines = CleanLines::new(alloc);
    let mut rest = bytes;
    while !ends(rest, more) {
        match next_line(alloc, &mut lines, rest) {
            Ok(next) => rest = next,
            Err(stop) => return Err(stop),
        }
    }
    Ok((lines, rest))
}

// Reads the line of a word that shows something, adds it, and gives the bytes after it.
fn next_place<'a>(places: &mut Places, bytes: &'a [u8]) -> Result<&'a [u8], ReadStop<'a>>
    ensures { AddsOne (place_format.read bytes.now) places.old places.new result }
{
    match read_place(bytes) {
        Ok((place, rest)) => match places.push(place) {
            Ok(()) => Ok(rest),
            Err(NoMemory) => Err(ReadStop::NoMemory),
        },
        Err(stop) => Err(ReadStop::At(stop)),
    }
}

// Reads the lines of words to their end.
fn read_places(alloc: Global, bytes: &[u8], more: bool) -> Result<(Places, &[u8]), ReadStop<'_>>
    ensures { ReadsOne ((lines (end_of more) place_format).read bytes.now) result }
{
    let mut places = Places::new(alloc);
    let mut rest = bytes;
    while !ends(rest, more) {
        match next_place(&mut places, rest) {
            Ok(next) => rest = next,
            Err(stop) => return Err(stop),
        }
    }
    Ok((places, rest))
}

// Reads a clean report.
fn read_clean(alloc: Global, bytes: &[u8], more: bool) -> Result<(CleanLines, &[u8]), ReadStop<'_>>
    ensures { ReadsOne ((clean_format more).read bytes.now) result }
{
    match read_literal(bytes, b"clean\n") {
        Ok(rest) => read_lines(alloc, rest, more),
        Err(stop) => Err(ReadStop::At(stop)),
    }
}

// Makes a report of a violation of what was read.
fn broken_of(alloc: Global, head: Head<'_>, places: Places) -> Result<BrokenText, NoMemory>
    requires { IsHead head }
    ensures { IfOk result (λ b. b ≡ head_broken head.entry places) }
{
    let audit = Name::of_slice(alloc, head.audit)?;
    Ok(BrokenText {
        audit,
        start: head.start,
        rule: head.rule,
        at: head.at,
        expected: head.expected,
        stop: head.stop,
        places,
    })
}

fn kept_broken<'a>(
    alloc: Global,
    head: Head<'a>,
    places: Places,
    rest: &'a [u8],
) -> Result<(BrokenText, &'a [u8]), ReadStop<'a>>
    requires { IsHead head }
    ensures { ReadsOne (Ok (head_broken head.entry places, rest.now)) result }
{
    match broken_of(alloc, head, places) {
        Ok(broken) => Ok((broken, rest)),
        Err(NoMemory) => Err(ReadStop::NoMemory),
    }
}

// Reads a report of a violation.
fn read_broken(alloc: Global, bytes: &[u8], more: bool) -> Result<(BrokenText, &[u8]), ReadStop<'_>>
    ensures { ReadsOne ((broken_format more).read bytes.now) result }
{
    match read_head(bytes) {
        Ok((head, rest)) => match read_places(alloc, rest, more) {
            Ok((places, rest)) => kept_broken(alloc, head, places, rest),
            Err(stop) => Err(stop),
        },
        Err(stop) => Err(ReadStop::At(stop)),
    }
}

// Reads what the audits came to, either way.
fn read_result(alloc: Global, bytes: &[u8], more: bool) -> Result<(RootResult, &[u8]), ReadStop<'_>>
    ensures { ReadsOne ((result_format more).read bytes.now) result }
{
    match read_clean(alloc, bytes, more) {
        Ok((lines, rest)) => Ok((RootResult::Clean(lines), rest)),
        Err(ReadStop::NoMemory) => Err(ReadStop::NoMemory),
        Err(ReadStop::At(rest)) => match read_broken(alloc, bytes, more) {
            Ok((broken, rest)) => Ok((RootResult::Broken(broken), rest)),
            Err(ReadStop::NoMemory) => Err(ReadStop::NoMemory),
            Err(ReadStop::At(other)) => Err(ReadStop::At(shorter(rest, other))),
        },
    }
}

// Adds a root with what was read of it.
fn add_root(
    alloc: Global,
    roots: &mut RootTexts,
    name: &[u8],
    verdict: RootResult,
) -> Result<(), NoMemory>
    requires name { IsTrue (is_name name.now) }
    ensures { OnOk result (roots.new ≡ roots.old ++ record { name = name.now; verdict = verdict } ∷ []) }
{
    let name = Name::of_slice(alloc, name)?;
    roots.push(RootText { name, verdict })
}

// Reads the name of a root.
fn read_root_name(bytes: &[u8]) -> Result<(&[u8], &[u8]), &[u8]>
    ensures { Gives (λ r. (r.0.now, r.1.now)) result ((after (codes "root ") (name_and 32)).read bytes.now) }
{
    let rest = read_literal(bytes, b"root ")?;
    read_name(rest, b' ')
}

// Reads what the audits under a root of this name came to, adds the root, and gives the bytes after it.
fn next_result<'a>(
    alloc: Global,
    roots: &mut RootTexts,
    name: &[u8],
    bytes: &'a [u8],
    more: bool,
) -> Result<&'a [u8], ReadStop<'a>>
    requires name { IsTrue (is_name name.now) }
    ensures { AddsOne (and_then ((result_format more).read bytes.now) (λ r. Ok (record { name = name.now; verdict = r.0 }, r.1))) roots.old roots.new result }
{
    match read_result(alloc, bytes, more) {
        Ok((verdict, rest)) => match add_root(alloc, roots, name, verdict) {
            Ok(()) => Ok(rest),
            Err(NoMemory) => Err(ReadStop::NoMemory),
        },
        Err(stop) => Err(stop),
    }
}

// Reads a root, adds it, and gives the bytes after it.
fn next_root<'a>(
    alloc: Global,
    roots: &mut RootTexts,
    bytes: &'a [u8],
    more: bool,
) -> Result<&'a [u8], ReadStop<'a>>
    ensures { AddsOne ((root_format more).read bytes.now) roots.old roots.new result }
{
    match read_root_name(bytes) {
        Ok((name, rest)) => next_result(alloc, roots, name, rest, more),
        Err(stop) => Err(ReadStop::At(stop)),
    }
}

// Reads this number of roots, to the end of the bytes.
fn read_roots(alloc: Global, bytes: &[u8], count: u64) -> Result<(RootTexts, &[u8]), ReadStop<'_>>
    ensures { ReadsOne ((roots_format count).read bytes.now) result }
{
    let mut roots = RootTexts::new(alloc);
    let mut rest = bytes;
    let mut left = count;
    while left > 0 {
        left -= 1;
        match next_root(alloc, &mut roots, rest, left > 0) {
            Ok(next) => rest = next,
            Err(stop) => return Err(stop),
        }
    }
    if rest.is_empty() {
        Ok((roots, rest))
    } else {
        Err(ReadStop::At(rest))
    }
}

// Reads how many roots a report has, at most 256.
fn read_count(bytes: &[u8]) -> Result<(u64, &[u8]), &[u8]>
    ensures { Gives (λ r. (r.0, r.1.now)) result ((after (codes "roots ") (decimal_below 257 10)).read bytes.now) }
{
    let rest = read_literal(bytes, b"roots ")?;
    read_decimal_to(rest, b'\n', 256)
}

// Reads a report with one verdict for each root.
fn read_each(alloc: Global, bytes: &[u8]) -> Result<(RootTexts, &[u8]), ReadStop<'_>>
    ensures { ReadsOne (each_format.read bytes.now) result }
{
    match read_count(bytes) {
        Ok((count, rest)) => read_roots(alloc, rest, count),
        Err(stop) => Err(ReadStop::At(stop)),
    }
}

// The report of a plan that has one verdict.
fn report_from(verdict: RootResult) -> Report
    ensures { result ≡ report_from (inl verdict) }
{
    match verdict {
        RootResult::Clean(lines) => Report::Clean(lines),
        RootResult::Broken(broken) => Report::Broken(broken),
    }
}

// Reads a report of any form.
fn read_any(alloc: Global, bytes: &[u8]) -> Result<(Report, &[u8]), ReadStop<'_>>
    ensures { ReadsOne (report_format.read bytes.now) result }
{
    match read_result(alloc, bytes, false) {
        Ok((verdict, rest)) => Ok((report_from(verdict), rest)),
        Err(ReadStop::NoMemory) => Err(ReadStop::NoMemory),
        Err(ReadStop::At(one)) => match read_each(alloc, bytes) {
            Ok((roots, rest)) => Ok((Report::Each(roots), rest)),
            Err(ReadStop::NoMemory) => Err(ReadStop::NoMemory),
            Err(ReadStop::At(other)) => Err(ReadStop::At(shorter(one, other))),
        },
    }
}
