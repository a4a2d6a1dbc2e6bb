// Reports as text.
ghost use Rattle.std.specs.Prelude.{◌≡◌, ◌≤◌, ◌<◌, ◌^◌, ◌++◌, All, codes, IfOk, OnOk, IfSome, IsTrue};
ghost use Rattle.kc_text.specs.Compose.{texts};
ghost use Rattle.kc_text.specs.Readers.{is_name};
ghost use Rattle.kc_text.specs.Text.{hex};
ghost use Rattle.kc_report.specs.IsReport.{IsReport};
ghost use Rattle.kc_report.specs.Report.{IsBroken, IsLine, IsNumber, IsShown, IsStopNumber, is_stop_at, stop_levels};
ghost use Rattle.kc_report.specs.Lines.{place_line, place_lines, rule_at};
ghost use Rattle.kc_report.specs.ReportText.{audit_line, broken_lines, clean_text, end_lines, expected_text, start_lines, stop_lines};
ghost use Rattle.kc_report.specs.Roots.{IsEach, IsRoot, KeepsResult, each_text, result_text, root_text};

use crate::line::{push_place, push_rule_at, push_stop_text};
use crate::report::{BrokenText, CleanLine, CleanLines, Report, RootResult, RootText, RootTexts};
use kc_found::{Name, Places};
use kc_memory::Place;
use kc_text::{push, push_decimal, push_hex};
use kc_word::NoMemory;
use std::alloc::Global;

/// The text of a report.
///
/// # Errors
///
/// Out of memory.
pub fn text(alloc: Global, report: &Report) -> Result<Vec<u8>, NoMemory>
    ensures { IfOk result (λ text. IsReport text.items report.now) }
{
    let mut text = Vec::new(alloc);
    match report {
        Report::Clean(lines) => push_clean(&mut text, lines)?,
        Report::Broken(broken) => push_broken(&mut text, broken)?,
        Report::Each(roots) => push_each(&mut text, roots)?,
    }
    Ok(text)
}

// Adds a name.
fn push_bytes(text: &mut Vec<u8>, name: &Name) -> Result<(), NoMemory>
    ensures { OnOk result (text.new.items ≡ text.old.items ++ name.now) }
{
    for i in 0..name.len() {
        text.push(*name.get(i))?;
    }
    Ok(())
}

// Adds the line of an audit that found nothing.
fn push_line(text: &mut Vec<u8>, line: &CleanLine) -> Result<(), NoMemory>
    ensures added { OnOk result (text.new.items ≡ text.old.items ++ audit_line line.now) }
    ensures keeps { OnOk result (IsLine line.now) }
{
    push(text, b"audit ")?;
    push_bytes(text, &line.name)?;
    push(text, b" walks ")?;
    push_decimal(text, line.walks)?;
    push(text, b" elements ")?;
    push_decimal(text, line.elements)?;
    push(text, b"\n")
}

// Adds the lines of these audits.
fn push_lines(text: &mut Vec<u8>, lines: &CleanLines) -> Result<(), NoMemory>
    ensures added { OnOk result (text.new.items ≡ text.old.items ++ texts audit_line lines.now) }
    ensures keeps { OnOk result (All IsLine lines.now) }
{
    for i in 0..lines.len() {
        push_line(text, lines.get(i))?;
    }
    Ok(())
}

// Adds a clean report.
fn push_clean(text: &mut Vec<u8>, lines: &CleanLines) -> Result<(), NoMemory>
    ensures added { OnOk result (text.new.items ≡ text.old.items ++ clean_text lines.now) }
    ensures keeps { OnOk result (All IsLine lines.now) }
{
    push(text, b"clean\n")?;
    push_lines(text, lines)
}

// Adds a number that should stand somewhere, or that there is none.
fn push_expected(text: &mut Vec<u8>, expected: Option<u64>) -> Result<(), NoMemory>
    ensures added { OnOk result (text.new.items ≡ text.old.items ++ expected_text expected) }
    ensures number { OnOk result (IsNumber expected) }
{
    match expected {
        Some(n) => push_hex(text, n),
        None => push(text, b"none"),
    }
}

// Adds the line of a stop, if there is one.
fn push_stop_lines(text: &mut Vec<u8>, stop: Option<(u8, u64)>) -> Result<(), NoMemory>
    requires { IfSome stop (λ s. s.0 ≤ 5) }
    ensures added { OnOk result (text.new.items ≡ text.old.items ++ stop_lines stop) }
    ensures number { OnOk result (IsStopNumber stop) }
{
    match stop {
        Some((level, pa)) => push_stop_text(text, level, pa),
        None => Ok(()),
    }
}

// Adds the line of a word.
fn push_shown(text: &mut Vec<u8>, place: Place) -> Result<(), NoMemory>
    ensures added { OnOk result (text.new.items ≡ text.old.items ++ place_line place) }
    ensures shown { OnOk result (IsShown place) }
{
    push_place(text, place)
}

// Adds the lines of these words.
fn push_list(text: &mut Vec<u8>, places: &Places) -> Result<(), NoMemory>
    ensures added { OnOk result (text.new.items ≡ text.old.items ++ place_lines places.now) }
    ensures shown { OnOk result (All IsShown places.now) }
{
    for i in 0..places.len() {
        push_shown(text, *places.get(i))?;
    }
    Ok(())
}

// Adds the end of the audit's line, and the line of a walk's start.
fn push_address_line(text: &mut Vec<u8>, start: u64) -> Result<(), NoMemory>
    ensures { OnOk result (text.new.items ≡ text.old.items ++ (codes "\nstart " ++ hex start ++ codes "\n")) }
{
    push(text, b"\nstart ")?;
    push_hex(text, start)?;
    push(text, b"\n")
}

// Adds the audit of a violation, and where its walk starts.
fn push_start(text: &mut Vec<u8>, broken: &BrokenText) -> Result<(), NoMemory>
    ensures added { OnOk result (text.new.items ≡ text.old.items ++ start_lines broken.now) }
    ensures name { OnOk result (IsTrue (is_name broken.now.audit)) }
    ensures start { OnOk result (broken.now.start < 2 ^ 64) }
{
    push(text, b"broken\naudit ")?;
    push_bytes(text, &broken.audit)?;
    push_address_line(text, broken.start)
}

// Adds the rule and the address that the violation is about.
fn push_rule_of(text: &mut Vec<u8>, broken: &BrokenText) -> Result<(), NoMemory>
    ensures added { OnOk result (text.new.items ≡ text.old.items ++ rule_at broken.now.rule broken.now.at) }
    ensures at { OnOk result (broken.now.at < 2 ^ 64) }
{
    push_rule_at(text, broken.rule, broken.at)
}

// Adds what should stand there, where reading stopped, and the words that show it.
fn push_end(text: &mut Vec<u8>, broken: &BrokenText) -> Result<(), NoMemory>
    ensures added { OnOk result (text.new.items ≡ text.old.items ++ end_lines broken.now) }
    ensures expected { OnOk result (IsNumber broken.now.expected) }
    ensures stop { OnOk result (IsTrue (is_stop_at (stop_levels broken.now.rule) broken.now.stop)) }
    ensures number { OnOk result (IsStopNumber broken.now.stop) }
    ensures places { OnOk result (All IsShown broken.now.places) }
{
    push(text, b"expected ")?;
    push_expected(text, broken.expected)?;
    push(text, b"\n")?;
    push_stop_lines(text, broken.stop)?;
    push_list(text, &broken.places)
}

// Adds a report of a violation.
fn push_broken(text: &mut Vec<u8>, broken: &BrokenText) -> Result<(), NoMemory>
    ensures added { OnOk result (text.new.items ≡ text.old.items ++ broken_lines broken.now) }
    ensures keeps { OnOk result (IsBroken broken.now) }
{
    push_start(text, broken)?;
    push_rule_of(text, broken)?;
    push_end(text, broken)
}

// Adds what the audits under a root came to.
fn push_result(text: &mut Vec<u8>, verdict: &RootResult) -> Result<(), NoMemory>
    ensures added { OnOk result (text.new.items ≡ text.old.items ++ result_text verdict.now) }
    ensures keeps { OnOk result (KeepsResult verdict.now) }
{
    match verdict {
        RootResult::Clean(lines) => push_clean(text, lines),
        RootResult::Broken(broken) => push_broken(text, broken),
    }
}

// Adds a root.
fn push_root(text: &mut Vec<u8>, root: &RootText) -> Result<(), NoMemory>
    ensures added { OnOk result (text.new.items ≡ text.old.items ++ root_text root.now) }
    ensures keeps { OnOk result (IsRoot root.now) }
{
    push(text, b"root ")?;
    push_bytes(text, &root.name)?;
    push(text, b" ")?;
    push_result(text, &root.verdict)
}

// Adds these roots.
fn push_roots(text: &mut Vec<u8>, roots: &RootTexts) -> Result<(), NoMemory>
    ensures added { OnOk result (text.new.items ≡ text.old.items ++ texts root_text roots.now) }
    ensures keeps { OnOk result (All IsRoot roots.now) }
{
    for i in 0..roots.len() {
        push_root(text, roots.get(i))?;
    }
    Ok(())
}

// Adds a report with one verdict for each root.
fn push_each(text: &mut Vec<u8>, roots: &RootTexts) -> Result<(), NoMemory>
    ensures added { OnOk result (text.new.items ≡ text.old.items ++ each_text roots.now) }
    ensures keeps { OnOk result (IsEach roots.now) }
{
    push(text, b"roots ")?;
    push_decimal(text, roots.len() as u64)?;
    push(text, b"\n")?;
    push_roots(text, roots)
}
