// What is printed.
ghost use Rattle.std.specs.Prelude.{◌≡◌, ◌++◌, map, IfOk, OnOk};
ghost use Rattle.kc_match.specs.Text.{agree, count_line, differs_count, finding_lines, finding_text, fits, key_line, match_text, other_text, same_count, types_line, unknown_count};
ghost use Rattle.kc_match.specs.declared.beside.TypesBeside.TheVariants.{Differs};
ghost use Rattle.kc_match.specs.Views.{finding_view};

use crate::beside::TypesBeside;
use crate::finding::Finding;
use crate::outcome::{Other, Outcome};
use kc_notes::value;
use kc_text::{push, push_hex, push_name, push_name_or_dash, push_numbered};
use kc_word::NoMemory;
use std::alloc::Global;

// What a file tells in place of what is stated.
fn push_other(text: &mut Vec<u8>, other: Other) -> Result<(), NoMemory>
    ensures { OnOk result (text.new.items ≡ text.old.items ++ other_text other) }
{
    match other {
        Other::Map(address) => {
            push(text, b" map ")?;
            push_hex(text, address)
        }
        Other::Btf(count) => push_numbered(text, b" btf ", count),
    }
}

// The line of what differs.
fn push_finding(text: &mut Vec<u8>, finding: &Finding<'_>) -> Result<(), NoMemory>
    ensures { OnOk result (text.new.items ≡ text.old.items ++ finding_text (finding_view finding.now)) }
{
    let Outcome::Differs(other) = finding.outcome else {
        return Ok(());
    };
    push(text, b"differ ")?;
    push_name(text, finding.line)?;
    push_other(text, other)?;
    push(text, b"\n")
}

fn push_findings(text: &mut Vec<u8>, findings: &[Finding<'_>]) -> Result<(), NoMemory>
    ensures { OnOk result (text.new.items ≡ text.old.items ++ finding_lines (map finding_view findings.now)) }
{
    for finding in findings {
        push_finding(text, finding)?;
    }
    Ok(())
}

// The line of a key of the note: its value, or a dash.
fn push_key(text: &mut Vec<u8>, note: &[u8], key: &[u8]) -> Result<(), NoMemory>
    ensures { OnOk result (text.new.items ≡ text.old.items ++ key_line key.now note.now) }
{
    push(text, key)?;
    push(text, b" ")?;
    push_name_or_dash(text, value(note, key).unwrap_or(b""))?;
    push(text, b"\n")
}

// How many findings are the same.
fn count_same(findings: &[Finding<'_>]) -> usize
    ensures { result ≡ same_count (map finding_view findings.now) }
{
    findings.iter().filter(|f| f.outcome.is_same()).count()
}

// How many differ.
fn count_differs(findings: &[Finding<'_>]) -> usize
    ensures { result ≡ differs_count (map finding_view findings.now) }
{
    findings.iter().filter(|f| f.outcome.differs()).count()
}

// How many are unknown.
fn count_unknown(findings: &[Finding<'_>]) -> usize
    ensures { result ≡ unknown_count (map finding_view findings.now) }
{
    findings.iter().filter(|f| f.outcome.is_unknown()).count()
}

// The line of the counts.
fn push_counts(text: &mut Vec<u8>, findings: &[Finding<'_>]) -> Result<(), NoMemory>
    ensures { OnOk result (text.new.items ≡ text.old.items ++ count_line (map finding_view findings.now)) }
{
    push_numbered(text, b"same ", count_same(findings) as u64)?;
    push_numbered(text, b" differ ", count_differs(findings) as u64)?;
    push_numbered(text, b" unknown ", count_unknown(findings) as u64)?;
    push(text, b"\n")
}

// The line of the types beside those that the dump holds.
fn push_types(text: &mut Vec<u8>, types: TypesBeside) -> Result<(), NoMemory>
    ensures { OnOk result (text.new.items ≡ text.old.items ++ types_line types) }
{
    match types {
        TypesBeside::Same => push(text, b"types same\n"),
        TypesBeside::Differs(at) => push_difference(text, at),
        TypesBeside::Unknown => push(text, b"types unknown\n"),
    }
}

fn push_difference(text: &mut Vec<u8>, at: u64) -> Result<(), NoMemory>
    ensures { OnOk result (text.new.items ≡ text.old.items ++ types_line (Differs at)) }
{
    push_numbered(text, b"types differ at ", at)?;
    push(text, b"\n")
}

/// The text of what is found of a note: the lines that differ, the kernel's release, its build and how far KASLR moved it, the types
/// beside those of the dump, and the counts.
pub fn match_text(
    alloc: Global,
    note: &[u8],
    findings: &[Finding<'_>],
    types: TypesBeside,
) -> Result<Vec<u8>, NoMemory>
    ensures { IfOk result (λ text. text.items ≡ match_text note.now (map finding_view findings.now) types) }
{
    let mut text = Vec::new(alloc);
    push_findings(&mut text, findings)?;
    push_key(&mut text, note, b"OSRELEASE")?;
    push_key(&mut text, note, b"BUILD-ID")?;
    push_key(&mut text, note, b"KERNELOFFSET")?;
    push_types(&mut text, types)?;
    push_counts(&mut text, findings)?;
    Ok(text)
}

// Whether the types are those of the dump, or these aren't found.
fn fits(types: TypesBeside) -> bool
    ensures { result ≡ fits types }
{
    !matches!(types, TypesBeside::Differs(_))
}

/// Whether the files agree with the dump: something is the same, and nothing differs.
pub fn agree(findings: &[Finding<'_>], types: TypesBeside) -> bool
    ensures { result ≡ agree (map finding_view findings.now) types }
{
    count_same(findings) > 0 && count_differs(findings) == 0 && fits(types)
}
