// The lines that explain a violation.
ghost use Rattle.std.specs.Prelude.{◌≡◌, ◌++◌, ◌≤◌, length, IfSome, OnOk};
ghost use Rattle.kc_plan.specs.Inside.{IsInside};
ghost use Rattle.kc_plan.specs.Planned.{audit_seen};
ghost use Rattle.kc_plan.specs.Seen.{container_of};
ghost use Rattle.kc_layout.specs.MemberPath.MemberPaths.{member_path};
ghost use Rattle.kc_cause.specs.Lines.{about_part, bytes_line, confirmed_part, element_line, element_lines, is_of_member, named_lines, number_line, number_lines, path_part, rule_line, type_name, typed_part};

use crate::sentences::sentence;
use kc_btf::Btf;
use kc_element::{Element, FoundNumber, element_of, is_confirmed, part_of};
use kc_found::{Found, Name};
use kc_kinds::Kind;
use kc_layout::push_member;
use kc_memory::Rule;
use kc_plan::Audit;
use kc_report::rule_code;
use kc_run::container_of;
use kc_text::{push, push_hex, push_name, push_numbered};
use kc_word::NoMemory;
use std::alloc::Global;

// A line of a label and some bytes.
pub(crate) fn push_line(text: &mut Vec<u8>, label: &[u8], bytes: &Name) -> Result<(), NoMemory>
    ensures { OnOk result (text.new.items ≡ text.old.items ++ bytes_line label.now bytes.now) }
{
    push(text, label)?;
    push(text, bytes.as_slice())?;
    push(text, b"\n")
}

// The line of a rule, with what it says.
fn push_rule(text: &mut Vec<u8>, rule: Rule) -> Result<(), NoMemory>
    ensures { OnOk result (text.new.items ≡ text.old.items ++ rule_line rule) }
{
    push(text, b"rule ")?;
    push(text, rule_code(rule))?;
    push(text, b" ")?;
    push(text, sentence(rule))?;
    push(text, b"\n")
}

// Whether a rule is about a member of its element.
fn is_of_member(rule: Rule) -> bool
    ensures { result ≡ is_of_member rule }
{
    !matches!(rule, Rule::C | Rule::U4)
}

// The name of a type.
fn type_name(btf: &Btf, ty: u32) -> &[u8]
    requires { ty ≤ length btf.now.records }
    ensures { result.now ≡ type_name btf.now ty }
{
    if ty == 0 {
        return b"";
    }
    btf.name(btf.ty(ty).name)
}

/// Adds the path of the member of a type in which a byte lies, where there is one.
///
/// # Errors
///
/// No memory was left.
pub(crate) fn push_path(
    alloc: Global,
    text: &mut Vec<u8>,
    btf: &Btf,
    ty: u32,
    byte: u64,
) -> Result<(), NoMemory>
    requires { ty ≤ length btf.now.records }
    ensures { OnOk result (text.new.items ≡ text.old.items ++ path_part (member_path btf.now ty byte)) }
{
    let mut path = Vec::new(alloc);
    push_member(&mut path, btf, ty, byte)?;
    if path.is_empty() {
        return Ok(());
    }
    push(text, b" ")?;
    push(text, &path)
}

// The start of the line of an element: its type and its address.
fn push_typed(text: &mut Vec<u8>, btf: &Btf, element: Element) -> Result<(), NoMemory>
    requires { element.ty ≤ length btf.now.records }
    ensures { OnOk result (text.new.items ≡ text.old.items ++ typed_part btf.now element) }
{
    push(text, b"element ")?;
    push_name(text, type_name(btf, element.ty))?;
    push(text, b" ")?;
    push_hex(text, element.at)
}

// The member of it that a rule is about.
fn push_about(
    alloc: Global,
    text: &mut Vec<u8>,
    btf: &Btf,
    element: Element,
    found: &Found,
) -> Result<(), NoMemory>
    requires { element.ty ≤ length btf.now.records }
    ensures { OnOk result (text.new.items ≡ text.old.items ++ about_part btf.now found.now element) }
{
    if is_of_member(found.rule) {
        let byte = container_of(element.at, found.at);
        push_path(alloc, text, btf, element.ty, byte)
    } else {
        Ok(())
    }
}

// That it may be no such element.
fn push_confirmed(text: &mut Vec<u8>, confirmed: bool) -> Result<(), NoMemory>
    ensures { OnOk result (text.new.items ≡ text.old.items ++ confirmed_part confirmed) }
{
    if confirmed {
        Ok(())
    } else {
        push(text, b" unconfirmed")
    }
}

// The line of an element.
fn push_known(
    alloc: Global,
    text: &mut Vec<u8>,
    btf: &Btf,
    element: Element,
    confirmed: bool,
    found: &Found,
) -> Result<(), NoMemory>
    requires { element.ty ≤ length btf.now.records }
    ensures { OnOk result (text.new.items ≡ text.old.items ++ element_line btf.now confirmed found.now element) }
{
    push_typed(text, btf, element)?;
    push_about(alloc, text, btf, element, found)?;
    push_confirmed(text, confirmed)?;
    push(text, b"\n")
}

/// Adds the line of the element that a violation is about, where that is told, and whether it leads back to where the walk came from.
///
/// # Errors
///
/// No memory was left.
pub fn push_element(
    alloc: Global,
    text: &mut Vec<u8>,
    btf: &Btf,
    element: Option<Element>,
    confirmed: bool,
    found: &Found,
) -> Result<(), NoMemory>
    requires { IfSome element (λ e. e.ty ≤ length btf.now.records) }
    ensures { OnOk result (text.new.items ≡ text.old.items ++ element_lines btf.now confirmed found.now element) }
{
    match element {
        Some(element) => push_known(alloc, text, btf, element, confirmed, found),
        None => Ok(()),
    }
}

// The line of a number against the one that is expected.
fn push_part(text: &mut Vec<u8>, part: &FoundNumber) -> Result<(), NoMemory>
    ensures { OnOk result (text.new.items ≡ text.old.items ++ number_line part.now) }
{
    push(text, b"expected ")?;
    push_hex(text, part.expected)?;
    push(text, b" found ")?;
    push_hex(text, part.found)?;
    push_numbered(text, b" bits ", u64::from(part.differing()))?;
    push(text, b"\n")
}

/// Adds the line of the number that a violation expects against the one that stands there, where there is one.
///
/// # Errors
///
/// No memory was left.
pub fn push_number(text: &mut Vec<u8>, kind: &Kind, found: &Found) -> Result<(), NoMemory>
    ensures { OnOk result (text.new.items ≡ text.old.items ++ number_lines kind.now found.now) }
{
    match part_of(kind, found) {
        Some(part) => push_part(text, &part),
        None => Ok(()),
    }
}

/// Adds the lines of a violation of an audit up to its words: the audit's name, the rule with what it says, and the element that it is about.
///
/// # Errors
///
/// No memory was left.
pub fn push_named(
    alloc: Global,
    text: &mut Vec<u8>,
    btf: &Btf,
    audit: &Audit,
    found: &Found,
) -> Result<(), NoMemory>
    requires { IsInside (length btf.now.records) audit.now }
    ensures { OnOk result (text.new.items ≡ text.old.items ++ named_lines btf.now (audit_seen audit.now) found.now) }
{
    push_line(text, b"audit ", &audit.name)?;
    push_rule(text, found.rule)?;
    let element = element_of(btf, audit, found);
    let confirmed = is_confirmed(&audit.kind, found.rule);
    push_element(alloc, text, btf, element, confirmed, found)
}
