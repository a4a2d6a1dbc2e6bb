// The lines of a broken rule, of a stop, and of a place.
ghost use Rattle.std.specs.Prelude.{◌≡◌, ◌+◌, ◌≤◌, ◌++◌, ◌∷◌, [], codes, IfOk, OnOk};
ghost use Rattle.kc_memory.specs.Places.{entry_places};
ghost use Rattle.kc_report.specs.Lines.{address_text, broken_text, origin_text, place_line, place_lines, rule_at, rule_code, rule_lines, stop_line, stop_text, tells_stop};

use kc_memory::{Miss, Origin, PWord, Place, Rule};
use kc_rules::row_of;
use kc_text::{push, push_hex};
use kc_word::NoMemory;
use std::alloc::Global;

/// The code of a rule: its name.
pub fn rule_code(rule: Rule) -> &'static [u8]
    ensures { result.now ≡ rule_code rule }
{
    row_of(rule).code
}

// Whether a physical word stopped the reading.
pub(crate) fn tells_stop(rule: Rule) -> bool
    ensures { result ≡ tells_stop rule }
{
    match rule {
        Rule::M3 | Rule::M4 | Rule::M5 | Rule::M6 => true,
        _ => false,
    }
}

/// Adds the lines of a broken rule, and of the virtual address that was asked.
pub fn push_rule(text: &mut Vec<u8>, rule: Rule, va: u64) -> Result<(), NoMemory>
    ensures { OnOk result (text.new.items ≡ text.old.items ++ rule_lines rule va) }
{
    push(text, b"broken\n")?;
    push_rule_at(text, rule, va)
}

// Adds the lines of a rule and of the address that it is about.
pub(crate) fn push_rule_at(text: &mut Vec<u8>, rule: Rule, va: u64) -> Result<(), NoMemory>
    ensures { OnOk result (text.new.items ≡ text.old.items ++ rule_at rule va) }
{
    push(text, b"rule ")?;
    push(text, rule_code(rule))?;
    push(text, b"\nat ")?;
    push_hex(text, va)?;
    push(text, b"\n")
}

/// Adds the line of the physical word that stopped the reading, if one did: the level of a page table's entry,
/// or 0, and the word's physical address.
pub fn push_stop(text: &mut Vec<u8>, rule: Rule, level: u8, pa: u64) -> Result<(), NoMemory>
    requires { level ≤ 5 }
    ensures { OnOk result (text.new.items ≡ text.old.items ++ stop_line rule level pa) }
{
    if !tells_stop(rule) {
        return Ok(());
    }
    push_stop_text(text, level, pa)
}

// Adds the line of a physical word that stopped the reading: the level and the physical address.
pub(crate) fn push_stop_text(text: &mut Vec<u8>, level: u8, pa: u64) -> Result<(), NoMemory>
    requires { level ≤ 5 }
    ensures { OnOk result (text.new.items ≡ text.old.items ++ stop_text level pa) }
{
    push(text, b"stop ")?;
    push(text, &[b'0' + level])?;
    push(text, b" ")?;
    push_hex(text, pa)?;
    push(text, b"\n")
}

/// Adds where a word comes from: its file offset, or `tail` where it stands in a segment's tail.
pub fn push_origin(text: &mut Vec<u8>, origin: Origin) -> Result<(), NoMemory>
    ensures { OnOk result (text.new.items ≡ text.old.items ++ origin_text origin) }
{
    match origin {
        Origin::File(off) => push_hex(text, off),
        Origin::Tail => push(text, b"tail"),
    }
}

fn push_entry(text: &mut Vec<u8>, pa: u64, entry: Option<PWord>) -> Result<(), NoMemory>
    ensures { OnOk result (text.new.items ≡ text.old.items ++ place_lines (entry_places pa entry)) }
{
    let Some(word) = entry else { return Ok(()) };
    push(text, b"place - ")?;
    push_hex(text, pa)?;
    push(text, b" ")?;
    push_origin(text, word.off)?;
    push(text, b" ")?;
    push_hex(text, word.value)?;
    push(text, b"\n")
}

/// The lines of a stop: its rule, the address that was asked, and the word that shows it.
pub fn broken_text(alloc: Global, miss: Miss) -> Result<Vec<u8>, NoMemory>
    ensures { IfOk result (λ text. text.items ≡ broken_text miss) }
{
    let mut text = Vec::new(alloc);
    push_rule(&mut text, miss.rule, miss.va)?;
    push_stop(&mut text, miss.rule, miss.level, miss.pa)?;
    push_entry(&mut text, miss.pa, miss.entry)?;
    Ok(text)
}

// Adds a virtual address, or a dash in place of none.
fn push_address(text: &mut Vec<u8>, va: Option<u64>) -> Result<(), NoMemory>
    ensures { OnOk result (text.new.items ≡ text.old.items ++ address_text va) }
{
    match va {
        Some(va) => push_hex(text, va),
        None => push(text, b"-"),
    }
}

/// Adds the line of a word that shows something: its virtual address, or a dash for a paging entry, its physical
/// address, its file offset, or `tail` where it stands in a segment's tail, and its value.
pub fn push_place(text: &mut Vec<u8>, place: Place) -> Result<(), NoMemory>
    ensures { OnOk result (text.new.items ≡ text.old.items ++ place_line place) }
{
    push(text, b"place ")?;
    push_address(text, place.va)?;
    push(text, b" ")?;
    push_hex(text, place.pa)?;
    push(text, b" ")?;
    push_origin(text, place.off)?;
    push(text, b" ")?;
    push_hex(text, place.value)?;
    push(text, b"\n")
}

/// Adds the lines of these words, in their order.
pub fn push_places(text: &mut Vec<u8>, places: &[Place]) -> Result<(), NoMemory>
    ensures { OnOk result (text.new.items ≡ text.old.items ++ place_lines places.now) }
{
    for place in places {
        push_place(text, *place)?;
    }
    Ok(())
}
