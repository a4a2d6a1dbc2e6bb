// What is printed.
ghost use Rattle.std.specs.Prelude.{◌≡◌, ◌++◌, ◌-◌, ◌≤◌, length, option_and_then, option_map, slice_get, Ok, OnOk};
ghost use Rattle.kc_sight.specs.Entries.{page_bytes};
ghost use Rattle.kc_sight.specs.Meanings.{meaning};
ghost use Rattle.kc_text.specs.Compose.{texts};
ghost use Rattle.kc_sight.specs.Views.{image_symbols, sight_view, symbol_view};
ghost use Rattle.kc_told.specs.Text.{alias_line, around_lines, beside_lines, bounds_line, byte_text, entry_line, head_lines, is_absent, is_mapped, meaning_text, near_line, number_text, seen_line, page_line, pattern_text, size_line, span_line, stopped_text, sight_lines, symbol_line, symbol_text, word_line, word_text};

use crate::near::{Lead, NearWord};
use crate::near_text::push_lead;
use crate::span::{Bounds, spanned};
use kc_memory::{Miss, Rule, VWord, place_of};
use kc_report::{push_origin, push_place, rule_code};
use kc_sight::{ImageMap, Meaning, Seen, Sight, Symbol, TableEntry, meaning_of, page_bytes};
use kc_text::{push, push_decimal, push_hex, push_name, push_numbered};
use kc_word::NoMemory;

// A symbol, and how many bytes an address is behind it.
pub(crate) fn push_symbol(
    text: &mut Vec<u8>,
    symbol: Symbol<'_>,
    address: u64,
) -> Result<(), NoMemory>
    ensures { OnOk result (text.new.items ≡ text.old.items ++ symbol_text (symbol_view symbol.entry) address) }
{
    push_name(text, symbol.name)?;
    push_numbered(text, b"+", address.saturating_sub(symbol.address))
}

// The line of the symbol that stands nearest.
pub(crate) fn push_symbol_line(
    text: &mut Vec<u8>,
    symbol: Option<Symbol<'_>>,
    address: u64,
) -> Result<(), NoMemory>
    ensures { OnOk result (text.new.items ≡ text.old.items ++ symbol_line (option_map symbol_view symbol.entry) address) }
{
    let Some(symbol) = symbol else {
        return Ok(());
    };
    push(text, b"symbol ")?;
    push_symbol(text, symbol, address)?;
    push(text, b"\n")
}

// The line of an entry of a page table.
fn push_entry(text: &mut Vec<u8>, entry: &TableEntry) -> Result<(), NoMemory>
    ensures { OnOk result (text.new.items ≡ text.old.items ++ entry_line entry.now) }
{
    push_numbered(text, b"entry ", u64::from(entry.level))?;
    push(text, b" ")?;
    push_hex(text, entry.pa)?;
    push(text, b" ")?;
    push_origin(text, entry.word.off)?;
    push(text, b" ")?;
    push_hex(text, entry.word.value)?;
    push(text, b"\n")
}

fn push_entries(text: &mut Vec<u8>, entries: &[TableEntry]) -> Result<(), NoMemory>
    ensures { OnOk result (text.new.items ≡ text.old.items ++ texts entry_line entries.now) }
{
    for entry in entries {
        push_entry(text, entry)?;
    }
    Ok(())
}

// Whether the word alone is absent.
fn is_absent(rule: Rule) -> bool
    ensures { result ≡ is_absent rule }
{
    matches!(rule, Rule::M6)
}

// Whether the last entry maps a page.
fn is_mapped(word: &Seen) -> bool
    ensures { result ≡ is_mapped word.now }
{
    match word {
        Ok(_) => true,
        Err(miss) => is_absent(miss.rule),
    }
}

// The line of the page's size.
fn push_size(text: &mut Vec<u8>, bytes: Option<u64>) -> Result<(), NoMemory>
    ensures { OnOk result (text.new.items ≡ text.old.items ++ size_line bytes) }
{
    let Some(bytes) = bytes else {
        return Ok(());
    };
    push_numbered(text, b"page ", bytes)?;
    push(text, b"\n")
}

// The number of bytes of the page that the last entry maps.
fn last_page(entries: &[TableEntry]) -> Option<u64>
    ensures { result ≡ option_and_then (λ e. page_bytes e.level) (slice_get entries.now (length entries.now - 1)) }
{
    page_bytes(entries.last()?.level)
}

fn push_page(text: &mut Vec<u8>, word: &Seen, entries: &[TableEntry]) -> Result<(), NoMemory>
    ensures { OnOk result (text.new.items ≡ text.old.items ++ page_line word.now entries.now) }
{
    if !is_mapped(word) {
        return Ok(());
    }
    push_size(text, last_page(entries))
}

// The rule that stopped the reading, and where.
fn push_stopped(text: &mut Vec<u8>, miss: &Miss) -> Result<(), NoMemory>
    ensures { OnOk result (text.new.items ≡ text.old.items ++ stopped_text miss.now) }
{
    push(text, b"stopped ")?;
    push(text, rule_code(miss.rule))?;
    push_numbered(text, b" ", u64::from(miss.level))?;
    push(text, b" ")?;
    push_hex(text, miss.pa)?;
    push(text, b"\n")
}

// The line of the word that holds the address.
fn push_word(text: &mut Vec<u8>, word: &Seen) -> Result<(), NoMemory>
    ensures { OnOk result (text.new.items ≡ text.old.items ++ word_line word.now) }
{
    match word {
        Ok(word) => push_place(text, place_of(word)),
        Err(miss) => push_stopped(text, miss),
    }
}

// The line of the same physical word at another address.
fn push_alias(text: &mut Vec<u8>, alias: Option<VWord>) -> Result<(), NoMemory>
    ensures { OnOk result (text.new.items ≡ text.old.items ++ alias_line alias) }
{
    let Some(word) = alias else {
        return Ok(());
    };
    push(text, b"alias ")?;
    push_hex(text, word.va)?;
    push(text, b"\n")
}

// A number that is an address of the kernel's image, or what another one leads to.
fn push_number(
    text: &mut Vec<u8>,
    symbol: Option<Symbol<'_>>,
    lead: &Lead,
    value: u64,
) -> Result<(), NoMemory>
    ensures { OnOk result (text.new.items ≡ text.old.items ++ number_text (option_map symbol_view symbol.entry) lead.now value) }
{
    let Some(symbol) = symbol else {
        return push_lead(text, lead);
    };
    push(text, b"image ")?;
    push_symbol(text, symbol, value)
}

// A byte of a text, on one line.
fn push_byte(text: &mut Vec<u8>, byte: u8) -> Result<(), NoMemory>
    ensures { OnOk result (text.new.items ≡ text.old.items ++ byte_text byte) }
{
    match byte {
        0 => Ok(()),
        b'\t' => push(text, b"\\t"),
        b'\n' => push(text, b"\\n"),
        b'\r' => push(text, b"\\r"),
        b'"' => push(text, b"\\\""),
        b'\\' => push(text, b"\\\\"),
        _ => push(text, &[byte]),
    }
}

fn push_bytes(text: &mut Vec<u8>, bytes: &[u8]) -> Result<(), NoMemory>
    ensures { OnOk result (text.new.items ≡ text.old.items ++ texts byte_text bytes.now) }
{
    for byte in bytes {
        push_byte(text, *byte)?;
    }
    Ok(())
}

// The text that a word is.
#[tactic(auto, unfolding(crate::specs::Text::word_text))]
fn push_text(text: &mut Vec<u8>, value: u64) -> Result<(), NoMemory>
    ensures { OnOk result (text.new.items ≡ text.old.items ++ word_text value) }
{
    push(text, b"text \"")?;
    push_bytes(text, &value.to_le_bytes())?;
    push(text, b"\"")
}

// A byte that the kernel fills memory with, by the kernel's names of it.
fn pattern_text(byte: u8) -> &'static [u8]
    ensures { result.now ≡ pattern_text byte }
{
    match byte {
        0x5a => b"pattern 5a POISON_INUSE",
        0x6b => b"pattern 6b POISON_FREE",
        0xa5 => b"pattern a5 POISON_END",
        0xaa => b"pattern aa PAGE_POISON",
        0xbb => b"pattern bb SLUB_RED_INACTIVE",
        0xcc => b"pattern cc SLUB_RED_ACTIVE|POISON_FREE_INITMEM",
        _ => b"pattern",
    }
}

// What a word says.
pub(crate) fn push_meaning(
    text: &mut Vec<u8>,
    image: &ImageMap<'_>,
    lead: &Lead,
    meaning: Meaning,
    value: u64,
) -> Result<(), NoMemory>
    ensures { OnOk result (text.new.items ≡ text.old.items ++ meaning_text (image_symbols image.now) lead.now meaning value) }
{
    match meaning {
        Meaning::Zero => push(text, b"zero"),
        Meaning::Own => push(text, b"self"),
        Meaning::Unlisted => push(text, b"unlisted"),
        Meaning::Pattern(byte) => push(text, pattern_text(byte)),
        Meaning::Text => push_text(text, value),
        Meaning::Small => push_numbered(text, b"small ", value),
        Meaning::Number => push_number(text, image.symbol(value), lead, value),
    }
}

// A word beside the address, with what it says.
fn push_said(
    text: &mut Vec<u8>,
    image: &ImageMap<'_>,
    lead: &Lead,
    word: &VWord,
) -> Result<(), NoMemory>
    ensures { OnOk result (text.new.items ≡ text.old.items ++ seen_line (image_symbols image.now) lead.now (Ok word.now)) }
{
    push(text, b"near ")?;
    push_hex(text, word.va)?;
    push(text, b" ")?;
    push_hex(text, word.value)?;
    push(text, b" ")?;
    push_meaning(
        text,
        image,
        lead,
        meaning_of(word.va, word.value),
        word.value,
    )?;
    push(text, b"\n")
}

// The same of one that may not be there.
fn push_near(text: &mut Vec<u8>, image: &ImageMap<'_>, near: &NearWord) -> Result<(), NoMemory>
    ensures { OnOk result (text.new.items ≡ text.old.items ++ near_line (image_symbols image.now) near.now) }
{
    match &near.seen {
        Ok(word) => push_said(text, image, &near.lead, word),
        Err(miss) => {
            push(text, b"near ")?;
            push_hex(text, miss.va)?;
            push(text, b" ")?;
            push_stopped(text, miss)
        }
    }
}

fn push_all_near(
    text: &mut Vec<u8>,
    image: &ImageMap<'_>,
    near: &[NearWord],
) -> Result<(), NoMemory>
    ensures { OnOk result (text.new.items ≡ text.old.items ++ texts (near_line (image_symbols image.now)) near.now) }
{
    for word in near {
        push_near(text, image, word)?;
    }
    Ok(())
}

// The line of the first and the last byte of words that say the same.
fn push_bounds(text: &mut Vec<u8>, bounds: Bounds) -> Result<(), NoMemory>
    ensures { OnOk result (text.new.items ≡ text.old.items ++ bounds_line bounds) }
{
    push(text, b"span ")?;
    push_hex(text, bounds.first)?;
    push(text, b" ")?;
    push_hex(text, bounds.last)?;
    push(text, b"\n")
}

// How far what the word at an address says goes on in its 4096 bytes.
pub(crate) fn push_span(
    text: &mut Vec<u8>,
    va: u64,
    meaning: Meaning,
    page: &[Seen],
) -> Result<(), NoMemory>
    ensures { OnOk result (text.new.items ≡ text.old.items ++ span_line va meaning page.now) }
{
    match spanned(va, meaning, page) {
        Some(bounds) => push_bounds(text, bounds),
        None => Ok(()),
    }
}

// The words beside a word, and how far what it says goes on.
fn push_around(
    text: &mut Vec<u8>,
    image: &ImageMap<'_>,
    word: &VWord,
    near: &[NearWord],
    page: &[Seen],
) -> Result<(), NoMemory>
    ensures { OnOk result (text.new.items ≡ text.old.items ++ around_lines (image_symbols image.now) word.now near.now page.now) }
{
    push_all_near(text, image, near)?;
    push_span(text, word.va, meaning_of(word.va, word.value), page)
}

// The same of a word that may not be there.
fn push_beside(
    text: &mut Vec<u8>,
    image: &ImageMap<'_>,
    word: &Seen,
    near: &[NearWord],
    page: &[Seen],
) -> Result<(), NoMemory>
    ensures { OnOk result (text.new.items ≡ text.old.items ++ beside_lines (image_symbols image.now) word.now near.now page.now) }
{
    match word {
        Ok(word) => push_around(text, image, word, near, page),
        Err(_) => Ok(()),
    }
}

/// Adds the lines of an address and of the symbol of the kernel's image that stands nearest.
pub fn push_head(text: &mut Vec<u8>, image: &ImageMap<'_>, address: u64) -> Result<(), NoMemory>
    ensures { OnOk result (text.new.items ≡ text.old.items ++ head_lines (image_symbols image.now) address) }
{
    push(text, b"address ")?;
    push_hex(text, address)?;
    push(text, b"\n")?;
    push_symbol_line(text, image.symbol(address), address)
}

/// Adds the lines of what is seen of an address, with the symbols of the kernel's image and what the words beside it lead to.
pub fn push_sight(
    text: &mut Vec<u8>,
    image: &ImageMap<'_>,
    sight: &Sight,
    near: &[NearWord],
) -> Result<(), NoMemory>
    ensures { OnOk result (text.new.items ≡ text.old.items ++ sight_lines (image_symbols image.now) (sight_view sight.now) near.now) }
{
    push_entries(text, &sight.entries)?;
    push_page(text, &sight.word, &sight.entries)?;
    push_word(text, &sight.word)?;
    push_alias(text, sight.aliases.direct)?;
    push_alias(text, sight.aliases.image)?;
    push_beside(text, image, &sight.word, near, &sight.page)
}
