// What VMCOREINFO says of the kernel's memory (the kernel's kdump documents, "VMCOREINFO").
ghost use Rattle.std.specs.Prelude.{◌≡◌, ◌%◌, ◌^◌, ◌<◌, option_and_then, IfOk};
ghost use Rattle.std.specs.Option.{option_copied};
ghost use Rattle.kc_notes.specs.Values.{value_of, behind_key};
ghost use Rattle.kc_word.specs.Decimal.{decimal_number};
ghost use Rattle.kc_word.specs.Hex.{hex_number};
ghost use Rattle.kc_notes.specs.Info.{bits_of, five_levels, kernel_offset, mask_in, mask_of, page_size, phys_base, sme_mask, top_symbol, top_table, top_value, info_of};

use crate::fault::{NoteFault, NoteKey};
use crate::note::place_of;
use kc_word::{read_dec, read_hex};

/// What the kernel says of its memory.
#[derive(Clone, Copy, Debug, PartialEq, Eq)]
pub struct Info {
    /// The physical address of the top page table, in bytes.
    pub table: u64,
    /// Five levels of page tables, and else four.
    pub five: bool,
    /// The bits that memory encryption sets in an entry of a page table.
    pub sme: u64,
    /// How far the kernel's addresses were moved when it started, in bytes.
    pub kaslr: u64,
    /// What is added to an address of the kernel's image, less 0xffffffff80000000, to get its physical
    /// address; in bytes, modulo 2^64.
    pub phys_base: u64,
}

/// The value of a key: the rest of the first line that begins with the key and `=`. `None` exactly where
/// there is none. Lines end at a newline, which isn't part of them; the last may be without one.
pub fn value<'t>(text: &'t [u8], key: &[u8]) -> Option<&'t [u8]>
    ensures { option_copied result ≡ value_of key.now text.now }
{
    let mut rest = text;
    while let Some(end) = place_of(rest, b'\n') {
        let (line, behind) = rest.split_at(end);
        if let Some(found) = behind_key(line, key) {
            return Some(found);
        }
        rest = &behind[1..];
    }
    behind_key(rest, key)
}

// What stands behind a key and `=` at the head of a line.
fn behind_key<'t>(line: &'t [u8], key: &[u8]) -> Option<&'t [u8]>
    ensures { option_copied result ≡ behind_key key.now line.now }
{
    if line.len() > key.len() && &line[..key.len()] == key && line[key.len()] == b'=' {
        Some(&line[key.len() + 1..])
    } else {
        None
    }
}

/// The address that the kernel's image has before it is moved.
const TEXT_BASE: u64 = 0xffff_ffff_8000_0000;

// The decimal number that a key has.
fn decimal(text: &[u8], key: &[u8]) -> Option<i64>
    ensures { result ≡ option_and_then decimal_number (value_of key.now text.now) }
{
    read_dec(value(text, key)?)
}

/// The size of a page, which is 4096 bytes.
#[tactic(auto, unfolding(crate::specs::Info::page_size))]
pub fn page_size(text: &[u8]) -> Result<u64, NoteFault>
    ensures { result ≡ page_size text.now }
{
    match decimal(text, b"PAGESIZE") {
        Some(4096) => Ok(4096),
        _ => Err(NoteFault::V3),
    }
}

// A decimal number as 64 bits, in two's complement.
fn read_bits(text: &[u8]) -> Option<u64>
    ensures { result ≡ bits_of text.now }
{
    Some(read_dec(text)?.cast_unsigned())
}

// The 64 bits of the decimal number that a key has.
fn bits(text: &[u8], key: &[u8]) -> Option<u64>
    ensures { result ≡ option_and_then bits_of (value_of key.now text.now) }
{
    read_bits(value(text, key)?)
}

/// Where the kernel's image was loaded, less where it was built to be, in bytes modulo 2^64.
#[tactic(auto, unfolding(crate::specs::Info::phys_base))]
pub fn phys_base(text: &[u8]) -> Result<u64, NoteFault>
    ensures { result ≡ phys_base text.now }
{
    match bits(text, b"NUMBER(phys_base)") {
        Some(base) => Ok(base),
        None => Err(NoteFault::V4),
    }
}

// The value of the top page table.
#[tactic(auto, unfolding(crate::specs::Info::top_value))]
fn top_value(text: &[u8]) -> Option<&[u8]>
    ensures { option_copied result ≡ top_value text.now }
{
    match value(text, b"SYMBOL(init_top_pgt)") {
        Some(found) => Some(found),
        None => value(text, b"SYMBOL(swapper_pg_dir)"),
    }
}

// The hex number of a value.
fn read_symbol(text: Option<&[u8]>) -> Option<u64>
    ensures { result ≡ option_and_then hex_number (option_copied text.entry) }
{
    read_hex(text?)
}

/// The address of the top page table in the kernel's image.
#[tactic(auto, unfolding(crate::specs::Info::top_symbol))]
pub fn top_symbol(text: &[u8]) -> Result<u64, NoteFault>
    ensures { result ≡ top_symbol text.now }
{
    match read_symbol(top_value(text)) {
        Some(symbol) => Ok(symbol),
        None => Err(NoteFault::V5),
    }
}

/// Whether there are five levels of page tables.
#[tactic(auto, unfolding(crate::specs::Info::five_levels))]
pub fn five_levels(text: &[u8]) -> Result<bool, NoteFault>
    ensures { result ≡ five_levels text.now }
{
    let Some(found) = value(text, b"NUMBER(pgtable_l5_enabled)") else {
        return Ok(false);
    };
    match read_dec(found) {
        Some(0) => Ok(false),
        Some(1) => Ok(true),
        _ => Err(NoteFault::V6(NoteKey::L5)),
    }
}

/// How far the kernel's addresses were moved, in bytes.
#[tactic(auto, unfolding(crate::specs::Info::kernel_offset))]
pub fn kernel_offset(text: &[u8]) -> Result<u64, NoteFault>
    ensures { result ≡ kernel_offset text.now }
{
    let Some(found) = value(text, b"KERNELOFFSET") else {
        return Ok(0);
    };
    match read_hex(found) {
        Some(offset) => Ok(offset),
        None => Err(NoteFault::V6(NoteKey::Offset)),
    }
}

// The bits, where only those are set that an address of a page has.
fn mask_of(bits: u64) -> Option<u64>
    ensures { result ≡ mask_of bits }
{
    if bits % 4096 == 0 && bits < 1 << 52 {
        Some(bits)
    } else {
        None
    }
}

// The bits of a decimal number, where only those are set.
#[tactic(auto, unfolding(crate::specs::Info::mask_in))]
fn read_mask(text: &[u8]) -> Option<u64>
    ensures { result ≡ mask_in text.now }
{
    mask_of(read_bits(text)?)
}

/// The bits that memory encryption sets in an entry of a page table.
#[tactic(auto, unfolding(crate::specs::Info::sme_mask))]
pub fn sme_mask(text: &[u8]) -> Result<u64, NoteFault>
    ensures { result ≡ sme_mask text.now }
{
    let Some(found) = value(text, b"NUMBER(sme_mask)") else {
        return Ok(0);
    };
    match read_mask(found) {
        Some(mask) => Ok(mask),
        None => Err(NoteFault::V6(NoteKey::Sme)),
    }
}

/// The physical address of the top page table, in bytes.
#[tactic(auto, unfolding(crate::specs::Info::top_table))]
pub fn top_table(symbol: u64, base: u64) -> Result<u64, NoteFault>
    ensures table { result ≡ top_table symbol base }
    ensures aligned { IfOk result (λ t. t % 4096 ≡ 0) }
    ensures small { IfOk result (λ t. t < 2 ^ 52) }
{
    let table = symbol.wrapping_sub(TEXT_BASE).wrapping_add(base);
    if table % 4096 == 0 && table < 1 << 52 {
        Ok(table)
    } else {
        Err(NoteFault::V7)
    }
}

/// What the text of VMCOREINFO says of the kernel's memory (the kernel's kdump documents, "VMCOREINFO").
///
/// The top page table is at the symbol less 0xffffffff80000000 plus the physical base, modulo 2^64.
///
/// # Errors
///
/// The first of `V3` to `V7`.
#[tactic(auto, unfolding(crate::specs::Info::info_of))]
pub fn kernel_info(text: &[u8]) -> Result<Info, NoteFault>
    ensures info { result ≡ info_of text.now }
    ensures aligned { IfOk result (λ i. i.table % 4096 ≡ 0) }
    ensures small { IfOk result (λ i. i.table < 2 ^ 52) }
{
    let _ = page_size(text)?;
    let phys_base = phys_base(text)?;
    let symbol = top_symbol(text)?;
    let five = five_levels(text)?;
    let kaslr = kernel_offset(text)?;
    let sme = sme_mask(text)?;
    let table = top_table(symbol, phys_base)?;
    Ok(Info {
        table,
        five,
        sme,
        kaslr,
        phys_base,
    })
}
