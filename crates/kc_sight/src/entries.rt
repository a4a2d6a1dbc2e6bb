// The entries of the page tables on the way to a virtual address (Intel SDM volume 3A, chapter "Paging").
ghost use Rattle.std.specs.Prelude.{◌≡◌, ℕ, ◌+◌, ◌-◌, ◌*◌, ◌%◌, ◌^◌, ◌<◌, ◌≤◌, ◌++◌, OnOk, IfSome};
ghost use Rattle.kc_memory.specs.declared.words.PWord.{PWord as Word};
ghost use Rattle.kc_memory.specs.Stays.{FramesStay};
ghost use Rattle.kc_memory.specs.Translation.{index_at, is_canonical, is_set, judged, levels, refusal};
ghost use Rattle.kc_sight.specs.Entries.{entries, entries_from, page_bytes, table_in};
ghost use Rattle.kc_sight.specs.Looks.{LooksAs};
ghost use Rattle.kc_found.specs.Failures.{CountsFailures};

use kc_found::ReadFailed;
use kc_memory::{FrameStop, Frames, PWord};
use kc_word::{PageCfg, Steps};
use std::alloc::Global;
use std::sync::ledger::Ledger;

const PAGE_BITS: u32 = 12;

const INDEX_BITS: u32 = 9;

/// An entry of a page table on the way to a virtual address.
#[derive(Clone, Copy, Debug, PartialEq, Eq)]
pub struct TableEntry {
    /// The level of its table: 1 for a PTE, 2 for a PDE, 3 for a PDPTE, 4 for a PML4E, 5 for a PML5E.
    pub level: u8,
    /// Its physical address in bytes.
    pub pa: u64,
    /// It as it stands in the dump.
    pub word: PWord,
}

// The bit of an address at which the index of a table begins.
fn first_bit(level: u8) -> u32
    requires low { 1 ≤ level }
    requires high { level ≤ 5 }
    ensures { result ≡ 12 + 9 * (level - 1) }
{
    PAGE_BITS + INDEX_BITS * (u32::from(level) - 1)
}

// The number of the entry of an address in a table of a level.
fn index_at(level: u8, va: u64) -> u64
    requires low { 1 ≤ level }
    requires high { level ≤ 5 }
    ensures value { result ≡ index_at level va }
    ensures small { result < 512 }
{
    (va >> first_bit(level)) % 512
}

fn is_set(bit: u32, entry: u64) -> bool
    requires { bit < 64 }
    ensures { result ≡ is_set bit entry }
{
    (entry >> bit) % 2 == 1
}

// The table of the level below, where an entry leads to one: it is present, and maps no large page. With bit 7 it maps one, or that
// bit is reserved; in a PTE it tells the memory's type.
fn table_below(level: u8, entry: u64) -> Option<u64>
    requires low { 1 ≤ level }
    requires high { level ≤ 5 }
    ensures table { (va pa : ℕ) (word : Word) → result ≡ table_in (judged va level pa word entry (refusal level entry)) }
    ensures aligned { IfSome result (λ table. table % 4096 ≡ 0) }
    ensures small { IfSome result (λ table. table < 2 ^ 52) }
{
    if !is_set(0, entry) || (level > 1 && is_set(7, entry)) {
        None
    } else {
        Some(entry % (1 << 52) / 4096 * 4096)
    }
}

// Adds the entries from a table of a level down.
fn push_entries<F: Frames, L: Ledger>(
    entries: &mut Vec<TableEntry>,
    frames: &mut F,
    sme: u64,
    va: u64,
    level: u8,
    table: u64,
    steps: &mut Steps<L>,
) -> Result<(), ReadFailed>
    requires high { level ≤ 5 }
    requires aligned { table % 4096 ≡ 0 }
    requires small { table < 2 ^ 52 }

    ensures entries { OnOk result (IfSome (F.image frames.old)
        (λ physical. entries.new.items ≡ entries.old.items ++ entries_from physical sme va level table)) }
    ensures steps { steps.new ≤ steps.old + level }
    ensures stays { FramesStay F.image F.files F.through frames.old frames.new }
    ensures cause { CountsFailures result (F.faults frames.old) (F.faults frames.new) }
{
    if level == 0 {
        return Ok(());
    }
    let pa = table + 8 * index_at(level, va);
    let word = match frames.word(pa, steps) {
        Ok(word) => word,
        Err(FrameStop::Absent) => return Ok(()),
        Err(FrameStop::Fault) => return Err(ReadFailed::Fault),
    };
    entries.push(TableEntry { level, pa, word })?;
    match table_below(level, word.value & !sme) {
        Some(next) => push_entries(entries, frames, sme, va, level - 1, next, steps),
        None => Ok(()),
    }
}

// Whether the bits above those that the tables translate all equal the highest of these.
fn is_canonical(paging: &PageCfg, va: u64) -> bool
    ensures { result ≡ is_canonical paging.now va }
{
    let sign: u32 = if paging.five { 56 } else { 47 };
    va < 1 << sign || u64::MAX - va < 1 << sign
}

/// The entries of the page tables on the way to a virtual address, from the top table down to the entry that maps its page or stops
/// its translation; none where the address isn't canonical. An entry that the dump doesn't have ends them before it.
///
/// # Errors
///
/// A failure to read the dump; no memory was left.
pub fn read_entries<F: Frames, L: Ledger>(
    alloc: Global,
    frames: &mut F,
    paging: &PageCfg,
    va: u64,
    steps: &mut Steps<L>,
) -> Result<Vec<TableEntry>, ReadFailed>
    requires aligned { paging.now.table % 4096 ≡ 0 }
    requires small { paging.now.table < 2 ^ 52 }

    ensures entries { LooksAs (λ found. found.items) (λ physical. entries (record { physical = physical; paging = paging.now }) va) (F.image frames.old) result }
    ensures steps { steps.new ≤ steps.old + levels paging.now }
    ensures stays { FramesStay F.image F.files F.through frames.old frames.new }
    ensures cause { CountsFailures result (F.faults frames.old) (F.faults frames.new) }
{
    let mut entries = Vec::new(alloc);
    if is_canonical(paging, va) {
        let levels = if paging.five { 5 } else { 4 };
        push_entries(
            &mut entries,
            frames,
            paging.sme,
            va,
            levels,
            paging.table,
            steps,
        )?;
    }
    Ok(entries)
}

/// The number of bytes of the page that an entry of this level maps, where it can map one.
pub fn page_bytes(level: u8) -> Option<u64>
    ensures { result ≡ page_bytes level }
{
    match level {
        1 => Some(1 << 12),
        2 => Some(1 << 21),
        3 => Some(1 << 30),
        _ => None,
    }
}
