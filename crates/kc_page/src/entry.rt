// One entry of a page table (Intel SDM volume 3A, chapter "Paging": "Hierarchical Paging Structures").
ghost use Rattle.std.specs.Prelude.{◌≡◌, ◌+◌, ◌-◌, ◌*◌, ◌%◌, ◌/◌, ◌^◌, ◌<◌, ◌≤◌, ◌&&◌, nat_eq, nat_lt, Some, IfOk};
ghost use Rattle.kc_memory.specs.Space.{OnFault, StopsAt};
ghost use Rattle.kc_memory.specs.Translation.{Way, address_from, has_reserved, in_page, index_at, is_set, judged, refusal, way};
ghost use Rattle.kc_page.specs.Step.{IsJudged, IsStep, Keeps};

use kc_memory::{Miss, PWord, Rule, Stop};

const PAGE_BITS: u32 = 12;

const INDEX_BITS: u32 = 9;

/// Where an entry leads: to a table of the level below, or to the place of the address in a large page.
#[derive(Clone, Copy, Debug, PartialEq, Eq)]
pub enum Step {
    Table(u64),
    Large(u64),
}

/// The nine bits of an address that choose the entry of a table at a level.
pub fn index_at(level: u8, va: u64) -> u64
    requires low { 1 ≤ level }
    requires high { level ≤ 5 }
    ensures value { result ≡ index_at level va }
    ensures small { result < 512 }
{
    (va >> (PAGE_BITS + INDEX_BITS * (u32::from(level) - 1))) % 512
}

fn is_set(bit: u32, entry: u64) -> bool
    requires { bit < 64 }
    ensures { result ≡ is_set bit entry }
{
    (entry >> bit) % 2 == 1
}

// Whether bits 29 to 13 are set, which a 1 GiB page reserves.
fn reserves_gib(entry: u64) -> bool
    ensures { result ≡ nat_lt 0 (entry % 2 ^ 30 / 2 ^ 13) }
{
    entry % (1 << 30) / (1 << 13) > 0
}

// Whether bits 20 to 13 are set, which a 2 MiB page reserves.
fn reserves_mib(entry: u64) -> bool
    ensures { result ≡ nat_lt 0 (entry % 2 ^ 21 / 2 ^ 13) }
{
    entry % (1 << 21) / (1 << 13) > 0
}

fn has_reserved(level: u8, entry: u64) -> bool
    ensures { result ≡ has_reserved level entry }
{
    let gib = reserves_gib(entry);
    let mib = reserves_mib(entry);
    is_set(7, entry) && (level >= 4 || (level == 3 && gib) || (level == 2 && mib))
}

// Why a present entry is refused.
fn refusal(level: u8, entry: u64) -> Option<Rule>
    ensures { result ≡ refusal level entry }
{
    if !is_set(0, entry) {
        Some(Rule::M4)
    } else if has_reserved(level, entry) {
        Some(Rule::M5)
    } else {
        None
    }
}

// The place of an address in the 1 GiB page that an entry maps.
fn in_gib(entry: u64, va: u64) -> u64
    ensures value { result ≡ in_page 30 entry va }
    ensures offset { result % 4096 ≡ va % 4096 }
    ensures small { result < 2 ^ 52 }
{
    entry % (1 << 52) / (1 << 30) * (1 << 30) + va % (1 << 30)
}

// The place of an address in the 2 MiB page that an entry maps.
fn in_mib(entry: u64, va: u64) -> u64
    ensures value { result ≡ in_page 21 entry va }
    ensures offset { result % 4096 ≡ va % 4096 }
    ensures small { result < 2 ^ 52 }
{
    entry % (1 << 52) / (1 << 21) * (1 << 21) + va % (1 << 21)
}

// Bits 51 to 12 of an entry in their places.
fn table_of(entry: u64) -> u64
    ensures value { result ≡ address_from 12 entry }
    ensures aligned { result % 4096 ≡ 0 }
    ensures small { result < 2 ^ 52 }
{
    entry % (1 << 52) / 4096 * 4096
}

// Where a good entry leads.
fn way(level: u8, entry: u64, va: u64) -> Step
    ensures way { IsStep (way level entry va) result }
    ensures keeps { Keeps va result }
{
    let large = is_set(7, entry);
    if large && level == 3 {
        Step::Large(in_gib(entry, va))
    } else if large && level == 2 {
        Step::Large(in_mib(entry, va))
    } else {
        Step::Table(table_of(entry))
    }
}

/// What an entry says, without the bits of memory encryption. `word` is the entry as it stands in the dump,
/// at the physical address `pa`.
pub fn judge(va: u64, level: u8, pa: u64, word: PWord, entry: u64) -> Result<Step, Stop>
    requires low { 1 ≤ level }
    requires high { level ≤ 5 }

    ensures judged { IsJudged (judged va level pa word entry (refusal level entry)) result }
    ensures keeps { IfOk result (Keeps va) }
    ensures stopped { StopsAt result va }
    ensures never { OnFault result ⊥ }
{
    match refusal(level, entry) {
        Some(rule) => Err(Stop::Miss(Miss {
            va,
            rule,
            level,
            pa,
            entry: Some(word),
        })),
        None => Ok(way(level, entry, va)),
    }
}
