// The walk (Intel SDM volume 3A, chapter "Paging": four-level and five-level paging).
ghost use Rattle.std.specs.Prelude.{◌≡◌, ◌+◌, ◌%◌, ◌^◌, ◌<◌, ◌≤◌, None, Err, IfOk};
ghost use Rattle.std.specs.Bool.{OnFalse};
ghost use Rattle.kc_memory.specs.declared.rule.Rule.TheVariants.{M2};
ghost use Rattle.kc_memory.specs.Reads.{StepsAre, entries_read, walk_reads};
ghost use Rattle.kc_memory.specs.Space.{AnswersAs, StopsAt};
ghost use Rattle.kc_memory.specs.Stays.{CountsFaults, FramesStay};
ghost use Rattle.kc_memory.specs.Translation.{entered, is_canonical, levels, translated, xlate};
ghost use Rattle.kc_page.specs.Step.{IsWalked, Keeps, StepsAs};

use crate::entry::{Step, index_at, judge};
use kc_memory::{FrameStop, Frames, Miss, Rule, Stop};
use kc_word::{Pa, PageCfg, Steps};
use std::sync::ledger::Ledger;

// Where the entry of an address at a level leads.
fn enter<F: Frames, L: Ledger>(
    frames: &mut F,
    sme: u64,
    va: u64,
    level: u8,
    table: u64,
    steps: &mut Steps<L>,
) -> Result<Step, Stop>
    requires low { 1 ≤ level }
    requires high { level ≤ 5 }
    requires aligned { table % 4096 ≡ 0 }
    requires small { table < 2 ^ 52 }

    ensures entered { StepsAs (λ physical. entered physical sme va level table) (F.image frames.old) result }
    ensures keeps { IfOk result (Keeps va) }
    ensures stopped { StopsAt result va }
    ensures steps { steps.new ≡ steps.old + 1 }
    ensures stays { FramesStay F.image F.files F.through frames.old frames.new }
    ensures cause { CountsFaults result (F.faults frames.old) (F.faults frames.new) }
{
    let pa = table + 8 * index_at(level, va);
    match frames.word(pa, steps) {
        Ok(word) => judge(va, level, pa, word, word.value & !sme),
        Err(FrameStop::Absent) => Err(Stop::Miss(Miss {
            va,
            rule: Rule::M3,
            level,
            pa,
            entry: None,
        })),
        Err(FrameStop::Fault) => Err(Stop::Fault),
    }
}

// Goes down from a table of a level to the page. Level 0 is the page itself.
fn descend<F: Frames, L: Ledger>(
    frames: &mut F,
    sme: u64,
    va: u64,
    level: u8,
    table: u64,
    steps: &mut Steps<L>,
) -> Result<u64, Stop>
    requires high { level ≤ 5 }
    requires aligned { table % 4096 ≡ 0 }
    requires small { table < 2 ^ 52 }

    ensures translated { AnswersAs (λ physical. xlate physical sme va level table) (F.image frames.old) result }
    ensures stopped { StopsAt result va }
    ensures offset { IfOk result (λ pa. pa % 4096 ≡ va % 4096) }
    ensures small { IfOk result (λ pa. pa < 2 ^ 52) }
    ensures reads { StepsAre (λ physical. entries_read physical sme va level table) (F.image frames.old) result steps.old steps.new }
    ensures steps { steps.new ≤ steps.old + level }
    ensures stays { FramesStay F.image F.files F.through frames.old frames.new }
    ensures cause { CountsFaults result (F.faults frames.old) (F.faults frames.new) }
{
    if level == 0 {
        return Ok(table + va % 4096);
    }
    match enter(frames, sme, va, level, table, steps) {
        Ok(Step::Table(next)) => descend(frames, sme, va, level - 1, next, steps),
        Ok(Step::Large(pa)) => Ok(pa),
        Err(stop) => Err(stop),
    }
}

// Whether the bits above those that the tables translate all equal the highest of these.
fn is_canonical(paging: &PageCfg, va: u64) -> bool
    ensures { result ≡ is_canonical paging.now va }
{
    let sign: u32 = if paging.five { 56 } else { 47 };
    va < 1 << sign || u64::MAX - va < 1 << sign
}

/// The physical address of a virtual one, both in bytes, by the page tables. It takes a step for each entry on the
/// way, and no memory.
///
/// # Errors
///
/// A miss with M2 where the address isn't canonical, else one with M3 to M5 for the first entry that stops it, from the
/// top table down; or a failure to read the dump.
pub fn walk<F: Frames, L: Ledger>(
    frames: &mut F,
    paging: &PageCfg,
    va: u64,
    steps: &mut Steps<L>,
) -> Result<Pa, Stop>
    requires aligned { paging.now.table % 4096 ≡ 0 }
    requires small { paging.now.table < 2 ^ 52 }

    ensures translated { IsWalked (λ physical. translated (record { physical = physical; paging = paging.now }) va) (F.image frames.old) result }
    // An address that isn't canonical is told at once, with no word read.
    ensures outside { OnFalse (is_canonical paging.now va) (result ≡ Err (Stop.Miss (record { va = va; rule = M2; level = 0; pa = 0; entry = None }))) }
    ensures at_once { OnFalse (is_canonical paging.now va) (steps.new ≡ steps.old) }

    ensures stopped { StopsAt result va }
    ensures offset { IfOk result (λ pa. pa.0 % 4096 ≡ va % 4096) }
    ensures small { IfOk result (λ pa. pa.0 < 2 ^ 52) }
    // It looks at the entries on the way, and at no other word.
    ensures reads { StepsAre (λ physical. walk_reads (record { physical = physical; paging = paging.now }) va) (F.image frames.old) result steps.old steps.new }
    ensures steps { steps.new ≤ steps.old + levels paging.now }
    ensures stays { FramesStay F.image F.files F.through frames.old frames.new }
    ensures cause { CountsFaults result (F.faults frames.old) (F.faults frames.new) }
{
    if !is_canonical(paging, va) {
        return Err(Stop::Miss(Miss {
            va,
            rule: Rule::M2,
            level: 0,
            pa: 0,
            entry: None,
        }));
    }
    let levels = if paging.five { 5 } else { 4 };
    match descend(frames, paging.sme, va, levels, paging.table, steps) {
        Ok(pa) => Ok(Pa(pa)),
        Err(stop) => Err(stop),
    }
}
