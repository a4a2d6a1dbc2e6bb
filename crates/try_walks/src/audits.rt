// Audits. A case gives a plan, the words of memory that are changed, and after `;` a line more of the plan.
ghost use Rattle.std.specs.Prelude.{length, IfOk};
ghost use Rattle.kc_plan.specs.Inside.{AreInside};

use crate::walk::Walks;
use anyhow::{Result, bail};
use kc_btf::Btf;
use kc_cases::Case;
use kc_fixture::{MAP, btf_with_pids};
use kc_found::{Counts, Found, ListSpace, Origin, ReadFailed, Verdict};
use kc_notes::Info;
use kc_plan::{Plan, PlanStop, read_plan};
use kc_run::run;
use kc_syms::Symbols;
use kc_word::Steps;
use std::alloc::{AllocError, Global};
use std::sync::ledger::Ledger;

/// The verdicts on plans over the types and symbols of the made dump.
pub struct Audits;

impl Walks for Audits {
    fn answer<L: Ledger>(
        &self,
        alloc: Global,
        case: &Case<'_>,
        steps: &mut Steps<L>,
    ) -> Result<String> {
        let btf = Btf::read(alloc, btf_with_pids(alloc)?)?;
        let plan = plan_of(alloc, case, &btf)?;
        let mut space = memory_of(alloc, case)?;
        match run(alloc, &plan, &btf, &mut space, steps) {
            Ok(Verdict::Clean(counts)) => Ok(clean_text(alloc, &counts)?),
            Ok(Verdict::Broken(found)) => Ok(broken_text(alloc, &found)?),
            Err(ReadFailed::Fault) => bail!("failed"),
            Err(ReadFailed::NoMemory) => bail!("out of memory"),
        }
    }
}

/// The plan of a case, over the types and symbols of the made dump.
pub fn plan_of(alloc: Global, case: &Case<'_>, btf: &Btf) -> Result<Plan>
    ensures { IfOk result (λ plan. AreInside (length btf.now.records) plan.audits) }
{
    let (given, more) = case.given.split_once(" ; ").unwrap_or((case.given, ""));
    let (name, _) = given.split_once(' ').unwrap_or((given, ""));
    let plan = case
        .file
        .section(format!(in alloc; "plan {name}")?.as_str())?;
    let text = format!(in alloc; "{plan}\n{more}")?;
    let map = format!(in alloc; "{MAP}ffffffff80014000 D my_idr\n")?;
    let symbols = Symbols::read(alloc, map.as_bytes())?;
    match read_plan(alloc, text.as_bytes(), btf, &symbols, &INFO) {
        Ok(plan) => Ok(plan),
        Err(PlanStop::Fault(_)) => bail!("refused"),
        Err(PlanStop::NoMemory) => bail!("out of memory"),
    }
}

/// The memory of a case.
pub fn memory_of(alloc: Global, case: &Case<'_>) -> Result<ListSpace> {
    let (given, _) = case.given.split_once(" ; ").unwrap_or((case.given, ""));
    let (_, changed) = given.split_once(' ').unwrap_or((given, ""));
    case.file
        .memory(alloc, changed, case.file.section("words")?)
}

const INFO: Info = Info {
    table: 0x1000,
    five: false,
    sme: 0,
    kaslr: 0,
    phys_base: 0,
};

/// The walks and elements of each audit.
pub fn clean_text(alloc: Global, counts: &Counts) -> Result<String, AllocError> {
    let mut text = String::from_str(alloc, "clean")?;
    for count in counts.as_slice() {
        write!(&mut text, " {} {}", count.walks, count.elements)?;
    }
    Ok(text)
}

// The audit, the start, the rule, where, what should stand there, and the places.
fn broken_text(alloc: Global, found: &Found) -> Result<String, AllocError> {
    let mut text = format!(in alloc;
        "broken {} {:x} {:?} {:x}",
        found.audit, found.start, found.rule, found.at
    )?;
    match found.expected {
        Some(expected) => write!(&mut text, " {expected:x}")?,
        None => text.push_str(" none")?,
    }
    for place in found.places.as_slice() {
        let va = place.va.unwrap_or(0);
        write!(&mut text, " {va:x} {:x}", place.pa)?;
        match place.off {
            Origin::File(off) => write!(&mut text, " {off:x}")?,
            Origin::Tail => text.push_str(" tail")?,
        }
        write!(&mut text, " {:x}", place.value)?;
    }
    Ok(text)
}
