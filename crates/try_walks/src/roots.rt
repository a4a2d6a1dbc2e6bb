// The root audits of plans, one by one. A case gives what a case of audits does.
use crate::audits::{clean_text, memory_of, plan_of};
use crate::walk::Walks;
use anyhow::{Result, bail};
use kc_btf::Btf;
use kc_cases::Case;
use kc_fixture::btf_file;
use kc_found::{ReadFailed, RootVerdict, Verdict, Verdicts};
use kc_run::{run, run_each};
use kc_word::Steps;
use std::alloc::{AllocError, Global};
use std::sync::ledger::Ledger;

/// The verdicts on plans, and those on each of their root audits.
pub struct RootAudits;

impl Walks for RootAudits {
    fn answer<L: Ledger>(
        &self,
        alloc: Global,
        case: &Case<'_>,
        steps: &mut Steps<L>,
    ) -> Result<String> {
        let btf = Btf::read(alloc, btf_file(alloc)?)?;
        let plan = plan_of(alloc, case, &btf)?;
        let mut space = memory_of(alloc, case)?;
        let first = run(alloc, &plan, &btf, &mut space, steps);
        let each = run_each(alloc, &plan, &btf, &mut space, steps);
        match (first, each) {
            (Ok(first), Ok(each)) => Ok(both_text(alloc, &first, &each)?),
            (Err(ReadFailed::Fault), _) | (_, Err(ReadFailed::Fault)) => bail!("failed"),
            (Err(ReadFailed::NoMemory), _) | (_, Err(ReadFailed::NoMemory)) => bail!(
                "out of memory"
            ),
        }
    }
}

// The counts, or the audit, the rule and where.
fn short_text(alloc: Global, verdict: &Verdict) -> Result<String, AllocError> {
    match verdict {
        Verdict::Clean(counts) => clean_text(alloc, counts),
        Verdict::Broken(found) => {
            format!(in alloc; "broken {} {:?} {:x}", found.audit, found.rule, found.at)
        }
    }
}

// Adds the root audit, the audits that it reaches, and what they come to.
fn push_root(alloc: Global, text: &mut String, root: &RootVerdict) -> Result<(), AllocError> {
    write!(text, " / root {} of", root.root)?;
    for audit in root.audits.as_slice() {
        write!(text, " {audit}")?;
    }
    let verdict = short_text(alloc, &root.verdict)?;
    write!(text, " {verdict}")
}

fn both_text(alloc: Global, first: &Verdict, each: &Verdicts) -> Result<String, AllocError> {
    let mut text = short_text(alloc, first)?;
    for root in each.as_slice() {
        push_root(alloc, &mut text, root)?;
    }
    Ok(text)
}
