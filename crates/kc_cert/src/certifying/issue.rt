// The certificate of a dump.
ghost use Rattle.std.specs.Prelude.{length};
ghost use Rattle.kc_memory.specs.Stays.{SpaceStays};
ghost use Rattle.kc_plan.specs.Inside.{AreInside};
ghost use Rattle.kc_plan.specs.Views.{plan_seen};
ghost use Rattle.kc_cert.specs.Certifying.Certified.{CertifiesAs, CountsCertifyFaults, NamesAudit};

use crate::Certificate;
use crate::certifying::pass::Draft;
use kc_btf::Btf;
use kc_found::{Found, Space, WalkStop};
use kc_plan::Plan;
use kc_run::{Known, enter_roots, no_walks};
use kc_word::{NoMemory, Steps};
use std::alloc::Global;
use std::sync::ledger::Ledger;

/// Why a plan has no certificate.
#[derive(Drop)]
pub enum CertStop {
    /// The dump isn't clean. This is the first violation.
    Broken(Found),
    /// Reading the dump failed. The count of faults rose.
    Fault,
    /// No memory was left.
    NoMemory,
}

/// The certificate of a plan over the types that it was read with: the walks of its audits, in the order in which they are made,
/// with the shapes of what they met. Each step of it fits, with the counts of the plan's verdict. A dump that isn't clean has none: its
/// first violation is told, the one that `run` tells.
///
/// # Errors
///
/// The violation, exactly where the dump isn't clean; a failure of the space, whose count of faults then rose; or out of memory.
pub fn certify<S: Space, L: Ledger>(
    alloc: Global,
    plan: &Plan,
    btf: &Btf,
    space: &mut S,
    steps: &mut Steps<L>,
) -> Result<Certificate, CertStop>
    requires { AreInside (length btf.now.records) plan.now.audits }

    ensures exact { CertifiesAs (S.image space.old) (plan_seen plan.now) result }
    ensures named { NamesAudit result (length plan.now.audits) }

    ensures stays { SpaceStays S.image S.files S.through S.most space.old space.new }
    ensures cause { CountsCertifyFaults result (S.faults space.old) (S.faults space.new) }
{
    let counts = match no_walks(alloc, plan) {
        Ok(counts) => counts,
        Err(NoMemory) => return Err(CertStop::NoMemory),
    };
    let mut draft = Draft {
        made: Certificate::new(alloc),
        counts,
    };
    match enter_roots(&Known { alloc, plan, btf }, space, &mut draft, steps) {
        Ok(()) => Ok(draft.made),
        Err(WalkStop::Broken(found)) => Err(CertStop::Broken(found)),
        Err(WalkStop::Fault) => Err(CertStop::Fault),
        Err(WalkStop::NoMemory) => Err(CertStop::NoMemory),
    }
}
