// A plan, and what it keeps.
ghost use Rattle.std.specs.Prelude.{◌≤◌, length, IsTrue};
ghost use Rattle.kc_plan.specs.Kept.{have_names, are_later, is_version, named_once};
ghost use Rattle.kc_plan.specs.Planned.{audits_seen};

use crate::planned::{Audit, AuditList};
use kc_word::Tail;

/// What a kernel's memory is audited for: at most 256 audits. Each has a name of 1 to 64 letters, digits, `_` and
/// `-`, and names audits behind it only. An audit that begins at a `from` is named once in the plan, and any other
/// never.
#[derive(Drop)]
pub struct Plan {
    /// 1 for one verdict on all audits, or 2 for one on each root audit.
    pub version: u8,
    /// How the memory that a segment has and the file leaves out is read.
    pub tail: Tail,
    /// The audits, in the order of the plan.
    pub audits: AuditList,
    pub ghost known: { IsTrue (is_version version) },
    pub ghost few: { length audits ≤ 256 },
    pub ghost names: { IsTrue (have_names (audits_seen audits)) },
    pub ghost later: { IsTrue (are_later 0 (length audits) (audits_seen audits)) },
    pub ghost once: { IsTrue (named_once (audits_seen audits) 0 (audits_seen audits)) },
}

impl Plan {
    ghost use Rattle.std.specs.Prelude.{◌≡◌, ◌≤◌, ◌<◌, length, IsTrue, Some, slice_get};
    ghost use Rattle.kc_text.specs.Readers.{is_name};
    ghost use Rattle.kc_plan.specs.Kept.{are_between};
    ghost use Rattle.kc_plan.specs.Planned.{audit_seen};
    ghost use Rattle.kc_plan.specs.Views.{plan_seen};

    /// The number of audits, at most 256.
    pub fn count(&self) -> u32
        ensures count { result ≡ length self.now.audits }
        ensures few { length self.now.audits ≤ 256 }
    {
        self.audits.len() as u32
    }

    /// The audit with a number, counted from 0. The numbers in its `each` are greater, and below the number of audits.
    pub fn audit(&self, number: u32) -> &Audit
        requires { number < length self.now.audits }
        ensures at { slice_get self.now.audits number ≡ Some result.now }
        ensures seen { slice_get (plan_seen self.now) number ≡ Some (audit_seen result.now) }
        ensures later { IsTrue (are_between number (length self.now.audits) result.now.each) }
        ensures name { IsTrue (is_name result.now.name) }
    {
        self.audits.get(number as usize)
    }
}
