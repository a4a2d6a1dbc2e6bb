// What a plan's audits come to.
use crate::found::Found;
use crate::items::{Audits, Counts};

/// What an audit that found nothing did.
#[derive(Clone, Copy, Debug, PartialEq, Eq)]
pub struct AuditCount {
    /// How many walks were made. It stays at 2^64 - 1 once it is there.
    pub walks: u64,
    /// How many elements they met. It stays at 2^64 - 1 once it is there.
    pub elements: u64,
}

/// What the audits of a plan come to, or those under one of its roots.
#[derive(Drop)]
pub enum Verdict {
    /// No audit found a violation. There is one count for each of them, in the order of the plan.
    Clean(Counts),
    /// The first violation.
    Broken(Found),
}

/// What the audits come to that a root audit of the plan reaches.
#[derive(Drop)]
pub struct RootVerdict {
    /// The number of the root audit in its plan.
    pub root: u32,
    /// The numbers of the audits that it reaches, itself included, in the order of the plan.
    pub audits: Audits,
    /// What these audits come to.
    pub verdict: Verdict,
}
