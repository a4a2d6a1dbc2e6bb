// The walk that broke, which is made before the root audit.
ghost use Rattle.std.specs.Prelude.{◌≡◌, length, IfOk, IfSome, Some};
ghost use Rattle.kc_found.specs.Failures.{CountsFailures};
ghost use Rattle.kc_kinds.specs.Inside.{KindInside};
ghost use Rattle.kc_plan.specs.Inside.{AreInside as TypesAreInside};
ghost use Rattle.kc_plan.specs.Views.{plan_seen};
ghost use Rattle.kc_repair.specs.Repairs.{EndsAs, WalkInside, any_leads, breach_of, breaking_of, counted, first_found, found_by, if_finds, is_same, planned_kind, planned_walk, walk_from, walked_kind};
ghost use Rattle.kc_repair.specs.Suspect.Answers.{OnlyReads};

use crate::outcome::Breach;
use crate::trial::RootAudit;
use kc_btf::Btf;
use kc_found::{Asked, Found, ReadFailed, Space, WalkStop, Walked};
use kc_kinds::Kind;
use kc_run::walk;
use kc_word::Steps;
use std::alloc::Global;
use std::sync::ledger::Ledger;

/// A walk that is made before a root audit.
#[derive(Clone, Copy)]
pub struct FirstWalk {
    /// The kind of the structure.
    pub kind: Kind,
    /// The number of the audit, and the address from which it walks.
    pub asked: Asked,
}

/// A violation for which suspects are tried, and the walk that finds it, where one does.
#[derive(Clone, Copy)]
pub struct Breaking {
    /// Its rule and its address.
    pub found: Breach,
    /// The walk.
    pub walk: Option<FirstWalk>,
    /// What of this walk's violations a suspect leads to, if not to any: to one of this rule at this address, which is where it was.
    pub only: Option<Breach>,
}

// What a walk found broken.
fn wrong_in(walked: Result<Walked, WalkStop>) -> Result<Option<Found>, ReadFailed>
    ensures { EndsAs walked result }
{
    match walked {
        Ok(_) => Ok(None),
        Err(WalkStop::Broken(found)) => Ok(Some(found)),
        Err(WalkStop::Fault) => Err(ReadFailed::Fault),
        Err(WalkStop::NoMemory) => Err(ReadFailed::NoMemory),
    }
}

// What a walk finds broken.
fn found_by<M: Space, L: Ledger>(
    alloc: Global,
    types: &Btf,
    memory: &mut M,
    first: &FirstWalk,
    steps: &mut Steps<L>,
) -> Result<Option<Found>, ReadFailed>
    requires { KindInside (length types.now.records) first.now.kind }
    ensures exact { IfOk result (λ found. IfSome (M.image memory.old) (λ image. found_by image first.now ≡ found)) }
    ensures reads { OnlyReads M.image M.files M.through M.most M.faults result memory.old memory.new }
{
    wrong_in(walk(alloc, types, memory, &first.kind, &first.asked, steps))
}

/// What a walk finds broken, where one is made.
pub(crate) fn first_found<M: Space, L: Ledger>(
    alloc: Global,
    types: &Btf,
    memory: &mut M,
    walk: &Option<FirstWalk>,
    steps: &mut Steps<L>,
) -> Result<Option<Found>, ReadFailed>
    requires { WalkInside (length types.now.records) walk.now }
    ensures exact { IfOk result (λ found. IfSome (M.image memory.old) (λ image. first_found image walk.now ≡ found)) }
    ensures reads { OnlyReads M.image M.files M.through M.most M.faults result memory.old memory.new }
{
    match walk {
        Some(walk) => found_by(alloc, types, memory, walk, steps),
        None => Ok(None),
    }
}

/// Whether a violation is of the same rule at the same address.
pub(crate) fn is_same(found: Breach, other: &Found) -> bool
    ensures { result ≡ is_same found other.now }
{
    other.rule == found.rule && other.at == found.at
}

/// A violation, if it counts: any, or only one of a rule at an address.
pub(crate) fn counted(only: Option<Breach>, found: Option<Found>) -> Option<Found>
    ensures { result ≡ counted only found }
{
    match (only, found) {
        (None, found) => found,
        (Some(only), Some(found)) if is_same(only, &found) => Some(found),
        (Some(_), _) => None,
    }
}

// The rule and the address of a violation.
fn breach_of(found: &Found) -> Breach
    ensures { result ≡ breach_of found.now }
{
    Breach {
        rule: found.rule,
        at: found.at,
    }
}

// The kind of the audit with a number in the plan, where there is one.
fn planned_kind(audit: &RootAudit<'_>, number: u32) -> Option<Kind>
    requires { TypesAreInside (length audit.now.types.now.records) audit.now.plan.now.audits }
    ensures exact { result ≡ planned_kind (plan_seen audit.now.plan.now) number }
    ensures inside { IfSome result (KindInside (length audit.now.types.now.records)) }
{
    if number < audit.plan.count() {
        return Some(audit.plan.audit(number).kind);
    }
    None
}

// The kind of the structure that the walk of a violation is of.
fn walked_kind(audit: &RootAudit<'_>, kind: &Kind, number: u32) -> Option<Kind>
    requires { TypesAreInside (length audit.now.types.now.records) audit.now.plan.now.audits }
    ensures exact { result ≡ walked_kind (plan_seen audit.now.plan.now) kind.now number }
    ensures inside { IfSome result (KindInside (length audit.now.types.now.records)) }
{
    match kind {
        Kind::Slub(_) | Kind::Tasks(_) | Kind::Pids(_) => planned_kind(audit, number),
        _ => Some(*kind),
    }
}

// The walk of a violation, from where it started.
fn walk_from(audit: &RootAudit<'_>, kind: &Kind, found: &Found) -> Option<FirstWalk>
    requires { TypesAreInside (length audit.now.types.now.records) audit.now.plan.now.audits }
    ensures exact { result ≡ walk_from (plan_seen audit.now.plan.now) kind.now found.now }
    ensures inside { WalkInside (length audit.now.types.now.records) result }
{
    match walked_kind(audit, kind, found.audit) {
        Some(kind) => Some(FirstWalk {
            kind,
            asked: Asked {
                audit: found.audit,
                start: found.start,
            },
        }),
        None => None,
    }
}

/// The walk of the audit that found a violation, from where it started; where the violation names an audit of the plan.
pub fn planned_walk(audit: &RootAudit<'_>, found: &Found) -> Option<FirstWalk>
    requires { TypesAreInside (length audit.now.types.now.records) audit.now.plan.now.audits }
    ensures exact { result ≡ planned_walk (plan_seen audit.now.plan.now) found.now }
    ensures inside { WalkInside (length audit.now.types.now.records) result }
{
    match planned_kind(audit, found.audit) {
        Some(kind) => walk_from(audit, &kind, found),
        None => None,
    }
}

/// A violation of an audit of this kind, and the walk that finds it, where one does.
pub(crate) fn breaking_of<M: Space, L: Ledger>(
    alloc: Global,
    memory: &mut M,
    audit: &RootAudit<'_>,
    kind: &Kind,
    found: &Found,
    steps: &mut Steps<L>,
) -> Result<Breaking, ReadFailed>
    requires { TypesAreInside (length audit.now.types.now.records) audit.now.plan.now.audits }
    ensures exact { IfOk result (λ breaking. IfSome (M.image memory.old) (λ image. breaking_of image (plan_seen audit.now.plan.now) kind.now found.now ≡ breaking)) }
    ensures inside { IfOk result (λ breaking. WalkInside (length audit.now.types.now.records) breaking.walk) }
    ensures reads { OnlyReads M.image M.files M.through M.most M.faults result memory.old memory.new }
{
    let walk = walk_from(audit, kind, found);
    let again = first_found(alloc, audit.types, memory, &walk, steps)?;
    Ok(breaking_by(breach_of(found), walk, again))
}

// By what the walk finds.
fn breaking_by(found: Breach, walk: Option<FirstWalk>, again: Option<Found>) -> Breaking
    ensures { result ≡ record { found = found; walk = if_finds walk (counted (Some found) again); only = Some found } }
{
    Breaking {
        found,
        walk: if_finds(walk, counted(Some(found), again)),
        only: Some(found),
    }
}

// The walk, if it finds something.
fn if_finds(walk: Option<FirstWalk>, again: Option<Found>) -> Option<FirstWalk>
    ensures { result ≡ if_finds walk again }
{
    match again {
        Some(_) => walk,
        None => None,
    }
}

/// The same, where a suspect leads to any violation of the walk.
pub(crate) fn any_leads(breaking: Breaking) -> Breaking
    ensures { result ≡ any_leads breaking }
{
    Breaking {
        found: breaking.found,
        walk: breaking.walk,
        only: None,
    }
}
