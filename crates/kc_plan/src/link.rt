// Which audit names which in `each`.
ghost use Rattle.std.specs.Prelude.{◌≡◌, ◌≤◌, ◌+◌, [], map, length};
ghost use Rattle.kc_plan.specs.Answers.{Gives};
ghost use Rattle.kc_plan.specs.Links.{numbered, unless_named, is_named, name_links, audit_links, all_named, above_of, is_within, all_within, links_for};
ghost use Rattle.kc_plan.specs.Views.{audit_text, links_in, text};

use crate::item::{AuditWords, Link};
use crate::value::{put, refuse_if, stop};
use kc_expr::{PRule, PlanKey, PlanStop};
use std::alloc::Global;

/// How deep audits stand at most.
const DEPTH: u8 = 4;

// The number of the first audit with a name that begins at a `from`, where they are counted from a number on
// and only those behind a number are looked at.
fn numbered(name: &str, behind: u32, number: u32, audits: &[AuditWords<'_>]) -> Option<u32>
    requires { number + length audits.now ≤ 256 }
    ensures exact { result ≡ numbered name.now behind number (map audit_text audits.now) }
{
    match audits {
        [] => None,
        [first, rest @ ..] => {
            if behind < number && first.start.from.is_some() && first.name == name {
                Some(number)
            } else {
                numbered(name, behind, number + 1, rest)
            }
        }
    }
}

// The audit with this number is named.
fn is_named(links: &[Link], number: u32) -> bool
    ensures { result ≡ is_named links.now number }
{
    match links {
        [] => false,
        [first, rest @ ..] => first.below == number || is_named(rest, number),
    }
}

// The number of the audit that names another.
pub(crate) fn above_of(links: &[Link], number: u32) -> Option<u32>
    ensures { result ≡ above_of links.now number }
{
    match links {
        [] => None,
        [first, rest @ ..] => {
            if first.below == number {
                Some(first.above)
            } else {
                above_of(rest, number)
            }
        }
    }
}

// An audit stands at most so deep.
fn is_within(most: u8, links: &[Link], number: u32) -> bool
    ensures { result ≡ is_within most links.now number }
{
    if most == 0 {
        return false;
    }
    match above_of(links, number) {
        Some(above) => is_within(most - 1, links, above),
        None => true,
    }
}

// The audit that a name means, where it isn't named yet.
fn below_of(name: &str, above: u32, links: &[Link], audits: &[AuditWords<'_>]) -> Option<u32>
    requires { length audits.now ≤ 256 }
    ensures { result ≡ unless_named links.now (numbered name.now above 0 (map audit_text audits.now)) }
{
    let below = numbered(name, above, 0, audits)?;
    if is_named(links, below) {
        None
    } else {
        Some(below)
    }
}

// The links of the names that an audit lists, behind these.
fn name_links(
    links: Vec<Link>,
    audits: &[AuditWords<'_>],
    above: u32,
    names: &[&str],
) -> Result<Vec<Link>, PlanStop>
    requires { length audits.now ≤ 256 }
    ensures { Gives links_in result (name_links (map audit_text audits.now) above links.items (map text names.now)) }
{
    let mut links = links;
    for name in names {
        let Some(below) = below_of(name, above, &links, audits) else {
            return Err(stop(PRule::P6, Some(above), PlanKey::Each));
        };
        put(&mut links, Link { above, below })?;
    }
    Ok(links)
}

// The links of all audits.
fn audit_links(alloc: Global, audits: &[AuditWords<'_>]) -> Result<Vec<Link>, PlanStop>
    requires { length audits.now ≤ 256 }
    ensures { Gives links_in result (audit_links (map audit_text audits.now) 0 [] (map audit_text audits.now)) }
{
    let mut links = Vec::new(alloc);
    let mut number = 0;
    for audit in audits {
        links = name_links(links, audits, number, &audit.parts.each)?;
        number += 1;
    }
    Ok(links)
}

// Each audit with `from` is named.
fn check_named(links: &[Link], audits: &[AuditWords<'_>]) -> Result<(), PlanStop>
    requires { length audits.now ≤ 256 }
    ensures { Gives (λ x. x) result (all_named links.now 0 (map audit_text audits.now)) }
{
    let mut number = 0;
    for audit in audits {
        let alone = audit.start.from.is_some() && !is_named(links, number);
        refuse_if(alone, PRule::P6, Some(number), PlanKey::From)?;
        number += 1;
    }
    Ok(())
}

// Each audit stands at most 4 deep.
fn check_depth(links: &[Link], audits: &[AuditWords<'_>]) -> Result<(), PlanStop>
    requires { length audits.now ≤ 256 }
    ensures { Gives (λ x. x) result (all_within links.now 0 (map audit_text audits.now)) }
{
    let mut number = 0;
    for _audit in audits {
        let deep = !is_within(DEPTH, links, number);
        refuse_if(deep, PRule::P7, Some(number), PlanKey::From)?;
        number += 1;
    }
    Ok(())
}

// Which audit names which.
#[tactic(auto, unfolding(crate::specs::Links::links_for))]
pub(crate) fn links_of(alloc: Global, audits: &[AuditWords<'_>]) -> Result<Vec<Link>, PlanStop>
    requires { length audits.now ≤ 256 }
    ensures { Gives links_in result (links_for (map audit_text audits.now)) }
{
    let links = audit_links(alloc, audits)?;
    check_named(&links, audits)?;
    check_depth(&links, audits)?;
    Ok(links)
}
