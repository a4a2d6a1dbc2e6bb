// The audits of a plan, as they are written.
ghost use Rattle.std.specs.Prelude.{◌≡◌, ◌≤◌, [], map, length, IfOk};
ghost use Rattle.toml.specs.View.{table_view};
ghost use Rattle.kc_text.specs.Readers.{is_name};
ghost use Rattle.kc_plan.specs.Answers.{Gives};
ghost use Rattle.kc_plan.specs.Audits.{is_among, kind_for, name_for, is_untyped, tree_for, parts_for, audit_for, audits_for};
ghost use Rattle.kc_plan.specs.Views.{text, tree_text, part_text, audit_text, audit_texts, tables_in};

use crate::item::{AuditWords, PartWords, TreeWords};
use crate::keys::AUDIT_KEYS;
use crate::start::start_of;
use crate::value::{
    flag_at, has, has_only, names_at, put, refuse_if, required_text, stop, text_at,
};
use kc_expr::{PRule, PlanKey, PlanStop};
use kc_kinds::{Need, Needs, Sort, needs_of, sort_of};
use kc_text::is_name;
use std::alloc::Global;
use toml::Table;

// The most checks of an audit.
const CHECKS: usize = 32;

// One of the audits has this name.
fn is_among(name: &str, audits: &[AuditWords<'_>]) -> bool
    ensures { result ≡ is_among name.now (map audit_text audits.now) }
{
    match audits {
        [] => false,
        [first, rest @ ..] => first.name == name || is_among(name, rest),
    }
}

// The kind of an audit.
#[tactic(auto, unfolding(crate::specs::Audits::kind_for))]
fn kind_of(table: &Table, audit: Option<u32>) -> Result<Sort, PlanStop>
    ensures { Gives (λ sort. sort) result (kind_for audit (table_view table.now)) }
{
    let text = required_text(table, audit, PlanKey::Kind)?;
    match sort_of(text) {
        Some(sort) => Ok(sort),
        None => Err(stop(PRule::P4, audit, PlanKey::Kind)),
    }
}

// The name of an audit behind others.
#[tactic(auto, unfolding(crate::specs::Audits::name_for))]
fn name_of<'t>(
    table: &'t Table,
    audit: Option<u32>,
    earlier: &[AuditWords<'_>],
) -> Result<&'t str, PlanStop>
    ensures { Gives text result (name_for (map audit_text earlier.now) audit (table_view table.now)) }
{
    let name = required_text(table, audit, PlanKey::Name)?;
    refuse_if(!is_name(name.as_bytes()), PRule::P4, audit, PlanKey::Name)?;
    refuse_if(is_among(name, earlier), PRule::P5, audit, PlanKey::Name)?;
    Ok(name)
}

// An audit whose elements may have no type, and have none, though `check` or `each` is there, be its list empty or not.
fn is_untyped(need: Need, table: &Table) -> bool
    ensures { result ≡ is_untyped need (table_view table.now) }
{
    let asks = has(table, PlanKey::Check) || has(table, PlanKey::Each);
    matches!(need, Need::Allowed) && asks && !has(table, PlanKey::Element)
}

// How the elements of a tree are ordered, where its kind asks this of the keys.
#[tactic(auto, unfolding(crate::specs::Audits::tree_for))]
fn tree_of(table: &Table, audit: Option<u32>, need: Need) -> Result<TreeWords<'_>, PlanStop>
    ensures { Gives tree_text result (tree_for audit need (table_view table.now)) }
{
    let key = text_at(table, audit, need, PlanKey::Key)?;
    let keyless = has(table, PlanKey::Unique) && !has(table, PlanKey::Key);
    refuse_if(keyless, PRule::P3, audit, PlanKey::Key)?;
    let unique = flag_at(table, audit, need, PlanKey::Unique)?;
    let cached = flag_at(table, audit, need, PlanKey::Cached)?;
    Ok(TreeWords {
        key,
        unique: unique.unwrap_or(false),
        cached: cached.unwrap_or(false),
    })
}

// What an audit walks, where its kind asks this of its keys, and what is asked of each element.
#[tactic(auto, unfolding(crate::specs::Audits::parts_for))]
fn parts_of<'t>(
    alloc: Global,
    table: &'t Table,
    audit: Option<u32>,
    needs: Needs,
) -> Result<PartWords<'t>, PlanStop>
    ensures { Gives part_text result (parts_for audit needs (table_view table.now)) }
{
    let element = text_at(table, audit, needs.element, PlanKey::Element)?;
    let untyped = is_untyped(needs.element, table);
    refuse_if(untyped, PRule::P3, audit, PlanKey::Element)?;
    let link = text_at(table, audit, needs.link, PlanKey::Link)?;
    let tree = tree_of(table, audit, needs.tree)?;
    let checks = names_at(alloc, table, audit, PlanKey::Check)?;
    refuse_if(checks.len() > CHECKS, PRule::P4, audit, PlanKey::Check)?;
    let each = names_at(alloc, table, audit, PlanKey::Each)?;
    Ok(PartWords {
        element,
        link,
        tree,
        checks,
        each,
    })
}

// The audit of a table behind others.
#[tactic(auto, unfolding(crate::specs::Audits::audit_for))]
fn audit_of<'t>(
    alloc: Global,
    table: &'t Table,
    audit: Option<u32>,
    earlier: &[AuditWords<'_>],
) -> Result<AuditWords<'t>, PlanStop>
    ensures { Gives audit_text result (audit_for (map audit_text earlier.now) audit (table_view table.now)) }
{
    let sort = kind_of(table, audit)?;
    refuse_if(
        !has_only(table, &AUDIT_KEYS),
        PRule::P3,
        audit,
        PlanKey::Other,
    )?;
    let name = name_of(table, audit, earlier)?;
    let start = start_of(table, audit)?;
    let parts = parts_of(alloc, table, audit, needs_of(sort))?;
    Ok(AuditWords {
        name,
        sort,
        start,
        parts,
    })
}

// The audits of tables.
pub(crate) fn audits_of<'t>(
    alloc: Global,
    tables: &[&'t Table],
) -> Result<Vec<AuditWords<'t>>, PlanStop>
    requires { length tables.now ≤ 256 }
    ensures exact { Gives audit_texts result (audits_for [] (tables_in tables.now)) }
    ensures few { IfOk result (λ audits. length audits.items ≤ 256) }
{
    let mut audits = Vec::new(alloc);
    for table in tables {
        let number = audits.len() as u32;
        let audit = audit_of(alloc, table, Some(number), &audits)?;
        put(&mut audits, audit)?;
    }
    Ok(audits)
}
