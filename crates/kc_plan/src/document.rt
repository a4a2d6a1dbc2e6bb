// A plan as it is written.
ghost use Rattle.std.specs.Prelude.{◌≡◌, ◌≤◌, length, IfOk, IsTrue};
ghost use Rattle.toml.specs.View.{table_view};
ghost use Rattle.kc_plan.specs.Answers.{Gives};
ghost use Rattle.kc_plan.specs.Kept.{is_version};
ghost use Rattle.kc_plan.specs.Steps.{document, parsed, version_for, tail_of, tail_for, tables_for, version_of, written_for};
ghost use Rattle.kc_plan.specs.Views.{plan_text, tables_seen};

use crate::audit::audits_of;
use crate::item::PlanWords;
use crate::keys::TOP_KEYS;
use crate::value::{has_only, refuse_if, required_number, stop, tables_at, text_at};
use kc_expr::{PRule, PlanFault, PlanKey, PlanStop};
use kc_kinds::Need;
use kc_word::Tail;
use std::alloc::Global;
use toml::Table;

// The document of a plan's bytes.
pub(crate) fn document_of(alloc: Global, bytes: &[u8]) -> Result<Table, PlanStop>
    ensures { Gives table_view result (parsed (document bytes.now)) }
{
    match toml::table_from_slice(alloc, bytes) {
        Ok(table) => Ok(table),
        Err(error) => {
            if error.is_memory() {
                return Err(PlanStop::NoMemory);
            }
            Err(PlanStop::Fault(PlanFault {
                rule: PRule::P1,
                audit: None,
                key: None,
            }))
        }
    }
}

// A version.
fn version_of(number: i64) -> Result<u8, PRule>
    ensures exact { result ≡ version_of number }
    ensures known { IfOk result (λ version. IsTrue (is_version version)) }
{
    if number == 1 {
        Ok(1)
    } else if number == 2 {
        Ok(2)
    } else {
        Err(PRule::P2)
    }
}

// The version of a plan.
#[tactic(auto, unfolding(crate::specs::Steps::version_for))]
fn version_at(table: &Table) -> Result<u8, PlanStop>
    ensures exact { Gives (λ version. version) result (version_for (table_view table.now)) }
    ensures known { IfOk result (λ version. IsTrue (is_version version)) }
{
    let number = required_number(table, None, PlanKey::Version)?;
    match version_of(number) {
        Ok(version) => Ok(version),
        Err(rule) => Err(stop(rule, None, PlanKey::Version)),
    }
}

// How a tail is read, by its name.
fn tail_of(text: &str) -> Result<Tail, PRule>
    ensures { result ≡ tail_of text.now }
{
    if text == "absent" {
        Ok(Tail::Absent)
    } else if text == "zero" {
        Ok(Tail::Zero)
    } else {
        Err(PRule::P4)
    }
}

// How the tail of a segment is read. It is absent where no key says how.
#[tactic(auto, unfolding(crate::specs::Steps::tail_for))]
fn tail_at(table: &Table) -> Result<Tail, PlanStop>
    ensures { Gives (λ tail. tail) result (tail_for (table_view table.now)) }
{
    let Some(text) = text_at(table, None, Need::Allowed, PlanKey::Tail)? else {
        return Ok(Tail::Absent);
    };
    match tail_of(text) {
        Ok(tail) => Ok(tail),
        Err(rule) => Err(stop(rule, None, PlanKey::Tail)),
    }
}

// The audits' tables.
#[tactic(auto, unfolding(crate::specs::Steps::tables_for))]
fn tables_of(alloc: Global, table: &Table) -> Result<Vec<&Table>, PlanStop>
    ensures exact { Gives tables_seen result (tables_for (table_view table.now)) }
    ensures few { IfOk result (λ tables. length tables.items ≤ 256) }
{
    let tables = tables_at(alloc, table, PlanKey::Audit)?;
    refuse_if(tables.len() > 256, PRule::P8, None, PlanKey::Audit)?;
    Ok(tables)
}

// The plan of a document, as it is written.
#[tactic(auto, unfolding(crate::specs::Steps::written_for))]
pub(crate) fn plan_in(alloc: Global, table: &Table) -> Result<PlanWords<'_>, PlanStop>
    ensures { Gives plan_text result (written_for (table_view table.now)) }
{
    let version = version_at(table)?;
    refuse_if(!has_only(table, &TOP_KEYS), PRule::P3, None, PlanKey::Other)?;
    let tail = tail_at(table)?;
    let tables = tables_of(alloc, table)?;
    let audits = audits_of(alloc, &tables)?;
    Ok(PlanWords {
        version,
        tail,
        audits,
    })
}
