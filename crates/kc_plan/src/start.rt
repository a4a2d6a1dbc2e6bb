// Where an audit begins, as a plan writes it.
ghost use Rattle.std.specs.Prelude.{Some};
ghost use Rattle.toml.specs.View.{table_view};
ghost use Rattle.kc_plan.specs.Answers.{Gives};
ghost use Rattle.kc_plan.specs.Audits.{start_for};
ghost use Rattle.kc_plan.specs.Views.{start_text};

use crate::item::StartWords;
use crate::value::{flag_at, has, refuse_if, text_at};
use kc_expr::{PRule, PlanKey, PlanStop};
use kc_kinds::Need;
use toml::Table;

// Where the audit of a table begins: at a symbol, or at a symbol's type and a path in it, or at a path from
// the element of the audit above.
#[tactic(auto, unfolding(crate::specs::Audits::start_for))]
pub(crate) fn start_of(table: &Table, audit: Option<u32>) -> Result<StartWords<'_>, PlanStop>
    ensures { Gives start_text result (start_for audit (table_view table.now)) }
{
    let has_root = has(table, PlanKey::Root);
    let has_type = has(table, PlanKey::RootType);
    let has_path = has(table, PlanKey::RootPath);
    let has_from = has(table, PlanKey::From);
    let root = text_at(table, audit, Need::Allowed, PlanKey::Root)?;
    refuse_if(!(has_root || has_from), PRule::P3, audit, PlanKey::Root)?;
    let root_type = text_at(table, audit, Need::Allowed, PlanKey::RootType)?;
    let untyped = (has_path && !has_type) || (has_type && !has_root);
    refuse_if(untyped, PRule::P3, audit, PlanKey::RootType)?;
    let root_path = text_at(table, audit, Need::Allowed, PlanKey::RootPath)?;
    let unled = (has_type && !has_path) || (has_path && !has_root);
    refuse_if(unled, PRule::P3, audit, PlanKey::RootPath)?;
    let from = text_at(table, audit, Need::Allowed, PlanKey::From)?;
    refuse_if(has_root && has_from, PRule::P3, audit, PlanKey::From)?;
    let optional = flag_at(table, audit, Need::Allowed, PlanKey::Optional)?;
    let alone = has(table, PlanKey::Optional) && !has_from;
    refuse_if(alone, PRule::P3, audit, PlanKey::Optional)?;
    Ok(StartWords {
        root,
        root_type,
        root_path,
        from,
        optional: optional.unwrap_or(false),
    })
}
