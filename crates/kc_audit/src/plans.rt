// A plan over the types and symbols of a kernel, and the names of its audits.
ghost use Rattle.std.specs.Prelude.{◌≡◌, List, length, IfOk};
ghost use Rattle.kc_outside.specs.declared.store.Slot.{Slot};
ghost use Rattle.kc_syms.specs.Answers.{Stands};
ghost use Rattle.kc_syms.specs.Rows.{RowText};
ghost use Rattle.kc_syms.specs.Symbols.{symbol};
ghost use Rattle.kc_plan.specs.Inside.{AreInside};
ghost use Rattle.kc_plan.specs.Views.{plan_seen, plan_whole};
ghost use Rattle.kc_command.specs.Halts.{NotStore};
ghost use Rattle.kc_command.specs.Slots.{RefusesIn};
ghost use Rattle.kc_command.specs.Made.{Is};
ghost use Rattle.kc_audit.specs.Audits.{names_of, plan_over};

use kc_btf::Btf;
use kc_command::Halt;
use kc_notes::Info;
use kc_plan::{Plan, know_plans, read_plan};
use kc_report::PlanNames;
use kc_syms::Symbols;
use kc_word::NoMemory;
use std::alloc::Global;

/// The plan with these bytes, over a kernel's types and symbols.
///
/// # Errors
///
/// The plan's first fault P1 to P12, with its audit and key; or no memory was left.
pub fn read_audits(
    alloc: Global,
    bytes: &[u8],
    types: &Btf,
    symbols: &Symbols<'_>,
    info: &Info,
) -> Result<Plan, Halt>
    ensures made { (rows : List RowText) → Stands (symbol symbols.now) rows → Is plan_whole (plan_over types.now rows info.now bytes.now) result }
    ensures refused { RefusesIn Slot.Plan result }
    ensures no_call { NotStore result }
    ensures inside { IfOk result (λ plan. AreInside (length types.now.records) plan.audits) }
{
    know_plans();
    Ok(read_plan(alloc, bytes, types, symbols, info)?)
}

/// The names of a plan's audits, in the order of the plan.
///
/// # Errors
///
/// No memory was left.
pub fn names_of(alloc: Global, plan: &Plan) -> Result<PlanNames, NoMemory>
    ensures { IfOk result (λ names. names ≡ names_of (plan_seen plan.now)) }
{
    let mut names = PlanNames::new(alloc);
    for number in 0..plan.count() {
        names.push_copy(alloc, &plan.audit(number).name)?;
    }
    Ok(names)
}
