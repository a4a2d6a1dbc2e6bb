// The checks of an audit's elements, from their texts.
ghost use Rattle.std.specs.Prelude.{◌≡◌, ◌≤◌, [], length, map, Some, IfOk, IfSome};
ghost use Rattle.kc_expr.specs.Exprs.{tree_of};
ghost use Rattle.kc_expr.specs.Machine.{parsed};
ghost use Rattle.kc_expr.specs.Values.{fields_of as paths_of};
ghost use Rattle.kc_layout.specs.Views.{number_view};
ghost use Rattle.kc_expr.specs.declared.keys.fault.PlanKey.TheVariants as key;
ghost use Rattle.kc_plan.specs.Answers.{Gives};
ghost use Rattle.kc_plan.specs.CheckTexts.{all_checks_for, check_for, checks_for, fields_for, or_refused};
ghost use Rattle.kc_plan.specs.Inside.{ChecksInside, FieldsInside};
ghost use Rattle.kc_plan.specs.Planned.{check_seen};
ghost use Rattle.kc_plan.specs.Values.{at};
ghost use Rattle.kc_plan.specs.Views.{text};

use crate::planned::{Check, Checks, Fields};
use crate::value::{refuse_if, stop};
use kc_btf::Btf;
use kc_expr::{Expr, ExprStop, PRule, PlanKey, PlanStop, parse};
use kc_found::Items;
use kc_layout::resolve;
use std::alloc::Global;

// The most bytes of a check, and the most paths in one.
const BYTES: usize = 256;

const PATHS: usize = 8;

// The check that a text is.
fn expr_of(alloc: Global, audit: u32, words: &str) -> Result<Expr, PlanStop>
    requires { length words.now ≤ 256 }
    ensures { Gives tree_of result (at (Some audit) key.Check (or_refused (parsed words.now))) }
{
    match parse(alloc, words.as_bytes()) {
        Ok(expr) => Ok(expr),
        Err(ExprStop::X1(_)) => Err(stop(PRule::P12, Some(audit), PlanKey::Check)),
        Err(ExprStop::NoMemory) => Err(PlanStop::NoMemory),
    }
}

// Where the paths of a check lead from an element.
fn fields_of(
    alloc: Global,
    btf: &Btf,
    audit: u32,
    element: u32,
    expr: &Expr,
) -> Result<Fields, PlanStop>
    requires { element ≤ length btf.now.records }
    ensures exact { Gives (map number_view) result (fields_for btf.now audit element [] (paths_of (tree_of expr.now))) }
    ensures whole { IfOk result (λ fields. length fields ≡ length (paths_of (tree_of expr.now))) }
    ensures inside { IfOk result (FieldsInside (length btf.now.records)) }
{
    let mut fields = Items::new(alloc);
    for i in 0..expr.fields() {
        let Ok(field) = resolve(btf, element, expr.field(i)) else {
            return Err(stop(PRule::P12, Some(audit), PlanKey::Check));
        };
        fields.push(field)?;
    }
    Ok(fields)
}

// The check of a text.
#[tactic(auto, unfolding(crate::specs::CheckTexts::check_for))]
fn check_of(
    alloc: Global,
    btf: &Btf,
    audit: u32,
    element: u32,
    words: &str,
) -> Result<Check, PlanStop>
    requires { element ≤ length btf.now.records }
    ensures exact { Gives check_seen result (check_for btf.now audit element words.now) }
    ensures inside { IfOk result (λ check. FieldsInside (length btf.now.records) check.fields) }
{
    let long = words.len() > BYTES;
    refuse_if(long, PRule::P12, Some(audit), PlanKey::Check)?;
    let expr = expr_of(alloc, audit, words)?;
    let many = expr.fields() > PATHS;
    refuse_if(many, PRule::P12, Some(audit), PlanKey::Check)?;
    let fields = fields_of(alloc, btf, audit, element, &expr)?;
    Ok(Check { expr, fields })
}

// The checks of texts.
fn all_checks(
    alloc: Global,
    btf: &Btf,
    audit: u32,
    element: u32,
    texts: &[&str],
) -> Result<Checks, PlanStop>
    requires { element ≤ length btf.now.records }
    ensures exact { Gives (map check_seen) result (all_checks_for btf.now audit element [] (map text texts.now)) }
    ensures many { IfOk result (λ checks. length checks ≡ length texts.now) }
    ensures inside { IfOk result (ChecksInside (length btf.now.records)) }
{
    let mut checks = Items::new(alloc);
    for words in texts {
        let check = check_of(alloc, btf, audit, element, words)?;
        checks.push(check)?;
    }
    Ok(checks)
}

// The checks of an audit, whose elements may have no type.
pub(crate) fn checks_of(
    alloc: Global,
    btf: &Btf,
    audit: u32,
    element: Option<u32>,
    texts: &[&str],
) -> Result<Checks, PlanStop>
    requires { IfSome element (λ id. id ≤ length btf.now.records) }
    ensures exact { Gives (map check_seen) result (checks_for btf.now audit element (map text texts.now)) }
    ensures many { IfOk result (λ checks. length checks ≡ length texts.now) }
    ensures inside { IfOk result (ChecksInside (length btf.now.records)) }
{
    match (element, texts) {
        (Some(element), _) => all_checks(alloc, btf, audit, element, texts),
        (None, []) => Ok(Items::new(alloc)),
        (None, _) => Err(stop(PRule::P12, Some(audit), PlanKey::Check)),
    }
}
