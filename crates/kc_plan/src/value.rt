// The values of a plan's tables.
ghost use Rattle.std.specs.Prelude.{◌≡◌, ◌∷◌, [], ◌++◌, Some, None, option_map, OnOk};
ghost use Rattle.std.specs.Option.{option_copied};
ghost use Rattle.toml.specs.Data.{as_str, as_bool, as_integer, as_array, as_table, get_member};
ghost use Rattle.toml.specs.View.{view, array_view, table_view};
ghost use Rattle.kc_expr.specs.declared.keys.fault.PlanStop.TheVariants.{Fault};
ghost use Rattle.kc_plan.specs.Answers.{Gives, ReadsAll};
ghost use Rattle.kc_plan.specs.Audits.{all_keys, names_for};
ghost use Rattle.kc_plan.specs.Keys.{is_one_of};
ghost use Rattle.kc_expr.specs.Keys.Keys.{spelled};
ghost use Rattle.kc_plan.specs.Steps.{tables};
ghost use Rattle.kc_plan.specs.Values.{all_read, at, asked, refuse_if, required, has, value_at, text_for, flag_for};
ghost use Rattle.kc_plan.specs.Views.{text, texts, tables_seen};

use kc_expr::{PRule, PlanFault, PlanKey, PlanStop, spelling};
use kc_kinds::Need;
use kc_word::NoMemory;
use std::alloc::Global;
use toml::value::Array;
use toml::{Table, Value};

// A fault at a key.
pub(crate) fn stop(rule: PRule, audit: Option<u32>, key: PlanKey) -> PlanStop
    ensures { result ≡ Fault (record { rule = rule; audit = audit; key = Some key }) }
{
    PlanStop::Fault(PlanFault {
        rule,
        audit,
        key: Some(key),
    })
}

// The value at a key.
pub(crate) fn value_at(table: &Table, key: PlanKey) -> Option<&Value>
    ensures { option_map (λ v. view v.now) result ≡ value_at key (table_view table.now) }
{
    table.get(spelling(key))
}

// Whether a key is there.
pub(crate) fn has(table: &Table, key: PlanKey) -> bool
    ensures { result ≡ has key (table_view table.now) }
{
    value_at(table, key).is_some()
}

// A rule that is broken at a key.
pub(crate) fn refuse_if(
    broken: bool,
    rule: PRule,
    audit: Option<u32>,
    key: PlanKey,
) -> Result<(), PlanStop>
    ensures { Gives (λ x. x) result (at audit key (refuse_if broken rule)) }
{
    if broken {
        Err(stop(rule, audit, key))
    } else {
        Ok(())
    }
}

// What is at a key that must be there.
pub(crate) fn required(table: &Table, audit: Option<u32>, key: PlanKey) -> Result<&Value, PlanStop>
    ensures { Gives (λ v. view v.now) result (at audit key (required (λ d. Some d) (value_at key (table_view table.now)))) }
{
    match value_at(table, key) {
        Some(value) => Ok(value),
        None => Err(stop(PRule::P3, audit, key)),
    }
}

// The text at a key that must be there.
pub(crate) fn required_text(
    table: &Table,
    audit: Option<u32>,
    key: PlanKey,
) -> Result<&str, PlanStop>
    ensures { Gives text result (at audit key (required as_str (value_at key (table_view table.now)))) }
{
    match required(table, audit, key)?.as_str() {
        Some(text) => Ok(text),
        None => Err(stop(PRule::P4, audit, key)),
    }
}

// The whole number at a key that must be there.
pub(crate) fn required_number(
    table: &Table,
    audit: Option<u32>,
    key: PlanKey,
) -> Result<i64, PlanStop>
    ensures { Gives (λ n. n) result (at audit key (required as_integer (value_at key (table_view table.now)))) }
{
    match required(table, audit, key)?.as_integer() {
        Some(number) => Ok(number),
        None => Err(stop(PRule::P4, audit, key)),
    }
}

// What is at a key, where a kind allows it.
fn asked(
    table: &Table,
    audit: Option<u32>,
    need: Need,
    key: PlanKey,
) -> Result<Option<&Value>, PlanStop>
    ensures { Gives (option_map (λ v. view v.now)) result (at audit key (asked (λ d. Some d) need (value_at key (table_view table.now)))) }
{
    match (need, value_at(table, key)) {
        (Need::Required, None) | (Need::Barred, Some(_)) => Err(stop(PRule::P3, audit, key)),
        (_, found) => Ok(found),
    }
}

// The text at a key.
pub(crate) fn text_at(
    table: &Table,
    audit: Option<u32>,
    need: Need,
    key: PlanKey,
) -> Result<Option<&str>, PlanStop>
    ensures { Gives option_copied result (text_for audit need key (table_view table.now)) }
{
    let Some(value) = asked(table, audit, need, key)? else {
        return Ok(None);
    };
    match value.as_str() {
        Some(text) => Ok(Some(text)),
        None => Err(stop(PRule::P4, audit, key)),
    }
}

// The flag at a key.
pub(crate) fn flag_at(
    table: &Table,
    audit: Option<u32>,
    need: Need,
    key: PlanKey,
) -> Result<Option<bool>, PlanStop>
    ensures { Gives (λ flag. flag) result (flag_for audit need key (table_view table.now)) }
{
    let Some(value) = asked(table, audit, need, key)? else {
        return Ok(None);
    };
    match value.as_bool() {
        Some(flag) => Ok(Some(flag)),
        None => Err(stop(PRule::P4, audit, key)),
    }
}

// One more.
pub(crate) fn put<T: Drop>(list: &mut Vec<T>, item: T) -> Result<(), NoMemory>
    ensures { OnOk result (list.new.items ≡ list.old.items ++ item ∷ []) }
{
    list.push(item)?;
    Ok(())
}

// The texts of a list, or this stop where it has another value.
fn texts_of<'t>(alloc: Global, array: &'t Array, wrong: PlanStop) -> Result<Vec<&'t str>, PlanStop>
    ensures { ReadsAll texts result wrong (all_read as_str (array_view array.now)) }
{
    let mut found = Vec::new(alloc);
    for value in array {
        let Some(text) = value.as_str() else {
            return Err(wrong);
        };
        put(&mut found, text)?;
    }
    Ok(found)
}

// The tables of a list, or this stop where it has another value.
fn tables_of<'t>(
    alloc: Global,
    array: &'t Array,
    wrong: PlanStop,
) -> Result<Vec<&'t Table>, PlanStop>
    ensures { ReadsAll tables_seen result wrong (all_read as_table (array_view array.now)) }
{
    let mut found = Vec::new(alloc);
    for value in array {
        let Some(table) = value.as_table() else {
            return Err(wrong);
        };
        put(&mut found, table)?;
    }
    Ok(found)
}

// The texts that a key lists; none where it isn't there.
pub(crate) fn names_at(
    alloc: Global,
    table: &Table,
    audit: Option<u32>,
    key: PlanKey,
) -> Result<Vec<&str>, PlanStop>
    ensures { Gives texts result (names_for audit key (table_view table.now)) }
{
    let wrong = stop(PRule::P4, audit, key);
    let Some(value) = value_at(table, key) else {
        return Ok(Vec::new(alloc));
    };
    match value.as_array() {
        Some(array) => texts_of(alloc, array, wrong),
        None => Err(wrong),
    }
}

// The tables at a key that must be there.
pub(crate) fn tables_at(alloc: Global, table: &Table, key: PlanKey) -> Result<Vec<&Table>, PlanStop>
    ensures { Gives tables_seen result (at None key (required tables (value_at key (table_view table.now)))) }
{
    let wrong = stop(PRule::P4, None, key);
    match required(table, None, key)?.as_array() {
        Some(array) => tables_of(alloc, array, wrong),
        None => Err(wrong),
    }
}

// Whether a text spells one of these keys.
fn is_one_of(text: &str, keys: &[PlanKey]) -> bool
    ensures { result ≡ is_one_of keys.now text.now }
{
    keys.iter().any(|key| text == spelling(*key))
}

// Whether a table has no other keys than these.
pub(crate) fn has_only(table: &Table, keys: &[PlanKey]) -> bool
    ensures { result ≡ all_keys (is_one_of keys.now) (table_view table.now) }
{
    for key in table.keys() {
        if !is_one_of(key.as_str(), keys) {
            return false;
        }
    }
    true
}
