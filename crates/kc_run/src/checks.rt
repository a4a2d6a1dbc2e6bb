// The checks of an element.
ghost use Rattle.std.specs.Prelude.{◌≡◌, ◌≤◌, ◌+◌, ◌*◌, ◌++◌, ◌∷◌, List, length, map, option_to_list, IfOk, OnOk};
ghost use Rattle.kc_memory.specs.Space.{AnswersAs};
ghost use Rattle.kc_memory.specs.Stays.{CountsFaults, SpaceStays};
ghost use Rattle.kc_layout.specs.Views.{number_view};
ghost use Rattle.kc_expr.specs.Values.{is_true};
ghost use Rattle.kc_view.specs.Fields.{or_missed};
ghost use Rattle.kc_found.specs.declared.verdict.AuditCount.{AuditCount};
ghost use Rattle.kc_found.specs.Walks.{CountsWalkFaults, IsBroken, IsNamed, WalksAs};
ghost use Rattle.kc_plan.specs.Checks.{checked, fails, numbers_of, value_of, words_of};
ghost use Rattle.kc_plan.specs.Planned.{check_seen};
ghost use Rattle.kc_plan.specs.Seen.{checks_seen, number_at, world};
ghost use Rattle.kc_run.specs.Tally.{TalliesAs};

use kc_btf::Btf;
use kc_expr::eval;
use kc_found::{
    Asked, Items, Places, Rule, Scalar, Space, Stop, WalkStop, broken_by, know_most, stopped,
};
use kc_layout::Field;
use kc_plan::{Check, Checks, Fields};
use kc_view::View;
use kc_word::{NoMemory, Steps};
use std::alloc::{AllocError, Global};
use std::sync::ledger::Ledger;

// The number of no type: a field is read by its offsets and bits alone.
const NO_TYPE: u32 = 0;

// The numbers of fields, in their order.
type Numbers = Items<Scalar>;

// Adds the one or two words that hold a number.
fn push_words(places: &mut Places, number: &Scalar) -> Result<(), NoMemory>
    ensures { OnOk result (places.new ≡ places.old ++ number.now.first ∷ option_to_list number.now.second) }
{
    places.push(number.first)?;
    match number.second {
        Some(second) => places.push(second),
        None => Ok(()),
    }
}

// The words that hold numbers.
fn words_of(alloc: Global, numbers: &Numbers) -> Result<Places, NoMemory>
    ensures { IfOk result (λ places. places ≡ words_of numbers.now) }
{
    let mut places = Places::new(alloc);
    for i in 0..numbers.len() {
        push_words(&mut places, numbers.get(i))?;
    }
    Ok(places)
}

// A check of an element that doesn't hold, whose fields have these numbers.
fn fails(alloc: Global, asked: &Asked, element: u64, numbers: &Numbers) -> WalkStop
    ensures { IsBroken result (fails asked.now element numbers.now) }
{
    match words_of(alloc, numbers) {
        Ok(places) => broken_by(asked, Rule::C, element, None, places),
        Err(NoMemory) => WalkStop::NoMemory,
    }
}

// Whether a check holds, where its fields have these numbers.
fn holds(alloc: Global, check: &Check, numbers: &Numbers) -> Result<bool, AllocError>
    requires { length numbers.now ≡ length check.now.fields }
    ensures { IfOk result (λ holds. holds ≡ is_true (value_of (check_seen check.now) numbers.now)) }
{
    let mut values = Vec::new(alloc);
    for i in 0..numbers.len() {
        values.push(numbers.get(i).value)?;
    }
    Ok(eval(&check.expr, &values) != 0)
}

// The number of a field of an element.
fn read_one<S: Space, L: Ledger>(
    space: &mut S,
    element: &View<'_>,
    field: &Field,
    steps: &mut Steps<L>,
) -> Result<Scalar, Stop>
    ensures exact { AnswersAs (λ image. number_at image element.now.at (number_view field.now)) (S.image space.old) result }
    ensures steps { steps.new ≤ steps.old + 60 }

    ensures stays { SpaceStays S.image S.files S.through S.most space.old space.new }
    ensures cause { CountsFaults result (S.faults space.old) (S.faults space.new) }
{
    know_most(space);
    element.read(space, field, steps)
}

// The numbers of the fields of an element, all of them.
fn read_fields<S: Space, L: Ledger>(
    alloc: Global,
    space: &mut S,
    asked: &Asked,
    element: &View<'_>,
    fields: &Fields,
    steps: &mut Steps<L>,
) -> Result<Numbers, WalkStop>
    ensures exact { WalksAs (λ numbers. numbers)
        (λ image. or_missed asked.now (numbers_of (number_at image element.now.at) (map number_view fields.now)))
        (S.image space.old) result }
    ensures size { IfOk result (λ numbers. length numbers ≡ length fields.now) }
    ensures named { IsNamed result asked.now.audit asked.now.start }
    ensures steps { steps.new ≤ steps.old + 60 * length fields.now }

    ensures stays { SpaceStays S.image S.files S.through S.most space.old space.new }
    ensures cause { CountsWalkFaults result (S.faults space.old) (S.faults space.new) }
{
    let mut numbers = Numbers::new(alloc);
    for i in 0..fields.len() {
        let number = match read_one(space, element, fields.get(i), steps) {
            Ok(number) => number,
            Err(stop) => return Err(stopped(alloc, asked, stop, None)),
        };
        match numbers.push(number) {
            Ok(()) => {}
            Err(NoMemory) => return Err(WalkStop::NoMemory),
        }
    }
    Ok(numbers)
}

// Looks at a check of an element that a walk met.
fn look_check<S: Space, L: Ledger>(
    alloc: Global,
    space: &mut S,
    asked: &Asked,
    element: &View<'_>,
    check: &Check,
    steps: &mut Steps<L>,
) -> Result<(), WalkStop>
    ensures tally { (counts : List AuditCount) → TalliesAs
        (λ image. checked asked.now element.now.at (check_seen check.now)
        (numbers_of (number_at image element.now.at) (check_seen check.now).fields))
        counts counts (S.image space.old) result }
    ensures named { IsNamed result asked.now.audit asked.now.start }
    ensures steps { steps.new ≤ steps.old + 480 }

    ensures stays { SpaceStays S.image S.files S.through S.most space.old space.new }
    ensures cause { CountsWalkFaults result (S.faults space.old) (S.faults space.new) }
{
    let numbers = read_fields(alloc, space, asked, element, &check.fields, steps)?;
    match holds(alloc, check, &numbers) {
        Ok(true) => Ok(()),
        Ok(false) => Err(fails(alloc, asked, element.at(), &numbers)),
        Err(AllocError) => Err(WalkStop::NoMemory),
    }
}

/// Looks at the checks of the element at a virtual address that an audit met, one after the other, each with at most eight
/// fields.
///
/// # Errors
///
/// The first violation: M1 to M6 where a field can't be read, C where a check is 0. Or a failure of the space, whose count of
/// faults then rose, or out of memory.
pub fn look_checks<S: Space, L: Ledger>(
    alloc: Global,
    btf: &Btf,
    space: &mut S,
    asked: &Asked,
    checks: &Checks,
    element: u64,
    steps: &mut Steps<L>,
) -> Result<(), WalkStop>
    ensures tally { (counts : List AuditCount) → TalliesAs
        (λ image. checks_seen (world image) asked.now (map check_seen checks.now) element)
        counts counts (S.image space.old) result }
    ensures named { IsNamed result asked.now.audit asked.now.start }
    ensures steps { steps.new ≤ steps.old + 480 * length checks.now }

    ensures stays { SpaceStays S.image S.files S.through S.most space.old space.new }
    ensures cause { CountsWalkFaults result (S.faults space.old) (S.faults space.new) }
{
    let view = View::new(btf, NO_TYPE, element);
    for i in 0..checks.len() {
        look_check(alloc, space, asked, &view, checks.get(i), steps)?;
    }
    Ok(())
}
