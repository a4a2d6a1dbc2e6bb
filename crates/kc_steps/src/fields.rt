//! Fields that a walk reads, over `kc_view`: a stop and a broken rule are violations, whose places take memory.

ghost use Rattle.std.specs.Prelude.{◌≡◌, ◌+◌, ◌*◌, ◌≤◌, length, false};
ghost use Rattle.kc_memory.specs.Stays.{SpaceStays};
ghost use Rattle.kc_layout.specs.HopList.{hop_list};
ghost use Rattle.kc_layout.specs.Views.{bits_view};
ghost use Rattle.kc_found.specs.Violations.{is_of_reading};
ghost use Rattle.kc_found.specs.Walks.{CountsWalkFaults, IsNamed, WalksAs};
ghost use Rattle.kc_view.specs.Fields.{field_of, holds, or_missed};
ghost use Rattle.kc_view.specs.Words.{WalkStepsOf, words_at};

use kc_found::{Asked, Rule, WalkStop, broken_field, know_most, stopped};
use kc_layout::Field;
use kc_memory::Space;
use kc_view::{FieldNumber, View, field_of};
use kc_word::Steps;
use std::alloc::Global;
use std::sync::ledger::Ledger;

/// A field of a struct of this type, which a walk reads. It reads no word that the number doesn't need, and
/// takes memory for the place of a refused paging entry alone.
///
/// # Errors
///
/// The violation by the first stop, a failure of the space, or out of memory.
pub fn read_field<S: Space, L: Ledger>(
    alloc: Global,
    space: &mut S,
    asked: &Asked,
    view: &View<'_>,
    field: &Field,
    steps: &mut Steps<L>,
) -> Result<FieldNumber, WalkStop>
    ensures exact { WalksAs (λ f. f) (λ i. or_missed asked.now (field_of i view.now.at field.now)) (S.image space.old) result }
    ensures named { IsNamed result asked.now.audit asked.now.start }
    ensures steps { steps.new
        ≤ steps.old + 2 * (length (hop_list field.now.hops) * S.most space.old) + 2 * S.most space.old }
    // Four pointers at most are followed, and each of them and the number stand in two words at most.
    ensures few { steps.new ≤ steps.old + 60 }
    ensures words { WalkStepsOf
        (λ image. words_at image view.now.at (hop_list field.now.hops) (bits_view field.now.bits))
        (S.image space.old) result (S.most space.old) steps.old steps.new }

    ensures stays { SpaceStays S.image S.files S.through S.most space.old space.new }
    ensures cause { CountsWalkFaults result (S.faults space.old) (S.faults space.new) }
{
    know_most(space);
    match field_of(space, view, field, steps) {
        Ok(number) => Ok(number),
        Err(stop) => Err(stopped(alloc, asked, stop, None)),
    }
}

/// Looks at a field, which has to hold a number, or the rule of it is broken.
///
/// # Errors
///
/// The violation by the first stop, or else of the rule, with the number as the expected one; a failure of the space,
/// or out of memory.
pub fn check_field<S: Space, L: Ledger>(
    alloc: Global,
    space: &mut S,
    asked: &Asked,
    rule: Rule,
    view: &View<'_>,
    field: &Field,
    wanted: u64,
    steps: &mut Steps<L>,
) -> Result<(), WalkStop>
    requires { is_of_reading rule ≡ false }
    ensures exact { WalksAs (λ _. tt) (λ i. holds i asked.now rule view.now.at field.now wanted)
        (S.image space.old) result }
    ensures named { IsNamed result asked.now.audit asked.now.start }
    ensures steps { steps.new
        ≤ steps.old + 2 * (length (hop_list field.now.hops) * S.most space.old) + 2 * S.most space.old }
    // Four pointers at most are followed, and each of them and the number stand in two words at most.
    ensures few { steps.new ≤ steps.old + 60 }
    ensures words { WalkStepsOf
        (λ image. words_at image view.now.at (hop_list field.now.hops) (bits_view field.now.bits))
        (S.image space.old) result (S.most space.old) steps.old steps.new }

    ensures stays { SpaceStays S.image S.files S.through S.most space.old space.new }
    ensures cause { CountsWalkFaults result (S.faults space.old) (S.faults space.new) }
{
    let number = read_field(alloc, space, asked, view, field, steps)?;
    if number.value() != wanted {
        return Err(broken_field(alloc, asked, rule, number.at, &number.number, Some(wanted)));
    }
    Ok(())
}
