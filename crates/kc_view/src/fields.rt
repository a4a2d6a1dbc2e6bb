// Fields that a walk reads, and the walks that stand within it.
ghost use Rattle.std.specs.Prelude.{◌≡◌, ◌+◌, ◌*◌, ◌≤◌, length};
ghost use Rattle.kc_memory.specs.Space.{AnswersAs};
ghost use Rattle.kc_memory.specs.Stays.{CountsFaults, SpaceStays};
ghost use Rattle.kc_layout.specs.HopList.{hop_list};
ghost use Rattle.kc_layout.specs.Views.{bits_view};
ghost use Rattle.kc_view.specs.Fields.{IsStartedAt, field_of, value_of};
ghost use Rattle.kc_view.specs.Words.{StepsOf, words_at};

use crate::view::View;
use kc_found::{Found, WalkStop, low_word};
use kc_layout::Field;
use kc_memory::{Scalar, Space, Stop, read_bits};
use kc_word::Steps;
use std::sync::ledger::Ledger;

/// The number of a field.
#[derive(Clone, Copy, Debug, PartialEq, Eq)]
pub struct FieldNumber {
    /// The number, with its words.
    pub number: Scalar,
    /// The virtual address of the field's first byte: of a bit-field, of the byte that holds its first bit.
    pub at: u64,
}

impl FieldNumber {
    /// The number modulo 2^64.
    pub fn value(&self) -> u64
        ensures { result ≡ value_of self.now }
    {
        low_word(&self.number)
    }
}

/// A field of a struct of this type: its number, and where it stands. It reads no word that the number doesn't need, and takes
/// no memory.
///
/// # Errors
///
/// The first stop, and `Fault` where reading the dump failed.
pub fn field_of<S: Space, L: Ledger>(
    space: &mut S,
    view: &View<'_>,
    field: &Field,
    steps: &mut Steps<L>,
) -> Result<FieldNumber, Stop>
    ensures exact { AnswersAs (λ i. field_of i view.now.at field.now) (S.image space.old) result }
    ensures steps { steps.new
        ≤ steps.old + 2 * (length (hop_list field.now.hops) * S.most space.old) + 2 * S.most space.old }
    ensures words { StepsOf
        (λ image. words_at image view.now.at (hop_list field.now.hops) (bits_view field.now.bits))
        (S.image space.old) result (S.most space.old) steps.old steps.new }

    ensures stays { SpaceStays S.image S.files S.through S.most space.old space.new }
    ensures cause { CountsFaults result (S.faults space.old) (S.faults space.new) }
{
    let end = view.behind(space, &field.hops, steps)?;
    let number = read_bits(space, end, field.bits, steps)?;
    Ok(FieldNumber {
        number,
        at: end.wrapping_add(field.bits.bit / 8),
    })
}

/// The end of an inner walk, as that of a walk which starts here.
pub fn started_at(stop: WalkStop, start: u64) -> WalkStop
    ensures { IsStartedAt start stop result }
{
    match stop {
        WalkStop::Broken(found) => WalkStop::Broken(Found {
            audit: found.audit,
            start,
            rule: found.rule,
            at: found.at,
            expected: found.expected,
            stop: found.stop,
            places: found.places,
        }),
        WalkStop::Fault => WalkStop::Fault,
        WalkStop::NoMemory => WalkStop::NoMemory,
    }
}
