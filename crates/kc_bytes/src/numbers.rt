// Numbers at an address of virtual memory.
ghost use Rattle.kc_memory.specs.Space.{AnswersAs};
ghost use Rattle.kc_memory.specs.Stays.{CountsFaults, SpaceStays};
ghost use Rattle.kc_bytes.specs.Bytes.{eight_at, four_at, two_at};

use crate::cursor::Cursor;
use kc_memory::{Space, Stop};
use kc_word::Steps;
use std::sync::ledger::Ledger;

/// The number of the two bytes from a virtual address on, the lower first. It takes no memory.
///
/// # Errors
///
/// A word can't be read.
pub fn read_two<S: Space, L: Ledger>(
    space: &mut S,
    at: u64,
    steps: &mut Steps<L>,
) -> Result<u16, Stop>
    ensures number { AnswersAs (λ image. two_at image at) (S.image space.old) result }
    ensures stays { SpaceStays S.image S.files S.through S.most space.old space.new }
    ensures cause { CountsFaults result (S.faults space.old) (S.faults space.new) }
{
    let mut cursor = Cursor::new(at);
    cursor.next_two(space, steps)
}

/// The number of the four bytes from a virtual address on, the lowest first. It takes no memory.
///
/// # Errors
///
/// A word can't be read.
pub fn read_four<S: Space, L: Ledger>(
    space: &mut S,
    at: u64,
    steps: &mut Steps<L>,
) -> Result<u32, Stop>
    ensures number { AnswersAs (λ image. four_at image at) (S.image space.old) result }
    ensures stays { SpaceStays S.image S.files S.through S.most space.old space.new }
    ensures cause { CountsFaults result (S.faults space.old) (S.faults space.new) }
{
    let mut cursor = Cursor::new(at);
    cursor.next_four(space, steps)
}

/// The number of the eight bytes from a virtual address on, the lowest first. It takes no memory.
///
/// # Errors
///
/// A word can't be read.
pub fn read_eight<S: Space, L: Ledger>(
    space: &mut S,
    at: u64,
    steps: &mut Steps<L>,
) -> Result<u64, Stop>
    ensures number { AnswersAs (λ image. eight_at image at) (S.image space.old) result }
    ensures stays { SpaceStays S.image S.files S.through S.most space.old space.new }
    ensures cause { CountsFaults result (S.faults space.old) (S.faults space.new) }
{
    let mut cursor = Cursor::new(at);
    cursor.next_eight(space, steps)
}
