// Pointers in memory, and where they lead.
ghost use Rattle.std.specs.Prelude.{◌≡◌, ◌+◌, ◌*◌, ◌≤◌, false, length, take, IfOk};
ghost use Rattle.kc_memory.specs.Bits.{InBits};
ghost use Rattle.kc_memory.specs.Space.{AnswersAs};
ghost use Rattle.kc_memory.specs.Stays.{CountsFaults, SpaceStays};
ghost use Rattle.kc_layout.specs.HopList.{hop_list};
ghost use Rattle.kc_view.specs.Pointers.{behind, pointer, reached, target};
ghost use Rattle.kc_view.specs.Words.{StepsOf, words_behind, words_of_pointer, words_reached};

use kc_layout::Hops;
use kc_memory::{Place, Scalar, Space, Stop, read_bits};
use kc_word::{Bits, Steps};
use std::sync::ledger::Ledger;

/// A pointer that points nowhere.
const NULL: u64 = 0;

// Where pointers lead.
#[derive(Clone, Copy, Debug, PartialEq, Eq)]
pub(crate) enum Reached {
    // To this address.
    Address(u64),
    // To the first null pointer: its first word's place and its address.
    NullPointer(Place, u64),
}

// The offsets of pointers, those beyond their count too.
pub(crate) fn all_offsets(hops: &Hops) -> [u64; 4]
    ensures { hop_list hops.now ≡ take hops.now.count result }
{
    [hops.a, hops.b, hops.c, hops.d]
}

// The address that a pointer holds.
fn target(pointer: Scalar) -> u64
    requires { InBits false 64 pointer.value }
    ensures { result ≡ target pointer.value }
{
    pointer.value as u64
}

// The pointer at a byte offset from an address.
fn read_pointer<S: Space, L: Ledger>(
    space: &mut S,
    at: u64,
    offset: u64,
    steps: &mut Steps<L>,
) -> Result<Scalar, Stop>
    ensures exact { AnswersAs (λ image. pointer image at offset) (S.image space.old) result }
    ensures range { IfOk result (λ pointer. InBits false 64 pointer.value) }
    ensures steps { steps.new ≤ steps.old + 2 * S.most space.old }
    ensures words { StepsOf (λ image. words_of_pointer image at offset)
        (S.image space.old) result (S.most space.old) steps.old steps.new }

    ensures stays { SpaceStays S.image S.files S.through S.most space.old space.new }
    ensures cause { CountsFaults result (S.faults space.old) (S.faults space.new) }
{
    let bits = Bits {
        bit: 0,
        width: 64,
        signed: false,
    };
    read_bits(space, at.wrapping_add(offset), bits, steps)
}

// The address behind the pointers at these offsets.
pub(crate) fn behind<S: Space, L: Ledger>(
    space: &mut S,
    at: u64,
    offsets: &[u64],
    steps: &mut Steps<L>,
) -> Result<u64, Stop>
    ensures exact { AnswersAs (λ image. behind image at offsets.now) (S.image space.old) result }
    ensures steps { steps.new ≤ steps.old + 2 * (length offsets.now * S.most space.old) }
    ensures words { StepsOf (λ image. words_behind image at offsets.now)
        (S.image space.old) result (S.most space.old) steps.old steps.new }

    ensures stays { SpaceStays S.image S.files S.through S.most space.old space.new }
    ensures cause { CountsFaults result (S.faults space.old) (S.faults space.new) }
{
    match offsets {
        [] => Ok(at),
        [offset, rest @ ..] => match read_pointer(space, at, *offset, steps) {
            Ok(pointer) => behind(space, target(pointer), rest, steps),
            Err(stop) => Err(stop),
        },
    }
}

// Where the pointers at these offsets lead.
pub(crate) fn reach<S: Space, L: Ledger>(
    space: &mut S,
    at: u64,
    offsets: &[u64],
    steps: &mut Steps<L>,
) -> Result<Reached, Stop>
    ensures exact { AnswersAs (λ image. reached image at offsets.now) (S.image space.old) result }
    ensures steps { steps.new ≤ steps.old + 2 * (length offsets.now * S.most space.old) }
    ensures words { StepsOf (λ image. words_reached image at offsets.now)
        (S.image space.old) result (S.most space.old) steps.old steps.new }

    ensures stays { SpaceStays S.image S.files S.through S.most space.old space.new }
    ensures cause { CountsFaults result (S.faults space.old) (S.faults space.new) }
{
    match offsets {
        [] => Ok(Reached::Address(at)),
        [offset, rest @ ..] => match read_pointer(space, at, *offset, steps) {
            Ok(pointer) => {
                let next = target(pointer);
                if next == NULL {
                    Ok(Reached::NullPointer(pointer.first, at.wrapping_add(*offset)))
                } else {
                    reach(space, next, rest, steps)
                }
            }
            Err(stop) => Err(stop),
        },
    }
}
