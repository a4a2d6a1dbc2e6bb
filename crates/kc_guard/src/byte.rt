// Bytes that are all to be the same.
ghost use Rattle.std.specs.Prelude.{◌≡◌, nat_eq};
ghost use Rattle.kc_found.specs.FreeLists.{low_word};
ghost use Rattle.kc_memory.specs.Stays.{SpaceStays};
ghost use Rattle.kc_found.specs.Walks.{CountsWalkFaults, WalksAs};
ghost use Rattle.kc_guard.specs.Bytes.{byte_in, other_from};

use kc_found::{Asked, Place, Scalar, Space, WalkStop, low_word, read_bits, stopped};
use kc_word::{Bits, Steps};
use std::alloc::Global;
use std::sync::ledger::Ledger;

/// A byte that isn't what it has to be.
#[derive(Clone, Copy, Debug, PartialEq, Eq)]
pub struct WrongByte {
    /// Its virtual address.
    pub at: u64,
    /// The word where it stands.
    pub place: Place,
}

// The byte at an address, with its word.
fn read_byte<S: Space, L: Ledger>(
    alloc: Global,
    space: &mut S,
    asked: &Asked,
    at: u64,
    steps: &mut Steps<L>,
) -> Result<Scalar, WalkStop>
    ensures exact { WalksAs (λ n. n) (λ i. byte_in i asked.now at) (S.image space.old) result }
    ensures stays { SpaceStays S.image S.files S.through S.most space.old space.new }
    ensures cause { CountsWalkFaults result (S.faults space.old) (S.faults space.new) }
{
    let bits = Bits {
        bit: 0,
        width: 8,
        signed: false,
    };
    match read_bits(space, at, bits, steps) {
        Ok(number) => Ok(number),
        Err(stop) => Err(stopped(alloc, asked, stop, None)),
    }
}

// A number is this byte.
fn is_byte(number: &Scalar, byte: u8) -> bool
    ensures { result ≡ nat_eq (low_word number.now.value) byte }
{
    low_word(number) == u64::from(byte)
}

// The word where a number begins.
fn first_place(number: &Scalar) -> Place
    ensures { result ≡ number.now.first }
{
    number.first
}

// The first of so many bytes that isn't this one, from an address on.
pub(crate) fn find_other<S: Space, L: Ledger>(
    alloc: Global,
    space: &mut S,
    asked: &Asked,
    byte: u8,
    count: u64,
    from: u64,
    steps: &mut Steps<L>,
) -> Result<Option<WrongByte>, WalkStop>
    ensures exact { WalksAs (λ w. w) (λ i. other_from i asked.now byte count from) (S.image space.old) result }
    ensures stays { SpaceStays S.image S.files S.through S.most space.old space.new }
    ensures cause { CountsWalkFaults result (S.faults space.old) (S.faults space.new) }
{
    let mut at = from;
    let mut left = count;
    while left > 0 {
        let number = match read_byte(alloc, space, asked, at, steps) {
            Ok(number) => number,
            Err(stop) => return Err(stop),
        };
        if is_byte(&number, byte) {
            at = at.wrapping_add(1);
            left -= 1;
        } else {
            let place = first_place(&number);
            return Ok(Some(WrongByte { at, place }));
        }
    }
    Ok(None)
}
