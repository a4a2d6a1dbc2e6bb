// Whether a symbol has a name.
ghost use Rattle.std.specs.Prelude.{◌≡◌, ◌+◌, ◌*◌, ◌≤◌, Ok};
ghost use Rattle.kc_memory.specs.Stays.{SpaceStays};
ghost use Rattle.kc_found.specs.Walks.{CountsWalkFaults, OnBroken, WalksAs};
ghost use Rattle.kc_owner.specs.Texts.{byte_at};
ghost use Rattle.kc_owner.specs.Unread.{IsUnread};
ghost use Rattle.kc_module_symbols.specs.Names.{is_mapping, is_name, is_named_at};

use kc_found::{Space, Stop, WalkStop, low_word, read_bits};
use kc_word::{Bits, Steps};
use std::sync::ledger::Ledger;

// A byte that can't be read isn't known.
fn unread(stop: Stop) -> Result<Option<u8>, WalkStop>
    ensures { IsUnread stop result }
{
    match stop {
        Stop::Miss(_) => Ok(None),
        Stop::Fault => Err(WalkStop::Fault),
    }
}

// The byte at an address, where it can be read.
pub(crate) fn read_byte<S: Space, L: Ledger>(
    space: &mut S,
    at: u64,
    steps: &mut Steps<L>,
) -> Result<Option<u8>, WalkStop>
    ensures exact { WalksAs (λ n. n) (λ i. Ok (byte_at i at)) (S.image space.old) result }
    ensures broken { OnBroken result ⊥ }
    ensures stays { SpaceStays S.image S.files S.through S.most space.old space.new }
    ensures cause { CountsWalkFaults result (S.faults space.old) (S.faults space.new) }
{
    let bits = Bits {
        bit: 0,
        width: 8,
        signed: false,
    };
    match read_bits(space, at, bits, steps) {
        Ok(number) => Ok(Some((low_word(&number) % 256) as u8)),
        Err(stop) => unread(stop),
    }
}

// Whether a name is one of a place in code that no programmer gave, by its first two bytes.
fn is_mapping(first: u8, second: Option<u8>) -> bool
    ensures { result ≡ is_mapping first second }
{
    match (first, second) {
        (b'$', _) => true,
        (b'.', Some(second)) => second == b'L',
        (b'L', Some(second)) => second == b'0',
        _ => false,
    }
}

// Whether a symbol's name is one of a symbol, by its first two bytes.
fn is_name(first: Option<u8>, second: Option<u8>) -> bool
    ensures { result ≡ is_name first second }
{
    match first {
        Some(first) => first != 0 && !is_mapping(first, second),
        None => true,
    }
}

// The same of the name at an address.
pub(crate) fn read_named<S: Space, L: Ledger>(
    space: &mut S,
    at: u64,
    steps: &mut Steps<L>,
) -> Result<bool, WalkStop>
    ensures exact { WalksAs (λ b. b) (λ i. Ok (is_named_at i at)) (S.image space.old) result }
    ensures broken { OnBroken result ⊥ }
    ensures stays { SpaceStays S.image S.files S.through S.most space.old space.new }
    ensures cause { CountsWalkFaults result (S.faults space.old) (S.faults space.new) }
{
    let first = read_byte(space, at, steps)?;
    let second = read_byte(space, at.wrapping_add(1), steps)?;
    Ok(is_name(first, second))
}
