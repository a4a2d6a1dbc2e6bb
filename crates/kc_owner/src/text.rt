// Texts of a kernel's memory.
ghost use Rattle.std.specs.Prelude.{◌≡◌, ◌+◌, ◌*◌, ◌≤◌, ◌++◌, ◌∷◌, [], Ok, IfSome, OnOk};
ghost use Rattle.kc_memory.specs.Stays.{SpaceStays};
ghost use Rattle.kc_found.specs.Walks.{CountsWalkFaults, OnBroken, OnWalkFault, WalksAs};
ghost use Rattle.kc_owner.specs.Texts.{byte_at, text};
ghost use Rattle.kc_owner.specs.Unread.{IsUnread};

use kc_found::{Name, Space, Stop, WalkStop, low_word, read_bits};
use kc_word::{Bits, NoMemory, Steps};
use std::alloc::Global;
use std::sync::ledger::Ledger;

// A byte that can't be read isn't known.
fn unread(stop: Stop) -> Result<Option<u8>, WalkStop>
    ensures { IsUnread stop result }
{
    match stop {
        Stop::Miss(_) => Ok(None),
        Stop::Fault => Err(WalkStop::Fault),
    }
}

// The byte at an address, where it can be read.
fn read_byte<S: Space, L: Ledger>(
    space: &mut S,
    at: u64,
    steps: &mut Steps<L>,
) -> Result<Option<u8>, WalkStop>
    ensures exact { WalksAs (λ n. n) (λ i. Ok (byte_at i at)) (S.image space.old) result }
    ensures broken { OnBroken result ⊥ }
    ensures steps { steps.new ≤ steps.old + 2 * S.most space.old }
    ensures stays { SpaceStays S.image S.files S.through S.most space.old space.new }
    ensures cause { CountsWalkFaults result (S.faults space.old) (S.faults space.new) }
{
    let bits = Bits {
        bit: 0,
        width: 8,
        signed: false,
    };
    match read_bits(space, at, bits, steps) {
        Ok(number) => Ok(Some((low_word(&number) % 256) as u8)),
        Err(stop) => unread(stop),
    }
}

// Adds a byte to a text.
fn push_byte(name: &mut Name, byte: u8) -> Result<(), WalkStop>
    ensures added { OnOk result (name.new ≡ name.old ++ byte ∷ []) }
    ensures broken { OnBroken result ⊥ }
    ensures no_fault { OnWalkFault result ⊥ }
{
    match name.push(byte) {
        Ok(()) => Ok(()),
        Err(NoMemory) => Err(WalkStop::NoMemory),
    }
}

// Adds the text at an address, of so many bytes at most.
fn push_text<S: Space, L: Ledger>(
    space: &mut S,
    name: &mut Name,
    left: u8,
    at: u64,
    steps: &mut Steps<L>,
) -> Result<(), WalkStop>
    ensures added { OnOk result (IfSome (S.image space.old) (λ i. name.new ≡ name.old ++ text i left at)) }
    ensures broken { OnBroken result ⊥ }
    ensures steps { steps.new ≤ steps.old + 2 * S.most space.old * left }
    ensures stays { SpaceStays S.image S.files S.through S.most space.old space.new }
    ensures cause { CountsWalkFaults result (S.faults space.old) (S.faults space.new) }
{
    if left == 0 {
        return Ok(());
    }
    let byte = match read_byte(space, at, steps) {
        Ok(Some(byte)) => byte,
        Ok(None) => return Ok(()),
        Err(stop) => return Err(stop),
    };
    if byte == 0 {
        return Ok(());
    }
    push_byte(name, byte)?;
    push_text(space, name, left - 1, at.wrapping_add(1), steps)
}

/// The text at a virtual address, of so many bytes at most: up to a NUL, or to a byte that can't be read.
///
/// # Errors
///
/// A failure of the space, whose count of faults then rose; or out of memory.
pub fn read_text<S: Space, L: Ledger>(
    alloc: Global,
    space: &mut S,
    at: u64,
    most: u8,
    steps: &mut Steps<L>,
) -> Result<Name, WalkStop>
    ensures exact { WalksAs (λ n. n) (λ i. Ok (text i most at)) (S.image space.old) result }
    ensures broken { OnBroken result ⊥ }
    ensures steps { steps.new ≤ steps.old + 2 * S.most space.old * most }
    ensures stays { SpaceStays S.image S.files S.through S.most space.old space.new }
    ensures cause { CountsWalkFaults result (S.faults space.old) (S.faults space.new) }
{
    let mut name = Name::new(alloc);
    push_text(space, &mut name, most, at, steps)?;
    Ok(name)
}
