// The page that a descriptor is of.
ghost use Rattle.std.specs.Prelude.{◌≡◌, ◌+◌, ◌≤◌};
ghost use Rattle.kc_memory.specs.Stays.{SpaceStays};
ghost use Rattle.kc_found.specs.Walks.{CountsWalkFaults, WalksAs};
ghost use Rattle.kc_owner.specs.Object.Described.{described, described_by};

use crate::looked_at;
use crate::object::bases::read_bases;
use crate::object::shape::ObjectShape;
use kc_found::{Space, WalkStop};
use kc_slub::page_of;
use kc_view::SlubBases;
use kc_word::Steps;
use std::alloc::Global;
use std::sync::ledger::Ledger;

/// A byte of the descriptor of a page of physical memory.
#[derive(Clone, Copy, Debug, PartialEq, Eq)]
pub struct Described {
    /// The page's number: its physical address, in pages of 4096 bytes.
    pub number: u64,
    /// The byte, counted from the descriptor's first one.
    pub byte: u64,
}

// The same, by where page descriptors begin.
fn described_by(shape: &ObjectShape, bases: &SlubBases, address: u64) -> Option<Described>
    ensures { result ≡ described_by shape.now bases.now address }
{
    let number = page_of(&shape.slub, bases, address);
    if number >= shape.pages {
        return None;
    }
    Some(Described {
        number,
        byte: address.wrapping_sub(bases.vmemmap) % shape.slub.page_size,
    })
}

/// The page whose descriptor has virtual address `address`, `None` where none has it: whether the page or its descriptor is in the dump
/// isn't asked. What is broken names audit 0, and as its start the address.
///
/// # Errors
///
/// Why it can't be told where page descriptors begin; a failure of the space, whose count of faults then rose; or out of memory.
pub fn find_described<S: Space, L: Ledger>(
    alloc: Global,
    space: &mut S,
    shape: &ObjectShape,
    address: u64,
    steps: &mut Steps<L>,
) -> Result<Option<Described>, WalkStop>
    ensures exact { WalksAs (λ d. d) (λ i. described i shape.now address) (S.image space.old) result }
    ensures steps { steps.new ≤ steps.old + 12 }
    ensures stays { SpaceStays S.image S.files S.through S.most space.old space.new }
    ensures cause { CountsWalkFaults result (S.faults space.old) (S.faults space.new) }
{
    let bases = read_bases(alloc, space, &looked_at(address), &shape.slub, steps)?;
    Ok(described_by(shape, &bases, address))
}
