// What a slab cache says of itself.
ghost use Rattle.std.specs.Prelude.{◌≡◌, ◌+◌, ◌≤◌, Ok};
ghost use Rattle.kc_memory.specs.Stays.{SpaceStays};
ghost use Rattle.kc_found.specs.Walks.{CountsWalkFaults, WalksAs};
ghost use Rattle.kc_owner.specs.Object.Caches.{cache_of, text_by};

use crate::object::shape::ObjectShape;
use crate::{read_known, read_text};
use kc_found::{Name, Space, WalkStop};
use kc_view::View;
use kc_word::Steps;
use std::alloc::Global;
use std::sync::ledger::Ledger;

// How many bytes of a name are looked at.
const NAME: u8 = 64;

/// A slab cache (`struct kmem_cache`).
#[derive(Drop)]
pub struct Cache {
    /// Its virtual address.
    pub at: u64,
    /// Its name, of 64 bytes at most: up to a NUL, or to a byte that can't be read.
    pub name: Name,
    /// How many users it has, where caches are merged (`refcount`), or `None` where that can't be read.
    pub users: Option<u64>,
}

// The text that a pointer leads to, where there is one.
fn read_name<S: Space, L: Ledger>(
    alloc: Global,
    space: &mut S,
    at: Option<u64>,
    steps: &mut Steps<L>,
) -> Result<Name, WalkStop>
    ensures exact { WalksAs (λ n. n) (λ i. Ok (text_by i at)) (S.image space.old) result }
    ensures steps { steps.new ≤ steps.old + 768 }
    ensures stays { SpaceStays S.image S.files S.through S.most space.old space.new }
    ensures cause { CountsWalkFaults result (S.faults space.old) (S.faults space.new) }
{
    match at {
        Some(at) => read_text(alloc, space, at, NAME, steps),
        None => Ok(Name::new(alloc)),
    }
}

// A cache by its address.
pub(crate) fn read_cache<S: Space, L: Ledger>(
    alloc: Global,
    space: &mut S,
    view: &View<'_>,
    shape: &ObjectShape,
    steps: &mut Steps<L>,
) -> Result<Cache, WalkStop>
    ensures exact { WalksAs (λ c. c) (λ i. Ok (cache_of i shape.now view.now.at)) (S.image space.old) result }
    ensures steps { steps.new ≤ steps.old + 888 }
    ensures stays { SpaceStays S.image S.files S.through S.most space.old space.new }
    ensures cause { CountsWalkFaults result (S.faults space.old) (S.faults space.new) }
{
    let pointer = read_known(alloc, space, view, &shape.name, steps)?;
    let name = read_name(alloc, space, pointer, steps)?;
    let users = read_known(alloc, space, view, &shape.refcount, steps)?;
    Ok(Cache {
        at: view.at(),
        name,
        users,
    })
}
