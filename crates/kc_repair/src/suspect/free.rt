// Free pointers that may have led elsewhere.
ghost use Rattle.std.specs.Prelude.{◌≡◌, ◌++◌, OnOk, IfOk, IfSome};
ghost use Rattle.kc_repair.specs.Suspect.Answers.{OnlyReads};
ghost use Rattle.kc_repair.specs.Suspect.FreePointers.{free_by, free_in, free_pointer, free_pointers, object_near, random_at};
ghost use Rattle.kc_repair.specs.Suspect.Suspects.{free_changes};

use crate::suspect::change::{Change, Changes};
use crate::suspect::fields::number_at;
use crate::suspect::heads::push_free_at;
use crate::suspect::links::node_of;
use crate::suspect::rules::{first_address, to};
use kc_found::{Found, ReadFailed, Space};
use kc_kinds::Kind;
use kc_view::SlubShape;
use kc_word::{NoMemory, Steps};
use std::sync::ledger::Ledger;

// A free pointer at an address that leads to an object.
fn free_pointer(random: Option<u64>, at: u64, object: u64) -> Change
    ensures { result ≡ free_pointer random at object }
{
    match random {
        Some(random) => to(at, object ^ random ^ at.swap_bytes()),
        None => to(at, object),
    }
}

// The object so many after the one that stands 64 before an object.
fn object_near(size: u64, object: u64, i: u64) -> u64
    ensures { result ≡ object_near size object i }
{
    let first = node_of(object, size.wrapping_mul(64));
    first.wrapping_add(size.wrapping_mul(i))
}

// Adds a pointer to each of 129 objects.
fn push_objects(
    changes: &mut Changes,
    random: Option<u64>,
    at: u64,
    size: u64,
    object: u64,
) -> Result<(), NoMemory>
    ensures { OnOk result (changes.new ≡ changes.old ++ free_pointers random at size object 129) }
{
    for i in 0..129 {
        changes.push(free_pointer(random, at, object_near(size, object, i)))?;
    }
    Ok(())
}

// Adds a free pointer as one that leads nowhere, and to each object that is near.
fn push_pointers(
    changes: &mut Changes,
    random: Option<u64>,
    at: u64,
    size: u64,
    offset: u64,
) -> Result<(), NoMemory>
    ensures { OnOk result (changes.new ≡ changes.old ++ free_by random at size offset) }
{
    changes.push(free_pointer(random, at, 0))?;
    push_objects(changes, random, at, size, node_of(at, offset))
}

// What the free pointers of a cache are encoded with, where that can be read.
fn random_at<S: Space, L: Ledger>(
    space: &mut S,
    shape: &SlubShape,
    cache: u64,
    steps: &mut Steps<L>,
) -> Result<Option<u64>, ReadFailed>
    ensures random { IfOk result (λ random. IfSome (S.image space.old) (λ image. random ≡ random_at image shape.now cache)) }
    ensures reads { OnlyReads S.image S.files S.through S.most S.faults result space.old space.new }
{
    match &shape.random {
        Some(field) => number_at(space, field, cache, steps),
        None => Ok(None),
    }
}

// Adds those of the pointer at an address in an object of a cache.
pub(crate) fn push_in_cache<S: Space, L: Ledger>(
    changes: &mut Changes,
    shape: &SlubShape,
    cache: u64,
    at: u64,
    space: &mut S,
    steps: &mut Steps<L>,
) -> Result<(), ReadFailed>
    ensures added { OnOk result (IfSome (S.image space.old) (λ image. changes.new ≡ changes.old ++ free_in image shape.now cache at)) }
    ensures reads { OnlyReads S.image S.files S.through S.most S.faults result space.old space.new }
{
    let random = random_at(space, shape, cache, steps)?;
    let size = number_at(space, &shape.size, cache, steps)?;
    let offset = number_at(space, &shape.offset, cache, steps)?;
    if let (Some(size), Some(offset)) = (size, offset) {
        push_pointers(changes, random, at, size, offset)?;
    }
    Ok(())
}

// Adds those of the pointer that the first place shows.
pub(crate) fn push_free<S: Space, L: Ledger>(
    changes: &mut Changes,
    kind: &Kind,
    found: &Found,
    space: &mut S,
    steps: &mut Steps<L>,
) -> Result<(), ReadFailed>
    ensures added { OnOk result (IfSome (S.image space.old) (λ image. changes.new ≡ changes.old ++ free_changes image kind.now found.now)) }
    ensures reads { OnlyReads S.image S.files S.through S.most S.faults result space.old space.new }
{
    let Kind::Slub(shape) = kind else {
        return Ok(());
    };
    match first_address(found.places.as_slice()) {
        Some(at) => push_free_at(changes, shape, found.start, at, space, steps),
        None => Ok(()),
    }
}
