// What a slab cache says of its slabs.
ghost use Rattle.std.specs.Prelude.{◌≡◌, ◌≤◌, ◌+◌, length, IfOk};
ghost use Rattle.kc_memory.specs.Stays.{SpaceStays};
ghost use Rattle.kc_found.specs.Walks.{CountsWalkFaults, IsNamed, WalksAs};
ghost use Rattle.kc_view.specs.Caches.{base_of, bases_of, count_of, objects_of, optional_of};

use kc_found::{
    Asked, Rule, Space, WalkStop, broken_field, know_most, low_word, read_bits, stopped,
};
use kc_layout::Field;
use kc_steps::read_field;
use kc_view::{Base, SlabObjects, SlubBases, SlubShape, View};
use kc_word::{Bits, Steps};
use std::alloc::Global;
use std::sync::ledger::Ledger;

/// A base: a number that is known, or the word of memory at a virtual address.
///
/// # Errors
///
/// The violation by the stop of that word, a failure of the space, whose count of faults then rose, or out of memory.
pub fn read_base<S: Space, L: Ledger>(
    alloc: Global,
    space: &mut S,
    asked: &Asked,
    base: Base,
    steps: &mut Steps<L>,
) -> Result<u64, WalkStop>
    ensures exact { WalksAs (λ n. n) (λ i. base_of i asked.now base) (S.image space.old) result }
    ensures named { IsNamed result asked.now.audit asked.now.start }
    ensures steps { steps.new ≤ steps.old + 6 }

    ensures stays { SpaceStays S.image S.files S.through S.most space.old space.new }
    ensures cause { CountsWalkFaults result (S.faults space.old) (S.faults space.new) }
{
    know_most(space);
    match base {
        Base::Is(number) => Ok(number),
        Base::At(at) => match space.word(at, steps) {
            Ok(word) => Ok(word.value),
            Err(stop) => Err(stopped(alloc, asked, stop, None)),
        },
    }
}

// How many pointers of the array `node` are looked at, of so many.
fn read_count<S: Space, L: Ledger>(
    alloc: Global,
    space: &mut S,
    asked: &Asked,
    nodes: u32,
    node_ids: Base,
    steps: &mut Steps<L>,
) -> Result<u64, WalkStop>
    ensures exact { WalksAs (λ n. n) (λ i. count_of i asked.now nodes node_ids) (S.image space.old) result }
    ensures few { IfOk result (λ n. n ≤ nodes) }
    ensures named { IsNamed result asked.now.audit asked.now.start }
    ensures steps { steps.new ≤ steps.old + 12 }

    ensures stays { SpaceStays S.image S.files S.through S.most space.old space.new }
    ensures cause { CountsWalkFaults result (S.faults space.old) (S.faults space.new) }
{
    know_most(space);
    let bits = Bits {
        bit: 0,
        width: 32,
        signed: false,
    };
    match node_ids {
        Base::Is(number) => Ok(u64::from(nodes).min(number)),
        Base::At(at) => match read_bits(space, at, bits, steps) {
            Ok(number) => Ok(u64::from(nodes).min(low_word(&number))),
            Err(stop) => Err(stopped(alloc, asked, stop, None)),
        },
    }
}

// The bases and the number of nodes.
pub(crate) fn read_bases<S: Space, L: Ledger>(
    alloc: Global,
    space: &mut S,
    asked: &Asked,
    shape: &SlubShape,
    steps: &mut Steps<L>,
) -> Result<SlubBases, WalkStop>
    ensures exact { WalksAs (λ b. b) (λ i. bases_of i asked.now shape.now) (S.image space.old) result }
    ensures few { IfOk result (λ b. b.nodes ≤ shape.now.nodes) }
    ensures named { IsNamed result asked.now.audit asked.now.start }
    ensures steps { steps.new ≤ steps.old + 24 }

    ensures stays { SpaceStays S.image S.files S.through S.most space.old space.new }
    ensures cause { CountsWalkFaults result (S.faults space.old) (S.faults space.new) }
{
    let vmemmap = read_base(alloc, space, asked, shape.vmemmap, steps)?;
    let direct = read_base(alloc, space, asked, shape.direct, steps)?;
    let nodes = read_count(alloc, space, asked, shape.nodes, shape.node_ids, steps)?;
    Ok(SlubBases {
        vmemmap,
        direct,
        nodes,
    })
}

// A field of the cache that a kernel may not have.
fn read_optional<S: Space, L: Ledger>(
    alloc: Global,
    space: &mut S,
    asked: &Asked,
    cache: &View<'_>,
    field: &Option<Field>,
    steps: &mut Steps<L>,
) -> Result<Option<u64>, WalkStop>
    requires { cache.now.at ≡ asked.now.start }
    ensures exact { WalksAs (λ n. n) (λ i. optional_of i asked.now field.now) (S.image space.old) result }
    ensures named { IsNamed result asked.now.audit asked.now.start }
    ensures steps { steps.new ≤ steps.old + 60 }

    ensures stays { SpaceStays S.image S.files S.through S.most space.old space.new }
    ensures cause { CountsWalkFaults result (S.faults space.old) (S.faults space.new) }
{
    match field {
        None => Ok(None),
        Some(field) => {
            let number = read_field(alloc, space, asked, cache, field, steps)?;
            Ok(Some(number.value()))
        }
    }
}

/// How the objects of the cache at which a walk starts lie in its slabs, in bytes; rule U3 of the field `size`, which has to hold a
/// free pointer at the cache's offset.
///
/// # Errors
///
/// The first violation, a failure of the space, whose count of faults then rose, or out of memory.
pub fn read_objects<S: Space, L: Ledger>(
    alloc: Global,
    space: &mut S,
    asked: &Asked,
    shape: &SlubShape,
    cache: &View<'_>,
    steps: &mut Steps<L>,
) -> Result<SlabObjects, WalkStop>
    requires { cache.now.at ≡ asked.now.start }
    ensures exact { WalksAs (λ o. o) (λ i. objects_of i asked.now shape.now) (S.image space.old) result }
    ensures fits { IfOk result (λ o. (1 ≤ o.size) × (o.offset + 8 ≤ o.size)) }
    ensures named { IsNamed result asked.now.audit asked.now.start }
    ensures steps { steps.new ≤ steps.old + 240 }

    ensures stays { SpaceStays S.image S.files S.through S.most space.old space.new }
    ensures cause { CountsWalkFaults result (S.faults space.old) (S.faults space.new) }
{
    let offset = read_field(alloc, space, asked, cache, &shape.offset, steps)?.value();
    let size = read_field(alloc, space, asked, cache, &shape.size, steps)?;
    let random = read_optional(alloc, space, asked, cache, &shape.random, steps)?;
    let left_pad = read_optional(alloc, space, asked, cache, &shape.left_pad, steps)?;
    if size.value() == 0 || u128::from(size.value()) < u128::from(offset) + 8 {
        return Err(broken_field(alloc, asked, Rule::U3, size.at, &size.number, None));
    }
    Ok(SlabObjects {
        size: size.value(),
        offset,
        random,
        left_pad: left_pad.unwrap_or(0),
    })
}
