// The processor whose area has an address.
ghost use Rattle.std.specs.Prelude.{◌≡◌, ◌≤◌, min, false, Ok, IfOk};
ghost use Rattle.std.specs.List.{range_with_len};
ghost use Rattle.kc_memory.specs.Bits.{bits};
ghost use Rattle.kc_memory.specs.Stays.{SpaceStays};
ghost use Rattle.kc_found.specs.FreeLists.{low_word};
ghost use Rattle.kc_found.specs.Trials.{and_then};
ghost use Rattle.kc_found.specs.Walks.{CountsWalkFaults, WalksAs};
ghost use Rattle.kc_view.specs.Fields.{or_missed};
ghost use Rattle.kc_owner.specs.Firsts.{first_of};
ghost use Rattle.kc_owner.specs.Area.Processors.{in_area, in_processor, less, processor_at};
ghost use Rattle.kc_owner.specs.Looked.{looked_at};

use crate::area::shape::ProcessorShape;
use crate::firsts::{none_found, pass_broken};
use crate::looked_at;
use kc_found::{Found, Space, WalkStop, low_word, read_bits, stopped};
use kc_word::{Bits, Steps};
use std::alloc::Global;
use std::sync::ledger::Ledger;

// How many processors are looked at.
const PROCESSORS: u64 = 8192;

/// A processor, and what its area has a copy of.
#[derive(Clone, Copy, Debug, PartialEq, Eq)]
pub struct InProcessor {
    /// The processor's number.
    pub number: u64,
    /// The address of the first variable that areas have copies of, `__per_cpu_start`.
    pub start: u64,
    /// The address, as the map lists it, of the byte that this is the processor's copy of.
    pub variable: u64,
}

// An address less an offset.
fn less(address: u64, offset: u64) -> u64
    ensures { result ≡ less address offset }
{
    address.wrapping_sub(offset)
}

// What the area of a processor has a copy of, by the area's offset.
fn in_area(shape: &ProcessorShape, address: u64, number: u64, offset: u64) -> Option<InProcessor>
    ensures { result ≡ in_area shape.now address number offset }
{
    let variable = less(address, offset);
    if variable >= shape.start && variable < shape.end {
        Some(InProcessor {
            number,
            start: shape.start,
            variable,
        })
    } else {
        None
    }
}

// The same, where the offset stands in the kernel's array.
fn in_processor<S: Space, L: Ledger>(
    alloc: Global,
    space: &mut S,
    shape: &ProcessorShape,
    address: u64,
    number: u64,
    steps: &mut Steps<L>,
) -> Result<Option<InProcessor>, WalkStop>
    ensures exact { WalksAs (λ found. found) (λ i. in_processor i shape.now address number) (S.image space.old) result }
    ensures stays { SpaceStays S.image S.files S.through S.most space.old space.new }
    ensures cause { CountsWalkFaults result (S.faults space.old) (S.faults space.new) }
{
    let at = shape.offsets.wrapping_add(number.wrapping_mul(8));
    match space.word(at, steps) {
        Ok(word) => Ok(in_area(shape, address, number, word.value)),
        Err(stop) => Err(stopped(alloc, &looked_at(shape.offsets), stop, None)),
    }
}

// How many processors the kernel has.
fn read_count<S: Space, L: Ledger>(
    alloc: Global,
    space: &mut S,
    at: u64,
    steps: &mut Steps<L>,
) -> Result<u64, WalkStop>
    ensures exact { WalksAs (λ count. count) (λ i. and_then (or_missed (looked_at at) (bits i at 0 32 false)) (λ n. Ok (low_word n.value))) (S.image space.old) result }
    ensures stays { SpaceStays S.image S.files S.through S.most space.old space.new }
    ensures cause { CountsWalkFaults result (S.faults space.old) (S.faults space.new) }
{
    let bits = Bits {
        bit: 0,
        width: 32,
        signed: false,
    };
    match read_bits(space, at, bits, steps) {
        Ok(number) => Ok(low_word(&number)),
        Err(stop) => Err(stopped(alloc, &looked_at(at), stop, None)),
    }
}

// The first of so many processors whose area has an address.
fn in_processors<S: Space, L: Ledger>(
    alloc: Global,
    space: &mut S,
    shape: &ProcessorShape,
    address: u64,
    count: u64,
    steps: &mut Steps<L>,
) -> Result<Option<InProcessor>, WalkStop>
    ensures exact { WalksAs (λ found. found) (λ i. first_of (in_processor i shape.now address) (range_with_len 0 count)) (S.image space.old) result }
    ensures stays { SpaceStays S.image S.files S.through S.most space.old space.new }
    ensures cause { CountsWalkFaults result (S.faults space.old) (S.faults space.new) }
{
    let mut missed: Option<Found> = None;
    for number in 0..count {
        let told = in_processor(alloc, space, shape, address, number, steps);
        match pass_broken(&mut missed, told) {
            Ok(None) => {}
            Ok(Some(found)) => return Ok(Some(found)),
            Err(stop) => return Err(stop),
        }
    }
    none_found(missed)
}

// The first processor whose area has an address.
pub(crate) fn read_processor<S: Space, L: Ledger>(
    alloc: Global,
    space: &mut S,
    shape: &ProcessorShape,
    address: u64,
    steps: &mut Steps<L>,
) -> Result<Option<InProcessor>, WalkStop>
    ensures exact { WalksAs (λ found. found) (λ i. processor_at i shape.now address) (S.image space.old) result }
    ensures stays { SpaceStays S.image S.files S.through S.most space.old space.new }
    ensures cause { CountsWalkFaults result (S.faults space.old) (S.faults space.new) }
{
    let count = read_count(alloc, space, shape.count, steps)?;
    in_processors(alloc, space, shape, address, count.min(PROCESSORS), steps)
}
