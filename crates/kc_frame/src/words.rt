// The words of a page's descriptor.
ghost use Rattle.std.specs.Prelude.{◌≡◌, Ok};
ghost use Rattle.kc_memory.specs.Stays.{SpaceStays};
ghost use Rattle.kc_found.specs.Walks.{CountsWalkFaults, OnBroken, WalksAs};
ghost use Rattle.kc_frame.specs.Words.{flags_at, kind_of, mapping_at, mapping_by, maps_at, maps_by};

use crate::shape::FrameShape;
use kc_found::{Space, WalkStop};
use kc_owner::read_known;
use kc_view::View;
use kc_word::Steps;
use std::alloc::Global;
use std::sync::ledger::Ledger;

/// The flags and the count of a page.
#[derive(Clone, Copy, Debug, PartialEq, Eq)]
pub struct FrameFlags {
    /// `flags`.
    pub flags: u64,
    /// `_refcount`: how many hold the page, modulo 2^64.
    pub count: u64,
    /// How many page tables map the page; `None` where the descriptor has no such number.
    pub maps: Option<u64>,
}

/// What a page belongs to.
#[derive(Clone, Copy, Debug, PartialEq, Eq)]
pub enum MappingKind {
    /// A page cache: a `struct address_space`.
    Cache,
    /// Memory of tasks: a `struct anon_vma`.
    Anonymous,
    /// A driver that can move it.
    Movable,
    /// Same memory of several tasks: a node of KSM's.
    Same,
}

/// What a page belongs to, and where in it.
#[derive(Clone, Copy, Debug, PartialEq, Eq)]
pub struct FrameMapping {
    /// What it is.
    pub kind: MappingKind,
    /// Its virtual address.
    pub at: u64,
    /// `index`: which page of it this is.
    pub index: u64,
}

// How many page tables map a page, by the number that is one less. That of a page with a type is below it.
fn maps_by(less: u64) -> Option<u64>
    ensures { result ≡ maps_by less }
{
    let maps = less.wrapping_add(1);
    if maps < 1 << 63 { Some(maps) } else { None }
}

// How many page tables map a page; of a slab's it isn't read.
fn read_maps<S: Space, L: Ledger>(
    alloc: Global,
    space: &mut S,
    head: &View<'_>,
    shape: &FrameShape,
    slab: bool,
    steps: &mut Steps<L>,
) -> Result<Option<u64>, WalkStop>
    ensures exact { WalksAs (λ n. n) (λ i. Ok (maps_at i shape.now slab head.now.at)) (S.image space.old) result }
    ensures broken { OnBroken result ⊥ }
    ensures stays { SpaceStays S.image S.files S.through S.most space.old space.new }
    ensures cause { CountsWalkFaults result (S.faults space.old) (S.faults space.new) }
{
    if slab {
        return Ok(None);
    }
    match read_known(alloc, space, head, &shape.maps, steps)? {
        Some(less) => Ok(maps_by(less)),
        None => Ok(None),
    }
}

// The flags and the count of a page, by its head page's descriptor.
pub(crate) fn read_flags<S: Space, L: Ledger>(
    alloc: Global,
    space: &mut S,
    head: &View<'_>,
    shape: &FrameShape,
    slab: bool,
    steps: &mut Steps<L>,
) -> Result<Option<FrameFlags>, WalkStop>
    ensures exact { WalksAs (λ f. f) (λ i. Ok (flags_at i shape.now slab head.now.at)) (S.image space.old) result }
    ensures broken { OnBroken result ⊥ }
    ensures stays { SpaceStays S.image S.files S.through S.most space.old space.new }
    ensures cause { CountsWalkFaults result (S.faults space.old) (S.faults space.new) }
{
    let Some(flags) = read_known(alloc, space, head, &shape.flags, steps)? else {
        return Ok(None);
    };
    let Some(count) = read_known(alloc, space, head, &shape.count, steps)? else {
        return Ok(None);
    };
    let maps = read_maps(alloc, space, head, shape, slab, steps)?;
    Ok(Some(FrameFlags { flags, count, maps }))
}

// What the two lowest bits of `mapping` say.
fn kind_of(anonymous: bool, movable: bool) -> MappingKind
    ensures { result ≡ kind_of anonymous movable }
{
    match (anonymous, movable) {
        (false, false) => MappingKind::Cache,
        (true, false) => MappingKind::Anonymous,
        (false, true) => MappingKind::Movable,
        (true, true) => MappingKind::Same,
    }
}

// What a page belongs to, by its numbers.
fn mapping_by(mapping: u64, index: u64) -> Option<FrameMapping>
    ensures { result ≡ mapping_by mapping index }
{
    if mapping == 0 {
        None
    } else {
        Some(FrameMapping {
            kind: kind_of(mapping % 2 == 1, mapping / 2 % 2 == 1),
            at: mapping - mapping % 4,
            index,
        })
    }
}

// What a page belongs to, by its head page's descriptor.
pub(crate) fn read_mapping<S: Space, L: Ledger>(
    alloc: Global,
    space: &mut S,
    head: &View<'_>,
    shape: &FrameShape,
    steps: &mut Steps<L>,
) -> Result<Option<FrameMapping>, WalkStop>
    ensures exact { WalksAs (λ m. m) (λ i. Ok (mapping_at i shape.now head.now.at)) (S.image space.old) result }
    ensures broken { OnBroken result ⊥ }
    ensures stays { SpaceStays S.image S.files S.through S.most space.old space.new }
    ensures cause { CountsWalkFaults result (S.faults space.old) (S.faults space.new) }
{
    let Some(mapping) = read_known(alloc, space, head, &shape.mapping, steps)? else {
        return Ok(None);
    };
    let Some(index) = read_known(alloc, space, head, &shape.index, steps)? else {
        return Ok(None);
    };
    Ok(mapping_by(mapping, index))
}
