// The zone that has a page.
ghost use Rattle.std.specs.Prelude.{◌≡◌, ◌≤◌, length, Ok, IfSome};
ghost use Rattle.kc_kinds.specs.Kernels.{kernel};
ghost use Rattle.kc_memory.specs.Stays.{SpaceStays};
ghost use Rattle.kc_found.specs.Walks.{CountsWalkFaults, OnBroken, WalksAs};
ghost use Rattle.kc_frame.specs.Zones.{led_to, name_at, node_at, shape_with, spans, spans_page, zone_at, zone_in, zone_name, zone_named, zone_shape, zones_at};

use kc_btf::Btf;
use kc_found::{Name, Space, WalkStop};
use kc_kinds::Known;
use kc_layout::Field;
use kc_owner::{
    Elements, elements_in, read_known, read_text, read_word, scalar_in, single, struct_named,
    view_at,
};
use kc_view::View;
use kc_word::Steps;
use std::alloc::Global;
use std::sync::ledger::Ledger;

/// How many zones are looked at: 8 of each of 64 nodes.
const PLACES: u64 = 512;

/// The longest name of a zone in bytes.
const NAME: u8 = 64;

/// Where the words of zones stand (`struct pglist_data`, `struct zone`). All offsets are in bytes.
#[derive(Clone, Copy, Debug, PartialEq, Eq)]
pub struct ZoneShape {
    /// The virtual address of an array of pointers to nodes, `node_data`, where the kernel has it.
    pub nodes: Option<u64>,
    /// That of the one node of a kernel without NUMA, `contig_page_data`.
    pub only: Option<u64>,
    /// The array `node_zones` of a node.
    pub zones: Elements,
    /// The field `zone_start_pfn` of a zone.
    pub start: Option<Field>,
    /// The field `spanned_pages` of a zone.
    pub spanned: Option<Field>,
    /// The field `name` of a zone: the address of its name's first byte.
    pub name: Option<Field>,
}

// Where these words stand, by the array of a node's zones.
fn shape_with(known: &Known<'_>, zone: Option<u32>, zones: Elements) -> ZoneShape
    requires { IfSome zone (λ id. id ≤ length known.now.btf.now.records) }
    ensures { result ≡ shape_with (kernel known.now) zone zones }
{
    ZoneShape {
        nodes: single(known, b"node_data"),
        only: single(known, b"contig_page_data"),
        zones,
        start: scalar_in(known.btf, zone, b"zone_start_pfn"),
        spanned: scalar_in(known.btf, zone, b"spanned_pages"),
        name: scalar_in(known.btf, zone, b"name"),
    }
}

// Where a kernel has these words, or `None` where it lacks that array.
pub(crate) fn zone_shape(known: &Known<'_>) -> Option<ZoneShape>
    ensures { result ≡ zone_shape (kernel known.now) }
{
    let node = struct_named(known, b"pglist_data");
    let zones = elements_in(known.btf, node, b"node_zones")?;
    Some(shape_with(known, struct_named(known, b"zone"), zones))
}

// What a pointer leads to, which isn't null.
fn led_to(pointer: Option<u64>) -> Option<u64>
    ensures { result ≡ led_to pointer }
{
    match pointer {
        Some(at) if at > 0 => Some(at),
        _ => None,
    }
}

// The node with a number.
fn read_node<S: Space, L: Ledger>(
    space: &mut S,
    shape: &ZoneShape,
    number: u64,
    steps: &mut Steps<L>,
) -> Result<Option<u64>, WalkStop>
    ensures exact { WalksAs (λ n. n) (λ i. Ok (node_at i shape.now number)) (S.image space.old) result }
    ensures broken { OnBroken result ⊥ }
    ensures stays { SpaceStays S.image S.files S.through S.most space.old space.new }
    ensures cause { CountsWalkFaults result (S.faults space.old) (S.faults space.new) }
{
    let Some(nodes) = shape.nodes else {
        return Ok(if number == 0 { shape.only } else { None });
    };
    let at = nodes.wrapping_add(number.wrapping_mul(8));
    let pointer = read_word(space, at, steps)?;
    Ok(led_to(pointer))
}

// So many pages from a first one on have a page.
fn spans(start: u64, spanned: u64, page: u64) -> bool
    ensures { result ≡ spans start spanned page }
{
    start <= page && page - start < spanned
}

// A zone spans a page.
fn spans_page<S: Space, L: Ledger>(
    alloc: Global,
    space: &mut S,
    shape: &ZoneShape,
    zone: &View<'_>,
    page: u64,
    steps: &mut Steps<L>,
) -> Result<bool, WalkStop>
    ensures exact { WalksAs (λ b. b) (λ i. Ok (spans_page i shape.now zone.now.at page)) (S.image space.old) result }
    ensures broken { OnBroken result ⊥ }
    ensures stays { SpaceStays S.image S.files S.through S.most space.old space.new }
    ensures cause { CountsWalkFaults result (S.faults space.old) (S.faults space.new) }
{
    let Some(start) = read_known(alloc, space, zone, &shape.start, steps)? else {
        return Ok(false);
    };
    let Some(spanned) = read_known(alloc, space, zone, &shape.spanned, steps)? else {
        return Ok(false);
    };
    Ok(spans(start, spanned, page))
}

// The name of a zone.
fn read_name<S: Space, L: Ledger>(
    alloc: Global,
    space: &mut S,
    shape: &ZoneShape,
    zone: &View<'_>,
    steps: &mut Steps<L>,
) -> Result<Option<Name>, WalkStop>
    ensures exact { WalksAs (λ n. n) (λ i. Ok (name_at i shape.now zone.now.at)) (S.image space.old) result }
    ensures broken { OnBroken result ⊥ }
    ensures stays { SpaceStays S.image S.files S.through S.most space.old space.new }
    ensures cause { CountsWalkFaults result (S.faults space.old) (S.faults space.new) }
{
    match read_known(alloc, space, zone, &shape.name, steps)? {
        Some(at) => Ok(Some(read_text(alloc, space, at, NAME, steps)?)),
        None => Ok(None),
    }
}

// The name of a zone, where it spans a page.
fn read_zone<S: Space, L: Ledger>(
    alloc: Global,
    space: &mut S,
    shape: &ZoneShape,
    zone: &View<'_>,
    page: u64,
    steps: &mut Steps<L>,
) -> Result<Option<Name>, WalkStop>
    ensures exact { WalksAs (λ n. n) (λ i. Ok (zone_named i shape.now page zone.now.at)) (S.image space.old) result }
    ensures broken { OnBroken result ⊥ }
    ensures stays { SpaceStays S.image S.files S.through S.most space.old space.new }
    ensures cause { CountsWalkFaults result (S.faults space.old) (S.faults space.new) }
{
    if spans_page(alloc, space, shape, zone, page, steps)? {
        read_name(alloc, space, shape, zone, steps)
    } else {
        Ok(None)
    }
}

// The address of a zone of a node.
fn zone_in(shape: &ZoneShape, node: u64, zone: u64) -> u64
    ensures { result ≡ zone_in shape.now node zone }
{
    let zones = node.wrapping_add(shape.zones.byte);
    zones.wrapping_add(shape.zones.size.wrapping_mul(zone))
}

// The name of the zone at a place among those of all nodes, 8 for each, where there is such a zone, and it spans a page.
fn read_zone_at<S: Space, L: Ledger>(
    alloc: Global,
    space: &mut S,
    btf: &Btf,
    shape: &ZoneShape,
    page: u64,
    place: u64,
    steps: &mut Steps<L>,
) -> Result<Option<Name>, WalkStop>
    ensures exact { WalksAs (λ n. n) (λ i. Ok (zone_at i shape.now page place)) (S.image space.old) result }
    ensures broken { OnBroken result ⊥ }
    ensures stays { SpaceStays S.image S.files S.through S.most space.old space.new }
    ensures cause { CountsWalkFaults result (S.faults space.old) (S.faults space.new) }
{
    if place % 8 >= u64::from(shape.zones.count) {
        return Ok(None);
    }
    let Some(node) = read_node(space, shape, place / 8, steps)? else {
        return Ok(None);
    };
    let zone = view_at(btf, zone_in(shape, node, place % 8));
    read_zone(alloc, space, shape, &zone, page, steps)
}

// The name of the first zone that spans a page.
fn read_zones<S: Space, L: Ledger>(
    alloc: Global,
    space: &mut S,
    btf: &Btf,
    shape: &ZoneShape,
    page: u64,
    steps: &mut Steps<L>,
) -> Result<Option<Name>, WalkStop>
    ensures exact { WalksAs (λ n. n) (λ i. Ok (zones_at i shape.now page)) (S.image space.old) result }
    ensures broken { OnBroken result ⊥ }
    ensures stays { SpaceStays S.image S.files S.through S.most space.old space.new }
    ensures cause { CountsWalkFaults result (S.faults space.old) (S.faults space.new) }
{
    let mut place = 0;
    while place < PLACES {
        match read_zone_at(alloc, space, btf, shape, page, place, steps) {
            Ok(None) => {}
            Ok(Some(name)) => return Ok(Some(name)),
            Err(stop) => return Err(stop),
        }
        place += 1;
    }
    Ok(None)
}

// The same, where a kernel has the words that tell it.
pub(crate) fn read_zone_name<S: Space, L: Ledger>(
    alloc: Global,
    space: &mut S,
    btf: &Btf,
    shape: &Option<ZoneShape>,
    page: u64,
    steps: &mut Steps<L>,
) -> Result<Option<Name>, WalkStop>
    ensures exact { WalksAs (λ n. n) (λ i. Ok (zone_name i shape.now page)) (S.image space.old) result }
    ensures broken { OnBroken result ⊥ }
    ensures stays { SpaceStays S.image S.files S.through S.most space.old space.new }
    ensures cause { CountsWalkFaults result (S.faults space.old) (S.faults space.new) }
{
    match shape {
        Some(shape) => read_zones(alloc, space, btf, shape, page, steps),
        None => Ok(None),
    }
}
