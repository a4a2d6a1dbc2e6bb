// Whether a processor has an object in its own free list.
ghost use Rattle.std.specs.Prelude.{◌≡◌, ◌+◌, ◌<◌, ◌^◌, nat_eq, IfSome};
ghost use Rattle.std.specs.List.{position};
ghost use Rattle.kc_memory.specs.Stays.{SpaceStays};
ghost use Rattle.kc_found.specs.FreeLists.{IsGrid};
ghost use Rattle.kc_found.specs.Walks.{CountsWalkFaults, WalksAs};
ghost use Rattle.kc_slab_scan.specs.CpuObjects.{cpu_spot, object_spot, spot_at, spot_by, spot_from, spot_in};

use crate::cpu_words::CpuShape;
use crate::cpus::{Cpu, Cpus, read_cpus};
use kc_btf::Btf;
use kc_found::{Grid, Space, WalkStop, Walked};
use kc_owner::{looked_at, view_at};
use kc_slub::free_walk;
use kc_steps::read_field;
use kc_view::View;
use kc_word::Steps;
use std::alloc::Global;
use std::sync::ledger::Ledger;

/// An object of a slab.
#[derive(Clone, Copy, Debug, PartialEq, Eq)]
pub struct SlabObject {
    /// The virtual address of its cache.
    pub cache: u64,
    /// That of the descriptor of its slab.
    pub slab: u64,
    /// Where the objects of the slab lie.
    pub grid: Grid,
    /// The virtual address of the object.
    pub object: u64,
}

/// Where in a processor's own free list an object stands.
#[derive(Clone, Copy, Debug, PartialEq, Eq)]
pub struct CpuSpot {
    /// The processor's number.
    pub cpu: u64,
    /// The object's place in the list, counted from 1.
    pub place: u64,
    /// How many objects the list has.
    pub length: u64,
}

// Where an object stands among those of a list, counted from 0.
fn position_of(objects: &Walked, object: u64) -> Option<usize>
    ensures exact { result ≡ position (λ at. nat_eq at object) objects.now }
    ensures fits { IfSome result (λ i. i + 1 < 2 ^ 64) }
{
    objects.as_slice().iter().position(|at| *at == object)
}

// Where an object stands in a processor's list.
fn spot_in(cpu: u64, object: u64, objects: &Walked) -> Option<CpuSpot>
    ensures { result ≡ spot_in cpu object objects.now }
{
    match position_of(objects, object) {
        Some(i) => Some(CpuSpot {
            cpu,
            place: i as u64 + 1,
            length: objects.len() as u64,
        }),
        None => None,
    }
}

// The same in the list that the processor's words lead to.
fn read_spot<S: Space, L: Ledger>(
    alloc: Global,
    space: &mut S,
    shape: &CpuShape,
    object: &SlabObject,
    cpu: u64,
    words: &View<'_>,
    steps: &mut Steps<L>,
) -> Result<Option<CpuSpot>, WalkStop>
    requires { IsGrid object.now.grid }
    ensures exact { WalksAs (λ s. s) (λ i. spot_by i shape.now object.now cpu words.now.at) (S.image space.old) result }
    ensures stays { SpaceStays S.image S.files S.through S.most space.old space.new }
    ensures cause { CountsWalkFaults result (S.faults space.old) (S.faults space.new) }
{
    let asked = looked_at(words.at());
    let first = read_field(alloc, space, &asked, words, &shape.freelist, steps)?.number;
    let grid = &object.grid;
    let objects = free_walk(alloc, space, grid, first, asked.audit, asked.start, steps)?;
    Ok(spot_in(cpu, object.object, &objects))
}

// The same where the processor owns the object's slab.
fn spot_at<S: Space, L: Ledger>(
    alloc: Global,
    space: &mut S,
    shape: &CpuShape,
    object: &SlabObject,
    cpu: u64,
    words: &View<'_>,
    steps: &mut Steps<L>,
) -> Result<Option<CpuSpot>, WalkStop>
    requires { IsGrid object.now.grid }
    ensures exact { WalksAs (λ s. s) (λ i. spot_at i shape.now object.now cpu words.now.at) (S.image space.old) result }
    ensures stays { SpaceStays S.image S.files S.through S.most space.old space.new }
    ensures cause { CountsWalkFaults result (S.faults space.old) (S.faults space.new) }
{
    let asked = looked_at(words.at());
    let slab = read_field(alloc, space, &asked, words, &shape.slab, steps)?;
    if slab.value() != object.slab {
        return Ok(None);
    }
    read_spot(alloc, space, shape, object, cpu, words, steps)
}

// Where an object stands in the list of one processor, by its number and its offset.
fn cpu_spot<S: Space, L: Ledger>(
    alloc: Global,
    space: &mut S,
    btf: &Btf,
    shape: &CpuShape,
    object: &SlabObject,
    cpu: Cpu,
    steps: &mut Steps<L>,
) -> Result<Option<CpuSpot>, WalkStop>
    requires { IsGrid object.now.grid }
    ensures exact { WalksAs (λ s. s) (λ i. cpu_spot i shape.now object.now cpu) (S.image space.old) result }
    ensures stays { SpaceStays S.image S.files S.through S.most space.old space.new }
    ensures cause { CountsWalkFaults result (S.faults space.old) (S.faults space.new) }
{
    let cache = view_at(btf, object.cache);
    let asked = looked_at(object.cache);
    let base = read_field(alloc, space, &asked, &cache, &shape.cpu_slab, steps)?;
    let words = view_at(btf, base.value().wrapping_add(cpu.offset));
    spot_at(alloc, space, shape, object, cpu.number, &words, steps)
}

// Where it stands in that of the first of these processors whose list has it.
fn spot_from<S: Space, L: Ledger>(
    alloc: Global,
    space: &mut S,
    btf: &Btf,
    shape: &CpuShape,
    object: &SlabObject,
    cpus: &Cpus,
    steps: &mut Steps<L>,
) -> Result<Option<CpuSpot>, WalkStop>
    requires { IsGrid object.now.grid }
    ensures exact { WalksAs (λ s. s) (λ i. spot_from i shape.now object.now cpus.now) (S.image space.old) result }
    ensures stays { SpaceStays S.image S.files S.through S.most space.old space.new }
    ensures cause { CountsWalkFaults result (S.faults space.old) (S.faults space.new) }
{
    let mut i = 0;
    while i < cpus.len() {
        let cpu = *cpus.get(i);
        match cpu_spot(alloc, space, btf, shape, object, cpu, steps) {
            Ok(None) => {}
            Ok(Some(spot)) => return Ok(Some(spot)),
            Err(stop) => return Err(stop),
        }
        i += 1;
    }
    Ok(None)
}

/// Where an object stands in the own free list of a processor that owns its slab, or `None` where no processor's list has it.
///
/// # Errors
///
/// The violation by a word of the processors that can't be read, or by such a list; a failure of the space, whose count of faults then rose; or out of memory.
pub fn find_spot<S: Space, L: Ledger>(
    alloc: Global,
    space: &mut S,
    btf: &Btf,
    shape: &CpuShape,
    object: &SlabObject,
    steps: &mut Steps<L>,
) -> Result<Option<CpuSpot>, WalkStop>
    requires { IsGrid object.now.grid }
    ensures exact { WalksAs (λ s. s) (λ i. object_spot i shape.now object.now) (S.image space.old) result }
    ensures stays { SpaceStays S.image S.files S.through S.most space.old space.new }
    ensures cause { CountsWalkFaults result (S.faults space.old) (S.faults space.new) }
{
    let cpus = read_cpus(alloc, space, shape, steps)?;
    spot_from(alloc, space, btf, shape, object, &cpus, steps)
}
