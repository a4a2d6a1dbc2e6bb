// The free list that a processor keeps of its slab of a cache.
ghost use Rattle.std.specs.Prelude.{◌≡◌, [], IsTrue, Ok, IfOk};
ghost use Rattle.kc_memory.specs.Stays.{SpaceStays};
ghost use Rattle.kc_found.specs.FreeLists.{IsGrid};
ghost use Rattle.kc_found.specs.Nodes.{readable};
ghost use Rattle.kc_found.specs.Walks.{CountsWalkFaults, IsWalk, OnBroken, OnWalkFault, WalksAs};
ghost use Rattle.kc_view.specs.Fields.{field_of};
ghost use Rattle.kc_slab_page.specs.Slabs.{is_laid};
ghost use Rattle.kc_slab_scan.specs.CpuLists.{IsRead, again, apart, cpu_list, cpu_seen, lists_apart, own_or_none, seen_by, seen_of, taken_all};

use crate::cpu_words::CpuShape;
use crate::cpus::Cpu;
use kc_btf::Btf;
use kc_found::{Asked, Claims, Found, Grid, Rule, Space, Stop, WalkStop, Walked, broken_field};
use kc_layout::Field;
use kc_owner::{looked_at, view_at};
use kc_slab_page::{read_counts, read_list};
use kc_slub::{free_walk, grid_of, is_descriptor};
use kc_steps::check_field;
use kc_view::{FieldNumber, SlabObjects, SlubBases, SlubShape, View, field_of};
use kc_word::{NoMemory, Steps};
use std::alloc::Global;
use std::sync::ledger::Ledger;

/// A slab cache of which it is told how its objects lie.
#[derive(Clone, Copy)]
pub struct LaidCache<'c> {
    /// The kernel's types.
    pub btf: &'c Btf,
    /// The words of slabs and slab caches.
    pub shape: &'c SlubShape,
    /// Where page descriptors and physical memory begin.
    pub bases: &'c SlubBases,
    /// How the objects of the cache lie.
    pub objects: &'c SlabObjects,
    /// The virtual address of the cache.
    pub at: u64,
}

// What a processor has of a cache: its words lie at an address, and name a slab and the first object of a list.
#[derive(Clone, Copy, Debug, PartialEq, Eq)]
struct CpuWords {
    asked: Asked,
    slab: FieldNumber,
    first: FieldNumber,
}

/// A processor's slab of a cache, whose lists are whole.
#[derive(Clone, Copy, Debug, PartialEq, Eq)]
pub struct CpuFree {
    /// The virtual address of its descriptor.
    pub slab: u64,
    /// How many objects the processor's list has.
    pub free: u64,
}

/// A processor's slab of a cache that breaks a rule.
#[derive(Drop)]
pub struct CpuBroken {
    /// The virtual address that the processor has as its descriptor's.
    pub slab: u64,
    /// The first rule that it breaks.
    pub found: Found,
}

/// What a processor has of a cache.
#[derive(Drop)]
pub enum CpuSeen {
    /// That can't be read.
    Unread,
    /// No slab.
    Empty,
    /// A slab, whose list is whole.
    Whole(CpuFree),
    /// A slab that breaks a rule.
    Broken(CpuBroken),
}

// Takes addresses, each once.
fn take_all(claims: &mut Claims, objects: &Walked) -> Result<(), WalkStop>
    ensures taken { IfOk result (λ _. claims.new ≡ taken_all claims.old objects.now) }
    ensures broken { OnBroken result ⊥ }
    ensures no_fault { OnWalkFault result ⊥ }
{
    let mut i = 0;
    while i < objects.len() {
        match claims.take(*objects.get(i)) {
            Ok(_) => {}
            Err(NoMemory) => return Err(WalkStop::NoMemory),
        }
        i += 1;
    }
    Ok(())
}

// The first of some addresses that was taken before.
fn first_again(claims: &mut Claims, objects: &Walked) -> Result<Option<u64>, WalkStop>
    ensures first { IfOk result (λ o. o ≡ again claims.old objects.now) }
    ensures broken { OnBroken result ⊥ }
    ensures no_fault { OnWalkFault result ⊥ }
{
    let mut i = 0;
    while i < objects.len() {
        let object = *objects.get(i);
        match claims.take(object) {
            Ok(true) => {}
            Ok(false) => return Ok(Some(object)),
            Err(NoMemory) => return Err(WalkStop::NoMemory),
        }
        i += 1;
    }
    Ok(None)
}

// Whether no object is in both lists; rule A of the first one in the processor's list that is, where not.
fn check_apart(
    alloc: Global,
    asked: &Asked,
    first: &FieldNumber,
    own: &Walked,
    theirs: &Walked,
) -> Result<u64, WalkStop>
    ensures exact { IsWalk (λ n. n) (lists_apart asked.now first.now own.now theirs.now) result }
    ensures no_fault { OnWalkFault result ⊥ }
{
    let mut claims = Claims::new(alloc);
    take_all(&mut claims, own)?;
    match first_again(&mut claims, theirs)? {
        None => Ok(theirs.len() as u64),
        Some(object) => Err(broken_field(alloc, asked, Rule::A, object, &first.number, None)),
    }
}

// The slab's own free list, or no object where it breaks a rule.
fn read_own<S: Space, L: Ledger>(
    alloc: Global,
    space: &mut S,
    shape: &SlubShape,
    grid: &Grid,
    slab: &View<'_>,
    steps: &mut Steps<L>,
) -> Result<Walked, WalkStop>
    requires { IsGrid grid.now }
    ensures exact { WalksAs (λ os. os) (λ i. Ok (own_or_none i shape.now grid.now slab.now.at)) (S.image space.old) result }
    ensures stays { SpaceStays S.image S.files S.through S.most space.old space.new }
    ensures cause { CountsWalkFaults result (S.faults space.old) (S.faults space.new) }
{
    match read_list(alloc, space, shape, grid, slab, steps) {
        Ok(own) => Ok(own),
        Err(WalkStop::Broken(_)) => Ok(Walked::new(alloc)),
        Err(WalkStop::Fault) => Err(WalkStop::Fault),
        Err(WalkStop::NoMemory) => Err(WalkStop::NoMemory),
    }
}

// How many objects a processor's list has, over where the objects of its slab lie.
fn read_lists<S: Space, L: Ledger>(
    alloc: Global,
    space: &mut S,
    shape: &SlubShape,
    grid: &Grid,
    slab: &View<'_>,
    words: &CpuWords,
    steps: &mut Steps<L>,
) -> Result<u64, WalkStop>
    requires { IsGrid grid.now }
    ensures exact { WalksAs (λ n. n) (λ i. apart i shape.now grid.now slab.now.at words.now.asked words.now.first) (S.image space.old) result }
    ensures stays { SpaceStays S.image S.files S.through S.most space.old space.new }
    ensures cause { CountsWalkFaults result (S.faults space.old) (S.faults space.new) }
{
    let first = words.first.number;
    let asked = &words.asked;
    let theirs = free_walk(alloc, space, grid, first, asked.audit, asked.start, steps)?;
    let own = read_own(alloc, space, shape, grid, slab, steps)?;
    check_apart(alloc, asked, &words.first, &own, &theirs)
}

// How many objects the list has that a processor keeps of a slab of a cache: rules U1 and U4 of the slab, U3 of its counts, U5 and A of the list.
fn read_cpu_list<S: Space, L: Ledger>(
    alloc: Global,
    space: &mut S,
    cache: &LaidCache<'_>,
    slab: &View<'_>,
    words: &CpuWords,
    steps: &mut Steps<L>,
) -> Result<u64, WalkStop>
    requires { IsTrue (is_laid cache.now.objects.now) }
    ensures exact { WalksAs (λ n. n)
        (λ i. cpu_list i cache.now.shape.now cache.now.bases.now cache.now.objects.now cache.now.at slab.now.at words.now.slab words.now.asked words.now.first)
        (S.image space.old) result }
    ensures stays { SpaceStays S.image S.files S.through S.most space.old space.new }
    ensures cause { CountsWalkFaults result (S.faults space.old) (S.faults space.new) }
{
    let shape = cache.shape;
    let asked = looked_at(slab.at());
    check_field(
        alloc,
        space,
        &asked,
        Rule::U1,
        slab,
        &shape.slab_cache,
        cache.at,
        steps,
    )?;
    if !is_descriptor(shape, cache.bases, slab.at()) {
        let led = &words.slab.number;
        return Err(broken_field(alloc, &words.asked, Rule::U4, slab.at(), led, None));
    }
    let counts = read_counts(alloc, space, shape, slab, steps)?;
    let grid = grid_of(shape, cache.bases, cache.objects, slab.at(), counts.objects);
    read_lists(alloc, space, shape, &grid, slab, words, steps)
}

// A number that can't be read isn't known.
fn unread(stop: Stop) -> Result<Option<FieldNumber>, WalkStop>
    ensures { IsRead stop result }
{
    match stop {
        Stop::Miss(_) => Ok(None),
        Stop::Fault => Err(WalkStop::Fault),
    }
}

// A field, where it can be read.
fn read_number<S: Space, L: Ledger>(
    space: &mut S,
    view: &View<'_>,
    field: &Field,
    steps: &mut Steps<L>,
) -> Result<Option<FieldNumber>, WalkStop>
    ensures exact { WalksAs (λ n. n) (λ i. Ok (readable (field_of i view.now.at field.now))) (S.image space.old) result }
    ensures broken { OnBroken result ⊥ }
    ensures stays { SpaceStays S.image S.files S.through S.most space.old space.new }
    ensures cause { CountsWalkFaults result (S.faults space.old) (S.faults space.new) }
{
    match field_of(space, view, field, steps) {
        Ok(number) => Ok(Some(number)),
        Err(stop) => unread(stop),
    }
}

// What a processor has, by the slab and the list that it names.
fn seen_by<S: Space, L: Ledger>(
    alloc: Global,
    space: &mut S,
    cache: &LaidCache<'_>,
    words: &CpuWords,
    steps: &mut Steps<L>,
) -> Result<CpuSeen, WalkStop>
    requires { IsTrue (is_laid cache.now.objects.now) }
    ensures exact { WalksAs (λ s. s)
        (λ i. Ok (seen_by i cache.now.shape.now cache.now.bases.now cache.now.objects.now cache.now.at words.now.asked words.now.slab words.now.first))
        (S.image space.old) result }
    ensures broken { OnBroken result ⊥ }
    ensures stays { SpaceStays S.image S.files S.through S.most space.old space.new }
    ensures cause { CountsWalkFaults result (S.faults space.old) (S.faults space.new) }
{
    let slab = words.slab.value();
    if slab == 0 {
        return Ok(CpuSeen::Empty);
    }
    let view = view_at(cache.btf, slab);
    match read_cpu_list(alloc, space, cache, &view, words, steps) {
        Ok(free) => Ok(CpuSeen::Whole(CpuFree { slab, free })),
        Err(WalkStop::Broken(found)) => Ok(CpuSeen::Broken(CpuBroken { slab, found })),
        Err(WalkStop::Fault) => Err(WalkStop::Fault),
        Err(WalkStop::NoMemory) => Err(WalkStop::NoMemory),
    }
}

// What a processor has of a cache, by the address of its words.
fn read_words<S: Space, L: Ledger>(
    alloc: Global,
    space: &mut S,
    shape: &CpuShape,
    cache: &LaidCache<'_>,
    at: u64,
    steps: &mut Steps<L>,
) -> Result<CpuSeen, WalkStop>
    requires { IsTrue (is_laid cache.now.objects.now) }
    ensures exact { WalksAs (λ s. s)
        (λ i. Ok (seen_of i shape.now cache.now.shape.now cache.now.bases.now cache.now.objects.now cache.now.at at)) (S.image space.old) result }
    ensures broken { OnBroken result ⊥ }
    ensures stays { SpaceStays S.image S.files S.through S.most space.old space.new }
    ensures cause { CountsWalkFaults result (S.faults space.old) (S.faults space.new) }
{
    let view = view_at(cache.btf, at);
    let Some(slab) = read_number(space, &view, &shape.slab, steps)? else {
        return Ok(CpuSeen::Unread);
    };
    let Some(first) = read_number(space, &view, &shape.freelist, steps)? else {
        return Ok(CpuSeen::Unread);
    };
    let words = CpuWords {
        asked: looked_at(at),
        slab,
        first,
    };
    seen_by(alloc, space, cache, &words, steps)
}

/// What a processor has of a cache whose objects lie so.
///
/// # Errors
///
/// A failure of the space, whose count of faults then rose; or out of memory.
#[tactic(auto, unfolding(crate::specs::CpuLists::cpu_seen))]
pub fn look_at_cpu<S: Space, L: Ledger>(
    alloc: Global,
    space: &mut S,
    shape: &CpuShape,
    cache: &LaidCache<'_>,
    cpu: Cpu,
    steps: &mut Steps<L>,
) -> Result<CpuSeen, WalkStop>
    requires { IsTrue (is_laid cache.now.objects.now) }
    ensures exact { WalksAs (λ s. s)
        (λ i. Ok (cpu_seen i shape.now cache.now.shape.now cache.now.bases.now cache.now.objects.now cache.now.at cpu)) (S.image space.old) result }
    ensures broken { OnBroken result ⊥ }
    ensures stays { SpaceStays S.image S.files S.through S.most space.old space.new }
    ensures cause { CountsWalkFaults result (S.faults space.old) (S.faults space.new) }
{
    let view = view_at(cache.btf, cache.at);
    match read_number(space, &view, &shape.cpu_slab, steps)? {
        Some(base) => {
            let at = base.value().wrapping_add(cpu.offset);
            read_words(alloc, space, shape, cache, at, steps)
        }
        None => Ok(CpuSeen::Unread),
    }
}
