// A page, by its descriptor.
ghost use Rattle.std.specs.Prelude.{◌≡◌, Ok, Some, true};
ghost use Rattle.kc_memory.specs.Stays.{SpaceStays};
ghost use Rattle.kc_found.specs.Walks.{CountsWalkFaults, IsWalk, OnBroken, OnWalkFault, WalksAs};
ghost use Rattle.kc_owner.specs.Object.Pages.{descriptor_of};
ghost use Rattle.kc_slab_page.specs.Caches.{caches_view};
ghost use Rattle.kc_slab_page.specs.Pages.{IsAbsent, by_cache, by_mark, is_fenced, page_seen, state_by, state_with, stray, unnamed};

use crate::caches::{CacheSeen, SlabCaches};
use crate::fence::is_named;
use crate::guarding::{Guards, Laid, SlabFault, SlabState, with_guards};
use crate::mark::read_mark;
use crate::shape::PageShape;
use crate::slab::{NamedPage, is_laid, read_slab};
use kc_btf::Btf;
use kc_found::{Rule, Space, Stop, WalkStop, broken_field};
use kc_owner::{looked_at, view_at};
use kc_view::{FieldNumber, SlubBases, View, field_of};
use kc_word::Steps;
use std::alloc::Global;
use std::sync::ledger::Ledger;

/// A slab.
#[derive(Drop)]
pub struct SlabSeen {
    /// The virtual address of its descriptor.
    pub slab: u64,
    /// The virtual address of its cache.
    pub cache: u64,
    /// What it is.
    pub state: SlabState,
}

/// What a page is.
#[derive(Drop)]
pub enum PageSeen {
    /// Its descriptor can't be read.
    Absent,
    /// Its descriptor names none of the caches; where these are all of the kernel's, it hasn't the mark of a slab's first page either.
    Other,
    /// Its descriptor names one of the caches, and hasn't the mark of a slab's first page.
    Unmarked,
    /// It is one of KFENCE's pool: it has the mark of a slab's first page, and no slab's words.
    Fenced,
    /// It is a slab's first page.
    Slab(SlabSeen),
}

// The descriptor of a page.
fn descriptor_of(shape: &PageShape, bases: &SlubBases, number: u64) -> u64
    ensures { result ≡ descriptor_of shape.now.objects.slub bases.now number }
{
    let offset = shape.objects.slub.page_size.wrapping_mul(number);
    bases.vmemmap.wrapping_add(offset)
}

// What a slab is whose cache's objects lie so.
fn state_with<S: Space, L: Ledger>(
    alloc: Global,
    space: &mut S,
    shape: &PageShape,
    bases: &SlubBases,
    laid: &Laid<'_>,
    slab: &NamedPage<'_>,
    steps: &mut Steps<L>,
) -> Result<SlabState, WalkStop>
    ensures exact { WalksAs (λ s. s)
        (λ i. Ok (state_with i shape.now.objects.slub bases.now slab.now.view.now.at slab.now.cache.now laid.now.runs.now laid.now.objects.now))
        (S.image space.old) result }
    ensures broken { OnBroken result ⊥ }
    ensures stays { SpaceStays S.image S.files S.through S.most space.old space.new }
    ensures cause { CountsWalkFaults result (S.faults space.old) (S.faults space.new) }
{
    if !is_laid(*laid.objects) {
        return Ok(SlabState::Untold);
    }
    let slub = &shape.objects.slub;
    match read_slab(alloc, space, slub, bases, laid.objects, slab, steps) {
        Ok(free) => {
            let guards = Guards { free, laid };
            with_guards(alloc, space, slub, bases, slab.view, &guards, steps)
        }
        Err(WalkStop::Broken(found)) => Ok(SlabState::Broken(SlabFault::Words(found))),
        Err(WalkStop::Fault) => Err(WalkStop::Fault),
        Err(WalkStop::NoMemory) => Err(WalkStop::NoMemory),
    }
}

// What a slab of a cache is.
fn state_by<S: Space, L: Ledger>(
    alloc: Global,
    space: &mut S,
    shape: &PageShape,
    bases: &SlubBases,
    seen: &CacheSeen,
    slab: &NamedPage<'_>,
    steps: &mut Steps<L>,
) -> Result<SlabState, WalkStop>
    ensures exact { WalksAs (λ s. s)
        (λ i. Ok (state_by i shape.now.objects.slub bases.now slab.now.view.now.at slab.now.cache.now seen.now.runs seen.now.objects)) (S.image space.old) result }
    ensures broken { OnBroken result ⊥ }
    ensures stays { SpaceStays S.image S.files S.through S.most space.old space.new }
    ensures cause { CountsWalkFaults result (S.faults space.old) (S.faults space.new) }
{
    match &seen.objects {
        Ok(objects) => {
            let laid = Laid {
                objects,
                runs: &seen.runs,
            };
            state_with(alloc, space, shape, bases, &laid, slab, steps)
        }
        Err(_) => Ok(SlabState::Untold),
    }
}

// A page whose descriptor names a cache, by its mark.
fn by_mark<S: Space, L: Ledger>(
    alloc: Global,
    space: &mut S,
    shape: &PageShape,
    bases: &SlubBases,
    seen: &CacheSeen,
    page: &NamedPage<'_>,
    steps: &mut Steps<L>,
) -> Result<PageSeen, WalkStop>
    ensures exact { WalksAs (λ p. p)
        (λ i. Ok (by_mark i shape.now bases.now page.now.view.now.at page.now.cache.now seen.now)) (S.image space.old) result }
    ensures broken { OnBroken result ⊥ }
    ensures stays { SpaceStays S.image S.files S.through S.most space.old space.new }
    ensures cause { CountsWalkFaults result (S.faults space.old) (S.faults space.new) }
{
    match read_mark(alloc, space, page.view, &shape.mark, steps)? {
        None => Ok(PageSeen::Absent),
        Some(false) => Ok(PageSeen::Unmarked),
        Some(true) => {
            let state = state_by(alloc, space, shape, bases, seen, page, steps)?;
            Ok(PageSeen::Slab(SlabSeen {
                slab: page.view.at(),
                cache: page.cache.value(),
                state,
            }))
        }
    }
}

// A slab's first page whose descriptor names none of the kernel's caches: rule U1.
fn stray(alloc: Global, page: &NamedPage<'_>) -> Result<PageSeen, WalkStop>
    ensures exact { IsWalk (λ p. p) (Ok (stray page.now.view.now.at page.now.cache.now (Some true))) result }
    ensures broken { OnBroken result ⊥ }
    ensures no_fault { OnWalkFault result ⊥ }
{
    let cache = page.cache;
    let slab = page.view.at();
    match broken_field(
        alloc,
        &looked_at(slab),
        Rule::U1,
        cache.at,
        &cache.number,
        None,
    ) {
        WalkStop::Broken(found) => Ok(PageSeen::Slab(SlabSeen {
            slab,
            cache: cache.value(),
            state: SlabState::Broken(SlabFault::Words(found)),
        })),
        WalkStop::Fault => Err(WalkStop::Fault),
        WalkStop::NoMemory => Err(WalkStop::NoMemory),
    }
}

// A page whose descriptor names none of the caches: where these are all of the kernel's, it breaks rule U1 if it has the mark of a slab's first page.
fn unnamed<S: Space, L: Ledger>(
    alloc: Global,
    space: &mut S,
    shape: &PageShape,
    all: bool,
    page: &NamedPage<'_>,
    steps: &mut Steps<L>,
) -> Result<PageSeen, WalkStop>
    ensures exact { WalksAs (λ p. p) (λ i. Ok (unnamed i shape.now all page.now.view.now.at page.now.cache.now)) (S.image space.old) result }
    ensures broken { OnBroken result ⊥ }
    ensures stays { SpaceStays S.image S.files S.through S.most space.old space.new }
    ensures cause { CountsWalkFaults result (S.faults space.old) (S.faults space.new) }
{
    if !all {
        return Ok(PageSeen::Other);
    }
    let Some(marked) = read_mark(alloc, space, page.view, &shape.mark, steps)? else {
        return Ok(PageSeen::Absent);
    };
    if marked {
        stray(alloc, page)
    } else {
        Ok(PageSeen::Other)
    }
}

// A page, by what its descriptor has as its cache.
fn by_cache<S: Space, L: Ledger>(
    alloc: Global,
    space: &mut S,
    shape: &PageShape,
    caches: &SlabCaches,
    page: &View<'_>,
    cache: &FieldNumber,
    steps: &mut Steps<L>,
) -> Result<PageSeen, WalkStop>
    ensures exact { WalksAs (λ p. p)
        (λ i. Ok (by_cache i shape.now (caches_view caches.now) page.now.at cache.now)) (S.image space.old) result }
    ensures broken { OnBroken result ⊥ }
    ensures stays { SpaceStays S.image S.files S.through S.most space.old space.new }
    ensures cause { CountsWalkFaults result (S.faults space.old) (S.faults space.new) }
{
    let named = NamedPage { view: page, cache };
    match caches.caches.get(&cache.value()) {
        Some(seen) => by_mark(alloc, space, shape, &caches.bases, seen, &named, steps),
        None => unnamed(alloc, space, shape, caches.all, &named, steps),
    }
}

// A page whose descriptor can't be read.
fn unread(stop: Stop) -> Result<PageSeen, WalkStop>
    ensures { IsAbsent stop result }
{
    match stop {
        Stop::Miss(_) => Ok(PageSeen::Absent),
        Stop::Fault => Err(WalkStop::Fault),
    }
}

// A page with the mark of a slab's first page that KFENCE's metadata name.
fn is_fenced<S: Space, L: Ledger>(
    alloc: Global,
    space: &mut S,
    btf: &Btf,
    shape: &PageShape,
    caches: &SlabCaches,
    number: u64,
    steps: &mut Steps<L>,
) -> Result<bool, WalkStop>
    ensures exact { WalksAs (λ b. b) (λ i. Ok (is_fenced i shape.now (caches_view caches.now) number)) (S.image space.old) result }
    ensures broken { OnBroken result ⊥ }
    ensures stays { SpaceStays S.image S.files S.through S.most space.old space.new }
    ensures cause { CountsWalkFaults result (S.faults space.old) (S.faults space.new) }
{
    if !is_named(
        alloc,
        space,
        btf,
        &caches.bases,
        &caches.pool,
        number,
        steps,
    )? {
        return Ok(false);
    }
    let page = view_at(btf, descriptor_of(shape, &caches.bases, number));
    let mark = read_mark(alloc, space, &page, &shape.mark, steps)?;
    Ok(mark == Some(true))
}

/// What the page with a number is, which is its physical address, in pages of 4096 bytes: by its descriptor, among these caches.
///
/// # Errors
///
/// A failure of the space, whose count of faults then rose; or out of memory.
#[tactic(auto, unfolding(crate::specs::Pages::page_seen))]
pub fn look_at_page<S: Space, L: Ledger>(
    alloc: Global,
    space: &mut S,
    btf: &Btf,
    shape: &PageShape,
    caches: &SlabCaches,
    number: u64,
    steps: &mut Steps<L>,
) -> Result<PageSeen, WalkStop>
    ensures exact { WalksAs (λ p. p) (λ i. Ok (page_seen i shape.now (caches_view caches.now) number)) (S.image space.old) result }
    ensures broken { OnBroken result ⊥ }
    ensures stays { SpaceStays S.image S.files S.through S.most space.old space.new }
    ensures cause { CountsWalkFaults result (S.faults space.old) (S.faults space.new) }
{
    if is_fenced(alloc, space, btf, shape, caches, number, steps)? {
        return Ok(PageSeen::Fenced);
    }
    let page = view_at(btf, descriptor_of(shape, &caches.bases, number));
    match field_of(space, &page, &shape.objects.slub.slab_cache, steps) {
        Ok(cache) => by_cache(alloc, space, shape, caches, &page, &cache, steps),
        Err(stop) => unread(stop),
    }
}
