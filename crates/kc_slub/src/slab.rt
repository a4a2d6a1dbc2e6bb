// A slab on a partial list.
ghost use Rattle.std.specs.Prelude.{◌≡◌, ◌≤◌, ◌+◌, ◌*◌, length};
ghost use Rattle.kc_memory.specs.Stays.{SpaceStays};
ghost use Rattle.kc_found.specs.FreeLists.{IsGrid};
ghost use Rattle.kc_found.specs.Walks.{CountsWalkFaults, IsNamed, WalksAs};
ghost use Rattle.kc_steps.specs.Chains.{WalkPays, size};
ghost use Rattle.kc_steps.specs.CachesBy.{counts_by, free_by, list_by, slab_by};
ghost use Rattle.kc_view.specs.Caches.{grid_of, is_descriptor, page_of};

use crate::cache_pass::{CachePass, FreeList};
use kc_found::{Grid, Rule, Space, WalkStop, broken_field};
use kc_steps::{Chains, check_field, read_field};
use kc_view::{FieldNumber, SlabObjects, SlubBases, SlubShape, View};
use kc_word::Steps;
use std::sync::ledger::Ledger;

// A physical address has 52 bits, so the number of a page is below this one.
const PAGES: u64 = 1 << 40;

/// The number of the page that the descriptor at virtual address `slab` stands for, in pages of 4096 bytes. Differences of addresses
/// wrap at 2^64.
pub fn page_of(shape: &SlubShape, bases: &SlubBases, slab: u64) -> u64
    ensures { result ≡ page_of shape.now bases.now slab }
{
    slab.wrapping_sub(bases.vmemmap) / shape.page_size
}

/// Whether a page has its descriptor at virtual address `slab`: it stands a whole number of descriptors behind the first one, and the
/// page's number is below 2^40.
pub fn is_descriptor(shape: &SlubShape, bases: &SlubBases, slab: u64) -> bool
    ensures { result ≡ is_descriptor shape.now bases.now slab }
{
    slab.wrapping_sub(bases.vmemmap) % shape.page_size == 0 && page_of(shape, bases, slab) < PAGES
}

/// Where the objects of a slab lie, so many of them, by the virtual address `slab` of its descriptor and by how the objects of its
/// cache lie in a slab.
pub fn grid_of(
    shape: &SlubShape,
    bases: &SlubBases,
    objects: &SlabObjects,
    slab: u64,
    count: u64,
) -> Grid
    ensures { result ≡ grid_of shape.now bases.now objects.now slab count }
{
    let page = page_of(shape, bases, slab).wrapping_mul(4096);
    Grid {
        base: bases
            .direct
            .wrapping_add(page)
            .wrapping_add(objects.left_pad),
        size: objects.size,
        objects: count,
        offset: objects.offset,
        random: objects.random,
    }
}

// Looks at a slab's free list, which is to have so many objects.
fn check_list<S: Space, C: Chains, L: Ledger>(
    pass: &CachePass,
    space: &mut S,
    chains: &mut C,
    list: &FreeList,
    steps: &mut Steps<L>,
) -> Result<u64, WalkStop>
    requires { IsGrid list.now.grid }
    ensures exact { WalksAs (λ s. (s, C.lists chains.new))
        (λ i. list_by (C.free_by i) pass.now.asked list.now.grid list.now.slab list.now.wanted list.now.inuse list.now.first (C.lists chains.old))
        (S.image space.old) result }
    ensures named { IsNamed result pass.now.asked.audit pass.now.asked.start }
    ensures pays { C.paid → WalkPays result 0 0 (size (C.lists chains.old))
        (size (C.lists chains.new)) steps.old steps.new }

    ensures stays { SpaceStays S.image S.files S.through S.most space.old space.new }
    ensures cause { CountsWalkFaults result (S.faults space.old) (S.faults space.new) }
{
    let asked = &pass.asked;
    let free = match chains.free(pass.alloc, space, asked, &list.grid, list.first, steps) {
        Ok(free) => free,
        Err(stop) => return Err(stop),
    };
    let wanted = list.wanted;
    if free.len() as u64 != wanted {
        let inuse = &list.inuse;
        let wanted = Some(wanted);
        return Err(broken_field(pass.alloc, asked, Rule::U6, inuse.at, &inuse.number, wanted));
    }
    Ok(list.slab)
}

// Looks at a slab's free list, which is to have as many objects as aren't in use.
fn check_free<S: Space, C: Chains, L: Ledger>(
    pass: &CachePass,
    space: &mut S,
    chains: &mut C,
    slab: &View<'_>,
    count: u64,
    inuse: &FieldNumber,
    steps: &mut Steps<L>,
) -> Result<u64, WalkStop>
    requires some { 1 ≤ pass.now.objects.size }
    requires inside { pass.now.objects.offset + 8 ≤ pass.now.objects.size }
    ensures exact { WalksAs (λ s. (s, C.lists chains.new))
        (λ i. free_by i (C.free_by i) pass.now.asked pass.now.shape pass.now.bases pass.now.objects slab.now.at count inuse.now (C.lists chains.old))
        (S.image space.old) result }
    ensures named { IsNamed result pass.now.asked.audit pass.now.asked.start }
    ensures pays { C.paid → WalkPays result 60 60 (size (C.lists chains.old))
        (size (C.lists chains.new)) steps.old steps.new }

    ensures stays { SpaceStays S.image S.files S.through S.most space.old space.new }
    ensures cause { CountsWalkFaults result (S.faults space.old) (S.faults space.new) }
{
    let field = &pass.shape.freelist;
    let first = read_field(pass.alloc, space, &pass.asked, slab, field, steps)?.number;
    let at = slab.at();
    if !is_descriptor(&pass.shape, &pass.bases, at) {
        return Err(broken_field(pass.alloc, &pass.asked, Rule::U4, at, &first, None));
    }
    let list = FreeList {
        slab: at,
        grid: grid_of(&pass.shape, &pass.bases, &pass.objects, at, count),
        first,
        wanted: count.saturating_sub(inuse.value()),
        inuse: *inuse,
    };
    check_list(pass, space, chains, &list, steps)
}

// Looks at a slab's numbers of objects, and then at its free list.
fn check_counts<S: Space, C: Chains, L: Ledger>(
    pass: &CachePass,
    space: &mut S,
    chains: &mut C,
    slab: &View<'_>,
    steps: &mut Steps<L>,
) -> Result<u64, WalkStop>
    requires some { 1 ≤ pass.now.objects.size }
    requires inside { pass.now.objects.offset + 8 ≤ pass.now.objects.size }
    ensures exact { WalksAs (λ s. (s, C.lists chains.new))
        (λ i. counts_by i (C.free_by i) pass.now.asked pass.now.shape pass.now.bases pass.now.objects slab.now.at (C.lists chains.old))
        (S.image space.old) result }
    ensures named { IsNamed result pass.now.asked.audit pass.now.asked.start }
    ensures pays { C.paid → WalkPays result 180 180 (size (C.lists chains.old))
        (size (C.lists chains.new)) steps.old steps.new }

    ensures stays { SpaceStays S.image S.files S.through S.most space.old space.new }
    ensures cause { CountsWalkFaults result (S.faults space.old) (S.faults space.new) }
{
    let asked = &pass.asked;
    let shape = &pass.shape;
    let count = read_field(pass.alloc, space, asked, slab, &shape.objects, steps)?;
    let inuse = read_field(pass.alloc, space, asked, slab, &shape.inuse, steps)?;
    let most = count.value();
    if most == 0 || most < inuse.value() {
        let at = count.at;
        return Err(broken_field(pass.alloc, asked, Rule::U3, at, &count.number, None));
    }
    check_free(pass, space, chains, slab, most, &inuse, steps)
}

// Looks at a slab, and gives its address.
pub(crate) fn check_slab<S: Space, C: Chains, L: Ledger>(
    pass: &CachePass,
    space: &mut S,
    chains: &mut C,
    slab: &View<'_>,
    steps: &mut Steps<L>,
) -> Result<u64, WalkStop>
    requires some { 1 ≤ pass.now.objects.size }
    requires inside { pass.now.objects.offset + 8 ≤ pass.now.objects.size }
    ensures exact { WalksAs (λ s. (s, C.lists chains.new))
        (λ i. slab_by i (C.free_by i) pass.now.asked pass.now.shape pass.now.bases pass.now.objects slab.now.at (C.lists chains.old))
        (S.image space.old) result }
    ensures named { IsNamed result pass.now.asked.audit pass.now.asked.start }
    ensures pays { C.paid → WalkPays result 300 300 (size (C.lists chains.old))
        (size (C.lists chains.new)) steps.old steps.new }

    ensures stays { SpaceStays S.image S.files S.through S.most space.old space.new }
    ensures cause { CountsWalkFaults result (S.faults space.old) (S.faults space.new) }
{
    let alloc = pass.alloc;
    let asked = &pass.asked;
    let cache = &pass.shape.slab_cache;
    let wanted = asked.start;
    check_field(alloc, space, asked, Rule::U1, slab, cache, wanted, steps)?;
    let frozen = &pass.shape.frozen;
    check_field(alloc, space, asked, Rule::U2, slab, frozen, 0, steps)?;
    check_counts(pass, space, chains, slab, steps)
}
