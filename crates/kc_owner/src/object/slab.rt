// The slab that holds a physical address.
ghost use Rattle.std.specs.Prelude.{◌≡◌, ◌≤◌, ◌+◌, ◌*◌, ◌<◌, ◌^◌, IsTrue, Ok};
ghost use Rattle.kc_memory.specs.Stays.{SpaceStays};
ghost use Rattle.kc_found.specs.Walks.{CountsWalkFaults, WalksAs};
ghost use Rattle.kc_view.specs.Caches.{is_descriptor};
ghost use Rattle.kc_owner.specs.Object.Bounds.{WithinRing, WithinWalks};
ghost use Rattle.kc_owner.specs.Object.Slabs.{is_listed, slab_at, slab_of, slab_with, start_of};

use crate::firsts::none_found;
use crate::object::cache::{Cache, read_cache};
use crate::object::counts::{SlabCounts, read_counts};
use crate::object::free::{FreeSpot, tell_free};
use crate::object::pass::{ObjectPass, SlabRead};
use crate::object::shape::ObjectShape;
use crate::object::spot::{Spot, spot_of};
use crate::{RingNodes, looked_at, read_ring, view_at};
use kc_btf::Btf;
use kc_found::{Found, Rule, Space, WalkStop, Walked, broken_field};
use kc_slub::{grid_of, is_descriptor, page_of, read_objects};
use kc_steps::read_field;
use kc_view::{FieldNumber, SlabObjects};
use kc_word::Steps;
use std::sync::ledger::Ledger;

/// A slab, and where a byte lies in it.
#[derive(Drop)]
pub struct Slab {
    /// Its cache.
    pub cache: Cache,
    /// The virtual address of its first byte.
    pub first: u64,
    /// How its cache's objects lie in a slab.
    pub objects: SlabObjects,
    /// How many objects it has.
    pub counts: SlabCounts,
    /// Where in it the byte lies.
    pub spot: Spot,
    /// Where in its own free list the byte's object stands, or why that list can't be told.
    pub free: Result<FreeSpot, Found>,
}

// A slab whose objects lie so, in its cache.
fn slab_with<S: Space, L: Ledger>(
    pass: &ObjectPass,
    space: &mut S,
    btf: &Btf,
    slab: &SlabRead,
    cache: Cache,
    steps: &mut Steps<L>,
) -> Result<Slab, WalkStop>
    requires some { 1 ≤ slab.now.objects.size }
    requires inside { slab.now.objects.offset + 8 ≤ slab.now.objects.size }
    requires descriptor { IsTrue (is_descriptor pass.now.shape.slub pass.now.bases slab.now.at) }
    ensures exact { WalksAs (λ s. s) (λ i. Ok (slab_with i pass.now.shape pass.now.bases slab.now.at pass.now.pa cache slab.now.objects slab.now.counts)) (S.image space.old) result }
    ensures bound { WithinWalks (S.image space.old) (S.most space.old) 1 60 steps.old steps.new }
    ensures stays { SpaceStays S.image S.files S.through S.most space.old space.new }
    ensures cause { CountsWalkFaults result (S.faults space.old) (S.faults space.new) }
{
    let slub = &pass.shape.slub;
    let count = slab.counts.objects;
    let start = page_of(slub, &pass.bases, slab.at) * 4096;
    let grid = grid_of(slub, &pass.bases, &slab.objects, slab.at, count);
    let spot = spot_of(&grid, slab.objects.left_pad, start, pass.pa);
    let view = view_at(btf, slab.at);
    let free = tell_free(pass.alloc, space, slub, &grid, &view, &spot, steps)?;
    Ok(Slab {
        cache,
        first: pass.bases.direct.wrapping_add(start),
        objects: slab.objects,
        counts: slab.counts,
        spot,
        free,
    })
}

// The slab of a cache, by its descriptor.
fn read_slab<S: Space, L: Ledger>(
    pass: &ObjectPass,
    space: &mut S,
    btf: &Btf,
    slab: u64,
    cache: &FieldNumber,
    steps: &mut Steps<L>,
) -> Result<Slab, WalkStop>
    ensures exact { WalksAs (λ s. s) (λ i. slab_of i pass.now.shape pass.now.bases slab pass.now.pa cache.now) (S.image space.old) result }
    ensures bound { WithinWalks (S.image space.old) (S.most space.old) 1 1368 steps.old steps.new }
    ensures stays { SpaceStays S.image S.files S.through S.most space.old space.new }
    ensures cause { CountsWalkFaults result (S.faults space.old) (S.faults space.new) }
{
    let alloc = pass.alloc;
    let slub = &pass.shape.slub;
    let asked = looked_at(slab);
    if !is_descriptor(slub, &pass.bases, slab) {
        return Err(broken_field(alloc, &asked, Rule::U4, slab, &cache.number, None));
    }
    let at = cache.value();
    let objects = read_objects(alloc, space, &looked_at(at), slub, &view_at(btf, at), steps)?;
    let counts = read_counts(alloc, space, &asked, slub, &view_at(btf, slab), steps)?;
    let cache = read_cache(alloc, space, &view_at(btf, at), &pass.shape, steps)?;
    let slab = SlabRead {
        at: slab,
        objects,
        counts,
    };
    slab_with(pass, space, btf, &slab, cache, steps)
}

// A cache stands in the ring of all caches, by that ring's nodes.
fn is_listed(shape: &ObjectShape, nodes: &Walked, cache: u64) -> bool
    ensures { result ≡ is_listed shape.now nodes.now cache }
{
    let node = cache.wrapping_add(shape.cache_list);
    nodes.as_slice().contains(&node)
}

// The slab of a head page's descriptor, where it is one.
pub(crate) fn slab_at<S: Space, L: Ledger>(
    pass: &ObjectPass,
    space: &mut S,
    btf: &Btf,
    head: u64,
    steps: &mut Steps<L>,
) -> Result<Option<Slab>, WalkStop>
    ensures exact { WalksAs (λ s. s) (λ i. slab_at i pass.now.shape pass.now.bases head pass.now.pa) (S.image space.old) result }
    ensures bound { WithinRing (S.image space.old) pass.now.shape.slub.list pass.now.shape.caches (S.most space.old) 2 1428 steps.old steps.new }
    ensures stays { SpaceStays S.image S.files S.through S.most space.old space.new }
    ensures cause { CountsWalkFaults result (S.faults space.old) (S.faults space.new) }
{
    let asked = looked_at(head);
    let view = view_at(btf, head);
    let field = &pass.shape.slub.slab_cache;
    let cache = read_field(pass.alloc, space, &asked, &view, field, steps)?;
    let RingNodes { nodes, broken } = read_ring(
        pass.alloc,
        space,
        &pass.shape.slub.list,
        pass.shape.caches,
        steps,
    )?;
    if !is_listed(&pass.shape, &nodes, cache.value()) {
        return none_found(broken);
    }
    let slab = read_slab(pass, space, btf, head, &cache, steps)?;
    Ok(Some(slab))
}
