// The walks of the kinds.
ghost use Rattle.std.specs.Prelude.{length};
ghost use Rattle.kc_memory.specs.Stays.{SpaceStays};
ghost use Rattle.kc_found.specs.Walks.{CountsWalkFaults, IsNamed, WalksAs};
ghost use Rattle.kc_kinds.specs.Inside.{KindInside};
ghost use Rattle.kc_kinds.specs.Structures.{nodes_of};
ghost use Rattle.kc_run.specs.Laws.{KindPlacesStand, KindsAreWalked};

use crate::entries::xarray;
use kc_btf::Btf;
use kc_found::{Asked, Space, WalkStop, Walked};
use kc_list::{hchain, know_lists, ring};
use kc_pid::{know_pids, pids_walk};
use kc_plan::Kind;
use kc_rb::{know_trees, rb_walk};
use kc_slub::{cache_walk, know_caches};
use kc_task::{know_tasks, tasks_walk};
use kc_word::Steps;
use kc_xa::know_xarrays;
use std::alloc::Global;
use std::sync::ledger::Ledger;

/// The nodes of a structure, or its first violation.
///
/// # Errors
///
/// The structure is broken; a failed call of the store; no memory was left.
#[tactic(auto, unfolding(kc_kinds::specs::Structures::nodes_of))]
pub fn walk<S: Space, L: Ledger>(
    alloc: Global,
    btf: &Btf,
    space: &mut S,
    kind: &Kind,
    asked: &Asked,
    steps: &mut Steps<L>,
) -> Result<Walked, WalkStop>
    requires { KindInside (length btf.now.records) kind.now }

    ensures walk { WalksAs (λ nodes. nodes)
        (λ image. nodes_of image kind.now asked.now.audit asked.now.start) (S.image space.old) result }
    ensures named { IsNamed result asked.now.audit asked.now.start }

    ensures stays { SpaceStays S.image S.files S.through S.most space.old space.new }
    ensures cause { CountsWalkFaults result (S.faults space.old) (S.faults space.new) }
{
    match kind {
        Kind::Ring(shape) => ring(alloc, space, shape, asked.start, asked.audit, steps),
        Kind::Hlist(shape) => hchain(alloc, space, shape, asked.start, asked.audit, steps),
        Kind::Rbtree(shape) => rb_walk(alloc, space, shape, asked.start, asked.audit, steps),
        Kind::Xarray(shape) => xarray(alloc, space, shape, asked, steps),
        Kind::Slub(shape) => cache_walk(alloc, space, btf, shape, asked.start, asked.audit, steps),
        Kind::Tasks(shape) => tasks_walk(alloc, space, btf, shape, asked.start, asked.audit, steps),
        Kind::Pids(shape) => pids_walk(alloc, space, btf, shape, asked.start, asked.audit, steps),
    }
}

// Does nothing. A walk gives exactly the nodes that make up the structure, and what its violation shows is true of the dump.
pub(crate) fn know_walks()
    ensures walked { KindsAreWalked }
    ensures places { KindPlacesStand }
{
    know_lists();
    know_trees();
    know_xarrays();
    know_caches();
    know_tasks();
    know_pids();
}
