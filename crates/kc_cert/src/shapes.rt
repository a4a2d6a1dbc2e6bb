// The shapes of the kinds: tested by their lists alone, and made by a walk.
ghost use Rattle.std.specs.Prelude.{◌≡◌, ◌+◌, ◌*◌, ◌≤◌, length, not, IfOk, IsTrue};
ghost use Rattle.kc_memory.specs.Stays.{SpaceStays};
ghost use Rattle.kc_found.specs.Tests.{CountsTestFaults, TellsAs};
ghost use Rattle.kc_found.specs.Violations.{is_of_reading};
ghost use Rattle.kc_found.specs.Walks.{CountsWalkFaults, IsBroken, IsNamed};
ghost use Rattle.kc_steps.specs.Given.{misfit};
ghost use Rattle.kc_kinds.specs.declared.kind.Kind.TheVariants.{Pids, Rbtree, Slub, Tasks, Xarray};
ghost use Rattle.kc_view.specs.Caches as caches;
ghost use Rattle.kc_view.specs.TaskLists as tasks;
ghost use Rattle.kc_kinds.specs.Inside.{KindInside};
ghost use Rattle.kc_cert.specs.Certifying.Certified.{IsSingle, ShapesAs, alone};
ghost use Rattle.kc_cert.specs.Complete.{ShapedKinds};
ghost use Rattle.kc_cert.specs.Fits.Size.{lists_size};
ghost use Rattle.kc_cert.specs.Fits.Shapes.{first_list, is_shape, nodes_in};
ghost use Rattle.kc_cert.specs.Fits.Walked.{ShapesAreLong, ShapesAreWalked};
ghost use Rattle.kc_cert.specs.Single.{ShapesAreOne};

use crate::Lists;
use kc_btf::Btf;
use kc_by_lists::{
    cache_nodes, know_given_lists, know_pid_lists, list_pids, pid_nodes, task_nodes, test_cache,
    test_pids, test_tasks,
};
use kc_found::{
    Asked, Places, RbShape, Rule, Space, TestStop, WalkStop, Walked, XaShape, broken_by,
};
use kc_list::{hchain, know_listed_rings, know_lists, ring, test_chain, test_ring};
use kc_plan::Kind;
use kc_rb::{collect_tree, know_listed_trees, know_trees, rb_walk, test_tree, turned};
use kc_slub::{Kept, cache_walk_by};
use kc_steps::know_chains;
use kc_task::tasks_walk_by;
use kc_view::{PidShape, SlubShape, TaskShape};
use kc_word::{NoMemory, Steps};
use kc_xa::{know_entries, list_xarray, pointers_in, test_xarray, xa_walk};
use std::alloc::Global;
use std::sync::ledger::Ledger;

// Tests whether lists are the shape of the structure of a kind that an audit walks from a start.
#[tactic(auto, unfolding(crate::specs::Fits::Shapes::is_shape))]
pub(crate) fn test_shape<S: Space, L: Ledger>(
    alloc: Global,
    space: &mut S,
    btf: &Btf,
    kind: &Kind,
    asked: &Asked,
    lists: &Lists,
    steps: &mut Steps<L>,
) -> Result<(), TestStop>
    requires { KindInside (length btf.now.records) kind.now }

    ensures test { TellsAs (λ i. is_shape i kind.now asked.now.audit asked.now.start lists.now) (S.image space.old) result }
    ensures steps { steps.new ≤ steps.old + 800000 + 1000 * lists_size lists.now }

    ensures stays { SpaceStays S.image S.files S.through S.most space.old space.new }
    ensures cause { CountsTestFaults result (S.faults space.old) (S.faults space.new) }
{
    match kind {
        Kind::Ring(shape) => {
            let [nodes] = lists.as_slice() else {
                return Err(TestStop::Unfit);
            };
            test_ring(alloc, space, shape, asked.start, nodes, steps)
        }
        Kind::Hlist(shape) => {
            let [nodes] = lists.as_slice() else {
                return Err(TestStop::Unfit);
            };
            test_chain(alloc, space, shape, asked.start, nodes, steps)
        }
        Kind::Rbtree(shape) => {
            let [preorder] = lists.as_slice() else {
                return Err(TestStop::Unfit);
            };
            test_tree(alloc, space, shape, asked.start, preorder, steps)
        }
        Kind::Xarray(shape) => {
            let [entries] = lists.as_slice() else {
                return Err(TestStop::Unfit);
            };
            test_xarray(alloc, space, shape, asked.start, entries, steps)
        }
        Kind::Slub(shape) => test_cache(alloc, space, btf, shape, asked, lists, steps),
        Kind::Tasks(shape) => test_tasks(alloc, space, btf, shape, asked, lists, steps),
        Kind::Pids(shape) => test_pids(alloc, space, btf, shape, asked, lists, steps),
    }
}

// The first list.
fn first_list(alloc: Global, lists: &Lists) -> Result<Walked, NoMemory>
    ensures { IfOk result (λ nodes. nodes ≡ first_list lists.now) }
{
    if lists.len() == 0 {
        return Ok(Walked::new(alloc));
    }
    lists.get(0).copied(alloc)
}

/// The nodes of a shape, in the order of its walk.
///
/// # Errors
///
/// Out of memory.
pub fn nodes_in(alloc: Global, kind: &Kind, lists: &Lists) -> Result<Walked, NoMemory>
    ensures { IfOk result (λ nodes. nodes ≡ nodes_in kind.now lists.now) }
{
    match kind {
        Kind::Ring(_) | Kind::Hlist(_) => first_list(alloc, lists),
        Kind::Rbtree(_) => match lists.as_slice() {
            [numbers, ..] => turned(alloc, numbers),
            [] => Ok(Walked::new(alloc)),
        },
        Kind::Xarray(_) => match lists.as_slice() {
            [numbers, ..] => pointers_in(alloc, numbers),
            [] => Ok(Walked::new(alloc)),
        },
        Kind::Slub(shape) => cache_nodes(alloc, shape, lists),
        Kind::Tasks(shape) => task_nodes(alloc, shape, lists),
        Kind::Pids(_) => pid_nodes(alloc, lists),
    }
}

// The list of a walk alone.
fn single(alloc: Global, walked: Result<Walked, WalkStop>) -> Result<Lists, WalkStop>
    ensures { IsSingle walked result }
{
    let list = walked?;
    let mut lists = Lists::new(alloc);
    match lists.push(list) {
        Ok(()) => Ok(lists),
        Err(NoMemory) => Err(WalkStop::NoMemory),
    }
}

// What is told where a memory doesn't stay, and what was walked isn't found again: a violation at the start that no word shows.
fn gone(alloc: Global, asked: &Asked, rule: Rule) -> WalkStop
    requires { IsTrue (not (is_of_reading rule)) }
    ensures { IsBroken result (misfit asked.now rule asked.now.start) }
{
    broken_by(asked, rule, asked.start, None, Places::new(alloc))
}

// The numbers of a red-black tree in preorder, after it was walked.
fn tree_numbers<S: Space, L: Ledger>(
    alloc: Global,
    space: &mut S,
    shape: &RbShape,
    asked: &Asked,
    steps: &mut Steps<L>,
) -> Result<Walked, WalkStop>
    ensures shape { ShapesAs (Rbtree shape.now) asked.now.audit asked.now.start (S.image space.old) (alone result) }
    ensures named { IsNamed result asked.now.audit asked.now.start }

    ensures stays { SpaceStays S.image S.files S.through S.most space.old space.new }
    ensures cause { CountsWalkFaults result (S.faults space.old) (S.faults space.new) }
{
    let nodes = rb_walk(alloc, space, shape, asked.start, asked.audit, steps)?;
    match collect_tree(alloc, space, shape, asked.start, &nodes, steps) {
        Ok(numbers) => Ok(numbers),
        Err(TestStop::Unfit) => Err(gone(alloc, asked, Rule::R1)),
        Err(TestStop::Fault) => Err(WalkStop::Fault),
        Err(TestStop::NoMemory) => Err(WalkStop::NoMemory),
    }
}

// The entries of an xarray. It is walked only where it has no list of them, for the violation.
fn array_entries<S: Space, L: Ledger>(
    alloc: Global,
    space: &mut S,
    shape: &XaShape,
    asked: &Asked,
    steps: &mut Steps<L>,
) -> Result<Walked, WalkStop>
    ensures shape { ShapesAs (Xarray shape.now) asked.now.audit asked.now.start (S.image space.old) (alone result) }
    ensures named { IsNamed result asked.now.audit asked.now.start }

    ensures stays { SpaceStays S.image S.files S.through S.most space.old space.new }
    ensures cause { CountsWalkFaults result (S.faults space.old) (S.faults space.new) }
{
    know_entries();
    match list_xarray(alloc, space, shape, asked.start, steps) {
        Ok(numbers) => Ok(numbers),
        Err(TestStop::Unfit) => {
            xa_walk(alloc, space, shape, asked.start, asked.audit, steps)?;
            Err(gone(alloc, asked, Rule::X1))
        }
        Err(TestStop::Fault) => Err(WalkStop::Fault),
        Err(TestStop::NoMemory) => Err(WalkStop::NoMemory),
    }
}

// The lists of a slab cache, as it is walked.
fn cache_lists<S: Space, L: Ledger>(
    alloc: Global,
    space: &mut S,
    btf: &Btf,
    shape: &SlubShape,
    asked: &Asked,
    steps: &mut Steps<L>,
) -> Result<Lists, WalkStop>
    requires { caches.IsInside shape.now btf.now }

    ensures shape { ShapesAs (Slub shape.now) asked.now.audit asked.now.start (S.image space.old) result }
    ensures named { IsNamed result asked.now.audit asked.now.start }

    ensures stays { SpaceStays S.image S.files S.through S.most space.old space.new }
    ensures cause { CountsWalkFaults result (S.faults space.old) (S.faults space.new) }
{
    know_chains();
    know_given_lists();
    let mut kept = Kept {
        lists: Lists::new(alloc),
    };
    cache_walk_by(alloc, space, &mut kept, asked, btf, shape, steps)?;
    Ok(kept.lists)
}

// The lists of tasks, as they are walked.
fn task_lists<S: Space, L: Ledger>(
    alloc: Global,
    space: &mut S,
    btf: &Btf,
    shape: &TaskShape,
    asked: &Asked,
    steps: &mut Steps<L>,
) -> Result<Lists, WalkStop>
    requires { tasks.IsInside shape.now btf.now }

    ensures shape { ShapesAs (Tasks shape.now) asked.now.audit asked.now.start (S.image space.old) result }
    ensures named { IsNamed result asked.now.audit asked.now.start }

    ensures stays { SpaceStays S.image S.files S.through S.most space.old space.new }
    ensures cause { CountsWalkFaults result (S.faults space.old) (S.faults space.new) }
{
    know_chains();
    know_given_lists();
    let mut kept = Kept {
        lists: Lists::new(alloc),
    };
    tasks_walk_by(alloc, space, &mut kept, asked, btf, shape, steps)?;
    Ok(kept.lists)
}

// The lists of a table of process ids, as it is walked.
fn pid_lists<S: Space, L: Ledger>(
    alloc: Global,
    space: &mut S,
    btf: &Btf,
    shape: &PidShape,
    asked: &Asked,
    steps: &mut Steps<L>,
) -> Result<Lists, WalkStop>
    ensures shape { ShapesAs (Pids shape.now) asked.now.audit asked.now.start (S.image space.old) result }
    ensures named { IsNamed result asked.now.audit asked.now.start }

    ensures stays { SpaceStays S.image S.files S.through S.most space.old space.new }
    ensures cause { CountsWalkFaults result (S.faults space.old) (S.faults space.new) }
{
    list_pids(alloc, space, btf, shape, asked, steps)
}

// The lists that are the shape of a structure, or its first violation.
pub(crate) fn collect_shape<S: Space, L: Ledger>(
    alloc: Global,
    space: &mut S,
    btf: &Btf,
    kind: &Kind,
    asked: &Asked,
    steps: &mut Steps<L>,
) -> Result<Lists, WalkStop>
    requires { KindInside (length btf.now.records) kind.now }

    ensures shape { ShapesAs kind.now asked.now.audit asked.now.start (S.image space.old) result }
    ensures named { IsNamed result asked.now.audit asked.now.start }

    ensures stays { SpaceStays S.image S.files S.through S.most space.old space.new }
    ensures cause { CountsWalkFaults result (S.faults space.old) (S.faults space.new) }
{
    know_lists();
    know_listed_rings();
    match kind {
        Kind::Ring(shape) => single(
            alloc,
            ring(alloc, space, shape, asked.start, asked.audit, steps),
        ),
        Kind::Hlist(shape) => single(
            alloc,
            hchain(alloc, space, shape, asked.start, asked.audit, steps),
        ),
        Kind::Rbtree(shape) => single(alloc, tree_numbers(alloc, space, shape, asked, steps)),
        Kind::Xarray(shape) => single(alloc, array_entries(alloc, space, shape, asked, steps)),
        Kind::Slub(shape) => cache_lists(alloc, space, btf, shape, asked, steps),
        Kind::Tasks(shape) => task_lists(alloc, space, btf, shape, asked, steps),
        Kind::Pids(shape) => pid_lists(alloc, space, btf, shape, asked, steps),
    }
}

/// Does nothing. Shapes are what is walked, and have no more nodes than numbers.
pub fn know_walked()
    ensures walked { ShapesAreWalked }
    ensures long { ShapesAreLong }
{
    know_entries();
    know_given_lists();
    know_pid_lists();
    know_listed_rings();
    know_listed_trees();
    know_lists();
    know_trees();
}

// Does nothing. What is walked of each kind has a shape, and one only.
pub(crate) fn know_kinds()
    ensures shaped { ShapedKinds }
    ensures one { ShapesAreOne }
{
    know_walked();
    know_entries();
    know_given_lists();
    know_pid_lists();
    know_listed_rings();
    know_listed_trees();
    know_lists();
    know_trees();
}
