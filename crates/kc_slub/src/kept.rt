// Chains that are walked, and whose lists are kept.
ghost use Rattle.std.specs.Prelude.{◌≡◌, ◌∷◌, ◌++◌, [], IfOk, OnOk};
ghost use Rattle.kc_found.specs.Walks.{OnBroken, OnWalkFault};
ghost use Rattle.kc_steps.specs.Chains.{free_kept, hash_kept, ring_kept};

use crate::free::free_walk;
use kc_found::{Asked, Grid, HShape, Items, ListShape, Scalar, Space, WalkStop, Walked};
use kc_list::{hchain, ring};
use kc_steps::{Chains, HashChains, Rings};
use kc_view::started_at;
use kc_word::Steps;
use std::alloc::Global;
use std::sync::ledger::Ledger;

/// Chains come by their walks, and their lists are kept, in the order in which they are asked for.
#[derive(Drop)]
pub struct Kept {
    /// The lists.
    pub lists: Items<Walked>,
}

// Keeps a list after the others.
fn keep(alloc: Global, lists: &mut Items<Walked>, list: &Walked) -> Result<(), WalkStop>
    ensures added { OnOk result (lists.new ≡ lists.old ++ list.now ∷ []) }
    ensures broken { OnBroken result ⊥ }
    ensures no_fault { OnWalkFault result ⊥ }
{
    let copy = list.copied(alloc)?;
    lists.push(copy)?;
    Ok(())
}

impl Rings for Kept {
    ghost lists = { λ k. k.lists };

    ghost paid = { ⊥ };

    ghost ring_by = { ring_kept };

    fn ring<S: Space, L: Ledger>(
        &mut self,
        alloc: Global,
        space: &mut S,
        asked: &Asked,
        shape: &ListShape,
        head: u64,
        steps: &mut Steps<L>,
    ) -> Result<Walked, WalkStop> {
        let nodes = match ring(alloc, space, shape, head, asked.audit, steps) {
            Ok(nodes) => nodes,
            Err(stop) => return Err(started_at(stop, asked.start)),
        };
        keep(alloc, &mut self.lists, &nodes)?;
        Ok(nodes)
    }
}

impl Chains for Kept {
    ghost free_by = { free_kept };

    fn free<S: Space, L: Ledger>(
        &mut self,
        alloc: Global,
        space: &mut S,
        asked: &Asked,
        grid: &Grid,
        first: Scalar,
        steps: &mut Steps<L>,
    ) -> Result<Walked, WalkStop> {
        let objects = free_walk(alloc, space, grid, first, asked.audit, asked.start, steps)?;
        keep(alloc, &mut self.lists, &objects)?;
        Ok(objects)
    }
}

impl HashChains for Kept {
    ghost lists = { λ k. k.lists };

    ghost paid = { ⊥ };

    ghost hash_by = { hash_kept };

    fn hash_chain<S: Space, L: Ledger>(
        &mut self,
        alloc: Global,
        space: &mut S,
        asked: &Asked,
        shape: &HShape,
        head: u64,
        steps: &mut Steps<L>,
    ) -> Result<Walked, WalkStop> {
        let chain = match hchain(alloc, space, shape, head, asked.audit, steps) {
            Ok(chain) => chain,
            Err(stop) => return Err(started_at(stop, asked.start)),
        };
        keep(alloc, &mut self.lists, &chain)?;
        Ok(chain)
    }
}
