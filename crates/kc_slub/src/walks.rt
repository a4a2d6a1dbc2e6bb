// Chains that are walked.
ghost use Rattle.std.specs.Prelude.{[]};
ghost use Rattle.kc_steps.specs.Chains.{free_walked, ring_walked};

use crate::free::free_walk;
use kc_found::{Asked, Grid, ListShape, Scalar, Space, WalkStop, Walked};
use kc_list::ring;
use kc_steps::{Chains, Rings};
use kc_view::started_at;
use kc_word::Steps;
use std::alloc::Global;
use std::sync::ledger::Ledger;

// Chains come by their walks, and no list is kept.
#[derive(Drop)]
pub(crate) struct Walks;

impl Rings for Walks {
    ghost lists = { λ w. [] };

    ghost paid = { ⊥ };

    ghost ring_by = { ring_walked };

    fn ring<S: Space, L: Ledger>(
        &mut self,
        alloc: Global,
        space: &mut S,
        asked: &Asked,
        shape: &ListShape,
        head: u64,
        steps: &mut Steps<L>,
    ) -> Result<Walked, WalkStop> {
        match ring(alloc, space, shape, head, asked.audit, steps) {
            Ok(nodes) => Ok(nodes),
            Err(stop) => Err(started_at(stop, asked.start)),
        }
    }
}

impl Chains for Walks {
    ghost free_by = { free_walked };

    fn free<S: Space, L: Ledger>(
        &mut self,
        alloc: Global,
        space: &mut S,
        asked: &Asked,
        grid: &Grid,
        first: Scalar,
        steps: &mut Steps<L>,
    ) -> Result<Walked, WalkStop> {
        free_walk(alloc, space, grid, first, asked.audit, asked.start, steps)
    }
}
