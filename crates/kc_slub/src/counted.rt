// The walk of a free list, over a memory that counts: the bound on steps is then one on the words that are asked.
ghost use Rattle.kc_found.specs.FreeLists.{IsGrid};
ghost use Rattle.kc_found.specs.Counts.{WithinWords};

use crate::free::free_walk;
use kc_found::{Counted, Grid, Space, WalkStop, Walked};
use kc_memory::Scalar;
use kc_word::Steps;
use std::alloc::Global;
use std::sync::ledger::Ledger;

/// `free_walk`, which never asks more than 2 W + 128 words, whatever it answers, where W is the number of words that the dump
/// holds. Each is one step here.
///
/// # Errors
///
/// As `free_walk`.
pub fn free_walk_counted<S: Space, B: Ledger, L: Ledger>(
    alloc: Global,
    space: &mut Counted<S, B>,
    grid: &Grid,
    first: Scalar,
    audit: u32,
    start: u64,
    words: &mut Steps<L>,
) -> Result<Walked, WalkStop>
    requires { IsGrid grid.now }
    ensures words { WithinWords (S.image space.old.space) words.old words.new }
{
    free_walk(alloc, space, grid, first, audit, start, words)
}
