// The walk of a red-black tree, over a memory that counts: the bound on steps is then one on the words that are asked.
ghost use Rattle.kc_found.specs.Counts.{WithinWords};

use crate::walk::rb_walk;
use kc_found::{Counted, RbShape, Space, WalkStop, Walked};
use kc_word::Steps;
use std::alloc::Global;
use std::sync::ledger::Ledger;

/// `rb_walk`, which never asks more than 2 W + 128 words, whatever it answers, where W is the number of words that the dump
/// holds. Each is one step here.
///
/// # Errors
///
/// As `rb_walk`.
pub fn rb_walk_counted<S: Space, B: Ledger, L: Ledger>(
    alloc: Global,
    space: &mut Counted<S, B>,
    shape: &RbShape,
    start: u64,
    audit: u32,
    words: &mut Steps<L>,
) -> Result<Walked, WalkStop>
    ensures words { WithinWords (S.image space.old.space) words.old words.new }
{
    rb_walk(alloc, space, shape, start, audit, words)
}
