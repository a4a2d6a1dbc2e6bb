// The walk of an xarray, over a memory that counts: the bound on steps is then one on the words that are asked.
ghost use Rattle.kc_found.specs.Counts.{WithinWords};

use crate::walk::xa_walk;
use kc_found::{Counted, Space, WalkStop, XaShape, XaWalked};
use kc_word::Steps;
use std::alloc::Global;
use std::sync::ledger::Ledger;

/// `xa_walk`, which never asks more than 2 W + 128 words, whatever it answers, where W is the number of words that the dump
/// holds. Each is one step here.
///
/// # Errors
///
/// As `xa_walk`.
pub fn xa_walk_counted<S: Space, B: Ledger, L: Ledger>(
    alloc: Global,
    space: &mut Counted<S, B>,
    shape: &XaShape,
    start: u64,
    audit: u32,
    words: &mut Steps<L>,
) -> Result<XaWalked, WalkStop>
    ensures words { WithinWords (S.image space.old.space) words.old words.new }
{
    xa_walk(alloc, space, shape, start, audit, words)
}
