// Words beside each other.
ghost use Rattle.std.specs.Prelude.{◌≡◌, ◌+◌, ◌*◌, ◌≤◌};
ghost use Rattle.kc_memory.specs.Stays.{SpaceStays};
ghost use Rattle.kc_memory.specs.Translation.{vword};
ghost use Rattle.kc_sight.specs.Looks.{IsMissing, LooksAs, words};
ghost use Rattle.kc_found.specs.Failures.{CountsFailures};

use kc_found::ReadFailed;
use kc_memory::{Miss, Space, Stop, VWord};
use kc_word::Steps;
use std::alloc::Global;
use std::sync::ledger::Ledger;

/// The word at a virtual address, or why it can't be read.
pub type Seen = Result<VWord, Miss>;

/// The word at a virtual address, or why it can't be read.
///
/// # Errors
///
/// A failure to read the dump.
pub fn read_word<S: Space, L: Ledger>(
    space: &mut S,
    va: u64,
    steps: &mut Steps<L>,
) -> Result<Seen, ReadFailed>
    ensures word { LooksAs (λ w. w) (λ image. vword image va) (S.image space.old) result }
    ensures steps { steps.new ≤ steps.old + S.most space.old }
    ensures stays { SpaceStays S.image S.files S.through S.most space.old space.new }
    ensures cause { CountsFailures result (S.faults space.old) (S.faults space.new) }
{
    match space.word(va, steps) {
        Ok(word) => Ok(Ok(word)),
        Err(stop) => missing(stop),
    }
}

// The miss of a stop.
fn missing(stop: Stop) -> Result<Seen, ReadFailed>
    ensures { IsMissing stop result }
{
    match stop {
        Stop::Miss(miss) => Ok(Err(miss)),
        Stop::Fault => Err(ReadFailed::Fault),
    }
}

/// The words at so many addresses from `first` on, eight bytes apart, each as it reads. Addresses wrap at 2^64.
///
/// # Errors
///
/// A failure to read the dump; no memory was left.
#[tactic(auto, unfolding(crate::specs::Looks::words))]
pub fn read_words<S: Space, L: Ledger>(
    alloc: Global,
    space: &mut S,
    first: u64,
    count: u64,
    steps: &mut Steps<L>,
) -> Result<Vec<Seen>, ReadFailed>
    ensures words { LooksAs (λ seen. seen.items) (λ image. words image first count) (S.image space.old) result }
    ensures steps { steps.new ≤ steps.old + S.most space.old * count }
    ensures stays { SpaceStays S.image S.files S.through S.most space.old space.new }
    ensures cause { CountsFailures result (S.faults space.old) (S.faults space.new) }
{
    let mut words = Vec::new(alloc);
    for i in 0..count {
        let va = first.wrapping_add(i.wrapping_mul(8));
        let seen = read_word(space, va, steps)?;
        words.push(seen)?;
    }
    Ok(words)
}
