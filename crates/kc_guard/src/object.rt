// The bytes that a cache keeps at an object.
ghost use Rattle.std.specs.Prelude.{◌≡◌};
ghost use Rattle.kc_memory.specs.Stays.{SpaceStays};
ghost use Rattle.kc_found.specs.Walks.{CountsWalkFaults, WalksAs};
ghost use Rattle.kc_guard.specs.Objects.{byte_of, object_checked, run_checked};

use crate::byte::find_other;
use crate::guards::{GuardRule, GuardRun, GuardRuns};
use kc_found::{Asked, Place, Space, WalkStop};
use kc_word::Steps;
use std::alloc::Global;
use std::sync::ledger::Ledger;

/// An object with a byte that isn't as slub_debug keeps it.
#[derive(Clone, Copy, Debug, PartialEq, Eq)]
pub struct Spoiled {
    /// The virtual address of the object.
    pub object: u64,
    /// The rule that the byte breaks.
    pub rule: GuardRule,
    /// The virtual address of the byte.
    pub at: u64,
    /// What it has to be.
    pub expected: u8,
    /// The word where it stands.
    pub place: Place,
}

// What the bytes of a run are at a free object, or at one in use.
fn byte_of(run: &GuardRun, free: bool) -> Option<u8>
    ensures { result ≡ byte_of run.now free }
{
    if free { run.free } else { run.used }
}

// The first byte of a run that is another one, at an object.
fn check_run<S: Space, L: Ledger>(
    alloc: Global,
    space: &mut S,
    asked: &Asked,
    run: &GuardRun,
    free: bool,
    object: u64,
    steps: &mut Steps<L>,
) -> Result<Option<Spoiled>, WalkStop>
    ensures exact { WalksAs (λ s. s) (λ i. run_checked i asked.now free object run.now) (S.image space.old) result }
    ensures stays { SpaceStays S.image S.files S.through S.most space.old space.new }
    ensures cause { CountsWalkFaults result (S.faults space.old) (S.faults space.new) }
{
    let Some(byte) = byte_of(run, free) else {
        return Ok(None);
    };
    let from = object.wrapping_add(run.from);
    match find_other(alloc, space, asked, byte, run.count, from, steps)? {
        Some(wrong) => Ok(Some(Spoiled {
            object,
            rule: run.rule,
            at: wrong.at,
            expected: byte,
            place: wrong.place,
        })),
        None => Ok(None),
    }
}

// The first wrong byte at an object, by the runs of its cache.
pub(crate) fn check_object<S: Space, L: Ledger>(
    alloc: Global,
    space: &mut S,
    asked: &Asked,
    runs: &GuardRuns,
    free: bool,
    object: u64,
    steps: &mut Steps<L>,
) -> Result<Option<Spoiled>, WalkStop>
    ensures exact { WalksAs (λ s. s) (λ i. object_checked i asked.now free object runs.now) (S.image space.old) result }
    ensures stays { SpaceStays S.image S.files S.through S.most space.old space.new }
    ensures cause { CountsWalkFaults result (S.faults space.old) (S.faults space.new) }
{
    let mut i = 0;
    while i < runs.len() {
        match check_run(alloc, space, asked, runs.get(i), free, object, steps) {
            Ok(None) => {}
            Ok(Some(spoiled)) => return Ok(Some(spoiled)),
            Err(stop) => return Err(stop),
        }
        i += 1;
    }
    Ok(None)
}
