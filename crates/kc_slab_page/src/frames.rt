//! The page frames of a dump: the pages of physical memory that its segments hold whole.

ghost use Rattle.std.specs.Prelude.{◌≡◌, ◌+◌, ◌*◌, ◌<◌, ◌≤◌, ◌^◌, ◌++◌, map, IfOk, OnOk};
ghost use Rattle.std.specs.List.{All};
ghost use Rattle.std.specs.List.Sorted.{IsNonDecreasingBy, IsPermutation};
ghost use Rattle.kc_slab_page.specs.declared.frames.FrameRun.{FrameRun as Run};
ghost use Rattle.kc_slab_page.specs.Frames.Frames.{frames, frames_of, in_memory, parted, run_of};

use kc_word::{NoMemory, Segment};
use std::alloc::Global;

/// The bytes of a page.
const PAGE: u64 = 4096;

/// Page frames that follow one another.
#[derive(Clone, Copy, Debug, PartialEq, Eq)]
pub struct FrameRun {
    /// The number of the first one: its physical address, in pages of 4096 bytes.
    pub first: u64,
    /// The number after the last one's.
    pub end: u64,
}

// The frames that the file bytes of a segment hold whole.
fn run_of(segment: &Segment) -> FrameRun
    requires { in_memory segment.now }
    ensures exact { result ≡ run_of segment.now }
    ensures end { result.end ≤ 2 ^ 52 }
{
    let skipped = u64::from(segment.paddr % PAGE != 0);
    let end = u128::from(segment.paddr) + u128::from(segment.filesz);
    FrameRun {
        first: segment.paddr / PAGE + skipped,
        end: (end / u128::from(PAGE)) as u64,
    }
}

// Those of each segment.
fn runs_of(alloc: Global, segments: &[Segment]) -> Result<Vec<FrameRun>, NoMemory>
    requires { All in_memory segments.now }
    ensures { IfOk result (λ runs. runs.items ≡ map run_of segments.now) }
{
    let mut runs = Vec::new(alloc);
    for segment in segments {
        runs.push(run_of(segment))?;
    }
    Ok(runs)
}

// Puts runs in the order of their first frames.
fn sort_runs(runs: &mut [FrameRun])
    ensures same { IsPermutation runs.old runs.new }
    ensures rising { IsNonDecreasingBy (λ (r : Run). r.first) runs.new }
{
    runs.sort_unstable_by_key(|run| run.first);
}

// What runs have that those before them don't, where they come in the order of their first frames.
#[tactic(auto, unfolding(crate::specs::Frames::Frames::parted))]
fn parted(alloc: Global, runs: &[FrameRun]) -> Result<Vec<FrameRun>, NoMemory>
    ensures { IfOk result (λ parts. parts.items ≡ parted 0 runs.now) }
{
    let mut parts = Vec::new(alloc);
    let mut next = 0;
    for run in runs {
        let first = run.first.max(next);
        if first < run.end {
            parts.push(FrameRun {
                first,
                end: run.end,
            })?;
            next = run.end;
        }
    }
    Ok(parts)
}

/// The page frames that the file bytes of some segments hold whole, as runs: ascending, each frame once.
///
/// # Errors
///
/// Out of memory.
pub fn frame_runs(alloc: Global, segments: &[Segment]) -> Result<Vec<FrameRun>, NoMemory>
    requires { All in_memory segments.now }
    ensures { IfOk result (λ runs. frames_of runs.items ≡ frames segments.now) }
{
    let mut runs = runs_of(alloc, segments)?;
    sort_runs(&mut runs);
    parted(alloc, &runs)
}
