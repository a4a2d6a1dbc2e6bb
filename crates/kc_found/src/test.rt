// Why a test ends early.
ghost use Rattle.std.specs.Prelude.{◌≡◌, ◌≤◌};
ghost use Rattle.kc_found.specs.Tests.{test_stop_of};

use crate::found::WalkStop;
use kc_memory::Space;

/// Why a test ends early.
#[derive(Clone, Copy, Debug, PartialEq, Eq)]
pub enum TestStop {
    /// The list isn't the shape that stands in the dump.
    Unfit,
    /// Reading the dump failed. The count of faults rose.
    Fault,
    /// No memory was left.
    NoMemory,
}

/// What a stop of a walk means to a test: a violation, that the list is unfit.
pub fn test_stop_of(stop: WalkStop) -> TestStop
    ensures { result ≡ test_stop_of stop }
{
    match stop {
        WalkStop::Broken(_) => TestStop::Unfit,
        WalkStop::Fault => TestStop::Fault,
        WalkStop::NoMemory => TestStop::NoMemory,
    }
}

/// Does nothing. A word takes six steps at most.
pub fn know_most<S: Space>(space: &S)
    ensures { S.most space.now ≤ 6 }
{}
