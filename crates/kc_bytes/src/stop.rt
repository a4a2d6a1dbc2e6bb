// Why bytes aren't read.
ghost use Rattle.std.specs.Prelude.{◌≡◌};
ghost use Rattle.kc_bytes.specs.declared.stop.BytesStop.TheVariants as stop;

use kc_memory::{Miss, Stop};
use std::alloc::{AllocError, AllocFailed};

/// Why bytes aren't read into memory of their own.
#[derive(Clone, Copy, Debug, PartialEq, Eq)]
pub enum BytesStop {
    /// The dump's page tables or its memory end there.
    Miss(Miss),
    /// Reading the dump failed. The count of faults rose.
    Fault,
    /// No memory was left.
    NoMemory,
}

impl From<Stop> for BytesStop {
    ghost use Rattle.kc_bytes.specs.Reading.{of_stop};

    ghost from_gives = { λ stop r. r ≡ of_stop stop };

    fn from(stop: Stop) -> Self {
        match stop {
            Stop::Miss(miss) => BytesStop::Miss(miss),
            Stop::Fault => BytesStop::Fault,
        }
    }
}

impl From<AllocError> for BytesStop {
    ghost from_gives = { λ _ r. r ≡ stop.NoMemory };

    fn from(_: AllocError) -> Self {
        BytesStop::NoMemory
    }
}

impl<T: Drop> From<AllocFailed<T>> for BytesStop {
    ghost from_gives = { λ _ r. r ≡ stop.NoMemory };

    fn from(_: AllocFailed<T>) -> Self {
        BytesStop::NoMemory
    }
}
