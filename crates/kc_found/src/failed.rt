// Why what reads a dump has no answer.
ghost use Rattle.std.specs.Prelude.{◌≡◌};
ghost use Rattle.kc_found.specs.declared.failed.ReadFailed.TheVariants as failed;

use kc_outside::Failed;
use kc_word::NoMemory;
use std::alloc::{AllocError, AllocFailed};

/// Why what reads a dump has no answer, where that is no matter of what stands in the dump.
#[derive(Clone, Copy, Debug, PartialEq, Eq)]
pub enum ReadFailed {
    /// Reading the dump failed. The count of faults rose.
    Fault,
    /// No memory was left.
    NoMemory,
}

impl From<Failed> for ReadFailed {
    ghost from_gives = { λ _ stop. stop ≡ failed.Fault };

    fn from(_: Failed) -> Self {
        ReadFailed::Fault
    }
}

impl From<NoMemory> for ReadFailed {
    ghost from_gives = { λ _ stop. stop ≡ failed.NoMemory };

    fn from(_: NoMemory) -> Self {
        ReadFailed::NoMemory
    }
}

impl From<AllocError> for ReadFailed {
    ghost from_gives = { λ _ stop. stop ≡ failed.NoMemory };

    fn from(_: AllocError) -> Self {
        ReadFailed::NoMemory
    }
}

impl<T: Drop> From<AllocFailed<T>> for ReadFailed {
    ghost from_gives = { λ _ stop. stop ≡ failed.NoMemory };

    fn from(_: AllocFailed<T>) -> Self {
        ReadFailed::NoMemory
    }
}
