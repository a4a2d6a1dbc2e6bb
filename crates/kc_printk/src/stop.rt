// Why the log isn't read.
ghost use Rattle.std.specs.Prelude.{◌≡◌};
ghost use Rattle.kc_printk.specs.declared.stop.LogStop.TheVariants as stop;

use crate::fault::LogFault;
use kc_memory::{Miss, Stop};
use kc_word::NoMemory;
use std::alloc::{AllocError, AllocFailed};

/// Why the log of a dump isn't read.
#[derive(Clone, Copy, Debug, PartialEq, Eq)]
pub enum LogStop {
    /// The dump's page tables or its memory end at a word of the ring itself.
    Miss(Miss),
    /// Reading the dump failed. The count of faults rose.
    Fault,
    /// The note or the ring isn't in order.
    Refused(LogFault),
    /// No memory was left.
    NoMemory,
}

impl From<Stop> for LogStop {
    ghost use Rattle.kc_printk.specs.Answers.{of_stop};

    ghost from_gives = { λ stop r. r ≡ of_stop stop };

    fn from(stop: Stop) -> Self {
        match stop {
            Stop::Miss(miss) => LogStop::Miss(miss),
            Stop::Fault => LogStop::Fault,
        }
    }
}

impl From<LogFault> for LogStop {
    ghost from_gives = { λ fault r. r ≡ stop.Refused fault };

    fn from(fault: LogFault) -> Self {
        LogStop::Refused(fault)
    }
}

impl From<NoMemory> for LogStop {
    ghost from_gives = { λ _ r. r ≡ stop.NoMemory };

    fn from(_: NoMemory) -> Self {
        LogStop::NoMemory
    }
}

impl From<AllocError> for LogStop {
    ghost from_gives = { λ _ r. r ≡ stop.NoMemory };

    fn from(_: AllocError) -> Self {
        LogStop::NoMemory
    }
}

impl<T: Drop> From<AllocFailed<T>> for LogStop {
    ghost from_gives = { λ _ r. r ≡ stop.NoMemory };

    fn from(_: AllocFailed<T>) -> Self {
        LogStop::NoMemory
    }
}
