// Why a flattened file can't be read.
ghost use Rattle.std.specs.Prelude.{◌≡◌};
ghost use Rattle.kc_flattened.specs.declared.fault.FlatStop.TheVariants.{Fault, NoMemory, ReadFault};

use kc_outside::Failed;
use std::alloc::{AllocError, AllocFailed};
use thiserror::Error;

/// The first fault of a flattened file.
#[derive(Clone, Copy, Debug, PartialEq, Eq, Error)]
pub enum FlatFault {
    /// The file is shorter than its header of 4096 bytes, or the type or the version isn't 1.
    #[error("the header of the flattened file")]
    Header,
    /// A record's end is at 2^63 or above, as where its offset or its size is negative.
    #[error("a record with an offset or a size that is out of bounds")]
    Bounds,
    /// A record's bytes aren't inside the file.
    #[error("a record past the end of the file")]
    PastEnd,
    /// The file ends before the last record, which says the end.
    #[error("no last record")]
    NoEnd,
    /// There are 2^22 records or more.
    #[error("too many records")]
    TooMany,
}

/// Why a flattened file wasn't read.
#[derive(Clone, Copy, Debug, PartialEq, Eq, Error)]
pub enum FlatStop {
    /// The file isn't as it has to be.
    #[error("{0}")]
    Fault(FlatFault),
    /// A call of the store failed.
    #[error("the store failed")]
    ReadFault,
    /// No memory was left.
    #[error("no memory was left")]
    NoMemory,
}

impl From<FlatFault> for FlatStop {
    ghost from_gives = { λ fault stop. stop ≡ Fault fault };

    fn from(fault: FlatFault) -> Self {
        FlatStop::Fault(fault)
    }
}

impl From<Failed> for FlatStop {
    ghost from_gives = { λ _ stop. stop ≡ ReadFault };

    fn from(_: Failed) -> Self {
        FlatStop::ReadFault
    }
}

impl From<AllocError> for FlatStop {
    ghost from_gives = { λ _ stop. stop ≡ NoMemory };

    fn from(_: AllocError) -> Self {
        FlatStop::NoMemory
    }
}

impl<T: Drop> From<AllocFailed<T>> for FlatStop {
    ghost from_gives = { λ _ stop. stop ≡ NoMemory };

    fn from(_: AllocFailed<T>) -> Self {
        FlatStop::NoMemory
    }
}
