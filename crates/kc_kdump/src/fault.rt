// Why a file is no compressed dump that can be read.
ghost use Rattle.std.specs.Prelude.{◌≡◌};
ghost use Rattle.kc_kdump.specs.declared.fault.KdumpStop.TheVariants.{Fault, NoMemory, ReadFault};

use kc_outside::Failed;
use std::alloc::{AllocError, AllocFailed};
use thiserror::Error;

/// The first fault of a dump, in the order in which they stand here. All sums are whole numbers.
#[derive(Clone, Copy, Debug, PartialEq, Eq, Error)]
pub enum KdumpFault {
    /// The file has fewer than the 4200 bytes that the two headers need.
    #[error("K1: the file is too short for the headers")]
    K1,
    /// The dump is of the older format, diskdump.
    #[error("K2: of the older format")]
    K2,
    /// `header_version` isn't 1 to 6.
    #[error("K3: of another version")]
    K3,
    /// `block_size` isn't 4096 bytes.
    #[error("K4: blocks of another size")]
    K4,
    /// The file is one part of a dump that was split.
    #[error("K5: one part of a split dump: makedumpfile --reassemble joins the parts")]
    K5,
    /// The bitmaps' blocks are odd in number, or outside the file, or a bitmap has too few bits.
    #[error("K6: bitmaps outside the file, or too short")]
    K6,
    /// The notes or the erase info are outside the file, or have more than 16 MiB, each or both as notes.
    #[error("K7: notes outside the file, or too many")]
    K7,
    /// There are more than 4,194,304 runs of page frames.
    #[error("K8: too many runs of page frames")]
    K8,
}

/// Why a compressed dump wasn't read.
#[derive(Clone, Copy, Debug, PartialEq, Eq, Error)]
pub enum KdumpStop {
    /// The file isn't as it has to be.
    #[error("{0}")]
    Fault(KdumpFault),
    /// A call of the store failed.
    #[error("the store failed")]
    ReadFault,
    /// No memory was left.
    #[error("no memory was left")]
    NoMemory,
}

impl From<KdumpFault> for KdumpStop {
    ghost from_gives = { λ fault stop. stop ≡ Fault fault };

    fn from(fault: KdumpFault) -> Self {
        KdumpStop::Fault(fault)
    }
}

impl From<Failed> for KdumpStop {
    ghost from_gives = { λ _ stop. stop ≡ ReadFault };

    fn from(_: Failed) -> Self {
        KdumpStop::ReadFault
    }
}

impl From<AllocError> for KdumpStop {
    ghost from_gives = { λ _ stop. stop ≡ NoMemory };

    fn from(_: AllocError) -> Self {
        KdumpStop::NoMemory
    }
}

impl<T: Drop> From<AllocFailed<T>> for KdumpStop {
    ghost from_gives = { λ _ stop. stop ≡ NoMemory };

    fn from(_: AllocFailed<T>) -> Self {
        KdumpStop::NoMemory
    }
}
