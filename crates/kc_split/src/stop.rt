// Why a module's types weren't joined to its kernel's.
use kc_btf::{BtfFault, BtfStop};
use std::alloc::AllocError;
use thiserror::Error;

/// Why a module's types weren't joined.
#[derive(Clone, Copy, Debug, PartialEq, Eq, Error)]
pub enum SplitStop {
    /// The module's file breaks a rule; the place is one of its bytes.
    #[error("{0}")]
    Fault(BtfFault),
    /// The two sections of types, or the two of strings, have more than 2^32 - 1 bytes together.
    #[error("too long together")]
    TooLong,
    /// No memory was left.
    #[error("no memory was left")]
    NoMemory,
}

impl From<BtfFault> for SplitStop {
    ghost use Rattle.std.specs.Prelude.{◌≡◌};
    ghost use Rattle.kc_split.specs.declared.stop.SplitStop.TheVariants.{Fault};

    ghost from_gives = { λ fault stop. stop ≡ Fault fault };

    fn from(fault: BtfFault) -> Self {
        SplitStop::Fault(fault)
    }
}

impl From<BtfStop> for SplitStop {
    ghost use Rattle.std.specs.Prelude.{◌≡◌};
    ghost use Rattle.kc_split.specs.Join.{of_stop};

    ghost from_gives = { λ stop split. split ≡ of_stop stop };

    fn from(stop: BtfStop) -> Self {
        match stop {
            BtfStop::Fault(fault) => SplitStop::Fault(fault),
            BtfStop::NoMemory => SplitStop::NoMemory,
        }
    }
}

impl From<AllocError> for SplitStop {
    ghost use Rattle.std.specs.Prelude.{◌≡◌};
    ghost use Rattle.kc_split.specs.declared.stop.SplitStop.TheVariants.{NoMemory};

    ghost from_gives = { λ _ stop. stop ≡ NoMemory };

    fn from(_: AllocError) -> Self {
        SplitStop::NoMemory
    }
}
