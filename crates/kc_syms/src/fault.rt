// Why a map wasn't read, and why a symbol has no address.
ghost use Rattle.std.specs.Prelude.{◌≡◌};
ghost use Rattle.kc_syms.specs.declared.fault.SymStop.TheVariants.{NoMemory};

use kc_word::NoMemory;
use thiserror::Error;

/// Why a System.map wasn't read.
#[derive(Clone, Copy, Debug, PartialEq, Eq, Error)]
pub enum SymStop {
    /// The line with this number, from 1, is no row of a map. It is the first such line.
    #[error("S1: line {0} is no row of a map")]
    S1(u64),
    /// No memory was left.
    #[error("no memory was left")]
    NoMemory,
}

impl From<NoMemory> for SymStop {
    ghost from_gives = { λ _ stop. stop ≡ NoMemory };

    fn from(_: NoMemory) -> Self {
        SymStop::NoMemory
    }
}

/// Why a symbol has no address.
#[derive(Clone, Copy, Debug, PartialEq, Eq, Error)]
pub enum SymFault {
    /// No row has the name.
    #[error("S2: no symbol has this name")]
    S2,
    /// The rows of the name have different addresses at run time: that of the first row, and that of the
    /// first row where it is another.
    #[error("S3: the symbol is at {0:#x} and at {1:#x}")]
    S3(u64, u64),
}
