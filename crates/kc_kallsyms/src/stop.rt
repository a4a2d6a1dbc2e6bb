// Why nothing is read.
ghost use Rattle.std.specs.Prelude.{◌≡◌};
ghost use Rattle.kc_kallsyms.specs.declared.stop.TableStop.TheVariants as stop;

use crate::fault::TableFault;
use kc_bytes::BytesStop;
use kc_memory::{Miss, Stop};
use kc_word::NoMemory;
use std::alloc::{AllocError, AllocFailed};

/// Why the symbol table of a dump isn't read.
#[derive(Clone, Copy, Debug, PartialEq, Eq)]
pub enum TableStop {
    /// The dump's page tables or its memory end there.
    Miss(Miss),
    /// Reading the dump failed. The count of faults rose.
    Fault,
    /// A table is none.
    Table(TableFault),
    /// No memory was left.
    NoMemory,
}

impl From<Stop> for TableStop {
    ghost use Rattle.kc_kallsyms.specs.Reading.{of_stop};

    ghost from_gives = { λ stop r. r ≡ of_stop stop };

    fn from(stop: Stop) -> Self {
        match stop {
            Stop::Miss(miss) => TableStop::Miss(miss),
            Stop::Fault => TableStop::Fault,
        }
    }
}

impl From<BytesStop> for TableStop {
    ghost use Rattle.kc_kallsyms.specs.Reading.{of_bytes};

    ghost from_gives = { λ stop r. r ≡ of_bytes stop };

    fn from(stop: BytesStop) -> Self {
        match stop {
            BytesStop::Miss(miss) => TableStop::Miss(miss),
            BytesStop::Fault => TableStop::Fault,
            BytesStop::NoMemory => TableStop::NoMemory,
        }
    }
}

impl From<TableFault> for TableStop {
    ghost from_gives = { λ fault r. r ≡ stop.Table fault };

    fn from(fault: TableFault) -> Self {
        TableStop::Table(fault)
    }
}

impl From<NoMemory> for TableStop {
    ghost from_gives = { λ _ r. r ≡ stop.NoMemory };

    fn from(_: NoMemory) -> Self {
        TableStop::NoMemory
    }
}

impl From<AllocError> for TableStop {
    ghost from_gives = { λ _ r. r ≡ stop.NoMemory };

    fn from(_: AllocError) -> Self {
        TableStop::NoMemory
    }
}

impl<T: Drop> From<AllocFailed<T>> for TableStop {
    ghost from_gives = { λ _ r. r ≡ stop.NoMemory };

    fn from(_: AllocFailed<T>) -> Self {
        TableStop::NoMemory
    }
}
