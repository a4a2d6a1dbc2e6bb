// Why a file is no core file that can be read.
ghost use Rattle.std.specs.Prelude.{◌≡◌};
ghost use Rattle.kc_elf.specs.declared.fault.CoreStop.TheVariants.{Fault, NoMemory, ReadFault};

use kc_outside::Failed;
use std::alloc::{AllocError, AllocFailed};
use thiserror::Error;

/// The first fault of a file, in the order in which they stand here. All sums are whole numbers.
#[derive(Clone, Copy, Debug, PartialEq, Eq, Error)]
pub enum CoreFault {
    /// The file has fewer than the 64 bytes of an ELF header.
    #[error("E1: the file is too short for an ELF header")]
    E1,
    /// The first four bytes aren't ELF's magic number.
    #[error("E2: no ELF file")]
    E2,
    /// The class isn't 64 bits, the bytes aren't in little-endian order, or the version isn't 1.
    #[error("E3: not 64 bits, not little-endian, or of another version")]
    E3,
    /// `e_type` isn't that of a core file.
    #[error("E4: no core file")]
    E4,
    /// `e_machine` isn't x86-64.
    #[error("E5: of another machine")]
    E5,
    /// `e_phentsize` isn't 56 bytes.
    #[error("E6: program headers of another size")]
    E6,
    /// The program headers, or the section header that holds their number, aren't inside the file.
    #[error("E7: program headers outside the file")]
    E7,
    /// There are no program headers, or more than 65,536.
    #[error("E8: no program headers, or too many")]
    E8,
    /// The program header with this index, counted from 0 over all of them, names bytes that aren't inside
    /// the file, or memory beyond the last 64-bit address. It is the first such one.
    #[error("E9: program header {0} is out of bounds")]
    E9(u32),
    /// The notes together have more than 16 MiB.
    #[error("E10: too many bytes of notes")]
    E10,
}

/// Why a core file wasn't read.
#[derive(Clone, Copy, Debug, PartialEq, Eq, Error)]
pub enum CoreStop {
    /// The file isn't as it has to be.
    #[error("{0}")]
    Fault(CoreFault),
    /// A call of the store failed.
    #[error("the store failed")]
    ReadFault,
    /// No memory was left.
    #[error("no memory was left")]
    NoMemory,
}

impl From<CoreFault> for CoreStop {
    ghost from_gives = { λ fault stop. stop ≡ Fault fault };

    fn from(fault: CoreFault) -> Self {
        CoreStop::Fault(fault)
    }
}

impl From<Failed> for CoreStop {
    ghost from_gives = { λ _ stop. stop ≡ ReadFault };

    fn from(_: Failed) -> Self {
        CoreStop::ReadFault
    }
}

impl From<AllocError> for CoreStop {
    ghost from_gives = { λ _ stop. stop ≡ NoMemory };

    fn from(_: AllocError) -> Self {
        CoreStop::NoMemory
    }
}

impl<T: Drop> From<AllocFailed<T>> for CoreStop {
    ghost from_gives = { λ _ stop. stop ≡ NoMemory };

    fn from(_: AllocFailed<T>) -> Self {
        CoreStop::NoMemory
    }
}
