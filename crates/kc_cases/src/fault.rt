// Why a case has no memory.
use std::alloc::{AllocError, AllocFailed};
use thiserror::Error;

/// Why a case has no memory.
#[derive(Clone, Copy, Debug, PartialEq, Eq, Error)]
pub enum CaseFault {
    /// A word has an address or a value that is neither a number nor a name.
    #[error("a word without a number")]
    NoNumber,
    /// No memory was left.
    #[error("out of memory")]
    NoMemory,
}

impl From<AllocError> for CaseFault {
    fn from(_: AllocError) -> CaseFault {
        CaseFault::NoMemory
    }
}

impl<T: Drop> From<AllocFailed<T>> for CaseFault {
    fn from(_: AllocFailed<T>) -> CaseFault {
        CaseFault::NoMemory
    }
}
