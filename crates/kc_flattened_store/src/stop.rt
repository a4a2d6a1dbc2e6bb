// Why a call failed.
use kc_flattened::FlatFault;

/// Why a call of a store that means flattened files failed.
#[derive(Clone, Copy)]
pub enum FlattenedFault {
    /// A call of the store below failed.
    Store,
    /// The flattened file isn't as it has to be.
    Refused(FlatFault),
    /// No memory was left.
    NoMemory,
}
