//! Flattened files, as `makedumpfile -F` and QEMU's `dump-guest-memory -z` write them, read from a store.
#![tactic(auto)]

mod fault;
mod part;
mod read;
mod record;

pub use fault::{FlatFault, FlatStop};
pub use part::{read_part, size_of};
pub use read::read_flat;
pub use record::Record;
