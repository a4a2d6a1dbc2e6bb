//! A store over a store, whose slot Dump has the file that a flattened file means.
#![tactic(auto)]

mod calls;
mod flat_file;
mod laws;
mod opening;
mod reading;
mod shape;
mod stop;
mod store;

pub use flat_file::FlatFile;
pub use laws::know_refusals;
pub use shape::FlatShape;
pub use stop::FlattenedFault;
pub use store::Flattened;
