//! Made inputs: the four files of a small kernel whose ring, tree and xarray hold as many items as are wanted, with one
//! fault or none.
#![tactic(auto)]

mod array;
mod bytes;
mod files;
mod header;
mod items;
mod laws;
mod memory;
mod texts;
mod types;

pub use files::make;
pub use laws::know_made;
