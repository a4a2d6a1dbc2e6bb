//! Lists of an xarray's entries: whether numbers are those of an xarray of a dump, and the list of one. A number says what is
//! read, so a test takes steps by the list's length, whatever the dump holds.

mod laws;
mod listing;
mod numbers;
mod spots;
mod steps;

pub use laws::know_entries;
pub use listing::list_xarray;
pub use numbers::{pointers_in, test_xarray, xarray_items};
pub use spots::XaSpot;
