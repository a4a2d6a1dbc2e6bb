//! Bytes and numbers of a dump's virtual memory, at any address.
#![tactic(auto)]

mod bytes;
mod cursor;
mod numbers;
mod stop;

pub use bytes::read_bytes;
pub use cursor::{Cursor, onward};
pub use numbers::{read_eight, read_four, read_two};
pub use stop::BytesStop;
