//! The words of a dump: numbers in bytes, hex text, plain data that several layers share, and the
//! counter of steps.
#![tactic(auto)]

mod bits;
mod decimal;
mod hex;
mod laws;
mod memory;
mod numbers;
mod plain;
mod steps;

pub use bits::Bits;
pub use decimal::read_dec;
pub use hex::{hex16, read_hex};
pub use laws::know_hex;
pub use memory::NoMemory;
pub use numbers::{get_u16, get_u32, get_u64};
pub use plain::{Pa, PageCfg, Segment, Tail};
pub use steps::Steps;
