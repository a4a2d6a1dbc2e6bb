//! The kernel's log in the memory of a dump: the records of the ring buffer of printk (kernel/printk/printk_ringbuffer.h), as
//! `makedumpfile --dump-dmesg` prints them.
#![tactic(auto)]

mod block;
mod fault;
mod layout;
mod log;
mod record;
mod ring;
mod stop;
mod text;

pub use block::{Block, TextSpan, block_in};
pub use fault::{LogFault, LogLine, key_of};
pub use layout::{DescLayout, InfoLayout, LogLayout, RingLayout, layout_of};
pub use log::read_log;
pub use record::{Log, LogEntry, LogRule, code_of, read_entry};
pub use ring::{Ring, RingWords, read_ring, ring_of};
pub use stop::LogStop;
