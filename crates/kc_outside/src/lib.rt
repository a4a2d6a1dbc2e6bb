//! The outside of the program as two traits: a store of files that are read, and sinks that take text.
//! Their meanings say what a call told and what it changed. What a real file holds is told by nobody.
//!
//! `MemStore` and `MemSink` are both in memory, for tests, and fail where a test wants it. `SureStore` and
//! `SureSink` are in memory too, and never fail. `FileStore` has the files of a system, of which `Host` is
//! the one that the program runs on. `OutSink` and `ErrSink` are its standard output and error.
#![tactic(auto)]

mod counts;
mod file_store;
mod host;
mod known;
mod mem_file;
mod mem_sink;
mod mem_store;
mod output;
mod seen;
mod sink;
mod slots;
mod store;
mod sure_files;
mod sure_sink;
mod sure_store;
mod system;
mod writer_sink;

pub use file_store::FileStore;
pub use host::Host;
pub use known::{know_learnt, know_size};
pub use mem_sink::MemSink;
pub use mem_store::MemStore;
pub use sink::Sink;
pub use store::{Failed, Slot, Store};
pub use sure_files::{Bytes, FourFiles};
pub use sure_sink::SureSink;
pub use sure_store::SureStore;
pub use system::System;
pub use writer_sink::{ErrSink, OutSink, WriterSink};
