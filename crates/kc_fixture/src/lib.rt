//! A small made dump, with its types and symbols, that tests and the stored run of the program read: a
//! kernel with a handful of pages, a ring, trees, a slab cache and two tasks.
#![tactic(auto)]

mod btf;
mod bytes;
mod dump;
mod symbols;
mod types;

pub use btf::Types;
pub use bytes::{lines_behind, number, push_line, push_numbers, put_bytes, set_bytes};
pub use dump::{NOTE, core_file, core_with_note, set_word};
pub use symbols::MAP;
pub use types::{btf_file, btf_with_pids};
