//! The plain ELF core file that stands for a compressed dump: what stands before its pages, where each page stands, and what each page
//! holds, unpacked.
#![tactic(auto)]

mod fields;
mod head;
mod laws;
mod pad;
mod read_back;
mod root;
mod unpacked;

pub use head::head_of;
pub use laws::{know_head, know_pages};
pub use read_back::know_core;
pub use root::Root;
pub use unpacked::{Codec, PAGE_BYTES, PageFault, Unpacker, descriptor_fault, know_page, unpack};
