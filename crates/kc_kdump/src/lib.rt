//! The container of a compressed dump, as makedumpfile and QEMU write it: its headers, its bitmaps as runs of page
//! frames, its notes, and its page descriptors.
#![tactic(auto)]

mod descriptor;
mod erased;
mod fault;
mod frame;
mod kdump;
mod laws;
mod layout;
mod read;
mod run;
mod there;
mod walk;

pub use descriptor::{DESCRIPTOR_BYTES, Descriptor};
pub use fault::{KdumpFault, KdumpStop};
pub use frame::Frame;
pub use kdump::Kdump;
pub use laws::know_runs;
pub use layout::{
    BLOCK_BYTES, HEADER_BYTES, Layout, SIGNATURE_BYTES, SUB_HEADER_BYTES, is_kdump, layout_in,
};
pub use read::read_kdump;
pub use run::PageRun;
