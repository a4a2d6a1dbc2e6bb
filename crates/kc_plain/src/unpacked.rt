//! The pages of a compressed dump, and the plain core file that stands for it.

mod codec;
mod fault;
mod laws;
mod unpacker;
mod unpacking;

pub use codec::Codec;
pub use fault::PageFault;
pub use laws::know_page;
pub use unpacker::Unpacker;
pub use unpacking::{PAGE_BYTES, descriptor_fault, unpack};
