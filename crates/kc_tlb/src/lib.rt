//! A translation lookaside buffer: translations of pages that are kept, each in its place, over any physical memory.
#![tactic(auto)]

mod entry;
mod tlb;

pub use entry::Entry;
pub use tlb::Tlb;
