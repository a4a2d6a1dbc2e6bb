//! The walk through the page tables of a dump, over any physical memory.
#![tactic(auto)]

mod entry;
mod tables;

pub use tables::walk;
