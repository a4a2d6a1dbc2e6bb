//! From a report to its cause: what the verdicts on the root audits of a plan say, the elements that they are about, and the words that would repair them.
#![tactic(auto)]

mod came;
mod chain;
mod copies;
mod explained;
mod files;
mod judged;
mod laws;
mod lines;
mod places;
mod planned;
mod repairs;
mod rings;
mod sentences;
mod signs;
mod slabs;
mod suspected;
mod written;

pub use files::{Asks, explain};
pub use laws::know_causes;
