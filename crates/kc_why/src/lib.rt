//! The program kwhy: what lies at an address of a dump, which words of the dump hold it, or what explains a report.
#![tactic(auto)]

mod failures;
mod files;
mod laws;
mod looking;
mod searching;
mod top;
mod written;

pub use laws::know_why;
pub use top::kwhy;
