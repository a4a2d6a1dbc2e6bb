//! A plan over the files of a kernel, the names of its audits, and its verdicts as questions to the memory of a dump.
#![tactic(auto)]

mod laws;
mod plans;
mod verdicts;

pub use laws::know_reached;
pub use plans::{names_of, read_audits};
pub use verdicts::{EachRoot, PlanOf, WholePlan, is_broken};
