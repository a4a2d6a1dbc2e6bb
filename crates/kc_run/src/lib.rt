//! The run of a plan: its audits, nested in one another, and the verdict that they come to.
#![tactic(auto)]

mod begin;
mod checks;
mod counts;
mod each;
mod entries;
mod laws;
mod nest;
mod recorder;
mod roots;
mod walks;

pub use begin::{container_of, is_optional, null_pointer, path_of};
pub use checks::look_checks;
pub use counts::{RunCounts, count_walk, no_walks};
pub use each::{root_at, run_each, run_root};
pub use kc_found::ReadFailed as RunStop;
pub use laws::know_verdicts;
pub use nest::enter_roots;
pub use recorder::{Known, Recorder};
pub use roots::run;
pub use walks::walk;
