//! The commands of kaudit: the words of a command line, its files, and what is printed.
#![tactic(auto)]

mod answer;
mod certify;
mod certs;
mod check;
mod check_module;
mod command;
mod held;
mod laws;
mod layout;
mod plan_files;
mod program;
mod recheck;
mod selftest;
mod show;
mod top;
mod verdict;
mod word;

pub use kc_command::Status;
pub use laws::{know_misfits, know_reports, know_shown, know_step_lists};
pub use top::{kaudit, kaudit_within};
