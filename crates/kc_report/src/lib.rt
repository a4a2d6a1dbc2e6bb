//! Reports: what the audits of a plan came to, as a text that an operator reads and a program reads back. The lines of
//! rules, stops and places are those of every answer.
#![tactic(auto)]

mod back;
mod line;
mod make;
mod names;
mod read;
mod report;
mod stops;
mod write;

pub use back::read_report;
pub use line::{
    broken_text, push_origin, push_place, push_places, push_rule, push_stop, rule_code,
};
pub use make::{report_each, report_of};
pub use names::PlanNames;
pub use report::{BrokenText, CleanLine, CleanLines, Report, RootResult, RootText, RootTexts};
pub use stops::ReportStop;
pub use write::text;
