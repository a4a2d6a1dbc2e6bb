//! Dumps of any form through one store: an ELF core as it is, a compressed dump, flattened or not, as the plain core file that stands
//! for it. And why a dump is refused, or a page of it can't be had: the line and the status that a program then ends with.
#![tactic(auto)]

mod cause;
mod end;
mod line;
mod put;
mod store;

pub use cause::{Cause, TellsCause};
pub use end::{end_by, end_with_cause, end_with_line};
pub use line::cause_line;
pub use put::put_all;
pub use store::{AnyDump, any_dump};
