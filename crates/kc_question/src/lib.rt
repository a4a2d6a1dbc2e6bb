//! The one way into the memory of a dump: a question is asked over the page tables of its kernel, and what lent its words is handed
//! back.
#![tactic(auto)]

mod dump;
mod over;
mod question;

pub use dump::ask_dump;
pub use over::{Returned, ask_over};
pub use question::Question;
