//! The rules that a dump can break, and what is said of each: its code, its sentence, and what is suspected where it is
//! broken. One table has them, and reports, explanations and repairs go by it.
#![tactic(auto)]

mod laws;
mod table;
mod way;

pub use laws::know_rules;
pub use table::{RuleRow, read_rule, row_of};
pub use way::Way;
