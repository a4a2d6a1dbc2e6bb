//! Checks of elements: the language of a plan's key `check`, its trees and their values; and the keys of a plan with the
//! faults P of plans.
#![tactic(auto)]

mod evaluation;
mod expr;
mod fields;
mod keys;
mod laws;
mod parsing;
mod piece;
mod reader;
mod stack;
mod state;
mod stop;
mod token;
mod tree;
mod value;

pub use evaluation::eval;
pub use expr::Expr;
pub use keys::{PRule, PlanFault, PlanKey, PlanStop, spelling};
pub use laws::{know_checks, know_trees};
pub use parsing::parse;
pub use stop::ExprStop;
