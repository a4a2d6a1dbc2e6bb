//! The keys of a plan, and what a plan breaks: what those say who name a plan's fault and read none.

mod fault;
mod key;

pub use fault::{PRule, PlanFault, PlanKey, PlanStop};
pub use key::spelling;
