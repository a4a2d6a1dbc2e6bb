//! The plan of an audit: which structures of a kernel are walked, as a user writes it down in TOML.
#![tactic(auto)]

mod audit;
mod begin;
mod checks;
mod document;
mod item;
mod keys;
mod laws;
mod link;
mod plan;
mod planned;
mod read;
mod start;
mod value;

pub use kc_expr::{PRule, PlanFault, PlanKey, PlanStop, spelling};
pub use kc_kinds::Kind;
pub use laws::know_plans;
pub use plan::Plan;
pub use planned::{Audit, AuditList, Check, Checks, Fields, Numbers, Start};
pub use read::read_plan;
