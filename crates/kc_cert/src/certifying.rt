//! The certificate of a clean dump: the walks of a plan's audits, in their order, with the shapes of what they met.

mod issue;
mod pass;

pub use issue::{CertStop, certify};
