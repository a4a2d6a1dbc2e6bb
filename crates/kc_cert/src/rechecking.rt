//! Certificates against a dump: whether each step fits, one after the other. A shape is the certificate's, so what is read of the
//! dump is paid by the certificate; nothing is searched.

mod against;
mod laws;
mod nest;

pub use against::{CertAnswer, recheck};
pub use laws::know_answers;
