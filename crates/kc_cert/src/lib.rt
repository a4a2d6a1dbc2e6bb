//! Certificates: the walks of a clean dump with the shapes of what they met, as a text that is written and read back, and their test
//! against a dump without a search.
#![tactic(auto)]

mod certifying;
mod fits;
mod laws;
mod rechecking;
mod shapes;
mod text;

pub use certifying::{CertStop, certify};
pub use fits::test_step;
pub use kc_found::ReadFailed as RecheckStop;
pub use laws::{know_complete, know_single};
pub use rechecking::{CertAnswer, know_answers, recheck};
pub use shapes::{know_walked, nodes_in};
pub use text::{CertRead, CertStep, Certificate, Lists, cert_text, know_texts, read_cert};
