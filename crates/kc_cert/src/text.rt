//! Certificates, and their text: written, and read back. A certificate is the walks of a clean dump with the shapes of what they met.

mod certificate;
mod laws;
mod read;
mod write;

pub use certificate::{CertStep, Certificate, Lists};
pub use laws::know_texts;
pub use read::{CertRead, read_cert};
pub use write::cert_text;
