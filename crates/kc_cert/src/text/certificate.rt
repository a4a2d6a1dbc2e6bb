// What a certificate is.
use kc_found::{Items, Walked};

/// The lists of addresses that give the shape of a structure. Which they are, the kind of its audit says.
pub type Lists = Items<Walked>;

/// A walk of an audit, with the shape of what it met.
#[derive(Drop)]
pub struct CertStep {
    /// The audit's number in its plan, counted from 0.
    pub audit: u32,
    /// The virtual address at which the walk starts.
    pub start: u64,
    /// The shape.
    pub lists: Lists,
}

/// The walks of a plan, in the order in which they are made.
pub type Certificate = Items<CertStep>;
