//! What a violation is about: the element of the plan whose word breaks the rule, and the number that stands there against the one
//! that is expected.
#![tactic(auto)]

mod confirmed;
mod element;
mod kinds;
mod laws;
mod number;

pub use confirmed::{is_confirmed, leads_back};
pub use element::{Element, element_of};
pub use laws::know_elements;
pub use number::{FoundNumber, part_of};
