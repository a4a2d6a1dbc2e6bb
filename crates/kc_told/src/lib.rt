//! What the files of a kernel tell of an address of a dump: the areas in which it lies, what its page's descriptor says, the object that has it and
//! what that says it is, what the words beside it lead to, how far words that say the same go on, and the text of all that.
#![tactic(auto)]

mod area_text;
mod framed;
mod inside;
mod laws;
mod leads;
mod module_symbol;
mod named;
mod near;
mod near_text;
mod object_text;
mod says;
mod seen;
mod shapes;
mod span;
mod text;
mod told;

pub use laws::know_texts;
pub use leads::{push_leads, read_lead};
pub use named::{Named, TaskName};
pub use near::{Lead, NearWord};
pub use object_text::push_unknown;
pub use says::push_says;
pub use seen::{push_told, seen_text};
pub use shapes::shapes_in;
pub use span::Bounds;
pub use told::{PageWords, Shapes, Sighted, Told, Words, read_sighted, read_told};
