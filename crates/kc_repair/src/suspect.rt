//! The words of a dump that may be why an audit's structure is broken, each with another number that may have stood there, in
//! a fixed order by the rule that is broken. None is proved to be the cause: the audit over the changed memory judges that.

mod backs;
mod bases;
mod change;
mod fields;
mod free;
mod heads;
mod laws;
mod links;
mod made;
mod node_bytes;
mod rules;
mod slots;
mod suspect;
mod suspecting;
mod trees;
mod words;

pub use laws::know_suspects;
pub use suspect::{Suspect, Suspects};
pub use suspecting::suspects;
