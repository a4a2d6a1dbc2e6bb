//! The words of a dump's memory, physical and virtual: what they are, where they stand, and why one can't
//! be read. The traits `Frames` and `Space` are the two ways to ask for them, and `read_bits` reads whole
//! numbers from them.
#![tactic(auto)]

mod frames;
mod laws;
mod miss;
mod place;
mod read;
mod rule;
mod scalar;
mod space;
mod words;

pub use frames::{FrameStop, Frames};
pub use laws::{know_numbers, know_pages, know_places, know_words};
pub use miss::Miss;
pub use place::{entry_place, place_of};
pub use read::read_bits;
pub use rule::Rule;
pub use scalar::Scalar;
pub use space::{Space, Stop};
pub use words::{Origin, PWord, Place, VWord};
