//! Where a value is written in a dump: the words of its file that hold it, as it is or as an encoded free pointer. The whole file is
//! read, once, in blocks.

mod place;
mod search;
mod sought;

pub use place::{FoundWord, WordPlace};
pub use search::find_words;
pub use sought::{Sought, Writing};
