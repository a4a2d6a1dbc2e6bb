//! Where a value is written in a dump: the words of its file that hold it, each written as it is found. The file is read once, part by part,
//! and no more is kept than what one part holds. How far that is can be told, at each gigabyte.
#![tactic(auto)]

mod lines;
mod part;
mod progress;
mod put;
mod search;
mod sink;
mod stop;

pub use put::put_words;
pub use search::Search;
pub use sink::put_all;
pub use stop::RefsStop;
