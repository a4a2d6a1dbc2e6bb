//! How a program ends: with an answer or without one, what it puts to standard output and standard error, and its
//! status.

mod answer;
mod end;
mod print;
mod status;

pub use answer::Answer;
pub use end::finish;
pub use status::Status;
