//! Texts: numbers, names and tables of texts, how they are written and how they are read. What is read is a format,
//! whose laws come from those of its parts.
#![tactic(auto)]

mod laws;
mod piece;
mod readers;
mod table;

pub use laws::know_formats;
pub use piece::{
    push, push_decimal, push_hex, push_name, push_name_or_dash, push_numbered, push_signed,
};
pub use readers::{
    is_name, is_name_byte, read_decimal, read_decimal_to, read_digit, read_hex16, read_literal,
    read_name, shorter,
};
pub use table::{Written, read_one_of};
