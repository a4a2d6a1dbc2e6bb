//! Cases as texts, which stand in files and are tried by programs: the words of a memory, and what is found in it. Addresses
//! have names, which a table tells, a line each: the name and the address.
#![tactic(auto)]

mod answer;
mod case_file;
mod fault;
mod memory;
mod names;
mod trial;

pub use answer::{answer_text, stop_text};
pub use case_file::CaseFile;
pub use fault::CaseFault;
pub use memory::space_of;
pub use names::{spelled, value_of};
pub use trial::{Case, Subject, try_file};
