//! The program kplain: the commands of kaudit over a dump of any form, and the plain core file that stands for a compressed one.
#![tactic(auto)]

mod audit;
mod copy;
mod form;
mod plain;
mod top;

pub use top::kplain;
