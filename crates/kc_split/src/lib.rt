//! The types of a kernel's module, split BTF: the section `.BTF` of a module has records that go on from those
//! of its kernel, and means nothing without them. Here both become one, which is read as any kernel's types.
#![tactic(auto)]

mod file;
mod joining;
mod laws;
mod module;
mod stop;
#[cfg(test)]
mod tests;

pub use joining::join;
pub use laws::know_join;
pub use stop::SplitStop;
