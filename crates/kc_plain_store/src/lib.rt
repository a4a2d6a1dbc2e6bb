//! A store over a store, that shows a compressed dump as the plain core file that stands for it.
#![tactic(auto)]

mod calls;
mod keeping;
mod opening;
mod pages;
mod place;
mod plain_core;
mod shape;
mod shown;
mod stop;
mod view;

pub use place::{KeptPages, PagePlace, PageRoom};
pub use plain_core::PlainCore;
pub use shape::PlainShape;
pub use stop::{BadPage, ViewFault};
pub use view::PlainView;
