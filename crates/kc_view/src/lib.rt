//! Typed views of a dump's memory: a type of the kernel's type information at a virtual address.
#![tactic(auto)]

mod fields;
mod laws;
mod pids;
mod pointers;
mod slub;
mod tasks;
mod view;

pub use fields::{FieldNumber, field_of, started_at};
pub use laws::know_values;
pub use pids::PidShape;
pub use slub::{Base, SlabObjects, SlubBases, SlubShape};
pub use tasks::{TaskShape, ThreadGroup};
pub use view::{Led, View};
