//! The kernel's modules in the memory of a dump: which there are, and their types (kernel/module/main.c, kernel/bpf/btf.c).
#![tactic(auto)]

mod entry;
mod lines;
mod nodes;
mod shape;
mod typed;
mod types;

pub use entry::{ModuleEntry, read_entry};
pub use lines::read_modules;
pub use nodes::read_nodes;
pub use shape::{ModuleFields, ModuleParts, TypedShape, module_fields, typed_shape};
pub use typed::read_module_types;
pub use types::sound_types;
