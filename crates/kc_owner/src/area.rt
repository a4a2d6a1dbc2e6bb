//! In which area of a kernel's memory a virtual address of a dump lies: in a module's, in a processor's, in a task's stack.

mod areas;
mod laws;
mod modules;
mod processors;
mod shape;
mod stacks;

pub use areas::{Areas, read_areas};
pub use laws::know_areas;
pub use modules::InModule;
pub use processors::InProcessor;
pub use shape::{AreaShape, ModuleShape, PartShape, ProcessorShape, StackShape, area_shape};
pub use stacks::InStack;
