//! The kernel's own symbol table in the memory of a dump (scripts/kallsyms.c, kernel/kallsyms.c), and what it leads to: a map of the
//! kernel in the form of its build's System.map, its types, and its lists of modules.
#![tactic(auto)]

mod bytes;
mod fault;
mod frame;
mod kernel;
mod map;
mod marks;
mod modules;
mod places;
mod reading;
mod stop;
mod symbol;
mod tabled;
mod tables;
mod walk;

pub use fault::{ModuleList, ModuleMember, TableFault, TableLine};
pub use frame::RowFrame;
pub use kernel::{ListStart, read_list_start, read_map, read_types};
pub use modules::{list_key, member_key};
pub use places::{Places, line_key, places_in};
pub use reading::Reading;
pub use stop::TableStop;
pub use symbol::Symbol;
pub use tabled::read_tables;
pub use tables::Tables;
pub use walk::{Rows, walk_symbols};
