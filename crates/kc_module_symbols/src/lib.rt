//! The symbol of a module that stands nearest below an address of its memory, as the kernel's kallsyms tells it; and the text of that.
#![tactic(auto)]

mod laws;
mod naming;
mod nearest;
mod shape;
mod symbol;
mod table;
mod text;
mod told;

pub use laws::know_module_symbols;
pub use shape::{SymbolShape, symbol_shape};
pub use symbol::ElfSymbol;
pub use text::push_symbol_line;
pub use told::{ModuleSymbol, read_module_symbol};
