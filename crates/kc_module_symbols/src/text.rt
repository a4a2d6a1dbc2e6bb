// What is printed of the symbol of a module.
ghost use Rattle.std.specs.Prelude.{◌≡◌, ◌++◌, OnOk};
ghost use Rattle.kc_module_symbols.specs.Text.{symbol_line};

use crate::told::ModuleSymbol;
use kc_text::{push, push_name, push_numbered};
use kc_word::NoMemory;

/// Adds the line of a symbol, with the name of its module.
///
/// # Errors
///
/// No memory was left.
pub fn push_symbol_line(
    text: &mut Vec<u8>,
    symbol: &ModuleSymbol,
    owner: &[u8],
) -> Result<(), NoMemory>
    ensures { OnOk result (text.new.items ≡ text.old.items ++ symbol_line symbol.now owner.now) }
{
    push(text, b"symbol ")?;
    push_name(text, symbol.name.as_slice())?;
    push_numbered(text, b"+", symbol.byte)?;
    push(text, b" [")?;
    push_name(text, owner)?;
    push(text, b"]\n")
}
