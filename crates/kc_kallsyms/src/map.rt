// The rows of a map.
ghost use Rattle.std.specs.Prelude.{◌≡◌, ◌++◌, OnOk};
ghost use Rattle.kc_kallsyms.specs.Lined.{LinesFrom};
ghost use Rattle.kc_kallsyms.specs.Map.{line};
ghost use Rattle.kc_kallsyms.specs.RowLaws.{lines_none};
ghost use Rattle.kc_kallsyms.specs.Views.{symbol_view};

use crate::frame::RowFrame;
use crate::symbol::Symbol;
use crate::walk::Rows;
use kc_text::{push, push_hex};
use kc_word::NoMemory;

/// The rows of a map so far.
#[derive(Debug, Drop)]
pub(crate) struct Lines {
    // What they are made by.
    pub frame: RowFrame,
    // Their text.
    pub text: Vec<u8>,
}

// Adds the row of a symbol.
fn push_line(text: &mut Vec<u8>, frame: &RowFrame, symbol: &Symbol<'_>) -> Result<(), NoMemory>
    ensures { OnOk result (text.new.items ≡ text.old.items ++ line frame.now (symbol_view symbol.now)) }
{
    push_hex(text, frame.listed(symbol))?;
    push(text, &[b' ', frame.letter(symbol), b' '])?;
    push(text, symbol.name)?;
    push(text, b"\n")
}

impl Rows for Lines {
    ghost took = { λ first now done. LinesFrom first now done };

    ghost none = { λ rows. lines_none rows };

    fn take(&mut self, symbol: &Symbol<'_>) -> Result<(), NoMemory> {
        push_line(&mut self.text, &self.frame, symbol)
    }
}
