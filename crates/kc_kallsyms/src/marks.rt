// The symbols that are looked for.
ghost use Rattle.std.specs.Prelude.{◌≡◌, ◌++◌, ◌∷◌, [], codes};
ghost use Rattle.std.specs.Option.{option_or};
ghost use Rattle.kc_kallsyms.specs.Addresses.{offset_of};
ghost use Rattle.kc_kallsyms.specs.Marked.{MarksFrom, head_in};
ghost use Rattle.kc_kallsyms.specs.RowLaws.{marks_none};
ghost use Rattle.kc_kallsyms.specs.Views.{symbol_view};

use crate::fault::ModuleList;
use crate::symbol::Symbol;
use crate::walk::Rows;
use kc_word::NoMemory;

/// The offsets of the first symbols of some names.
#[derive(Clone, Copy, Debug, PartialEq, Eq)]
pub(crate) struct Marks {
    // That of `_stext`.
    pub text: Option<u32>,
    // That of `__per_cpu_end`.
    pub processors: Option<u32>,
    // That of `__start_BTF`.
    pub start: Option<u32>,
    // That of `__stop_BTF`.
    pub end: Option<u32>,
    // That of `modules`.
    pub loaded: Option<u32>,
    // That of `btf_modules`.
    pub typed: Option<u32>,
}

// The first offset that is there: the one so far, or that of a symbol with this name.
fn first(so_far: Option<u32>, symbol: &Symbol<'_>, name: &[u8]) -> Option<u32>
    ensures { result ≡ option_or so_far (offset_of name.now (symbol_view symbol.now ∷ [])) }
{
    match so_far {
        Some(offset) => Some(offset),
        None if symbol.name == name => Some(symbol.offset),
        None => None,
    }
}

impl Marks {
    // The offset of a list's head.
    pub(crate) fn head(&self, list: ModuleList) -> Option<u32>
        ensures { result ≡ head_in self.now list }
    {
        match list {
            ModuleList::Loaded => self.loaded,
            ModuleList::Typed => self.typed,
        }
    }
}

impl Rows for Marks {
    ghost took = { λ first now done. MarksFrom first now done };

    ghost none = { λ rows. marks_none rows };

    fn take(&mut self, symbol: &Symbol<'_>) -> Result<(), NoMemory> {
        self.text = first(self.text, symbol, b"_stext");
        self.processors = first(self.processors, symbol, b"__per_cpu_end");
        self.start = first(self.start, symbol, b"__start_BTF");
        self.end = first(self.end, symbol, b"__stop_BTF");
        self.loaded = first(self.loaded, symbol, b"modules");
        self.typed = first(self.typed, symbol, b"btf_modules");
        Ok(())
    }
}
