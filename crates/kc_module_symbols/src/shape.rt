// Where a kernel has the symbols of its modules.
ghost use Rattle.std.specs.Prelude.{◌≡◌};
ghost use Rattle.kc_kinds.specs.Kernels.{kernel};
ghost use Rattle.kc_module_symbols.specs.Shapes.{symbol_shape};

use kc_kinds::Known;
use kc_layout::Field;
use kc_owner::{scalar_in, struct_named};

/// Where the words of a module's symbol table stand (`struct module`, `struct mod_kallsyms`).
#[derive(Clone, Copy, Debug, PartialEq, Eq)]
pub struct SymbolShape {
    /// The field `kallsyms` of a module: the address of its `struct mod_kallsyms`.
    pub kallsyms: Field,
    /// The field `symtab` of that: the address of its first symbol.
    pub symbols: Field,
    /// The field `num_symtab`: how many symbols it has.
    pub count: Field,
    /// The field `strtab`: the address of the first byte of its names.
    pub strings: Field,
}

/// Where a kernel has these words, or `None` where it lacks one of them.
pub fn symbol_shape(known: &Known<'_>) -> Option<SymbolShape>
    ensures { result ≡ symbol_shape (kernel known.now) }
{
    let owner = struct_named(known, b"module");
    let kallsyms = scalar_in(known.btf, owner, b"kallsyms")?;
    let table = struct_named(known, b"mod_kallsyms");
    let symbols = scalar_in(known.btf, table, b"symtab")?;
    let count = scalar_in(known.btf, table, b"num_symtab")?;
    let strings = scalar_in(known.btf, table, b"strtab")?;
    Some(SymbolShape {
        kallsyms,
        symbols,
        count,
        strings,
    })
}
