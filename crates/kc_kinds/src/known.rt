// What a kernel is known by.
ghost use Rattle.std.proofs.Props.{props};
ghost use Rattle.kc_layout.specs.Names.{StandsFor};

use kc_btf::Btf;
use kc_layout::Names;
use kc_syms::Symbols;

/// What a kernel is known by: its types with an index of their names, and its symbols.
#[derive(Clone, Copy)]
pub struct Known<'k> {
    /// The types.
    pub btf: &'k Btf,
    /// The index of their names.
    pub names: &'k Names,
    /// The symbols.
    pub symbols: &'k Symbols<'k>,
    /// How far KASLR moved the kernel, in bytes.
    pub kaslr: u64,
    /// Whether its page tables have five levels.
    pub five: bool,
    pub ghost stands: { StandsFor btf.now names.now } by { Prim.hlevel props },
}
