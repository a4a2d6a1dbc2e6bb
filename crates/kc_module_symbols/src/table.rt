// The symbol table of a module.
ghost use Rattle.std.specs.Prelude.{◌≡◌, Ok};
ghost use Rattle.kc_memory.specs.Stays.{SpaceStays};
ghost use Rattle.kc_found.specs.Walks.{CountsWalkFaults, OnBroken, WalksAs};
ghost use Rattle.kc_module_symbols.specs.Symbols.{symbol_in, table_at};

use crate::shape::SymbolShape;
use crate::symbol::{ElfSymbol, read_symbol};
use kc_btf::Btf;
use kc_found::{Space, WalkStop};
use kc_owner::{read_known, view_at};
use kc_word::Steps;
use std::alloc::Global;
use std::sync::ledger::Ledger;

/// The bytes of a symbol.
const SYMBOL: u64 = 24;

/// A module's symbol table (`struct mod_kallsyms`).
#[derive(Clone, Copy, Debug, PartialEq, Eq)]
pub(crate) struct SymbolTable {
    /// The virtual address of its first symbol.
    pub symbols: u64,
    /// How many symbols it has.
    pub count: u64,
    /// The virtual address of the first byte of their names.
    pub strings: u64,
}

// The table of the module at an address, where its words can be read.
pub(crate) fn read_table<S: Space, L: Ledger>(
    alloc: Global,
    space: &mut S,
    btf: &Btf,
    shape: &SymbolShape,
    owner: u64,
    steps: &mut Steps<L>,
) -> Result<Option<SymbolTable>, WalkStop>
    ensures exact { WalksAs (λ t. t) (λ i. Ok (table_at i shape.now owner)) (S.image space.old) result }
    ensures broken { OnBroken result ⊥ }
    ensures stays { SpaceStays S.image S.files S.through S.most space.old space.new }
    ensures cause { CountsWalkFaults result (S.faults space.old) (S.faults space.new) }
{
    let view = view_at(btf, owner);
    let Some(at) = read_known(alloc, space, &view, &Some(shape.kallsyms), steps)? else {
        return Ok(None);
    };
    let view = view_at(btf, at);
    let Some(symbols) = read_known(alloc, space, &view, &Some(shape.symbols), steps)? else {
        return Ok(None);
    };
    let Some(count) = read_known(alloc, space, &view, &Some(shape.count), steps)? else {
        return Ok(None);
    };
    let Some(strings) = read_known(alloc, space, &view, &Some(shape.strings), steps)? else {
        return Ok(None);
    };
    Ok(Some(SymbolTable {
        symbols,
        count,
        strings,
    }))
}

// The symbol of a table by its number.
pub(crate) fn read_symbol_in<S: Space, L: Ledger>(
    space: &mut S,
    table: &SymbolTable,
    number: u64,
    steps: &mut Steps<L>,
) -> Result<Option<ElfSymbol>, WalkStop>
    ensures exact { WalksAs (λ s. s) (λ i. Ok (symbol_in i table.now number)) (S.image space.old) result }
    ensures broken { OnBroken result ⊥ }
    ensures stays { SpaceStays S.image S.files S.through S.most space.old space.new }
    ensures cause { CountsWalkFaults result (S.faults space.old) (S.faults space.new) }
{
    let offset = SYMBOL.wrapping_mul(number);
    read_symbol(space, table.symbols.wrapping_add(offset), steps)
}
