// What is told of the symbol of a module.
ghost use Rattle.std.specs.Prelude.{◌≡◌, Ok};
ghost use Rattle.kc_memory.specs.Stays.{SpaceStays};
ghost use Rattle.kc_found.specs.Walks.{CountsWalkFaults, OnBroken, WalksAs};
ghost use Rattle.kc_module_symbols.specs.Told.{module_symbol, symbol_named, symbol_told};

use crate::naming::read_byte;
use crate::nearest::{Sought, read_nearest_in};
use crate::shape::SymbolShape;
use crate::symbol::ElfSymbol;
use crate::table::{SymbolTable, read_table};
use kc_btf::Btf;
use kc_found::{Name, Space, WalkStop};
use kc_owner::{InModule, read_text};
use kc_word::Steps;
use std::alloc::Global;
use std::sync::ledger::Ledger;

/// The longest name of a symbol in bytes.
const NAME: u8 = 255;

/// A symbol of a module, and a byte of its memory.
#[derive(Drop)]
pub struct ModuleSymbol {
    /// Its name, of 255 bytes at most, up to a NUL or to a byte that can't be read.
    pub name: Name,
    /// The byte, counted from where the symbol stands.
    pub byte: u64,
}

// A symbol with its name, where the name's first byte can be read.
fn read_symbol_name<S: Space, L: Ledger>(
    alloc: Global,
    space: &mut S,
    sought: &Sought,
    symbol: &ElfSymbol,
    steps: &mut Steps<L>,
) -> Result<Option<ModuleSymbol>, WalkStop>
    ensures exact { WalksAs (λ s. s) (λ i. Ok (symbol_named i sought.now symbol.now)) (S.image space.old) result }
    ensures broken { OnBroken result ⊥ }
    ensures stays { SpaceStays S.image S.files S.through S.most space.old space.new }
    ensures cause { CountsWalkFaults result (S.faults space.old) (S.faults space.new) }
{
    let at = sought.strings.wrapping_add(symbol.name);
    let Some(_) = read_byte(space, at, steps)? else {
        return Ok(None);
    };
    let name = read_text(alloc, space, at, NAME, steps)?;
    Ok(Some(ModuleSymbol {
        name,
        byte: sought.address.wrapping_sub(symbol.value),
    }))
}

// The symbol of a table, with its name.
fn read_told<S: Space, L: Ledger>(
    alloc: Global,
    space: &mut S,
    table: &SymbolTable,
    sought: &Sought,
    steps: &mut Steps<L>,
) -> Result<Option<ModuleSymbol>, WalkStop>
    ensures exact { WalksAs (λ s. s) (λ i. Ok (symbol_told i sought.now table.now)) (S.image space.old) result }
    ensures broken { OnBroken result ⊥ }
    ensures stays { SpaceStays S.image S.files S.through S.most space.old space.new }
    ensures cause { CountsWalkFaults result (S.faults space.old) (S.faults space.new) }
{
    let Some(symbol) = read_nearest_in(space, table, sought, steps)? else {
        return Ok(None);
    };
    read_symbol_name(alloc, space, sought, &symbol, steps)
}

/// The symbol of a module that stands nearest below an address of its memory, where each of its symbols can be read, of which it has 2^20 at
/// most, and where the name can be.
///
/// # Errors
///
/// A failure of the space, whose count of faults then rose; or out of memory.
pub fn read_module_symbol<S: Space, L: Ledger>(
    alloc: Global,
    space: &mut S,
    btf: &Btf,
    shape: &SymbolShape,
    owner: &InModule,
    address: u64,
    steps: &mut Steps<L>,
) -> Result<Option<ModuleSymbol>, WalkStop>
    ensures exact { WalksAs (λ s. s) (λ i. Ok (module_symbol i shape.now owner.now address)) (S.image space.old) result }
    ensures broken { OnBroken result ⊥ }
    ensures stays { SpaceStays S.image S.files S.through S.most space.old space.new }
    ensures cause { CountsWalkFaults result (S.faults space.old) (S.faults space.new) }
{
    let Some(table) = read_table(alloc, space, btf, shape, owner.at, steps)? else {
        return Ok(None);
    };
    let sought = Sought {
        start: address.wrapping_sub(owner.byte),
        address,
        strings: table.strings,
    };
    read_told(alloc, space, &table, &sought, steps)
}
