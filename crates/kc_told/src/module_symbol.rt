// The symbol of the module that has an address.
ghost use Rattle.std.specs.Prelude.{◌≡◌, ◌++◌, OnOk};
ghost use Rattle.kc_memory.specs.Stays.{SpaceStays};
ghost use Rattle.kc_found.specs.Failures.{CountsFailures};
ghost use Rattle.kc_sight.specs.Looks.{LooksAs};
ghost use Rattle.kc_told.specs.ModuleSymbols.{module_symbol_lines, symbol_in, symbol_of};

use kc_btf::Btf;
use kc_found::{Found, ReadFailed, WalkStop};
use kc_memory::Space;
use kc_module_symbols::{ModuleSymbol, SymbolShape, push_symbol_line, read_module_symbol};
use kc_owner::InModule;
use kc_word::{NoMemory, Steps};
use std::alloc::Global;
use std::sync::ledger::Ledger;

// The symbol of a module, where the kernel has the words that tell it.
fn symbol_of<S: Space, L: Ledger>(
    alloc: Global,
    space: &mut S,
    types: &Btf,
    shape: &Option<SymbolShape>,
    owner: &InModule,
    address: u64,
    steps: &mut Steps<L>,
) -> Result<Option<ModuleSymbol>, ReadFailed>
    ensures told { LooksAs (λ s. s) (λ image. symbol_of image shape.now owner.now address) (S.image space.old) result }
    ensures stays { SpaceStays S.image S.files S.through S.most space.old space.new }
    ensures cause { CountsFailures result (S.faults space.old) (S.faults space.new) }
{
    let Some(shape) = shape else {
        return Ok(None);
    };
    match read_module_symbol(alloc, space, types, shape, owner, address, steps) {
        Ok(symbol) => Ok(symbol),
        Err(WalkStop::NoMemory) => Err(ReadFailed::NoMemory),
        Err(WalkStop::Fault | WalkStop::Broken(_)) => Err(ReadFailed::Fault),
    }
}

// That of the module that has an address, where one is told.
pub(crate) fn tell_symbol<S: Space, L: Ledger>(
    alloc: Global,
    space: &mut S,
    types: &Btf,
    shape: &Option<SymbolShape>,
    found: &Result<Option<InModule>, Found>,
    address: u64,
    steps: &mut Steps<L>,
) -> Result<Option<ModuleSymbol>, ReadFailed>
    ensures told { LooksAs (λ s. s) (λ image. symbol_in image shape.now address found.now) (S.image space.old) result }
    ensures stays { SpaceStays S.image S.files S.through S.most space.old space.new }
    ensures cause { CountsFailures result (S.faults space.old) (S.faults space.new) }
{
    match found {
        Ok(Some(owner)) => symbol_of(alloc, space, types, shape, owner, address, steps),
        Ok(None) | Err(_) => Ok(None),
    }
}

/// Adds the line of the symbol of the module that has an address, where one is told.
pub(crate) fn push_module_symbol(
    text: &mut Vec<u8>,
    found: &Result<Option<InModule>, Found>,
    symbol: &Option<ModuleSymbol>,
) -> Result<(), NoMemory>
    ensures { OnOk result (text.new.items ≡ text.old.items ++ module_symbol_lines found.now symbol.now) }
{
    match (found, symbol) {
        (Ok(Some(owner)), Some(symbol)) => push_symbol_line(text, symbol, owner.name.as_slice()),
        _ => Ok(()),
    }
}
