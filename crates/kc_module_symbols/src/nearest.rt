// The symbol of a table that stands nearest below an address.
ghost use Rattle.std.specs.Prelude.{◌≡◌, Ok, option_map};
ghost use Rattle.kc_memory.specs.Stays.{SpaceStays};
ghost use Rattle.kc_found.specs.Walks.{CountsWalkFaults, OnBroken, WalksAs};
ghost use Rattle.kc_module_symbols.specs.Nearest.{best_with, is_nearer, may_name, nearest_in, nearest_of, stands};
ghost use Rattle.kc_module_symbols.specs.Symbols.{symbol_in};

use crate::naming::read_named;
use crate::symbol::ElfSymbol;
use crate::table::{SymbolTable, read_symbol_in};
use kc_found::{Space, WalkStop};
use kc_word::Steps;
use std::sync::ledger::Ledger;

/// The most symbols of a table that is looked at.
const SYMBOLS: u64 = 1 << 20;

/// What is looked for.
#[derive(Clone, Copy, Debug, PartialEq, Eq)]
pub(crate) struct Sought {
    /// The virtual address of the first byte of the part of a module's memory that has the address.
    pub start: u64,
    /// The address.
    pub address: u64,
    /// That of the first byte of the names.
    pub strings: u64,
}

/// The nearest symbol so far.
#[derive(Clone, Copy, Debug, PartialEq, Eq)]
pub(crate) struct Best {
    /// That symbol, if there is one.
    pub symbol: Option<ElfSymbol>,
}

// Whether a symbol stands at or below the address in its part of the memory.
fn stands(sought: &Sought, symbol: &ElfSymbol) -> bool
    ensures { result ≡ stands sought.now symbol.now }
{
    symbol.section != 0 && sought.start <= symbol.value && symbol.value <= sought.address
}

// Whether a symbol stands nearer than another one.
fn is_nearer(best: &Best, symbol: &ElfSymbol) -> bool
    ensures { result ≡ is_nearer best.now.symbol symbol.now }
{
    match &best.symbol {
        Some(best) => best.value < symbol.value,
        None => true,
    }
}

// The nearest symbol so far, with one more.
fn read_better<S: Space, L: Ledger>(
    space: &mut S,
    sought: &Sought,
    best: Best,
    symbol: ElfSymbol,
    steps: &mut Steps<L>,
) -> Result<Best, WalkStop>
    ensures exact { WalksAs (λ b. b) (λ i. Ok (best_with (may_name i sought.now) best symbol)) (S.image space.old) result }
    ensures broken { OnBroken result ⊥ }
    ensures stays { SpaceStays S.image S.files S.through S.most space.old space.new }
    ensures cause { CountsWalkFaults result (S.faults space.old) (S.faults space.new) }
{
    if !stands(sought, &symbol) || !is_nearer(&best, &symbol) {
        return Ok(best);
    }
    let name = sought.strings.wrapping_add(symbol.name);
    if read_named(space, name, steps)? {
        Ok(Best {
            symbol: Some(symbol),
        })
    } else {
        Ok(best)
    }
}

// The same with the symbol of a number, where that can be read.
fn read_next<S: Space, L: Ledger>(
    space: &mut S,
    table: &SymbolTable,
    sought: &Sought,
    number: u64,
    best: Best,
    steps: &mut Steps<L>,
) -> Result<Option<Best>, WalkStop>
    ensures exact { WalksAs (λ b. b) (λ i. Ok (option_map (best_with (may_name i sought.now) best) (symbol_in i table.now number))) (S.image space.old) result }
    ensures broken { OnBroken result ⊥ }
    ensures stays { SpaceStays S.image S.files S.through S.most space.old space.new }
    ensures cause { CountsWalkFaults result (S.faults space.old) (S.faults space.new) }
{
    let Some(symbol) = read_symbol_in(space, table, number, steps)? else {
        return Ok(None);
    };
    let best = read_better(space, sought, best, symbol, steps)?;
    Ok(Some(best))
}

// The nearest symbol of a table, where each of its symbols can be read.
fn read_nearest<S: Space, L: Ledger>(
    space: &mut S,
    table: &SymbolTable,
    sought: &Sought,
    steps: &mut Steps<L>,
) -> Result<Option<ElfSymbol>, WalkStop>
    ensures exact { WalksAs (λ s. s) (λ i. Ok (nearest_of i sought.now table.now)) (S.image space.old) result }
    ensures broken { OnBroken result ⊥ }
    ensures stays { SpaceStays S.image S.files S.through S.most space.old space.new }
    ensures cause { CountsWalkFaults result (S.faults space.old) (S.faults space.new) }
{
    let count = table.count;
    let mut best = Best { symbol: None };
    let mut number = 1;
    while number < count {
        match read_next(space, table, sought, number, best, steps) {
            Ok(Some(next)) => best = next,
            Ok(None) => return Ok(None),
            Err(stop) => return Err(stop),
        }
        number += 1;
    }
    Ok(best.symbol)
}

// The same, of a table that isn't too long.
pub(crate) fn read_nearest_in<S: Space, L: Ledger>(
    space: &mut S,
    table: &SymbolTable,
    sought: &Sought,
    steps: &mut Steps<L>,
) -> Result<Option<ElfSymbol>, WalkStop>
    ensures exact { WalksAs (λ s. s) (λ i. Ok (nearest_in i sought.now table.now)) (S.image space.old) result }
    ensures broken { OnBroken result ⊥ }
    ensures stays { SpaceStays S.image S.files S.through S.most space.old space.new }
    ensures cause { CountsWalkFaults result (S.faults space.old) (S.faults space.new) }
{
    if table.count > SYMBOLS {
        return Ok(None);
    }
    read_nearest(space, table, sought, steps)
}
