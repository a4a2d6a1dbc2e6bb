// A symbol of a module.
ghost use Rattle.std.specs.Prelude.{◌≡◌, Ok};
ghost use Rattle.kc_memory.specs.Stays.{SpaceStays};
ghost use Rattle.kc_found.specs.Walks.{CountsWalkFaults, OnBroken, WalksAs};
ghost use Rattle.kc_module_symbols.specs.Symbols.{symbol_at, symbol_by};

use kc_found::{Space, WalkStop};
use kc_owner::read_word;
use kc_word::Steps;
use std::sync::ledger::Ledger;

/// A symbol of a module (`Elf64_Sym`).
#[derive(Clone, Copy, Debug, PartialEq, Eq)]
pub struct ElfSymbol {
    /// `st_name`: the first byte of its name, counted from the first one of all names.
    pub name: u64,
    /// `st_shndx`: the section that it is defined in; 0, SHN_UNDEF, where it is in none.
    pub section: u64,
    /// `st_value`: its virtual address.
    pub value: u64,
}

// A symbol by its first two words.
fn symbol_by(head: u64, value: u64) -> ElfSymbol
    ensures { result ≡ symbol_by head value }
{
    ElfSymbol {
        name: head % (1 << 32),
        section: head / (1 << 48),
        value,
    }
}

// The symbol at an address, where its first two words can be read.
pub(crate) fn read_symbol<S: Space, L: Ledger>(
    space: &mut S,
    at: u64,
    steps: &mut Steps<L>,
) -> Result<Option<ElfSymbol>, WalkStop>
    ensures exact { WalksAs (λ s. s) (λ i. Ok (symbol_at i at)) (S.image space.old) result }
    ensures broken { OnBroken result ⊥ }
    ensures stays { SpaceStays S.image S.files S.through S.most space.old space.new }
    ensures cause { CountsWalkFaults result (S.faults space.old) (S.faults space.new) }
{
    let Some(head) = read_word(space, at, steps)? else {
        return Ok(None);
    };
    let Some(value) = read_word(space, at.wrapping_add(8), steps)? else {
        return Ok(None);
    };
    Ok(Some(symbol_by(head, value)))
}
