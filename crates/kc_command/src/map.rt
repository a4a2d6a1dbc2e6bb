// The symbol map of a kernel.
ghost use Rattle.std.specs.Prelude.{◌≡◌, ◌≤◌, ℕ, List};
ghost use Rattle.kc_outside.specs.declared.store.Slot.{Slot};
ghost use Rattle.kc_outside.specs.declared.store.Slot.TheVariants.{Map};
ghost use Rattle.kc_outside.specs.Counts.{Rose};
ghost use Rattle.kc_outside.specs.Files.{OthersStay};
ghost use Rattle.kc_command.specs.Calls.{ReadsOnce};
ghost use Rattle.kc_command.specs.Halts.{NotStore, OnStore, UnlessStore};
ghost use Rattle.kc_command.specs.Inputs.{map_in, rows_in};
ghost use Rattle.kc_command.specs.Slots.{RefusesIn};
ghost use Rattle.kc_command.specs.Made.{IsOf};
ghost use Rattle.kc_command.specs.Symbols.{ReadsRows};

use crate::file::read_file;
use crate::halt::Halt;
use kc_outside::{Slot, Store};
use kc_syms::Symbols;
use std::alloc::Global;

/// Reads the bytes of a map whole, into slot Map.
///
/// # Errors
///
/// The file is above 64 MiB; a failed call of the store; no memory was left.
pub fn read_map<S: Store>(alloc: Global, store: &mut S, name: &str) -> Result<Vec<u8>, Halt>
    requires may { S.may store.old Map name.now }

    ensures told { IsOf (λ map. map.items) (λ files. map_in (files Map name.now)) (S.files store.old) result }
    ensures refused { RefusesIn Map result }

    ensures others_opened { OthersStay Map (S.opened store.old) (S.opened store.new) }
    ensures others_sizes { OthersStay Map (S.sizes store.old) (S.sizes store.new) }
    ensures may { (s : Slot) (n : List ℕ) → S.may store.old s n → S.may store.new s n }
    ensures files { S.files store.new ≡ S.files store.old }
    ensures later { S.faults store.old ≤ S.faults store.new }
    ensures calls { ReadsOnce S.faults S.asked result store.old store.new }
    ensures quiet { UnlessStore result (S.faults store.new ≡ S.faults store.old) }
    ensures cause { OnStore result (Rose (S.faults store.old) (S.faults store.new)) }
{
    read_file(alloc, store, Slot::Map, name)
}

/// The symbols of a map with these bytes.
///
/// # Errors
///
/// The first line that isn't a row; no memory was left.
pub fn read_symbols(alloc: Global, map: &[u8]) -> Result<Symbols<'_>, Halt>
    ensures made { ReadsRows (rows_in map.now) result }
    ensures refused { RefusesIn Map result }
    ensures no_call { NotStore result }
{
    Ok(Symbols::read(alloc, map)?)
}
