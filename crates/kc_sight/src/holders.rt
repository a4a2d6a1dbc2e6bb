// The symbols whose words hold a value.
ghost use Rattle.std.specs.Prelude.{◌≡◌, map, option_map};
ghost use Rattle.kc_memory.specs.Stays.{SpaceStays};
ghost use Rattle.kc_sight.specs.Holders.{has_value, holder_by, is_holder};
ghost use Rattle.kc_sight.specs.Lines.{row_in};
ghost use Rattle.kc_sight.specs.Looks.{LooksAs};
ghost use Rattle.kc_sight.specs.Views.{row_view, symbol_view, symbols_holding};
ghost use Rattle.kc_found.specs.Failures.{CountsFailures};

use crate::symbol::{ImageMap, Row, Symbol, at_run, row_in};
use crate::words::{Seen, read_word};
use bstr::ByteSlice;
use kc_found::ReadFailed;
use kc_memory::Space;
use kc_word::Steps;
use std::alloc::Global;
use std::sync::ledger::Ledger;

// Whether a word that may not be there has a value.
fn has_value(value: u64, seen: &Seen) -> bool
    ensures { result ≡ has_value value seen.now }
{
    match seen {
        Ok(word) => word.value == value,
        Err(_) => false,
    }
}

// Whether the word at an address of the image's data has a value.
fn is_holder<S: Space, L: Ledger>(
    space: &mut S,
    image: &ImageMap<'_>,
    value: u64,
    at: u64,
    steps: &mut Steps<L>,
) -> Result<bool, ReadFailed>
    ensures holder { LooksAs (λ b. b) (λ i. is_holder i image.now.parts value at) (S.image space.old) result }
    ensures stays { SpaceStays S.image S.files S.through S.most space.old space.new }
    ensures cause { CountsFailures result (S.faults space.old) (S.faults space.new) }
{
    if at % 8 != 0 || !image.parts.have_data(at) {
        return Ok(false);
    }
    Ok(has_value(value, &read_word(space, at, steps)?))
}

// The symbol of a row, where its word has a value.
fn holder_by<'m, S: Space, L: Ledger>(
    space: &mut S,
    image: &ImageMap<'_>,
    value: u64,
    row: Option<Row<'m>>,
    steps: &mut Steps<L>,
) -> Result<Option<Symbol<'m>>, ReadFailed>
    ensures holder { LooksAs (λ s. option_map symbol_view s) (λ i. holder_by i image.now.parts image.now.kaslr value (option_map row_view row.entry)) (S.image space.old) result }
    ensures stays { SpaceStays S.image S.files S.through S.most space.old space.new }
    ensures cause { CountsFailures result (S.faults space.old) (S.faults space.new) }
{
    let Some(row) = row else {
        return Ok(None);
    };
    let address = at_run(image.kaslr, row.listed);
    if is_holder(space, image, value, address, steps)? {
        Ok(Some(Symbol {
            name: row.name,
            address,
        }))
    } else {
        Ok(None)
    }
}

/// The symbols of the image's data, from `_etext` to `_end` without what is freed, whose word holds a value, in the order of the map; of
/// symbols that stand at multiples of 8.
///
/// # Errors
///
/// A failure to read the dump; no memory was left.
pub fn find_holders<'m, S: Space, L: Ledger>(
    alloc: Global,
    space: &mut S,
    image: &ImageMap<'m>,
    value: u64,
    steps: &mut Steps<L>,
) -> Result<Vec<Symbol<'m>>, ReadFailed>
    ensures holders { LooksAs (λ found. map symbol_view found.items) (λ i. symbols_holding i image.now value) (S.image space.old) result }
    ensures stays { SpaceStays S.image S.files S.through S.most space.old space.new }
    ensures cause { CountsFailures result (S.faults space.old) (S.faults space.new) }
{
    let mut found = Vec::new(alloc);
    for line in image.map.lines() {
        match holder_by(space, image, value, row_in(line), steps) {
            Ok(None) => {}
            Ok(Some(symbol)) => found.push(symbol)?,
            Err(stop) => return Err(stop),
        }
    }
    Ok(found)
}
