// The symbols of a table, one after the other.
ghost use Rattle.std.specs.Prelude.{◌≡◌, ◌<◌, ◌^◌, ◌++◌, ◌∷◌, [], List, None, length, OnOk};
ghost use Rattle.kc_memory.specs.Stays.{SpaceStays};
ghost use Rattle.kc_bytes.specs.Bytes.{IsKept, onward};
ghost use Rattle.kc_kallsyms.specs.Reading.{CountsReadFaults, ReadsAs};
ghost use Rattle.kc_kallsyms.specs.Symbols.{Symbol as Listed, entry_at, length_at, name_at, symbols_in};
ghost use Rattle.kc_kallsyms.specs.Views.{entry_view, spot_of, symbol_view, tables_view, tokens_view};
ghost use Rattle.kc_kallsyms.specs.Walked.{WalksAs, text_from};

use crate::bytes::{next, next_four};
use crate::places::Places;
use crate::stop::TableStop;
use crate::symbol::{Symbol, symbol_of};
use crate::tables::Tables;
use kc_bytes::Cursor;
use kc_memory::Space;
use kc_word::{NoMemory, Steps};
use std::alloc::Global;
use std::sync::ledger::Ledger;

/// What is kept of the symbols of a table.
pub trait Rows {
    /// From one state to another, these symbols were taken.
    ghost took: { Self → Self → List Listed → Type 0 };

    /// Takes the next symbol.
    ///
    /// # Errors
    ///
    /// No memory was left.
    fn take(&mut self, symbol: &Symbol<'_>) -> Result<(), NoMemory>
        ensures { OnOk result ((first : Self) (done : List Listed) → took first self.old done
            → took first self.new (done ++ symbol_view symbol.now ∷ [])) };

    /// At first none was taken.
    ghost none: { (rows : Self) → took rows rows [] };
}

/// Where the next symbol's name and offset are, and the text of the last one.
#[derive(Debug, Drop)]
pub(crate) struct Walk {
    pub names: Cursor,
    pub offsets: Cursor,
    pub text: Vec<u8>,
}

// How many tokens the next name has.
#[tactic(auto, unfolding(crate::specs::Symbols::length_at))]
fn read_length<S: Space, L: Ledger>(
    space: &mut S,
    cursor: &mut Cursor,
    steps: &mut Steps<L>,
) -> Result<u16, TableStop>
    requires { IsKept (S.image space.old) cursor.old.word }
    ensures length { ReadsAs (λ n. record { count = n; start = cursor.new.at }) (λ image. length_at image cursor.old.at) (S.image space.old) result }
    ensures fits { OnOk result (cursor.new.at < 2 ^ 64) }
    ensures kept { IsKept (S.image space.new) cursor.new.word }
    ensures stays { SpaceStays S.image S.files S.through S.most space.old space.new }
    ensures cause { CountsReadFaults result (S.faults space.old) (S.faults space.new) }
{
    let low = u16::from(next(cursor, space, steps)?);
    if low < 128 {
        return Ok(low);
    }
    let high = u16::from(next(cursor, space, steps)?);
    Ok(low % 128 + 128 * high)
}

// Adds the tokens of so many numbers to a text. The place is an address of 64 bits.
fn push_tokens<S: Space, L: Ledger>(
    space: &mut S,
    cursor: &mut Cursor,
    tokens: &[Vec<u8>],
    count: u16,
    text: &mut Vec<u8>,
    steps: &mut Steps<L>,
) -> Result<(), TableStop>
    requires kept { IsKept (S.image space.old) cursor.old.word }
    requires fits { cursor.old.at < 2 ^ 64 }
    requires all { length tokens.now ≡ 256 }
    ensures text { ReadsAs (λ _. text.new.items) (λ image. text_from image (tokens_view tokens.now) text.old.items count cursor.old.at) (S.image space.old) result }
    ensures at { OnOk result (cursor.new.at ≡ onward cursor.old.at count) }
    ensures kept { IsKept (S.image space.new) cursor.new.word }
    ensures stays { SpaceStays S.image S.files S.through S.most space.old space.new }
    ensures cause { CountsReadFaults result (S.faults space.old) (S.faults space.new) }
{
    for i in 0..count {
        let number = next(cursor, space, steps)?;
        text.extend_from_slice(&tokens[usize::from(number)])?;
    }
    Ok(())
}

// The next name's tokens, joined.
#[tactic(auto, unfolding(crate::specs::Symbols::name_at))]
fn read_name<S: Space, L: Ledger>(
    space: &mut S,
    cursor: &mut Cursor,
    tokens: &[Vec<u8>],
    text: &mut Vec<u8>,
    steps: &mut Steps<L>,
) -> Result<(), TableStop>
    requires kept { IsKept (S.image space.old) cursor.old.word }
    requires all { length tokens.now ≡ 256 }
    ensures name { ReadsAs (λ _. record { text = text.new.items; next = cursor.new.at })
        (λ image. name_at image (tokens_view tokens.now) cursor.old.at) (S.image space.old) result }
    ensures kept { IsKept (S.image space.new) cursor.new.word }
    ensures stays { SpaceStays S.image S.files S.through S.most space.old space.new }
    ensures cause { CountsReadFaults result (S.faults space.old) (S.faults space.new) }
{
    let count = read_length(space, cursor, steps)?;
    text.clear();
    push_tokens(space, cursor, tokens, count, text, steps)
}

impl Walk {
    fn new(alloc: Global, places: &Places) -> Self
        ensures names { result.names.at ≡ places.now.names }
        ensures offsets { result.offsets.at ≡ places.now.offsets }
        ensures names_kept { result.names.word ≡ None }
        ensures offsets_kept { result.offsets.word ≡ None }
    {
        Walk {
            names: Cursor::new(places.names),
            offsets: Cursor::new(places.offsets),
            text: Vec::new(alloc),
        }
    }

    // Reads the next symbol's name into the text, and its offset.
    #[tactic(auto, unfolding(crate::specs::Symbols::entry_at))]
    fn read_entry<S: Space, L: Ledger>(
        &mut self,
        space: &mut S,
        tokens: &[Vec<u8>],
        steps: &mut Steps<L>,
    ) -> Result<u32, TableStop>
        requires names { IsKept (S.image space.old) self.old.names.word }
        requires offsets { IsKept (S.image space.old) self.old.offsets.word }
        requires all { length tokens.now ≡ 256 }
        ensures entry { ReadsAs (λ offset. entry_view self.new offset)
            (λ image. entry_at image (tokens_view tokens.now) (spot_of self.old.names self.old.offsets)) (S.image space.old) result }
        ensures names { IsKept (S.image space.new) self.new.names.word }
        ensures offsets { IsKept (S.image space.new) self.new.offsets.word }
        ensures stays { SpaceStays S.image S.files S.through S.most space.old space.new }
        ensures cause { CountsReadFaults result (S.faults space.old) (S.faults space.new) }
    {
        read_name(space, &mut self.names, tokens, &mut self.text, steps)?;
        next_four(&mut self.offsets, space, steps)
    }
}

/// Hands all symbols of a table to what keeps them, in their order.
///
/// # Errors
///
/// The first word that can't be read, `S7` or `S8`; no memory was left.
pub fn walk_symbols<S: Space, L: Ledger, R: Rows>(
    alloc: Global,
    space: &mut S,
    places: &Places,
    tables: &Tables,
    rows: &mut R,
    steps: &mut Steps<L>,
) -> Result<(), TableStop>
    ensures symbols { WalksAs (R.took rows.old rows.new) (λ image. symbols_in image places.now (tables_view tables.now)) (S.image space.old) result }
    ensures stays { SpaceStays S.image S.files S.through S.most space.old space.new }
    ensures cause { CountsReadFaults result (S.faults space.old) (S.faults space.new) }
{
    let mut walk = Walk::new(alloc, places);
    for number in 0..tables.count {
        let offset = walk.read_entry(space, &tables.tokens, steps)?;
        let symbol = symbol_of(number, &walk.text, offset)?;
        rows.take(&symbol)?;
    }
    Ok(())
}
