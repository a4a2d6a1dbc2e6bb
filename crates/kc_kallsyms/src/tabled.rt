// Reading the tables beside the names.
ghost use Rattle.std.specs.Prelude.{◌≡◌, ◌+◌, ◌≤◌, ◌^◌, map, vec_len, IfOk, OnOk};
ghost use Rattle.kc_memory.specs.Stays.{SpaceStays};
ghost use Rattle.kc_bytes.specs.Bytes.{IsKept, onward};
ghost use Rattle.kc_kallsyms.specs.Judged.{Judges};
ghost use Rattle.kc_kallsyms.specs.Reading.{CountsReadFaults, ReadsAs};
ghost use Rattle.kc_kallsyms.specs.Tables.{checked_count, tables_at, token_at, tokens_at};
ghost use Rattle.kc_kallsyms.specs.Views.{tables_view};

use crate::bytes::{next_four, next_two, read_eight, read_string};
use crate::fault::TableFault;
use crate::places::Places;
use crate::stop::TableStop;
use crate::tables::Tables;
use kc_bytes::{Cursor, onward};
use kc_memory::Space;
use kc_word::Steps;
use std::alloc::Global;
use std::sync::ledger::Ledger;

// How many symbols there may be at most.
const MOST_SYMBOLS: u32 = 1 << 22;

// How many tokens there are.
const TOKENS: u16 = 256;

// A number of symbols that can be.
fn checked_count(count: u32) -> Result<u32, TableFault>
    ensures { Judges (checked_count count) result }
{
    if count >= 1 && count <= MOST_SYMBOLS {
        Ok(count)
    } else {
        Err(TableFault::S5(count))
    }
}

// The token of a number.
#[tactic(auto, unfolding(crate::specs::Tables::token_at))]
fn read_token<S: Space, L: Ledger>(
    alloc: Global,
    space: &mut S,
    cursor: &mut Cursor,
    table: u64,
    number: u16,
    steps: &mut Steps<L>,
) -> Result<Vec<u8>, TableStop>
    requires { IsKept (S.image space.old) cursor.old.word }
    ensures token { ReadsAs (λ v. v.items) (λ image. token_at image table number cursor.old.at) (S.image space.old) result }
    ensures at { OnOk result (cursor.new.at ≡ onward cursor.old.at 2) }
    ensures kept { IsKept (S.image space.new) cursor.new.word }
    ensures stays { SpaceStays S.image S.files S.through S.most space.old space.new }
    ensures cause { CountsReadFaults result (S.faults space.old) (S.faults space.new) }
{
    let start = next_two(cursor, space, steps)?;
    read_string(alloc, space, number, onward(table, u64::from(start)), steps)
}

// The 256 tokens.
fn read_tokens<S: Space, L: Ledger>(
    alloc: Global,
    space: &mut S,
    table: u64,
    index: u64,
    steps: &mut Steps<L>,
) -> Result<Vec<Vec<u8>>, TableStop>
    ensures tokens { ReadsAs (λ ts. map (λ t. t.items) ts.items) (λ image. tokens_at image table 256 0 index) (S.image space.old) result }
    ensures count { IfOk result (λ ts. vec_len ts ≡ 256) }
    ensures stays { SpaceStays S.image S.files S.through S.most space.old space.new }
    ensures cause { CountsReadFaults result (S.faults space.old) (S.faults space.new) }
{
    let mut tokens = Vec::new(alloc);
    let mut cursor = Cursor::new(index);
    for number in 0..TOKENS {
        let token = read_token(alloc, space, &mut cursor, table, number, steps)?;
        tokens.push(token)?;
    }
    Ok(tokens)
}

/// The tables that lie at these places.
///
/// # Errors
///
/// A word that can't be read; `S5` or `S6`; no memory was left.
#[tactic(auto, unfolding(crate::specs::Tables::tables_at))]
pub fn read_tables<S: Space, L: Ledger>(
    alloc: Global,
    space: &mut S,
    places: &Places,
    steps: &mut Steps<L>,
) -> Result<Tables, TableStop>
    ensures tables { ReadsAs tables_view (λ image. tables_at image places.now) (S.image space.old) result }
    ensures stays { SpaceStays S.image S.files S.through S.most space.old space.new }
    ensures cause { CountsReadFaults result (S.faults space.old) (S.faults space.new) }
{
    let mut cursor = Cursor::new(places.count);
    let told = next_four(&mut cursor, space, steps)?;
    let count = checked_count(told)?;
    let base = read_eight(space, places.base, steps)?;
    let tokens = read_tokens(alloc, space, places.tokens, places.index, steps)?;
    Ok(Tables {
        count,
        base,
        tokens,
    })
}
