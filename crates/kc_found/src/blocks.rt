// An open table of blocks of words: where a block stands, and the table grown.
ghost use Rattle.std.specs.Prelude.{◌≡◌, ◌^◌, ◌<◌, ◌*◌, ◌+◌, ◌≢◌, List, ℕ, IfOk, IfSome};
ghost use Rattle.kc_found.specs.Blocks.{first_place, first_places, with_blocks, IsSpot, IsTable};

use kc_word::NoMemory;
use std::alloc::Global;

// The number of no block: a block's number is below 2^58.
const FREE: u64 = u64::MAX;

// How many places from its first on a block may stand at, so that no dump makes a look-up long.
const WINDOW: usize = 128;

// The places of the first table.
const FIRST: usize = 16;

// Odd, and its bits look like chance: 2^64 by the golden ratio.
const MIX: u64 = 0x9e37_79b9_7f4a_7c15;

// Eight words in a row, 64 bytes of physical memory, or none.
#[derive(Clone, Copy)]
pub(crate) struct Block {
    // The address of the first by 64, or FREE.
    pub(crate) number: u64,
    // Which of them are taken.
    pub(crate) words: [bool; 8],
}

// Where a block stands.
#[derive(Clone, Copy)]
pub(crate) enum Spot {
    // It stands here.
    Here(usize),
    // It doesn't stand anywhere, and its place is here.
    Free(usize),
    // It doesn't stand anywhere, and there is no place for it.
    Nowhere,
}

// How many of the table's places are first places of blocks.
fn first_places(places: usize) -> usize
    ensures { result ≡ first_places places }
{
    places - (places / 4).min(WINDOW)
}

// The first place of a block, in a table of so many places.
#[inline(always)]
fn first_place(number: u64, places: usize) -> usize
    ensures { result ≡ first_place number places }
{
    let mixed = number.wrapping_mul(MIX) >> 32;
    (mixed.wrapping_mul(first_places(places) as u64) >> 32) as usize
}

// Where the block of this number stands.
#[inline(always)]
pub(crate) fn spot_of(blocks: &[Block], number: u64) -> Spot
    ensures { IsSpot blocks.now number result }
{
    let first = first_place(number, blocks.len());
    for place in first..first.saturating_add(WINDOW) {
        if place >= blocks.len() {
            return Spot::Nowhere;
        }
        let here = blocks[place].number;
        if here == number {
            return Spot::Here(place);
        }
        if here == FREE {
            return Spot::Free(place);
        }
    }
    Spot::Nowhere
}

// The same, where a place is looked at first.
#[inline(always)]
#[tactic(auto, using(crate::proofs::Near::near_spot))]
pub(crate) fn spot_near(blocks: &[Block], near: usize, number: u64) -> Spot
    requires table { IsTable blocks.now }
    requires some { number < 2 ^ 58 }
    ensures { IsSpot blocks.now number result }
{
    if near < blocks.len() {
        let here = blocks[near].number;
        if here == number {
            return Spot::Here(near);
        }
    }
    spot_of(blocks, number)
}

// How many blocks a table of so many places takes before it grows.
fn most_blocks(places: usize) -> u64 {
    first_places(places) as u64 / 8 * 5
}

// How many blocks more a table takes that has grown.
pub(crate) fn more_blocks(before: usize, after: usize) -> u64 {
    most_blocks(after).saturating_sub(most_blocks(before))
}

// A table with no block.
fn empty(alloc: Global, places: usize) -> Result<Vec<Block>, NoMemory>
    ensures table { IfOk result (λ v. IsTable v.items) }
    ensures words { IfOk result (λ v. (taken : List ℕ) → with_blocks taken v.items ≡ taken) }
{
    let free = Block {
        number: FREE,
        words: [false; 8],
    };
    match vec![in alloc; free; places] {
        Ok(blocks) => Ok(blocks),
        Err(_) => Err(NoMemory),
    }
}

// A table of twice the places with the same blocks, or none where one of them has no place there.
pub(crate) fn grown(alloc: Global, blocks: &[Block]) -> Result<Option<Vec<Block>>, NoMemory>
    requires { IsTable blocks.now }
    ensures table { IfOk result (λ o. IfSome o (λ v. IsTable v.items)) }
    ensures words { IfOk result (λ o. IfSome o (λ v. (taken : List ℕ) → with_blocks taken v.items ≡ with_blocks taken blocks.now)) }
{
    let Some(places) = blocks.len().max(FIRST / 2).checked_mul(2) else {
        return Err(NoMemory);
    };
    let mut larger = empty(alloc, places)?;
    for block in blocks {
        if block.number == FREE {
            continue;
        }
        let Spot::Free(place) = spot_of(&larger, block.number) else {
            return Ok(None);
        };
        larger[place] = *block;
    }
    Ok(Some(larger))
}
