// The rules of nodes, of nulls and of cached roots.
ghost use Rattle.std.specs.Prelude.{◌≡◌, ◌%◌, ◌+◌, IfOk, option_map, get_or};
ghost use Rattle.kc_found.specs.RbTrees.{bound_fault, key_fault, link_fault, red_fault};
ghost use Rattle.kc_found.specs.Walks.{IsBroken, IsNamed};
ghost use Rattle.kc_rb.specs.Faults.{FaultIs, end_fault, null_fault, or_else};

use kc_found::{
    Asked, RbKey, RbLinks, RbSpot, Rule, VWord, WalkStop, Walked, broken_at, broken_field,
};
use std::alloc::Global;

// Whether the word of the parent has the colour red.
pub(crate) fn is_red(word: u64) -> bool
    ensures { result ≡ Rattle.kc_found.specs.RbTrees.is_red word }
{
    word % 2 == 0
}

// A red node stands where none may.
fn red_stop(alloc: Global, asked: &Asked, spot: &RbSpot, word: &VWord) -> WalkStop
    requires { word.now.value % 2 ≡ 0 }
    ensures { IsBroken result (red_fault asked.now spot.now word.now) }
{
    let black = word.value + 1;
    if spot.parent == 0 {
        broken_at(alloc, asked, Rule::R2, word, Some(black))
    } else {
        broken_at(alloc, asked, Rule::R3, word, Some(black))
    }
}

// R1, R2 and R3 of a node.
pub(crate) fn judge_links(
    alloc: Global,
    asked: &Asked,
    spot: &RbSpot,
    links: &RbLinks,
) -> Result<(), WalkStop>
    ensures fault { FaultIs result (link_fault asked.now spot.now links.now) }
    ensures named { IsNamed result asked.now.audit asked.now.start }
{
    if links.parent.value / 4 * 4 != spot.parent {
        return Err(broken_at(alloc, asked, Rule::R1, &links.parent, Some(spot.parent)));
    }
    if spot.red && is_red(links.parent.value) {
        return Err(red_stop(alloc, asked, spot, &links.parent));
    }
    Ok(())
}

// Whether a key is too low.
fn is_below(unique: bool, low: Option<i128>, key: i128) -> bool
    ensures { result ≡ Rattle.kc_found.specs.RbTrees.is_below unique low key }
{
    match low {
        Some(low) => { if unique { key <= low } else { key < low } }
        None => false,
    }
}

// Whether a key is too high.
fn is_above(unique: bool, high: Option<i128>, key: i128) -> bool
    ensures { result ≡ Rattle.kc_found.specs.RbTrees.is_above unique high key }
{
    match high {
        Some(high) => { if unique { high <= key } else { high < key } }
        None => false,
    }
}

// A number in 64 bits, in two's complement.
fn as_word(number: i128) -> u64
    ensures { result ≡ Rattle.kc_found.specs.RbTrees.as_word number }
{
    (number.cast_unsigned() % (1 << 64)) as u64
}

// A bound in 64 bits.
fn bound_word(bound: Option<i128>) -> Option<u64>
    ensures { result ≡ option_map Rattle.kc_found.specs.RbTrees.as_word bound }
{
    match bound {
        Some(number) => Some(as_word(number)),
        None => None,
    }
}

// A key isn't within this bound.
fn bound_stop(alloc: Global, asked: &Asked, key: &RbKey, bound: Option<i128>) -> WalkStop
    ensures { IsBroken result (bound_fault asked.now key.now bound) }
{
    broken_field(
        alloc,
        asked,
        Rule::R4,
        key.at,
        &key.number,
        bound_word(bound),
    )
}

// R4 of a node, the lower bound first.
pub(crate) fn judge_key(
    alloc: Global,
    asked: &Asked,
    unique: bool,
    spot: &RbSpot,
    key: &Option<RbKey>,
) -> Result<(), WalkStop>
    ensures fault { FaultIs result (key_fault asked.now unique spot.now key.now) }
    ensures named { IsNamed result asked.now.audit asked.now.start }
{
    match key {
        Some(key) => {
            if is_below(unique, spot.low, key.number.value) {
                return Err(bound_stop(alloc, asked, key, spot.low));
            }
            if is_above(unique, spot.high, key.number.value) {
                return Err(bound_stop(alloc, asked, key, spot.high));
            }
            Ok(())
        }
        None => Ok(()),
    }
}

// R5 of a null, by the number of the first one, where one was met before. It gives the first one's number.
pub(crate) fn judge_null(
    alloc: Global,
    asked: &Asked,
    spot: &RbSpot,
    first: Option<u64>,
) -> Result<u64, WalkStop>
    ensures number { IfOk result (λ n. n ≡ or_else first spot.now.black) }
    ensures fault { FaultIs result (null_fault asked.now first spot.now) }
    ensures named { IsNamed result asked.now.audit asked.now.start }
{
    match first {
        Some(number) => {
            if number != spot.black {
                return Err(broken_at(alloc, asked, Rule::R5, &spot.link, Some(number)));
            }
            Ok(number)
        }
        None => Ok(spot.black),
    }
}

// The first node, or 0.
fn first_of(walked: &Walked) -> u64
    ensures { result ≡ get_or walked.now 0 0 }
{
    if walked.len() == 0 { 0 } else { *walked.get(0) }
}

// R6 of a cached root.
pub(crate) fn judge_leftmost(
    alloc: Global,
    asked: &Asked,
    leftmost: &Option<VWord>,
    walked: &Walked,
) -> Result<(), WalkStop>
    ensures fault { FaultIs result (end_fault asked.now leftmost.now walked.now) }
    ensures named { IsNamed result asked.now.audit asked.now.start }
{
    match leftmost {
        Some(word) => {
            let first = first_of(walked);
            if word.value != first {
                return Err(broken_at(alloc, asked, Rule::R6, word, Some(first)));
            }
            Ok(())
        }
        None => Ok(()),
    }
}
