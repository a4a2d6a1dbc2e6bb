// Words near a violation over which something was written.
ghost use Rattle.std.specs.Prelude.{◌≡◌, ◌++◌, IfOk, IfSome, OnOk};
ghost use Rattle.kc_repair.specs.Suspect.Answers.{OnlyReads};
ghost use Rattle.kc_cause.specs.Written.{first_written, if_written, is_of_slots, is_written, slot_line, slot_of, written_at};

use crate::came::push_word;
use kc_found::{Found, ReadFailed, Rule, Space};
use kc_memory::VWord;
use kc_sight::{Meaning, meaning_of, read_word};
use kc_text::push;
use kc_word::{NoMemory, Steps};
use std::sync::ledger::Ledger;

// The words of an xarray's node up to its last slot.
const NODE_WORDS: u64 = 69;

/// Whether a word says that something was written over it.
pub(crate) fn is_written(meaning: Meaning) -> bool
    ensures { result ≡ is_written meaning }
{
    matches!(meaning, Meaning::Pattern(_) | Meaning::Text)
}

fn if_written(word: VWord) -> Option<VWord>
    ensures { result ≡ if_written word }
{
    if is_written(meaning_of(word.va, word.value)) {
        return Some(word);
    }
    None
}

// The word at an address, where it says so.
fn written_at<M: Space, L: Ledger>(
    memory: &mut M,
    at: u64,
    steps: &mut Steps<L>,
) -> Result<Option<VWord>, ReadFailed>
    ensures word { IfOk result (λ word. IfSome (M.image memory.old) (λ image. word ≡ written_at image at)) }
    ensures reads { OnlyReads M.image M.files M.through M.most M.faults result memory.old memory.new }
{
    match read_word(memory, at, steps)? {
        Ok(word) => Ok(if_written(word)),
        Err(_) => Ok(None),
    }
}

// The first of so many from an address on.
fn first_written<M: Space, L: Ledger>(
    memory: &mut M,
    first: u64,
    words: u64,
    steps: &mut Steps<L>,
) -> Result<Option<VWord>, ReadFailed>
    ensures word { IfOk result (λ word. IfSome (M.image memory.old) (λ image. word ≡ first_written words image first)) }
    ensures reads { OnlyReads M.image M.files M.through M.most M.faults result memory.old memory.new }
{
    let mut at = first;
    let mut left = words;
    while left > 0 {
        let word = written_at(memory, at, steps)?;
        if word.is_some() {
            return Ok(word);
        }
        at = at.wrapping_add(8);
        left -= 1;
    }
    Ok(None)
}

// Whether a rule is about a number that counts slots of an xarray's node.
fn is_of_slots(rule: Rule) -> bool
    ensures { result ≡ is_of_slots rule }
{
    matches!(rule, Rule::X5 | Rule::X6)
}

/// The first slot of the node that a violation is about over which something was written.
///
/// # Errors
///
/// A failed call of the store; no memory was left.
pub(crate) fn slot_of<M: Space, L: Ledger>(
    memory: &mut M,
    found: &Found,
    steps: &mut Steps<L>,
) -> Result<Option<VWord>, ReadFailed>
    ensures word { IfOk result (λ word. IfSome (M.image memory.old) (λ image. word ≡ slot_of image found.now)) }
    ensures reads { OnlyReads M.image M.files M.through M.most M.faults result memory.old memory.new }
{
    if !is_of_slots(found.rule) {
        return Ok(None);
    }
    first_written(memory, found.at / 8 * 8, NODE_WORDS, steps)
}

/// Adds the line of a slot: the columns of a place.
///
/// # Errors
///
/// No memory was left.
pub(crate) fn push_slot_line(text: &mut Vec<u8>, word: VWord) -> Result<(), NoMemory>
    ensures { OnOk result (text.new.items ≡ text.old.items ++ slot_line word) }
{
    push(text, b"slot ")?;
    push_word(text, &word)?;
    push(text, b"\n")
}
