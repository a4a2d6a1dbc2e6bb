// Words that are read.
ghost use Rattle.std.specs.Prelude.{◌≡◌, ◌<◌, ◌≤◌, ◌+◌, ◌^◌, IfOk, IfSome};
ghost use Rattle.kc_memory.specs.Translation.{vword};
ghost use Rattle.kc_found.specs.Nodes.{readable};
ghost use Rattle.kc_repair.specs.Suspect.Answers.{IsUnread, OnlyReads};
ghost use Rattle.kc_repair.specs.Suspect.Changes.{field_to, filled, with_bits};

use crate::suspect::change::{Change, How};
use kc_found::{ReadFailed, Space, Stop, VWord};
use kc_word::Steps;
use std::sync::ledger::Ledger;

// Nothing where a word can't be read, unless reading failed.
pub(crate) fn unread<A>(stop: Stop) -> Result<Option<A>, ReadFailed>
    ensures { IsUnread stop result }
{
    match stop {
        Stop::Miss(_) => Ok(None),
        Stop::Fault => Err(ReadFailed::Fault),
    }
}

// The word at a virtual address, where it can be read.
pub(crate) fn read_word<S: Space, L: Ledger>(
    space: &mut S,
    va: u64,
    steps: &mut Steps<L>,
) -> Result<Option<VWord>, ReadFailed>
    ensures word { IfOk result (λ word. IfSome (S.image space.old) (λ image. word ≡ readable (vword image va))) }
    ensures at { IfOk result (λ word. IfSome word (λ w. w.va ≡ va)) }
    ensures reads { OnlyReads S.image S.files S.through S.most S.faults result space.old space.new }
{
    match space.word(va, steps) {
        Ok(word) => Ok(Some(word)),
        Err(stop) => unread(stop),
    }
}

// A word with so many bits from one on replaced by those of a number.
pub(crate) fn with_bits(from: u32, width: u32, number: u64, word: u64) -> u64
    requires { from + width ≤ 64 }
    ensures { result ≡ with_bits from width number word }
{
    let word = u128::from(word);
    let low = word % (1 << from);
    let bits = u128::from(number) % (1 << width) * (1 << from);
    let high = word / (1 << (from + width)) * (1 << (from + width));
    (low + bits + high) as u64
}

// A word gets the bits of a number, where it can be read.
fn filled(from: u32, width: u32, number: u64, word: Option<VWord>) -> Option<Change>
    requires { from + width ≤ 64 }
    ensures { result ≡ filled from width number word }
{
    let word = word?;
    Some(Change {
        at: word.va,
        how: How::Number(with_bits(from, width, number, word.value)),
    })
}

// So many bits, from a bit of the byte at an address on, become those of a number, where they lie in one word that can be read.
pub(crate) fn field_to<S: Space, L: Ledger>(
    space: &mut S,
    at: u64,
    bit: u32,
    width: u8,
    number: u64,
    steps: &mut Steps<L>,
) -> Result<Option<Change>, ReadFailed>
    requires bit { bit < 8 }
    requires width { width ≤ 64 }
    ensures field { IfOk result (λ change. IfSome (S.image space.old) (λ image. change ≡ field_to image at bit width number)) }
    ensures reads { OnlyReads S.image S.files S.through S.most S.faults result space.old space.new }
{
    let from = (at % 8 * 8) as u32 + bit;
    let width = u32::from(width);
    if from + width > 64 {
        return Ok(None);
    }
    let word = read_word(space, at / 8 * 8, steps)?;
    Ok(filled(from, width, number, word))
}
