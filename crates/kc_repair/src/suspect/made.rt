// The suspects that changes make.
ghost use Rattle.std.specs.Prelude.{◌≡◌, ◌<◌, ◌++◌, Some, OnOk, IfOk, IfSome};
ghost use Rattle.std.specs.List.{flat_map};
ghost use Rattle.kc_repair.specs.Suspect.Answers.{OnlyReads};
ghost use Rattle.kc_repair.specs.Suspect.Changes.{bits_below, flipped, is_counted, is_no_value, made, made_of, suspect_of, taken_below, taken_if, turned};

use crate::suspect::change::{Change, Changes, How};
use crate::suspect::suspect::{Suspect, Suspects};
use crate::suspect::words::read_word;
use kc_found::{Origin, ReadFailed, Space, VWord};
use kc_word::{NoMemory, Steps};
use std::alloc::Global;
use std::sync::ledger::Ledger;

// Adds a word, where its bytes stand in the file and another number may have stood there.
fn push_suspect(suspects: &mut Suspects, word: &VWord, value: u64) -> Result<(), NoMemory>
    ensures { OnOk result (suspects.new ≡ suspects.old ++ suspect_of word.now value) }
{
    let Origin::File(off) = word.off else {
        return Ok(());
    };
    if value == word.value {
        return Ok(());
    }
    suspects.push(Suspect {
        va: word.va,
        pa: word.pa,
        off,
        now: word.value,
        value,
    })
}

// The word with one bit changed.
pub(crate) fn flipped(word: u64, bit: u32) -> u64
    requires { bit < 64 }
    ensures { result ≡ flipped word bit }
{
    word ^ (1 << bit)
}

// Adds it with each bit changed, the lowest first.
fn push_bits(suspects: &mut Suspects, word: &VWord) -> Result<(), NoMemory>
    ensures { OnOk result (suspects.new ≡ suspects.old ++ flat_map (suspect_of word.now) (bits_below word.now.value 64)) }
{
    for bit in 0..64u32 {
        push_suspect(suspects, word, flipped(word.value, bit))?;
    }
    Ok(())
}

// Adds it, where the number is one that can have stood there.
fn push_if(suspects: &mut Suspects, word: &VWord, may: bool, value: u64) -> Result<(), NoMemory>
    ensures { OnOk result (suspects.new ≡ suspects.old ++ taken_if may word.now value) }
{
    if may {
        return push_suspect(suspects, word, value);
    }
    Ok(())
}

// An entry of an xarray with one bit changed, the third first.
fn turned(word: u64, i: u32) -> u64
    requires { i < 64 }
    ensures { result ≡ turned word i }
{
    flipped(word, (i + 2) % 64)
}

// Adds an entry of an xarray with each bit changed, the two lowest at last, where it is then no value.
fn push_pointers(suspects: &mut Suspects, word: &VWord) -> Result<(), NoMemory>
    ensures { OnOk result (suspects.new ≡ suspects.old ++ flat_map (suspect_of word.now) (taken_below is_no_value (turned word.now.value) 64)) }
{
    for i in 0..64u32 {
        let value = turned(word.value, i);
        push_if(suspects, word, value % 2 == 0, value)?;
    }
    Ok(())
}

// Adds it with each bit changed, the lowest first, where its lower half isn't zero then.
fn push_counts(suspects: &mut Suspects, word: &VWord) -> Result<(), NoMemory>
    ensures { OnOk result (suspects.new ≡ suspects.old ++ flat_map (suspect_of word.now) (taken_below is_counted (flipped word.now.value) 64)) }
{
    for bit in 0..64u32 {
        let value = flipped(word.value, bit);
        push_if(suspects, word, value % (1 << 32) != 0, value)?;
    }
    Ok(())
}

// Adds what is suspected of a word.
fn push_word(suspects: &mut Suspects, word: &VWord, how: How) -> Result<(), NoMemory>
    ensures { OnOk result (suspects.new ≡ suspects.old ++ made_of (Some word.now) how) }
{
    match how {
        How::Number(value) => push_suspect(suspects, word, value),
        How::Lowest => push_suspect(suspects, word, flipped(word.value, 0)),
        How::Each => push_bits(suspects, word),
        How::Pointer => push_pointers(suspects, word),
        How::Counted => push_counts(suspects, word),
    }
}

// Adds what a change makes, where its word can be read.
fn push_made<S: Space, L: Ledger>(
    suspects: &mut Suspects,
    space: &mut S,
    change: Change,
    steps: &mut Steps<L>,
) -> Result<(), ReadFailed>
    ensures made { OnOk result (IfSome (S.image space.old) (λ image. suspects.new ≡ suspects.old ++ made image change)) }
    ensures reads { OnlyReads S.image S.files S.through S.most S.faults result space.old space.new }
{
    if let Some(word) = read_word(space, change.at, steps)? {
        push_word(suspects, &word, change.how)?;
    }
    Ok(())
}

// What all changes make, in their order.
pub(crate) fn make_all<S: Space, L: Ledger>(
    alloc: Global,
    changes: &Changes,
    space: &mut S,
    steps: &mut Steps<L>,
) -> Result<Suspects, ReadFailed>
    ensures made { IfOk result (λ found. IfSome (S.image space.old) (λ image. found ≡ flat_map (made image) changes.now)) }
    ensures reads { OnlyReads S.image S.files S.through S.most S.faults result space.old space.new }
{
    let mut suspects = Suspects::new(alloc);
    for change in changes.as_slice() {
        push_made(&mut suspects, space, *change, steps)?;
    }
    Ok(suspects)
}
