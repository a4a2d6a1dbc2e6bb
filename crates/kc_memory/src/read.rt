// Reading a whole number, bit by bit.
ghost use Rattle.std.specs.Prelude.{◌≡◌, ◌+◌, ◌*◌, ◌<◌, ◌≤◌, ◌^◌, pos, ◌-ℤ◌, ◌≤ℤ◌, ◌<ℤ◌, Some, IfOk, IfSome};
ghost use Rattle.kc_memory.specs.Bits.{bits as bits_of, bits_from, first_bit, in_one, in_two, next_word, number_of, word_of, InBits, StopsIn, StepsWithin};
ghost use Rattle.kc_memory.specs.Space.{AnswersAs};
ghost use Rattle.kc_memory.specs.Stays.{CountsFaults, SpaceStays};

use crate::place::place_of;
use crate::scalar::Scalar;
use crate::space::{Space, Stop};
use crate::words::VWord;
use kc_word::{Bits, Steps};
use std::sync::ledger::Ledger;

/// The whole number of these bits, counted from the byte at virtual address `at`. Addresses wrap at 2^64. It
/// reads the word of the first bit, and the word after that one only where the number reaches into it. It takes
/// no memory.
///
/// # Errors
///
/// The first of the two words that can't be read, with the reason. The second isn't asked after that.
pub fn read_bits<S: Space, L: Ledger>(
    space: &mut S,
    at: u64,
    bits: Bits,
    steps: &mut Steps<L>,
) -> Result<Scalar, Stop>
    ensures exact { AnswersAs (λ image. bits_of image at bits.bit bits.width bits.signed) (S.image space.old) result }
    ensures first { IfOk result (λ s. s.first.va ≡ Some (word_of (first_bit at bits.bit))) }
    ensures second { IfOk result (λ s. IfSome s.second (λ p. p.va ≡ Some (next_word (word_of (first_bit at bits.bit))))) }
    ensures range { IfOk result (λ s. InBits bits.signed 64 s.value) }
    ensures stopped { StopsIn result (word_of (first_bit at bits.bit)) }
    ensures steps { steps.new ≤ steps.old + 2 * S.most space.old }
    ensures one_word { StepsWithin result (word_of (first_bit at bits.bit)) (S.most space.old) steps.old steps.new }

    ensures stays { SpaceStays S.image S.files S.through S.most space.old space.new }
    ensures cause { CountsFaults result (S.faults space.old) (S.faults space.new) }
{
    let first = first_bit(at, bits.bit);
    let va = word_of(first);
    let from = (first % 64) as u8;
    let low = space.word(va, steps)?;
    if from + bits.width <= 64 {
        return Ok(in_one(from, &bits, &low));
    }
    let high = space.word(next_word(va), steps)?;
    Ok(in_two(from, &bits, &low, &high))
}

// The number of the first bit.
fn first_bit(at: u64, bit: u64) -> u128
    ensures value { result ≡ first_bit at bit }
    ensures within { result < 2 ^ 67 }
{
    (u128::from(at) * 8 + u128::from(bit)) % (1 << 67)
}

// The address of the word that holds a bit.
fn word_of(n: u128) -> u64
    requires { n < 2 ^ 67 }
    ensures { result ≡ word_of n }
{
    (n / 64 * 8) as u64
}

// The address of the word after a word.
fn next_word(va: u64) -> u64
    ensures { result ≡ next_word va }
{
    va.wrapping_add(8)
}

// So many bits of a number, from one on.
fn bits_from(from: u8, width: u8, n: u128) -> u128
    requires from { from < 64 }
    requires width { width ≤ 64 }
    ensures value { result ≡ bits_from from width n }
    ensures within { result < 2 ^ width }
{
    (n >> from) % (1 << width)
}

// The number of a pattern of bits.
fn number_of(signed: bool, width: u8, pattern: u128) -> i128
    requires some { 1 ≤ width }
    requires word { width ≤ 64 }
    requires within { pattern < 2 ^ width }
    ensures value { result ≡ number_of signed width pattern }
    ensures range { InBits signed 64 result }
    ensures least { (pos 0 -ℤ pos (2 ^ 63)) ≤ℤ result }
    ensures most { result <ℤ pos (2 ^ 64) }
{
    if signed && pattern >= 1 << (width - 1) {
        pattern as i128 - (1 << width)
    } else {
        pattern as i128
    }
}

// The number in one word.
fn in_one(from: u8, bits: &Bits, word: &VWord) -> Scalar
    requires { from < 64 }
    ensures number { result ≡ in_one from bits.now.width bits.now.signed word.now }
    ensures range { InBits bits.now.signed 64 result.value }
{
    let pattern = bits_from(from, bits.width, u128::from(word.value));
    Scalar {
        value: number_of(bits.signed, bits.width, pattern),
        first: place_of(word),
        second: None,
    }
}

// The number in two words.
fn in_two(from: u8, bits: &Bits, low: &VWord, high: &VWord) -> Scalar
    requires { from < 64 }
    ensures number { result ≡ in_two from bits.now.width bits.now.signed low.now high.now }
    ensures range { InBits bits.now.signed 64 result.value }
{
    let both = u128::from(low.value) + (u128::from(high.value) << 64);
    let pattern = bits_from(from, bits.width, both);
    Scalar {
        value: number_of(bits.signed, bits.width, pattern),
        first: place_of(low),
        second: Some(place_of(high)),
    }
}
