// The number that stands where another is expected.
ghost use Rattle.std.specs.Prelude.{◌≡◌, ◌≤◌, ◌<◌, ◌^◌, ◌/◌, ◌%◌};
ghost use Rattle.kc_element.specs.Numbers.{bits_part, differing, part_in, part_of, word_at};

use crate::kinds::number_spot;
use kc_found::{Found, Places};
use kc_kinds::Kind;

/// What stands where a number is expected.
#[derive(Clone, Copy, Debug, PartialEq, Eq)]
pub struct FoundNumber {
    /// The number there, without sign.
    pub found: u64,
    /// What is expected, in as many bits.
    pub expected: u64,
}

impl FoundNumber {
    /// How many bits differ.
    pub fn differing(&self) -> u32
        ensures { result ≡ differing self.now }
    {
        (self.found ^ self.expected).count_ones()
    }
}

// Where the number stands that a rule is about.
#[derive(Clone, Copy, Debug, PartialEq, Eq)]
pub(crate) enum Spot {
    // It is the word.
    Word,
    // It is the word with its two lowest bits cleared.
    Parent,
    // It has so many bits, from a bit of the byte at the violation's address on.
    Bits { bit: u8, width: u8 },
}

// So many bits of a word, from one on.
fn bits_of(from: u8, width: u8, word: u64) -> u64
    requires from { from < 64 }
    requires width { width ≤ 64 }
    ensures { result ≡ word / 2 ^ from % 2 ^ width }
{
    ((u128::from(word) >> from) % (1 << width)) as u64
}

// The number in some bits from one of a word on, where the word has them all.
fn bits_part(from: u64, width: u8, expected: u64, word: u64) -> Option<FoundNumber>
    ensures { result ≡ bits_part from width expected word }
{
    if from >= 64 || u64::from(width) > 64 - from {
        return None;
    }
    Some(FoundNumber {
        found: bits_of(from as u8, width, word),
        expected: bits_of(0, width, expected),
    })
}

// The number that stands there, by the word.
fn part_in(spot: Spot, at: u64, expected: u64, word: u64) -> Option<FoundNumber>
    ensures { result ≡ part_in spot at expected word }
{
    match spot {
        Spot::Word => Some(FoundNumber {
            found: word,
            expected,
        }),
        Spot::Parent => Some(FoundNumber {
            found: word / 4 * 4,
            expected,
        }),
        Spot::Bits { bit, width } => {
            bits_part(at % 8 * 8 + u64::from(bit), width, expected, word)
        }
    }
}

// The word at an address, where it alone is shown.
fn word_at(at: u64, places: &Places) -> Option<u64>
    ensures { result ≡ word_at at places.now }
{
    match places.as_slice() {
        [place] if place.va == Some(at - at % 8) => Some(place.value),
        _ => None,
    }
}

/// The number that stands where the rule of a violation expects another, where the violation shows the one word that has it.
pub fn part_of(kind: &Kind, found: &Found) -> Option<FoundNumber>
    ensures { result ≡ part_of kind.now found.now }
{
    let spot = number_spot(kind, found.rule)?;
    let word = word_at(found.at, &found.places)?;
    part_in(spot, found.at, found.expected?, word)
}
