// A whole number that was read.
ghost use Rattle.std.specs.Prelude.{pos, ◌≤ℤ◌, ◌<ℤ◌, ◌-ℤ◌, ◌^◌};
ghost use Rattle.kc_memory.specs.Bits.{Number};

use crate::words::Place;
use std::marker::Model;

/// A whole number in virtual memory, and the places of the words that hold it.
#[derive(Clone, Copy, Debug, PartialEq, Eq)]
pub struct Scalar {
    /// The number, from -2^63 to 2^64 - 1.
    pub value: i128,
    /// The place of the word that holds its lowest bit.
    pub first: Place,
    /// The place of the word after that one, where it holds the number's highest bit.
    pub second: Option<Place>,
}

impl Model for Scalar {
    ghost Value = { Number };

    ghost view = { λ s. record { value = s.value; first = s.first; second = s.second } };

    ghost invariant = { λ s. ((pos 0 -ℤ pos (2 ^ 63)) ≤ℤ s.value) × (s.value <ℤ pos (2 ^ 64)) };

    ghost inverse = { λ n. record { value = n.value; first = n.first; second = n.second } };
}
