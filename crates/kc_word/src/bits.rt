// Bits of memory.
ghost use Rattle.std.specs.Prelude.{◌<◌, ◌≤◌, ◌^◌};

/// A whole number in memory: so many bits from a bit on, counted from a place's first byte, the lowest bit of
/// the lowest byte first.
#[derive(Clone, Copy, Debug, PartialEq, Eq)]
pub struct Bits {
    /// The first bit, below 2^36.
    pub bit: u64,
    /// The width in bits, 1 to 64.
    pub width: u8,
    /// Whether the number is in two's complement.
    pub signed: bool,
    pub ghost near: { bit < 2 ^ 36 },
    pub ghost some: { 1 ≤ width },
    pub ghost word: { width ≤ 64 },
}
