// What the rows of a map are made by.
ghost use Rattle.std.specs.Prelude.{◌≡◌};
ghost use Rattle.kc_kallsyms.specs.Addresses.{address, fits, linked, reading_by};
ghost use Rattle.kc_kallsyms.specs.Map.{is_below, is_of_processors, letter, listed};
ghost use Rattle.kc_kallsyms.specs.Views.{symbol_view};

use crate::reading::Reading;
use crate::symbol::Symbol;

/// What the rows of a map are made by.
#[derive(Clone, Copy, Debug, PartialEq, Eq)]
pub struct RowFrame {
    /// How an offset gives an address.
    pub reading: Reading,
    /// The address that offsets count from.
    pub base: u64,
    /// How far KASLR moved the kernel's image, in bytes.
    pub kaslr: u64,
    /// The offset of `__per_cpu_end`, where there is such a symbol.
    pub processors: Option<u32>,
}

// The kernel's image is linked to stand at this address and above.
const IMAGE_START: u64 = 0xffff_ffff_8000_0000;

/// The address of an offset at run time.
pub(crate) fn address(reading: Reading, base: u64, offset: u32) -> u64
    ensures { result ≡ address reading base offset }
{
    match reading {
        Reading::Absolute if offset < 1 << 31 => u64::from(offset),
        Reading::Absolute => base.wrapping_add(u64::from(u32::MAX - offset)),
        Reading::Relative => base.wrapping_add(u64::from(offset)),
    }
}

// An address as linked.
fn linked(kaslr: u64, at: u64) -> u64
    ensures { result ≡ linked kaslr at }
{
    if at >= IMAGE_START && at - IMAGE_START >= kaslr {
        at - kaslr
    } else {
        at
    }
}

// Whether a reading gives an offset the address of the kernel's text.
fn fits(text: u64, base: u64, offset: u32, reading: Reading) -> bool
    ensures { result ≡ fits text base offset reading }
{
    address(reading, base, offset) == text
}

/// The reading that gives the offset of `_stext` its address, where one alone does.
#[tactic(auto, unfolding(crate::specs::Addresses::reading_by))]
pub(crate) fn reading_by(text: u64, base: u64, offset: Option<u32>) -> Option<Reading>
    ensures { result ≡ reading_by text base offset }
{
    let offset = offset?;
    let absolute = fits(text, base, offset, Reading::Absolute);
    let relative = fits(text, base, offset, Reading::Relative);
    match (absolute, relative) {
        (true, false) => Some(Reading::Absolute),
        (false, true) => Some(Reading::Relative),
        _ => None,
    }
}

// Whether an offset is absolute and isn't above an end.
fn is_below(end: Option<u32>, offset: u32) -> bool
    ensures { result ≡ is_below end offset }
{
    match end {
        Some(end) => offset <= end && offset < 1 << 31,
        None => false,
    }
}

impl RowFrame {
    // Whether a symbol is a variable of processors, to which the kernel's table gives the letter A.
    fn is_of_processors(&self, symbol: &Symbol<'_>) -> bool
        ensures { result ≡ is_of_processors self.now.reading self.now.processors (symbol_view symbol.now) }
    {
        match self.reading {
            Reading::Absolute => {
                symbol.letter == b'A' && is_below(self.processors, symbol.offset)
            }
            Reading::Relative => false,
        }
    }

    /// The letter of a symbol's row.
    pub(crate) fn letter(&self, symbol: &Symbol<'_>) -> u8
        ensures { result ≡ letter self.now (symbol_view symbol.now) }
    {
        if self.is_of_processors(symbol) {
            b'D'
        } else {
            symbol.letter
        }
    }

    /// The address that a symbol's row lists.
    pub(crate) fn listed(&self, symbol: &Symbol<'_>) -> u64
        ensures { result ≡ listed self.now (symbol_view symbol.now) }
    {
        linked(self.kaslr, address(self.reading, self.base, symbol.offset))
    }
}
