// Why a file is refused.
use std::alloc::AllocFailed;
use thiserror::Error;

/// What a file breaks. The rules are tried in this order: the header's, those of each record up to its
/// end, record by record, and then the last one, record by record again.
#[derive(Clone, Copy, Debug, PartialEq, Eq)]
pub enum BRule {
    /// The file has fewer than the 24 bytes of a header.
    B1,
    /// The magic isn't 0xeb9f.
    B2,
    /// The version isn't 1.
    B3,
    /// The header's length is below 24, or a section isn't inside the file.
    B4,
    /// The strings are empty, or don't begin and end with a NUL.
    B5,
    /// The kind of a record isn't one of 1 to 19.
    B6,
    /// A record, or what follows it, doesn't fit the types' section.
    B7,
    /// A name of a record isn't inside the strings, or a type number is above the count of types.
    B8,
}

impl BRule {
    ghost use Rattle.std.specs.Prelude.{◌≡◌};

    /// That a file breaks the rule at a place.
    pub fn at(self, place: usize) -> BtfFault
        ensures { result ≡ record { rule = self; at = place } }
    {
        BtfFault {
            rule: self,
            at: place as u64,
        }
    }
}

/// The first rule that a file breaks, and where.
#[derive(Clone, Copy, Debug, PartialEq, Eq, Error)]
#[error("{rule:?} at {at}")]
pub struct BtfFault {
    /// The broken rule.
    pub rule: BRule,
    /// The byte place in the file: the file's length for B1, the field of the header for B2 to B4, the
    /// strings' first byte for B5, and the record's first byte for B6 to B8.
    pub at: u64,
}

/// Why a file wasn't read.
#[derive(Clone, Copy, Debug, PartialEq, Eq, Error)]
pub enum BtfStop {
    /// The file breaks a rule.
    #[error("{0}")]
    Fault(BtfFault),
    /// No memory was left.
    #[error("no memory was left")]
    NoMemory,
}

impl From<BtfFault> for BtfStop {
    ghost use Rattle.std.specs.Prelude.{◌≡◌};
    ghost use Rattle.kc_btf.specs.declared.stop.BtfStop.TheVariants.{Fault};

    ghost from_gives = { λ fault stop. stop ≡ Fault fault };

    fn from(fault: BtfFault) -> Self {
        BtfStop::Fault(fault)
    }
}

impl<T: Drop> From<AllocFailed<T>> for BtfStop {
    ghost use Rattle.std.specs.Prelude.{◌≡◌};
    ghost use Rattle.kc_btf.specs.declared.stop.BtfStop.TheVariants.{NoMemory};

    ghost from_gives = { λ _ stop. stop ≡ NoMemory };

    fn from(_: AllocFailed<T>) -> Self {
        BtfStop::NoMemory
    }
}
