// Why a plan isn't taken.
ghost use Rattle.std.specs.Prelude.{◌≡◌};
ghost use Rattle.kc_expr.specs.declared.keys.fault.PlanStop.TheVariants.{Fault, NoMemory as Wanting};

use kc_word::NoMemory;
use thiserror::Error;

/// What a plan breaks.
#[derive(Clone, Copy, Debug, PartialEq, Eq)]
pub enum PRule {
    /// The bytes aren't UTF-8, or aren't a TOML document.
    P1,
    /// The version is neither 1 nor 2.
    P2,
    /// A key is missing that must be there, or is there and isn't for this table.
    P3,
    /// A value has the wrong kind or form.
    P4,
    /// An earlier audit has this name.
    P5,
    /// An entry of `each` doesn't name a later audit with `from` that wasn't named before, or an audit with
    /// `from` isn't named.
    P6,
    /// An audit stands deeper than 4.
    P7,
    /// There are more than 256 audits.
    P8,
    /// With the key `root`: the symbol has no address, or several. With the key `kind`: a symbol that this kind
    /// reads has several. Where it has none, its usual value is taken.
    P9,
    /// A type isn't found, or a path doesn't lead to what is needed.
    P10,
    /// The types lack what this kind of audit needs.
    P11,
    /// A check is none, is too long or has too many paths, or a path of it doesn't lead to a number.
    P12,
}

/// A key of a plan.
#[derive(Clone, Copy, Debug, PartialEq, Eq)]
pub enum PlanKey {
    /// `version`, of the plan.
    Version,
    /// `tail`, of the plan: how the memory that a segment has and the file leaves out is read.
    Tail,
    /// `audit`, of the plan: its audits.
    Audit,
    /// `name`
    Name,
    /// `kind`
    Kind,
    /// `root`
    Root,
    /// `root_type`
    RootType,
    /// `root_path`
    RootPath,
    /// `from`
    From,
    /// `optional`
    Optional,
    /// `element`
    Element,
    /// `link`
    Link,
    /// `key`
    Key,
    /// `unique`
    Unique,
    /// `cached`
    Cached,
    /// `check`
    Check,
    /// `each`
    Each,
    /// A key that isn't for the table in which it stands: at the top one beside `version`, `tail` and `audit`, in
    /// an audit one that no kind of audit has.
    Other,
}

/// The first fault of a plan.
#[derive(Clone, Copy, Debug, PartialEq, Eq, Error)]
#[error("{rule:?}")]
pub struct PlanFault {
    /// What is broken.
    pub rule: PRule,
    /// The audit, counted from 0 in the order of the plan; `None` where the fault isn't in one.
    pub audit: Option<u32>,
    /// The key; `None` for `P1`.
    pub key: Option<PlanKey>,
}

/// Why a plan wasn't read.
#[derive(Clone, Copy, Debug, PartialEq, Eq, Error)]
pub enum PlanStop {
    /// The plan's first fault.
    #[error("{0}")]
    Fault(PlanFault),
    /// No memory was left.
    #[error("no memory was left")]
    NoMemory,
}

impl From<PlanFault> for PlanStop {
    ghost from_gives = { λ fault stop. stop ≡ Fault fault };

    fn from(fault: PlanFault) -> Self {
        PlanStop::Fault(fault)
    }
}

impl From<NoMemory> for PlanStop {
    ghost from_gives = { λ _ stop. stop ≡ Wanting };

    fn from(_: NoMemory) -> Self {
        PlanStop::NoMemory
    }
}
