// What comes of trying suspects.
use crate::Suspect;
use kc_found::Rule;

/// What a root audit found first: a rule that is broken, and the address that this is about.
#[derive(Clone, Copy, Debug, PartialEq, Eq)]
pub struct Breach {
    /// The rule.
    pub rule: Rule,
    /// The virtual address.
    pub at: u64,
}

/// A change after which the root audit's first violation is another one.
#[derive(Clone, Copy, Debug, PartialEq, Eq)]
pub struct Next {
    /// The word that is changed.
    pub suspect: Suspect,
    /// The rule that is broken then.
    pub rule: Rule,
    /// The virtual address that this is about.
    pub at: u64,
}

/// What comes of trying suspects in their order.
#[derive(Clone, Copy, Debug, PartialEq, Eq)]
pub enum Repair {
    /// With this word changed the root audit stands. It is the first such.
    Stands(Suspect),
    /// With none of those that were tried.
    Nothing {
        /// How many were tried.
        tried: u32,
        /// Whether there were more suspects than are tried.
        more: bool,
        /// The first of them after which the root audit breaks another rule, or this one at another address.
        then: Option<Next>,
    },
}
