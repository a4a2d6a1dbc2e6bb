// Why a path leads nowhere.
use thiserror::Error;

/// What a path breaks.
#[derive(Clone, Copy, Debug, PartialEq, Eq)]
pub enum QRule {
    /// The struct or union has no such member.
    Q2,
    /// A member is asked of what is no struct or union, or an element of what is no array.
    Q3,
    /// The index isn't below the number of elements.
    Q4,
    /// A limit is passed: 32 modifiers, 32 levels without a name, 65,536 members that are looked at for a
    /// name, 4 pointers, a size that 32 bits count, or a bit below 2^36.
    Q5,
    /// What the path leads to can't be read so: for a field it is no number of 1 to 64 bits, a pointer among
    /// them; for a location it is a bit-field or doesn't begin at a whole byte.
    Q6,
    /// What is followed is no pointer, is a bit-field or doesn't begin at a whole byte.
    Q7,
    /// The text isn't a path, or has more than 256 bytes.
    Q8,
}

/// The first rule that a path breaks, and where.
#[derive(Clone, Copy, Debug, PartialEq, Eq, Error)]
#[error("{rule:?} step {step}")]
pub struct PathFault {
    /// The broken rule.
    pub rule: QRule,
    /// The step, counted from 1; 0 for Q8, and where the path is empty.
    pub step: u32,
}
