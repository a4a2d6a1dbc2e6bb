// The two readings of offsets.

/// How an offset of the table gives an address (kernel/kallsyms.c, kallsyms_sym_address).
#[derive(Clone, Copy, Debug, PartialEq, Eq)]
pub enum Reading {
    /// It has a sign: one that isn't below 0 is the address itself, and one below 0 counts down from the base less 1.
    Absolute,
    /// It counts from the base up.
    Relative,
}
