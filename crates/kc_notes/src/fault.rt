// Why the notes don't say what is needed.
use thiserror::Error;

/// A key of VMCOREINFO that may be missing.
#[derive(Clone, Copy, Debug, PartialEq, Eq)]
pub enum NoteKey {
    /// `NUMBER(pgtable_l5_enabled)`.
    L5,
    /// `KERNELOFFSET`.
    Offset,
    /// `NUMBER(sme_mask)`.
    Sme,
}

/// The first fault of the notes, in the order in which they stand here.
#[derive(Clone, Copy, Debug, PartialEq, Eq, Error)]
pub enum NoteFault {
    /// A note's name or descriptor passes the end of its part. Parts are counted from 0 over all of them,
    /// and `at` is the place of the note's header in its part, in bytes.
    #[error("V1: a note of part {part} passes its end, at {at}")]
    V1 { part: u32, at: u64 },
    /// There is no VMCOREINFO note.
    #[error("V2: no VMCOREINFO")]
    V2,
    /// `PAGESIZE` is missing or isn't 4096.
    #[error("V3: no page size of 4096")]
    V3,
    /// `NUMBER(phys_base)` is missing or is no decimal number.
    #[error("V4: no physical base")]
    V4,
    /// The symbol of the top page table is missing or is no hex number.
    #[error("V5: no top page table")]
    V5,
    /// The value of a key that may be missing is there and isn't in order.
    #[error("V6: a value is not in order: {0:?}")]
    V6(NoteKey),
    /// The top page table isn't at a multiple of 4096 below 2^52.
    #[error("V7: the top page table is out of place")]
    V7,
}
