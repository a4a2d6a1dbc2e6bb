// Who asks for a walk.

/// An audit at an address, which each violation of its walk names.
#[derive(Clone, Copy, Debug, PartialEq, Eq)]
pub struct Asked {
    /// The number of the audit in its plan.
    pub audit: u32,
    /// The virtual address at which the walk starts.
    pub start: u64,
}
