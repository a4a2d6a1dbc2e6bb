// Why a read through a view failed.
use kc_kdump::KdumpFault;
use kc_plain::PageFault;

/// A page that can't be had, by its number among those in the dump.
#[derive(Clone, Copy)]
pub struct BadPage {
    pub number: u64,
    pub fault: PageFault,
}

/// Why a call of a view failed.
#[derive(Clone, Copy)]
pub enum ViewFault {
    /// A call of the store failed.
    Store,
    /// The compressed dump isn't as it has to be.
    Refused(KdumpFault),
    /// A page of it can't be had.
    Page(BadPage),
    /// No memory was left.
    NoMemory,
}
