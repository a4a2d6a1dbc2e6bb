// What may have stood where a word stands.
use kc_found::Items;

// Which numbers may have stood in a word's place.
#[derive(Clone, Copy, Debug, PartialEq, Eq)]
pub(crate) enum How {
    // This one.
    Number(u64),
    // The word with its lowest bit changed.
    Lowest,
    // The word with one bit changed, each in turn, the lowest first.
    Each,
    // The same of an entry of an xarray, the two lowest bits at last, where it is then no value, whose lowest bit is set.
    Pointer,
    // The same of a word whose lower half has a number that isn't zero.
    Counted,
}

// A word that may have held something else.
#[derive(Clone, Copy, Debug, PartialEq, Eq)]
pub(crate) struct Change {
    // Its virtual address.
    pub at: u64,
    // What it may have held.
    pub how: How,
}

pub(crate) type Changes = Items<Change>;
