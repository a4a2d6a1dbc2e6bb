// Xarrays: where their words stand, and what they hold.
use crate::items::Items;
use kc_memory::VWord;
use std::marker::Model;

/// An xarray (`struct xarray`, `struct xa_node`), by the offsets of its words and bytes in bytes, where addresses wrap
/// at 2^64. A node has 16 or 64 slots.
#[derive(Clone, Copy, Debug, PartialEq, Eq)]
pub struct XaShape {
    /// The offset of `xa_head` from the xarray's address.
    pub head: u64,
    /// The offset of the byte `shift` from a node's address.
    pub shift: u64,
    /// The offset of the byte `offset` from a node's address.
    pub offset: u64,
    /// The offset of the byte `count` from a node's address.
    pub count: u64,
    /// The offset of the byte `nr_values` from a node's address.
    pub nr_values: u64,
    /// The offset of `parent` from a node's address.
    pub parent: u64,
    /// The offset of `array` from a node's address.
    pub array: u64,
    /// The offset of the first of the `slots` from a node's address.
    pub slots: u64,
    /// How many slots a node has: 16 or 64.
    pub chunk: u64,
    /// Whether the xarray is an IDR's, whose nodes also count slots that are reserved and still null. It bears on rule
    /// X5 alone.
    pub idr: bool,
}

impl Model for XaShape {
    ghost use Rattle.kc_found.specs.XaLayouts.{XaLayout, IsChunk};

    ghost Value = { XaLayout };

    ghost view = { λ s. record { head = s.head; shift = s.shift; offset = s.offset; count = s.count; nr_values = s.nr_values; parent = s.parent; array = s.array; slots = s.slots; chunk = s.chunk; idr = s.idr } };

    ghost invariant = { λ s. IsChunk s.chunk };

    ghost inverse = { λ l. record { head = l.head; shift = l.shift; offset = l.offset; count = l.count; nr_values = l.nr_values; parent = l.parent; array = l.array; slots = l.slots; chunk = l.chunk; idr = l.idr } };
}

/// A pointer in an xarray.
#[derive(Clone, Copy, Debug, PartialEq, Eq)]
pub struct XaItem {
    /// Its index.
    pub index: u64,
    /// The pointer, which is an element's address.
    pub entry: u64,
}

/// The pointers that a walk met in an xarray, by rising index.
pub type XaWalked = Items<XaItem>;

/// What an entry of an xarray is.
#[derive(Clone, Copy, Debug, PartialEq, Eq)]
pub enum XaEntry {
    /// Null.
    Nothing,
    /// A plain pointer.
    Pointer,
    /// A value or a tagged pointer: an odd number.
    Odd,
    /// The address of a node, plus 2.
    Node,
    /// The zero entry, which keeps an index without a pointer.
    Zero,
    /// A sibling, which stands for the entry of the slot with this number.
    Sibling(u64),
    /// None of these, as a retry entry or an error.
    Bad,
}

/// The slot that a node hangs in.
#[derive(Clone, Copy, Debug, PartialEq, Eq)]
pub struct XaHolder {
    /// The virtual address of the node that has the slot.
    pub node: u64,
    /// The slot's number.
    pub slot: u64,
    /// The shift of the node that has the slot.
    pub shift: u64,
}

/// The words of a node, as they were read.
#[derive(Drop)]
pub struct XaWords {
    /// The word `parent`.
    pub parent: VWord,
    /// The word `array`.
    pub array: VWord,
    /// The words of the slots, by rising number.
    pub slots: Items<VWord>,
    /// The word that has the byte `shift`.
    pub shift: VWord,
    /// The word that has the byte `offset`.
    pub offset: VWord,
    /// The word that has the byte `count`.
    pub count: VWord,
    /// The word that has the byte `nr_values`.
    pub values: VWord,
}

/// A node whose slots are walked.
#[derive(Drop)]
pub struct XaNode {
    /// The node's virtual address.
    pub node: u64,
    /// How many bits of an index the levels below it take.
    pub shift: u64,
    /// The index of slot 0.
    pub base: u64,
    /// The words of the slots, by rising number.
    pub slots: Items<VWord>,
}
