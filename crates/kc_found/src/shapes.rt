// Where the words of a structure stand. All offsets are in bytes, and addresses wrap at 2^64.
use kc_word::Bits;

/// A node of a ring (`struct list_head`), by the offsets of its words from the node's address.
#[derive(Clone, Copy, Debug, PartialEq, Eq)]
pub struct ListShape {
    /// The offset of `next`, which has the address of the next node.
    pub next: u64,
    /// The offset of `prev`, which has the address of the node before.
    pub prev: u64,
}

/// A hash chain (`struct hlist_head`, `struct hlist_node`), by the offsets of its words.
#[derive(Clone, Copy, Debug, PartialEq, Eq)]
pub struct HShape {
    /// The offset of `first` from the head's address. It has the address of the first node, or 0.
    pub first: u64,
    /// The offset of `next` from a node's address. It has the address of the next node, or 0.
    pub next: u64,
    /// The offset of `pprev` from a node's address. It has the address of the word that points to the node.
    pub pprev: u64,
}

/// A red-black tree (`struct rb_root` or `struct rb_root_cached`, `struct rb_node`), by the offsets of its words, and
/// the element that a node stands in.
#[derive(Clone, Copy, Debug, PartialEq, Eq)]
pub struct RbShape {
    /// The offset of `__rb_parent_color` from a node's address. It has the address of the parent, or 0, and the node's
    /// colour in bit 0: 0 for red, 1 for black.
    pub parent_color: u64,
    /// The offset of `rb_right` from a node's address. It has the address of the right child, or 0.
    pub right: u64,
    /// The offset of `rb_left` from a node's address. It has the address of the left child, or 0.
    pub left: u64,
    /// The offset of `rb_node` from the root's address. It has the address of the top node, or 0.
    pub root: u64,
    /// The offset of `rb_leftmost` from the root's address, where the root is a cached one. It has the address of the
    /// first node, or 0.
    pub leftmost: Option<u64>,
    /// The offset of the node from its element's address.
    pub link: u64,
    /// The key's bits, counted from the element's address, where the tree is ordered by a key.
    pub key: Option<Bits>,
    /// Whether no two elements have one key.
    pub unique: bool,
}
