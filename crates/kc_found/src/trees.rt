// What a walk of a red-black tree reads, and what it knows of a position.
use kc_memory::{Scalar, VWord};

/// The words of a root: `rb_node` and, of a cached root, `rb_leftmost`.
#[derive(Clone, Copy, Debug, PartialEq, Eq)]
pub struct RbHead {
    /// The word that has the address of the top node, or 0.
    pub root: VWord,
    /// The word that has the address of the first node, or 0.
    pub leftmost: Option<VWord>,
}

/// The words of a node, in the order in which they are read.
#[derive(Clone, Copy, Debug, PartialEq, Eq)]
pub struct RbLinks {
    /// The word with the parent's address and the node's colour.
    pub parent: VWord,
    /// The word that has the address of the right child, or 0.
    pub right: VWord,
    /// The word that has the address of the left child, or 0.
    pub left: VWord,
}

/// The key of an element.
#[derive(Clone, Copy, Debug, PartialEq, Eq)]
pub struct RbKey {
    /// The number that was read.
    pub number: Scalar,
    /// The virtual address of the byte that has its first bit.
    pub at: u64,
}

/// A position of a tree, a node or a null: what leads there, and what is asked of a node there.
#[derive(Clone, Copy, Debug, PartialEq, Eq)]
pub struct RbSpot {
    /// The word that leads there.
    pub link: VWord,
    /// The virtual address of the node above, or 0.
    pub parent: u64,
    /// Whether no red node may stand there: at the top, and below a red node.
    pub red: bool,
    /// The key that the keys there aren't below.
    pub low: Option<i128>,
    /// The key that the keys there aren't above.
    pub high: Option<i128>,
    /// How many black nodes are above.
    pub black: u64,
}
