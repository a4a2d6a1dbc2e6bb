// How a rule is suspected.

/// What may be wrong where a rule is broken. Rules with the same suspects have one way.
#[derive(Clone, Copy, Debug, PartialEq, Eq)]
pub enum Way {
    /// The link that led to what can't be read, or that can't be followed.
    Led,
    /// The link that led to a word for the second time.
    Met,
    /// The word that the violation is about.
    Word,
    /// A byte.
    Byte,
    /// A byte of an xarray's node, or all of them.
    Bytes,
    /// The number of slots in use of an xarray's node, or a slot.
    Count,
    /// A field of a struct.
    Member,
    /// The cache that a slab names, or the cache's pointer to a memory node.
    Named,
    /// One of the two numbers of a thread group's leader.
    Own,
    /// The `prev` of a list's node, or the `next` of the node before.
    Before,
    /// The `pprev` of a hash chain's node, or the link to it.
    Pointed,
    /// The parent of a tree's node, or the link to it.
    Parent,
    /// The link to a tree's top node, its colour, or that of another node.
    Top,
    /// A red node's colour, or that of another node.
    Colour,
    /// The colour of any node of a tree.
    Balance,
    /// An entry of an xarray.
    Entry,
    /// A free pointer, or what a cache's walk goes by.
    Free,
    /// The words that show the violation, or where the slab's free list begins.
    Listed,
    /// The words that show the violation, or what a cache's walk goes by.
    Laid,
    /// The words that show the violation, also as zero.
    Check,
    /// The number of a process id.
    Process,
    /// The words that show the violation.
    Shown,
}
