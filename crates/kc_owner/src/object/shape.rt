// Where the words stand that tell which object has an address.
use kc_layout::Field;
use kc_view::SlubShape;

/// Where the words stand that tell which object has an address: those of slab caches, and these. All offsets are in bytes.
#[derive(Clone, Copy, Debug, PartialEq, Eq)]
pub struct ObjectShape {
    /// Slab caches and their slabs.
    pub slub: SlubShape,
    /// The field `compound_head` of a page descriptor: odd in a tail page, and then one more than the head page's descriptor.
    pub compound_head: Field,
    /// The virtual address of the head of the ring of all caches, `slab_caches`.
    pub caches: u64,
    /// The offset of that ring's node from its cache's address.
    pub cache_list: u64,
    /// The field `name` of a cache: the address of its name's first byte.
    pub name: Option<Field>,
    /// The field `refcount` of a cache: how many users it has, where caches are merged.
    pub refcount: Option<Field>,
    /// How many pages of 4096 bytes there may be, by the bits of physical addresses.
    pub pages: u64,
}
