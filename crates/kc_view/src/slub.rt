// Where the fields of a slab cache stand, and what is read of them. All offsets are in bytes, and addresses wrap at 2^64.
ghost use Rattle.std.specs.Prelude.{◌≤◌};

use kc_found::ListShape;
use kc_layout::Field;

/// A number that is known, or that stands in memory.
#[derive(Clone, Copy, Debug, PartialEq, Eq)]
pub enum Base {
    /// It stands at this virtual address.
    At(u64),
    /// It is this one.
    Is(u64),
}

/// A slab cache (`struct kmem_cache`, `struct kmem_cache_node`, `struct slab`), by its types' numbers and its fields.
#[derive(Clone, Copy, Debug, PartialEq, Eq)]
pub struct SlubShape {
    /// The virtual address of the array of page descriptors: the word `vmemmap_base`, or its default.
    pub vmemmap: Base,
    /// The virtual address of the direct map of physical memory: the word `page_offset_base`, or its default.
    pub direct: Base,
    /// The size of a page descriptor in bytes. It isn't 0.
    pub page_size: u64,
    /// The number of the type `kmem_cache`.
    pub cache: u32,
    /// The field `size` of the cache: the bytes from one object to the next.
    pub size: Field,
    /// The field `offset` of the cache: that of the free pointer from its object's address.
    pub offset: Field,
    /// The field `random` of the cache, where free pointers are encoded.
    pub random: Option<Field>,
    /// The field `red_left_pad` of the cache: the bytes before the first object, where the cache has it.
    pub left_pad: Option<Field>,
    /// The offset of the array `node` from the cache's address. Its pointers are 8 bytes long.
    pub node: u64,
    /// How many pointers `node` has, at most 65,536.
    pub nodes: u32,
    /// How many nodes the kernel has: an unsigned number of 32 bits at the address of `nr_node_ids`, or `nodes`.
    pub node_ids: Base,
    /// The number of the type `kmem_cache_node`.
    pub knode: u32,
    /// The field `nr_partial` of a node: how many slabs its list has.
    pub nr_partial: Field,
    /// The offset of the ring `partial` from a node's address.
    pub partial: u64,
    /// The nodes of rings.
    pub list: ListShape,
    /// The number of the type `slab`.
    pub slab: u32,
    /// The field `slab_cache` of a slab: the address of its cache.
    pub slab_cache: Field,
    /// The offset of the ring's node from its slab's address.
    pub slab_list: u64,
    /// The field `freelist` of a slab: the address of its first free object, or 0.
    pub freelist: Field,
    /// The field `inuse` of a slab: how many objects aren't free.
    pub inuse: Field,
    /// The field `objects` of a slab: how many objects it has.
    pub objects: Field,
    /// The field `frozen` of a slab: not 0 where a processor owns it.
    pub frozen: Field,
    pub ghost some: { 1 ≤ page_size },
    pub ghost few: { nodes ≤ 65536 },
}

/// Where page descriptors and physical memory stand, and how many memory nodes there are, as read for one cache.
#[derive(Clone, Copy, Debug, PartialEq, Eq)]
pub struct SlubBases {
    /// The virtual address of the first page descriptor.
    pub vmemmap: u64,
    /// The virtual address of the first byte of physical memory.
    pub direct: u64,
    /// How many pointers of the array `node` are looked at.
    pub nodes: u64,
}

/// How the objects of a cache lie in its slabs, in bytes.
#[derive(Clone, Copy, Debug, PartialEq, Eq)]
pub struct SlabObjects {
    /// From one object to the next.
    pub size: u64,
    /// From an object's address to its free pointer.
    pub offset: u64,
    /// What free pointers are encoded with, where they are.
    pub random: Option<u64>,
    /// Before the first object.
    pub left_pad: u64,
}
