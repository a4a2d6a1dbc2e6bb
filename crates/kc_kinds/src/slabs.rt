// Where the fields of a slab cache stand.
ghost use Rattle.std.specs.Prelude.{◌≡◌, ◌≤◌, codes, length, option_and_then, IfSome};
ghost use Rattle.kc_layout.specs.Size.{size};
ghost use Rattle.kc_kinds.specs.Inside.{IsSlubInside};
ghost use Rattle.kc_kinds.specs.Kernels.{address_in, base_at, direct_in, is_single, are_single, node_ids_in, vmemmap_in};
ghost use Rattle.kc_kinds.specs.Rows.{IsRow};
ghost use Rattle.kc_kinds.specs.Members.{struct_named};
ghost use Rattle.kc_kinds.specs.Slabs.{IsCacheInside, IsNodeInside, IsSlabInside, cache_fields, node_fields, pointers_in, slab_fields, slub_of, slub_row, slub_words};
ghost use Rattle.kc_kinds.specs.Kernels.{kernel};

use crate::known::Known;
use crate::members::{inner_in, scalar_in, struct_named};
use crate::ring::list_words;
use crate::row::Row;
use kc_btf::Btf;
use kc_found::ListShape;
use kc_layout::{Field, locate, pointers_under, size_of};
use kc_syms::SymFault;
use kc_view::{Base, SlubShape};

// Whether a symbol has one address or none.
fn is_single(known: &Known<'_>, name: &[u8]) -> bool
    ensures { result ≡ is_single (address_in (kernel known.now) name.now) }
{
    !matches!(
        known.symbols.address(name, known.kaslr),
        Err(SymFault::S3(..))
    )
}

// Whether each of the symbols that the walk of a slab cache reads has one address or none.
fn are_single(known: &Known<'_>) -> bool
    ensures { result ≡ are_single (kernel known.now) }
{
    is_single(known, b"vmemmap_base")
        && is_single(known, b"page_offset_base")
        && is_single(known, b"nr_node_ids")
}

// What slab caches need.
pub(crate) fn slub_row(known: &Known<'_>) -> Row
    ensures exact { result ≡ slub_row (kernel known.now) }
    ensures there { IsRow (length known.now.btf.now.records) result }
{
    Row {
        head: struct_named(known, b"kmem_cache"),
        node: struct_named(known, b"list_head"),
        element: struct_named(known, b"slab"),
        named: true,
        clear: are_single(known),
    }
}

// A number that stands at a symbol, or is this one where there is no such symbol.
fn base_at(known: &Known<'_>, name: &[u8], usual: u64) -> Base
    ensures { result ≡ base_at (address_in (kernel known.now) name.now) usual }
{
    match known.symbols.address(name, known.kaslr) {
        Ok(address) => Base::At(address),
        Err(_) => Base::Is(usual),
    }
}

// Where the array of page descriptors begins.
fn vmemmap_in(known: &Known<'_>) -> Base
    ensures { result ≡ vmemmap_in (kernel known.now) }
{
    let usual = if known.five {
        0xffd4_0000_0000_0000
    } else {
        0xffff_ea00_0000_0000
    };
    base_at(known, b"vmemmap_base", usual)
}

// Where physical memory is mapped.
fn direct_in(known: &Known<'_>) -> Base
    ensures { result ≡ direct_in (kernel known.now) }
{
    let usual = if known.five {
        0xff11_0000_0000_0000
    } else {
        0xffff_8880_0000_0000
    };
    base_at(known, b"page_offset_base", usual)
}

// How many memory nodes the kernel has.
fn node_ids_in(known: &Known<'_>, nodes: u32) -> Base
    ensures { result ≡ node_ids_in (kernel known.now) nodes }
{
    base_at(known, b"nr_node_ids", u64::from(nodes))
}

// An array of pointers in a struct.
#[derive(Clone, Copy)]
pub(crate) struct Pointers {
    // Its offset.
    pub byte: u64,
    // How many they are.
    pub count: u32,
}

// An array of pointers in a struct.
fn pointers_in(btf: &Btf, id: Option<u32>, name: &[u8]) -> Option<Pointers>
    requires { IfSome id (λ id. id ≤ length btf.now.records) }
    ensures { result ≡ pointers_in btf.now id name.now }
{
    let id = id?;
    let Ok(place) = locate(btf, id, name) else {
        return None;
    };
    let count = pointers_under(btf, place.ty)?;
    Some(Pointers {
        byte: place.byte,
        count,
    })
}

// The fields of a cache. The kernel may lack `random` and `left_pad`.
#[derive(Clone, Copy)]
pub(crate) struct CacheFields {
    pub ty: u32,
    pub size: Field,
    pub offset: Field,
    pub random: Option<Field>,
    pub left_pad: Option<Field>,
    pub nodes: Pointers,
}

// The fields of a cache.
#[tactic(auto, unfolding(crate::specs::Slabs::cache_fields))]
fn cache_fields(btf: &Btf, cache: Option<u32>) -> Option<CacheFields>
    requires { IfSome cache (λ id. id ≤ length btf.now.records) }
    ensures exact { result ≡ cache_fields btf.now cache }
    ensures there { IfSome result (IsCacheInside (length btf.now.records)) }
{
    let ty = cache?;
    let size = scalar_in(btf, cache, b"size")?;
    let offset = scalar_in(btf, cache, b"offset")?;
    let nodes = pointers_in(btf, cache, b"node")?;
    let random = scalar_in(btf, cache, b"random");
    let left_pad = scalar_in(btf, cache, b"red_left_pad");
    Some(CacheFields {
        ty,
        size,
        offset,
        random,
        left_pad,
        nodes,
    })
}

// The fields of a memory node.
#[derive(Clone, Copy)]
pub(crate) struct NodeFields {
    pub ty: u32,
    pub nr_partial: Field,
    pub partial: u64,
}

// The fields of a memory node.
#[tactic(auto, unfolding(crate::specs::Slabs::node_fields))]
fn node_fields(btf: &Btf, list: Option<u32>, node: Option<u32>) -> Option<NodeFields>
    requires { IfSome node (λ id. id ≤ length btf.now.records) }
    ensures exact { result ≡ node_fields btf.now list node }
    ensures there { IfSome result (IsNodeInside (length btf.now.records)) }
{
    let ty = node?;
    let nr_partial = scalar_in(btf, node, b"nr_partial")?;
    let partial = inner_in(btf, list, node, b"partial")?;
    Some(NodeFields {
        ty,
        nr_partial,
        partial,
    })
}

// The fields of a slab.
#[derive(Clone, Copy)]
pub(crate) struct SlabFields {
    pub ty: u32,
    pub slab_cache: Field,
    pub slab_list: u64,
    pub freelist: Field,
    pub inuse: Field,
    pub objects: Field,
    pub frozen: Field,
}

// The fields of a slab.
#[tactic(auto, unfolding(crate::specs::Slabs::slab_fields))]
fn slab_fields(btf: &Btf, list: Option<u32>, slab: Option<u32>) -> Option<SlabFields>
    requires { IfSome slab (λ id. id ≤ length btf.now.records) }
    ensures exact { result ≡ slab_fields btf.now list slab }
    ensures there { IfSome result (IsSlabInside (length btf.now.records)) }
{
    let ty = slab?;
    let slab_cache = scalar_in(btf, slab, b"slab_cache")?;
    let slab_list = inner_in(btf, list, slab, b"slab_list")?;
    let freelist = scalar_in(btf, slab, b"freelist")?;
    let inuse = scalar_in(btf, slab, b"inuse")?;
    let objects = scalar_in(btf, slab, b"objects")?;
    let frozen = scalar_in(btf, slab, b"frozen")?;
    Some(SlabFields {
        ty,
        slab_cache,
        slab_list,
        freelist,
        inuse,
        objects,
        frozen,
    })
}

// The size of a page descriptor in bytes.
fn page_size(known: &Known<'_>) -> Option<u64>
    ensures { result ≡ option_and_then (size known.now.btf.now) (struct_named known.now.btf.now (codes "page")) }
{
    size_of(known.btf, struct_named(known, b"page")?)
}

// A cache of these fields, where page descriptors have a size and there are not too many memory nodes.
fn slub_of(
    known: &Known<'_>,
    list: ListShape,
    cache: CacheFields,
    node: NodeFields,
    slab: SlabFields,
    page_size: u64,
) -> Option<SlubShape>
    requires cache { IsCacheInside (length known.now.btf.now.records) cache }
    requires node { IsNodeInside (length known.now.btf.now.records) node }
    requires slab { IsSlabInside (length known.now.btf.now.records) slab }
    ensures exact { result ≡ slub_of (kernel known.now) list cache node slab page_size }
    ensures there { IfSome result (IsSlubInside (length known.now.btf.now.records)) }
{
    if page_size < 1 || cache.nodes.count > 65536 {
        return None;
    }
    Some(SlubShape {
        vmemmap: vmemmap_in(known),
        direct: direct_in(known),
        page_size,
        cache: cache.ty,
        size: cache.size,
        offset: cache.offset,
        random: cache.random,
        left_pad: cache.left_pad,
        node: cache.nodes.byte,
        nodes: cache.nodes.count,
        node_ids: node_ids_in(known, cache.nodes.count),
        knode: node.ty,
        nr_partial: node.nr_partial,
        partial: node.partial,
        list,
        slab: slab.ty,
        slab_cache: slab.slab_cache,
        slab_list: slab.slab_list,
        freelist: slab.freelist,
        inuse: slab.inuse,
        objects: slab.objects,
        frozen: slab.frozen,
    })
}

// Where the fields of a slab cache stand, where the kernel has them.
#[tactic(auto, unfolding(crate::specs::Slabs::slub_words))]
pub(crate) fn slub_words(known: &Known<'_>, needs: &Row) -> Option<SlubShape>
    requires { IsRow (length known.now.btf.now.records) needs.now }
    ensures exact { result ≡ slub_words (kernel known.now) needs.now }
    ensures there { IfSome result (IsSlubInside (length known.now.btf.now.records)) }
{
    let list = list_words(known.btf, needs.node)?;
    let cache = cache_fields(known.btf, needs.head)?;
    let knode = struct_named(known, b"kmem_cache_node");
    let node = node_fields(known.btf, needs.node, knode)?;
    let slab = slab_fields(known.btf, needs.node, needs.element)?;
    let page = page_size(known)?;
    slub_of(known, list, cache, node, slab, page)
}
