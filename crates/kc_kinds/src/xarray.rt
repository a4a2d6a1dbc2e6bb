// Where the words of xarrays stand.
ghost use Rattle.std.specs.Prelude.{◌≡◌, ◌≤◌, length, IfSome};
ghost use Rattle.kc_kinds.specs.Xarray.{node_bytes, xarray_words};

use crate::members::{chunk_in, small_in, word_in};
use kc_btf::Btf;
use kc_found::XaShape;

// The offsets of the bytes of an xarray's node.
#[derive(Clone, Copy)]
pub(crate) struct NodeBytes {
    pub shift: u64,
    pub offset: u64,
    pub count: u64,
    pub nr_values: u64,
}

// The bytes of an xarray's node.
#[tactic(auto, unfolding(crate::specs::Xarray::node_bytes))]
fn node_bytes(btf: &Btf, node: Option<u32>) -> Option<NodeBytes>
    requires { IfSome node (λ id. id ≤ length btf.now.records) }
    ensures { result ≡ node_bytes btf.now node }
{
    let shift = small_in(btf, node, b"shift")?;
    let offset = small_in(btf, node, b"offset")?;
    let count = small_in(btf, node, b"count")?;
    let nr_values = small_in(btf, node, b"nr_values")?;
    Some(NodeBytes {
        shift,
        offset,
        count,
        nr_values,
    })
}

// The words of an xarray, or of the one of an IDR.
#[tactic(auto, unfolding(crate::specs::Xarray::xarray_words))]
pub(crate) fn xarray_words(
    btf: &Btf,
    head: Option<u32>,
    node: Option<u32>,
    idr: bool,
) -> Option<XaShape>
    requires head { IfSome head (λ id. id ≤ length btf.now.records) }
    requires node { IfSome node (λ id. id ≤ length btf.now.records) }
    ensures { result ≡ xarray_words btf.now head node idr }
{
    let head = word_in(btf, head, b"xa_head")?;
    let bytes = node_bytes(btf, node)?;
    let parent = word_in(btf, node, b"parent")?;
    let array = word_in(btf, node, b"array")?;
    let slots = word_in(btf, node, b"slots[0]")?;
    let chunk = chunk_in(btf, node, b"slots")?;
    Some(XaShape {
        head,
        shift: bytes.shift,
        offset: bytes.offset,
        count: bytes.count,
        nr_values: bytes.nr_values,
        parent,
        array,
        slots,
        chunk,
        idr,
    })
}
