// The items: a ring, and a tree over their keys.
ghost use Rattle.std.specs.Prelude.{◌≡◌, ◌+◌, ◌^◌, ◌≤◌, ◌<◌, ◌++◌, flat_map, IfSome, None, OnOk};
ghost use Rattle.kc_gen.specs.Bytes.{word_bytes};
ghost use Rattle.kc_gen.specs.Items.{before, depth, item_bytes, items, knot_over, knot_pointer, middle, next, parent_word, prev, root, tree};
ghost use Rattle.kc_gen.specs.Places.{direct, image, item, item_at, tree_node};

use crate::bytes::push_words;
use kc_word::NoMemory;

// Where the head of the ring stands.
pub(crate) const RING_HEAD: u64 = 0xb120;

// The made items: how many there are, and of which one the `prev` word is 0.
#[derive(Clone, Copy)]
pub(crate) struct Made {
    pub n: u64,
    pub hurt: Option<u64>,
}

// An item's place in the tree: its key, and the keys of those that it points to.
#[derive(Clone, Copy)]
pub(crate) struct Knot {
    pub key: u64,
    pub parent: Option<u64>,
    pub left: Option<u64>,
    pub right: Option<u64>,
    pub red: bool,
}

// The address of a physical place in the kernel's image.
pub(crate) fn image(pa: u64) -> u64
    requires { pa < 0x80000000 }
    ensures { result ≡ image pa }
{
    0xffff_ffff_8000_0000 + pa
}

// The address of a physical place in the direct map.
pub(crate) fn direct(pa: u64) -> u64
    requires { pa < 0x80000000 }
    ensures { result ≡ direct pa }
{
    0xffff_8880_0000_0000 + pa
}

// Where an item stands.
pub(crate) fn item_at(k: u64) -> u64
    requires { k ≤ 100000 }
    ensures { result ≡ item_at k }
{
    0x10_0000 + 64 * k
}

// The address of an item.
pub(crate) fn item(k: u64) -> u64
    requires { k ≤ 100000 }
    ensures { result ≡ item k }
{
    direct(item_at(k))
}

fn next(n: u64, k: u64) -> u64
    requires { k < 100000 }
    ensures { result ≡ next n k }
{
    if k + 1 == n {
        image(RING_HEAD)
    } else {
        item(k + 1)
    }
}

fn before(k: u64) -> u64
    requires { k < 100000 }
    ensures { result ≡ before k }
{
    if k == 0 {
        image(RING_HEAD)
    } else {
        item(k - 1)
    }
}

fn prev(hurt: Option<u64>, k: u64) -> u64
    requires { k < 100000 }
    ensures { result ≡ prev hurt k }
{
    match hurt {
        Some(hurt) => { if hurt == k { 0 } else { before(k) } }
        None => before(k),
    }
}

fn middle(lo: u64, hi: u64) -> u64
    requires { lo + hi < 2 ^ 64 }
    ensures exact { result ≡ middle lo hi }
    ensures first { lo ≤ result }
    ensures last { lo < hi → result < hi }
{
    lo + hi.saturating_sub(lo) / 2
}

// The root over the keys from `lo` up to, not including, `hi`.
pub(crate) fn root(lo: u64, hi: u64) -> Option<u64>
    requires { lo + hi < 2 ^ 64 }
    ensures exact { result ≡ root lo hi }
    ensures below { IfSome result (λ k. k < hi) }
{
    if lo < hi { Some(middle(lo, hi)) } else { None }
}

// A pointer to a knot, or 0.
pub(crate) fn knot_pointer(key: Option<u64>) -> u64
    requires { IfSome key (λ k. k ≤ 100000) }
    ensures { result ≡ knot_pointer key }
{
    match key {
        Some(k) => item(k) + 40,
        None => 0,
    }
}

fn parent_word(knot: Knot) -> u64
    requires { IfSome knot.parent (λ k. k ≤ 100000) }
    ensures { result ≡ parent_word knot }
{
    let black = if knot.red { 0 } else { 1 };
    knot_pointer(knot.parent) + black
}

// The root over some keys, with so many levels below it.
fn knot_over(below: u32, lo: u64, hi: u64, parent: Option<u64>) -> Knot
    requires first { lo < hi }
    requires last { hi ≤ 100000 }
    ensures exact { result ≡ knot_over below lo hi parent }
    ensures key { result.key < 100000 }
    ensures left { IfSome result.left (λ k. k ≤ 100000) }
    ensures right { IfSome result.right (λ k. k ≤ 100000) }
{
    let key = middle(lo, hi);
    Knot {
        key,
        parent,
        left: root(lo, key),
        right: root(key + 1, hi),
        red: below == 0 && parent.is_some(),
    }
}

fn push_item(bytes: &mut Vec<u8>, made: Made, knot: Knot) -> Result<(), NoMemory>
    requires key { knot.key < 100000 }
    requires parent { IfSome knot.parent (λ k. k ≤ 100000) }
    requires left { IfSome knot.left (λ k. k ≤ 100000) }
    requires right { IfSome knot.right (λ k. k ≤ 100000) }
    ensures { OnOk result (bytes.new.items ≡ bytes.old.items ++ item_bytes made.n made.hurt knot) }
{
    let words = [
        next(made.n, knot.key),
        prev(made.hurt, knot.key),
        0,
        0,
        knot.key,
        parent_word(knot),
        knot_pointer(knot.right),
        knot_pointer(knot.left),
    ];
    push_words(bytes, &words)
}

// Adds the items from `lo` up to, not including, `hi`: the tree over them has so many levels, below a parent.
fn push_tree(
    bytes: &mut Vec<u8>,
    made: Made,
    levels: u32,
    lo: u64,
    hi: u64,
    parent: Option<u64>,
) -> Result<(), NoMemory>
    requires last { hi ≤ 100000 }
    requires first { lo ≤ hi }
    requires parent { IfSome parent (λ k. k ≤ 100000) }
    ensures { OnOk result
        (bytes.new.items ≡ bytes.old.items ++ flat_map (item_bytes made.n made.hurt) (tree levels lo hi parent)) }
{
    if levels == 0 || lo >= hi {
        return Ok(());
    }
    let below = levels - 1;
    let key = middle(lo, hi);
    push_tree(bytes, made, below, lo, key, Some(key))?;
    push_item(bytes, made, knot_over(below, lo, hi, parent))?;
    push_tree(bytes, made, below, key + 1, hi, Some(key))?;
    Ok(())
}

// The greatest depth in a tree of n keys.
fn depth(n: u64) -> u32
    ensures exact { result ≡ depth n }
    ensures small { result ≤ 16 }
{
    for d in 0..16 {
        if n < 2 << d {
            return d;
        }
    }
    16
}

// Adds all items.
pub(crate) fn push_items(bytes: &mut Vec<u8>, made: Made) -> Result<(), NoMemory>
    requires { made.n ≤ 100000 }
    ensures { OnOk result (bytes.new.items ≡ bytes.old.items ++ items made.n made.hurt) }
{
    push_tree(bytes, made, depth(made.n) + 1, 0, made.n, None)
}
