// The xarray, in which index k leads to item k.
ghost use Rattle.std.specs.Prelude.{◌≡◌, ◌+◌, ◌*◌, ◌^◌, ◌<◌, ◌≤◌, ◌++◌, OnOk};
ghost use Rattle.kc_gen.specs.Array.{array_entry, child, count, entry, full, node_bytes, node_entry, nodes, nodes_from, slot_base, slots_bytes, top};
ghost use Rattle.kc_gen.specs.Places.{array_node, nodes_at, page_up};

use crate::bytes::{push_word, push_words};
use crate::items::{direct, image, item, item_at};
use kc_word::NoMemory;

// Where the head of the xarray stands.
pub(crate) const ARRAY_HEAD: u64 = 0xb110;

// A node: its first index, its number in preorder, its slot in the node above it, and that node's address, or 0.
#[derive(Clone, Copy)]
pub(crate) struct Node {
    pub base: u64,
    pub number: u64,
    pub slot: u64,
    pub parent: u64,
}

// A place rounded up to a page of 4096 bytes.
pub(crate) fn page_up(at: u64) -> u64
    requires { at < 2 ^ 63 }
    ensures { result ≡ page_up at }
{
    (at + 4095) / 4096 * 4096
}

// Where the nodes begin.
pub(crate) fn nodes_at(n: u64) -> u64
    requires { n ≤ 100000 }
    ensures exact { result ≡ nodes_at n }
    ensures small { result < 0x800000 }
{
    page_up(item_at(n))
}

// The address of a node.
fn array_node(n: u64, number: u64) -> u64
    requires n { n ≤ 100000 }
    requires number { number ≤ 70000 }
    ensures { result ≡ array_node n number }
{
    direct(nodes_at(n) + 160 * number)
}

// A node as an entry.
fn node_entry(n: u64, number: u64) -> u64
    requires n { n ≤ 100000 }
    requires number { number ≤ 70000 }
    ensures { result ≡ node_entry n number }
{
    array_node(n, number) + 2
}

// How many indexes a slot has.
fn span(level: u32) -> u64
    requires { level < 5 }
    ensures exact { result ≡ 16 ^ level }
    ensures some { 0 < result }
    ensures small { result ≤ 65536 }
{
    match level {
        0 => 1,
        1 => 16,
        2 => 256,
        3 => 4096,
        _ => 65536,
    }
}

// How many nodes there are from a node down, where all its slots are full.
fn full(level: u32) -> u64
    requires { level < 5 }
    ensures exact { result ≡ full level }
    ensures small { result ≤ 70000 }
{
    match level {
        0 => 1,
        1 => 17,
        2 => 273,
        3 => 4369,
        _ => 69905,
    }
}

// How many slots have indexes below n.
fn count(n: u64, level: u32, node: Node) -> u64
    requires n { n ≤ 100000 }
    requires level { level < 5 }
    ensures exact { result ≡ count n level node }
    ensures small { result ≤ 16 }
{
    let span = span(level);
    ((n.saturating_sub(node.base) + (span - 1)) / span).min(16)
}

// The first index in a slot.
fn slot_base(level: u32, node: Node, i: u64) -> u64
    requires level { level < 5 }
    requires i { i < 16 }
    requires base { node.base < 2 ^ 32 }
    ensures { result ≡ slot_base level node i }
{
    node.base + span(level) * i
}

// The node in a slot of a node of the level above it.
fn child(n: u64, level: u32, node: Node, i: u64) -> Node
    requires n { n ≤ 100000 }
    requires level { level < 4 }
    requires i { i < 16 }
    requires base { node.base < 2 ^ 32 }
    requires number { node.number + full (level + 1) ≤ 70000 }
    ensures exact { result ≡ child n level node i }
    ensures number { result.number + full level ≤ 70000 }
{
    Node {
        base: slot_base(level + 1, node, i),
        number: node.number + 1 + full(level) * i,
        slot: i,
        parent: array_node(n, node.number),
    }
}

// What a slot holds.
fn entry(n: u64, level: u32, node: Node, i: u64) -> u64
    requires n { n ≤ 100000 }
    requires level { level < 5 }
    requires i { i < 16 }
    requires base { node.base < 2 ^ 32 }
    requires number { node.number + full level ≤ 70000 }
    ensures { result ≡ entry n level node i }
{
    let base = slot_base(level, node, i);
    if base >= n {
        return 0;
    }
    match level.checked_sub(1) {
        Some(below) => node_entry(n, child(n, below, node, i).number),
        None => item(base),
    }
}

// Adds what the slots hold.
fn push_slots(bytes: &mut Vec<u8>, n: u64, level: u32, node: Node) -> Result<(), NoMemory>
    requires n { n ≤ 100000 }
    requires level { level < 5 }
    requires base { node.base < 2 ^ 32 }
    requires number { node.number + full level ≤ 70000 }
    ensures { OnOk result (bytes.new.items ≡ bytes.old.items ++ slots_bytes n level node) }
{
    for i in 0..16 {
        push_word(bytes, entry(n, level, node, i))?;
    }
    Ok(())
}

// Adds a node.
fn push_node(bytes: &mut Vec<u8>, n: u64, level: u32, node: Node) -> Result<(), NoMemory>
    requires n { n ≤ 100000 }
    requires level { level < 5 }
    requires slot { node.slot < 16 }
    requires base { node.base < 2 ^ 32 }
    requires number { node.number + full level ≤ 70000 }
    ensures { OnOk result (bytes.new.items ≡ bytes.old.items ++ node_bytes n level node) }
{
    let head = 4 * u64::from(level) + 256 * node.slot + 65536 * count(n, level, node);
    push_words(bytes, &[head, node.parent, image(ARRAY_HEAD)])?;
    push_slots(bytes, n, level, node)?;
    push_word(bytes, 0)?;
    Ok(())
}

// Adds a node and all below it, in preorder.
fn push_nodes(bytes: &mut Vec<u8>, n: u64, level: u32, node: Node) -> Result<(), NoMemory>
    requires n { n ≤ 100000 }
    requires level { level < 5 }
    requires slot { node.slot < 16 }
    requires base { node.base + 16 * 16 ^ level ≤ 2 ^ 24 }
    requires number { node.number + full level ≤ 70000 }
    ensures { OnOk result (bytes.new.items ≡ bytes.old.items ++ nodes_from n level node) }
{
    push_node(bytes, n, level, node)?;
    if level == 0 {
        return Ok(());
    }
    let below = level - 1;
    for i in 0..count(n, level, node) {
        push_nodes(bytes, n, below, child(n, below, node, i))?;
    }
    Ok(())
}

// The level of the root.
fn top(n: u64) -> u32
    ensures exact { result ≡ top n }
    ensures small { result < 5 }
{
    for level in 0..4 {
        if n <= 16 * span(level) {
            return level;
        }
    }
    4
}

// Adds all nodes.
pub(crate) fn push_array(bytes: &mut Vec<u8>, n: u64) -> Result<(), NoMemory>
    requires { n ≤ 100000 }
    ensures { OnOk result (bytes.new.items ≡ bytes.old.items ++ nodes n) }
{
    if n == 1 {
        return Ok(());
    }
    let root = Node {
        base: 0,
        number: 0,
        slot: 0,
        parent: 0,
    };
    push_nodes(bytes, n, top(n), root)
}

// What the head holds.
pub(crate) fn array_entry(n: u64) -> u64
    requires { n ≤ 100000 }
    ensures { result ≡ array_entry n }
{
    if n == 1 { item(0) } else { node_entry(n, 0) }
}
