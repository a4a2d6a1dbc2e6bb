// The made physical memory, from address 0 on.
ghost use Rattle.std.specs.Prelude.{◌≡◌, ◌≤◌, ◌<◌, ◌++◌, IfOk, OnOk};
ghost use Rattle.kc_gen.specs.Bytes.{laid};
ghost use Rattle.kc_gen.specs.Memory.{entries_bytes, heads, memory, tables, to_page, with_entries, with_items, with_nodes, word_at};

use crate::array::{ARRAY_HEAD, array_entry, nodes_at, page_up, push_array};
use crate::bytes::{Field, lay, pad, push_word};
use crate::items::{Made, RING_HEAD, item, item_at, knot_pointer, push_items, root};
use kc_word::NoMemory;
use std::alloc::Global;

// Entries of a page table: where they begin, how many there are, the first, and what each is more than the one before.
#[derive(Clone, Copy)]
pub(crate) struct Entries {
    pub at: u32,
    pub count: u32,
    pub first: u32,
    pub step: u32,
}

// Where the head of the tree stands.
const TREE_HEAD: u64 = 0xb130;

const TABLES: [Entries; 11] = [
    Entries {
        at: 0x1888,
        count: 1,
        first: 0x9003,
        step: 0,
    },
    Entries {
        at: 0x1ea0,
        count: 1,
        first: 0x5003,
        step: 0,
    },
    Entries {
        at: 0x1ff8,
        count: 1,
        first: 0x2003,
        step: 0,
    },
    Entries {
        at: 0x2ff0,
        count: 1,
        first: 0x3003,
        step: 0,
    },
    Entries {
        at: 0x3000,
        count: 1,
        first: 0x4003,
        step: 0,
    },
    Entries {
        at: 0x4000,
        count: 32,
        first: 3,
        step: 0x1000,
    },
    Entries {
        at: 0x5000,
        count: 1,
        first: 0x6003,
        step: 0,
    },
    Entries {
        at: 0x6000,
        count: 1,
        first: 0x7003,
        step: 0,
    },
    Entries {
        at: 0x7000,
        count: 1,
        first: 0x8003,
        step: 0,
    },
    Entries {
        at: 0x9000,
        count: 1,
        first: 0xa003,
        step: 0,
    },
    Entries {
        at: 0xa000,
        count: 512,
        first: 0x83,
        step: 0x20_0000,
    },
];

fn push_entries(bytes: &mut Vec<u8>, entries: Entries) -> Result<(), NoMemory>
    ensures { OnOk result (bytes.new.items ≡ bytes.old.items ++ entries_bytes entries) }
{
    for i in 0..entries.count {
        push_word(
            bytes,
            u64::from(entries.first) + u64::from(entries.step) * u64::from(i),
        )?;
    }
    Ok(())
}

// Adds entries at their places, with zeros between.
fn lay_entries(bytes: &mut Vec<u8>, tables: &[Entries]) -> Result<(), NoMemory>
    ensures { OnOk result (bytes.new.items ≡ with_entries tables.now bytes.old.items) }
{
    for entries in tables {
        pad(bytes, entries.at as usize)?;
        push_entries(bytes, *entries)?;
    }
    Ok(())
}

fn word_at(at: u64, value: u64) -> Field
    ensures { result ≡ word_at at value }
{
    Field {
        at: at as usize,
        width: 8,
        value,
    }
}

// Adds the heads of the structures.
fn lay_heads(bytes: &mut Vec<u8>, n: u64) -> Result<(), NoMemory>
    requires { n ≤ 100000 }
    ensures { OnOk result (bytes.new.items ≡ laid (heads n) bytes.old.items) }
{
    let fields = [
        word_at(ARRAY_HEAD + 8, array_entry(n)),
        word_at(RING_HEAD, item(0)),
        word_at(RING_HEAD + 8, item(n.saturating_sub(1))),
        word_at(TREE_HEAD, knot_pointer(root(0, n))),
    ];
    lay(bytes, &fields)
}

// Adds the page tables.
#[tactic(auto, unfolding(crate::specs::Memory::tables))]
fn lay_tables(bytes: &mut Vec<u8>) -> Result<(), NoMemory>
    ensures { OnOk result (bytes.new.items ≡ with_entries tables bytes.old.items) }
{
    lay_entries(bytes, &TABLES)
}

fn lay_items(bytes: &mut Vec<u8>, made: Made) -> Result<(), NoMemory>
    requires { made.n ≤ 100000 }
    ensures { OnOk result (bytes.new.items ≡ with_items made.n made.hurt bytes.old.items) }
{
    pad(bytes, item_at(0) as usize)?;
    push_items(bytes, made)?;
    Ok(())
}

fn lay_nodes(bytes: &mut Vec<u8>, n: u64) -> Result<(), NoMemory>
    requires { n ≤ 100000 }
    ensures { OnOk result (bytes.new.items ≡ with_nodes n bytes.old.items) }
{
    pad(bytes, nodes_at(n) as usize)?;
    push_array(bytes, n)?;
    Ok(())
}

fn pad_page(bytes: &mut Vec<u8>) -> Result<(), NoMemory>
    ensures { OnOk result (bytes.new.items ≡ to_page bytes.old.items) }
{
    let length = bytes.len() as u64;
    pad(bytes, page_up(length) as usize)
}

// Physical memory with its page tables, the heads, the items and the nodes.
pub(crate) fn memory(alloc: Global, made: Made) -> Result<Vec<u8>, NoMemory>
    requires { made.n ≤ 100000 }
    ensures { IfOk result (λ bytes. bytes.items ≡ memory made.n made.hurt) }
{
    let mut bytes = Vec::new(alloc);
    lay_tables(&mut bytes)?;
    lay_heads(&mut bytes, made.n)?;
    lay_items(&mut bytes, made)?;
    lay_nodes(&mut bytes, made.n)?;
    pad_page(&mut bytes)?;
    Ok(bytes)
}
