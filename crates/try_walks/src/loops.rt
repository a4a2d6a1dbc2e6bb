// Walks over a memory that leads back to itself. A case gives a kind of walk, where it begins, and the words of physical memory that are
// changed, or of which each names itself; it has how the walk ends, and how many words of physical memory were read, page tables included.
use crate::frames::{Dump, hex};
use crate::walk::Walks;
use anyhow::{Context, Result, bail};
use kc_cases::Case;
use kc_found::{HShape, ListShape, RbShape, WalkStop, XaShape};
use kc_list::{hchain, ring};
use kc_mem::Memory;
use kc_memory::Space;
use kc_rb::rb_walk;
use kc_word::{PageCfg, Steps};
use kc_xa::xa_walk;
use std::alloc::{AllocError, Global};
use std::sync::ledger::Ledger;

/// Rings, hash chains, trees and xarrays, through the page tables of the made dump.
pub struct Loops;

const LIST: ListShape = ListShape { next: 0, prev: 8 };

const CHAIN: HShape = HShape {
    first: 0,
    next: 0,
    pprev: 8,
};

const ARRAY: XaShape = XaShape {
    head: 8,
    shift: 0,
    offset: 1,
    count: 2,
    nr_values: 3,
    parent: 8,
    array: 16,
    slots: 24,
    chunk: 16,
    idr: false,
};

fn tree() -> RbShape {
    RbShape {
        parent_color: 0,
        right: 8,
        left: 16,
        root: 0,
        leftmost: None,
        link: 40,
        key: None,
        unique: false,
    }
}

impl Walks for Loops {
    fn answer<L: Ledger>(
        &self,
        alloc: Global,
        case: &Case<'_>,
        steps: &mut Steps<L>,
    ) -> Result<String> {
        let (kind, rest) = case.given.split_once(' ').context("no head")?;
        let (head, changed) = rest.split_once(' ').context("no words")?;
        let frames = dump_of(alloc, changed)?;
        let paging = PageCfg {
            table: 0x1000,
            five: false,
            sme: 0,
        };
        let Ok(mut memory) = Memory::new(alloc, frames, paging, 64) else {
            bail!("out of memory");
        };
        let told = walked(alloc, kind, &mut memory, hex(head)?, steps)?;
        let reads = memory.into_frames().reads;
        Ok(format!(in alloc; "{told}, {reads} reads")?)
    }
}

// The made dump with its changes: `A=W` is a word at a physical address, and `A..B` are words that name themselves.
fn dump_of(alloc: Global, changed: &str) -> Result<Dump> {
    let mut dump = Dump::new(alloc)?;
    for change in changed.split(' ') {
        if let Some((address, word)) = change.split_once('=') {
            dump.put(hex(address)?, hex(word)?);
        }
        if let Some((from, to)) = change.split_once("..") {
            put_selves(&mut dump, hex(from)?, hex(to)?);
        }
    }
    Ok(dump)
}

// Has each word from one physical address to another name itself, by its address in the direct map.
fn put_selves(dump: &mut Dump, from: u64, to: u64) {
    for place in from / 8..to / 8 {
        let pa = place.saturating_mul(8);
        dump.put(pa, pa.saturating_add(0xffff_8880_0000_0000));
    }
}

fn walked<S: Space, L: Ledger>(
    alloc: Global,
    kind: &str,
    space: &mut S,
    head: u64,
    steps: &mut Steps<L>,
) -> Result<String> {
    let count = match kind {
        "ring" => ring(alloc, space, &LIST, head, 0, steps).map(|nodes| nodes.len()),
        "chain" => hchain(alloc, space, &CHAIN, head, 0, steps).map(|nodes| nodes.len()),
        "tree" => rb_walk(alloc, space, &tree(), head, 0, steps).map(|nodes| nodes.len()),
        "xarray" => xa_walk(alloc, space, &ARRAY, head, 0, steps).map(|items| items.len()),
        _ => bail!("an unknown walk"),
    };
    Ok(ended(alloc, count)?)
}

fn ended(alloc: Global, count: Result<usize, WalkStop>) -> Result<String, AllocError> {
    match count {
        Ok(count) => format!(in alloc; "{count} elements"),
        Err(WalkStop::Broken(found)) => format!(in alloc; "{:?} at {:x}", found.rule, found.at),
        Err(_) => String::from_str(alloc, "no answer"),
    }
}
