// Slab caches, and the free lists of slabs.
ghost use Rattle.std.specs.Prelude.{◌≡◌, IfOk};

use crate::types::{field, no_types};
use crate::walk::Walks;
use anyhow::{Context, Result, ensure};
use kc_cases::{Case, CaseFile, answer_text};
use kc_found::{Grid, ListShape, Origin, Place, Scalar};
use kc_slub::{cache_walk, free_walk};
use kc_view::{Base, SlubShape};
use kc_word::Steps;
use std::alloc::Global;
use std::sync::ledger::Ledger;

/// Slab caches. A case gives a kernel, and the words of its cache that are changed.
pub struct SlabCachesCase;

impl Walks for SlabCachesCase {
    fn answer<L: Ledger>(
        &self,
        alloc: Global,
        case: &Case<'_>,
        steps: &mut Steps<L>,
    ) -> Result<String> {
        let Case { file, given } = case;
        let btf = no_types(alloc)?;
        let cache = file.number("cache")?;
        let (kernel, changed) = given.split_once(' ').unwrap_or((given, ""));
        let shape = shape_of(file, kernel)?;
        let words = cache_words(alloc, file, &shape)?;
        let mut space = file.memory(alloc, changed, words.as_str())?;
        let walk = cache_walk(alloc, &mut space, &btf, &shape, cache, 7, steps);
        Ok(answer_text(alloc, walk, cache)?)
    }
}

// A number, or after `@` the address of the word that has it.
fn base_of(file: &CaseFile, text: Option<&str>) -> Result<Base> {
    let text = text.context("a kernel without a number")?;
    match text.strip_prefix("@") {
        Some(at) => Ok(Base::At(file.number(at)?)),
        None => Ok(Base::Is(file.number(text)?)),
    }
}

// The shape of a kernel's caches. It names no type.
fn shape_of(file: &CaseFile, kernel: &str) -> Result<SlubShape>
    ensures cache { IfOk result (λ shape. shape.cache ≡ 0) }
    ensures knode { IfOk result (λ shape. shape.knode ≡ 0) }
    ensures slab { IfOk result (λ shape. shape.slab ≡ 0) }
{
    let line = file.line("kernels", kernel)?;
    let mut words = line.split(' ');
    Ok(SlubShape {
        vmemmap: base_of(file, words.next())?,
        direct: base_of(file, words.next())?,
        nodes: u32::from(words.next().context("no nodes")?.parse::<u16>()?),
        node_ids: base_of(file, words.next())?,
        random: line.contains("random").then_some(field(128, 64, false)),
        left_pad: line.contains("left_pad").then_some(field(96, 32, false)),
        page_size: 64,
        cache: 0,
        size: field(0, 32, false),
        offset: field(64, 32, false),
        node: 40,
        knode: 0,
        nr_partial: field(64, 64, false),
        partial: 16,
        list: ListShape { next: 0, prev: 8 },
        slab: 0,
        slab_cache: field(64, 64, false),
        slab_list: 16,
        freelist: field(256, 64, false),
        inuse: field(320, 16, false),
        objects: field(336, 15, false),
        frozen: field(351, 1, false),
    })
}

// The words of a cache, with its free pointers as the kernel has them.
fn cache_words(alloc: Global, file: &CaseFile, shape: &SlubShape) -> Result<String> {
    let pointers = if shape.random.is_some() {
        "encoded"
    } else {
        "plain"
    };
    let words = file.section("words")?;
    let pointers = file.section(pointers)?;
    Ok(format!(in alloc; "{words}\n{pointers}")?)
}

/// Free lists. A case gives a slab, its first free pointer, and the words of memory.
pub struct FreeLists;

impl Walks for FreeLists {
    fn answer<L: Ledger>(
        &self,
        alloc: Global,
        case: &Case<'_>,
        steps: &mut Steps<L>,
    ) -> Result<String> {
        let Case { file, given } = case;
        let mut words = given.split(' ');
        let grid = grid_of(file, words.next().context("no slab")?)?;
        let first = first_number(file, words.next().context("no pointer")?)?;
        let mut space = file.memory(alloc, given, "")?;
        ensure!(
            grid.size >= 8 && grid.offset <= grid.size - 8,
            "no room for a pointer"
        );
        let walk = free_walk(alloc, &mut space, &grid, first, 7, 9, steps);
        Ok(answer_text(alloc, walk, 9)?)
    }
}

fn grid_of(file: &CaseFile, slab: &str) -> Result<Grid> {
    let mut words = file.line("slabs", slab)?.split(' ');
    Ok(Grid {
        base: file.number(words.next().context("no base")?)?,
        size: file.number(words.next().context("no size")?)?,
        objects: file.number(words.next().context("no objects")?)?,
        offset: file.number(words.next().context("no offset")?)?,
        random: match words.next() {
            Some(word) => Some(file.number(word)?),
            None => None,
        },
    })
}

// The number of a slab's word that has its first free pointer.
fn first_number(file: &CaseFile, pointer: &str) -> Result<Scalar> {
    let value = file.number(pointer)?;
    Ok(Scalar {
        value: i128::from(value),
        first: Place {
            va: Some(file.number("freelist")?),
            pa: 0x83e0,
            off: Origin::File(0xa3e0),
            value,
        },
        second: None,
    })
}
