// The pages that are in the file, which of an incomplete dump are the first ones.
ghost use Rattle.std.specs.Prelude.{◌≡◌, ℕ, ◌+◌, ◌*◌, ◌≤◌, ◌<◌, ◌^◌, length, min, vec_len, IfSome, IfOk, IfErr, Some, true, false};
ghost use Rattle.std.specs.Bool.{OnTrue};
ghost use Rattle.kc_outside.specs.declared.store.Slot.TheVariants.{Dump};
ghost use Rattle.kc_outside.specs.Files.{content};
ghost use Rattle.kc_kdump.specs.declared.fault.KdumpStop.TheVariants.{NoMemory};
ghost use Rattle.kc_kdump.specs.Answers.{IsFaultless};
ghost use Rattle.kc_kdump.specs.Bytes.{part};
ghost use Rattle.kc_kdump.specs.Dump.{descriptor_of, is_inside, is_there, is_whole, there_from, there_of};
ghost use Rattle.kc_kdump.specs.Header.{table_in};
ghost use Rattle.kc_kdump.specs.Runs.{cut_run, cut_runs, page_count, reach};
ghost use Rattle.kc_kdump.specs.Stays.{CountsFaults, StoreStays};

use crate::descriptor::{DESCRIPTOR_BYTES, Descriptor};
use crate::fault::KdumpStop;
use crate::layout::Layout;
use crate::run::PageRun;
use kc_outside::{Slot, Store, know_size};
use std::alloc::Global;

// How many pages are in the file, and whether those are all.
#[derive(Clone, Copy)]
pub(crate) struct There {
    pub(crate) pages: u64,
    pub(crate) is_whole: bool,
}

// Whether the page of a descriptor is inside a file of this size.
fn is_inside(size: u64, descriptor: Descriptor) -> bool
    ensures { result ≡ is_inside size descriptor }
{
    descriptor.offset != 0
        && descriptor.offset <= size
        && u64::from(descriptor.size) <= size - descriptor.offset
}

// Whether the descriptor with a number and its page are in the file.
#[tactic(auto, unfolding(crate::specs::Dump::is_there))]
fn is_there<S: Store>(
    store: &mut S,
    layout: &Layout,
    size: u64,
    index: u64,
) -> Result<bool, KdumpStop>
    requires learnt { S.sizes store.old Dump ≡ Some size }
    requires inside { table_in layout.now ≤ size }
    requires few { index < 2 ^ 47 }
    ensures told { IfOk result (λ is. IfSome (content (S.files store.old) Dump (S.opened store.old Dump)) (λ bytes. is ≡ is_there size layout.now bytes index)) }
    ensures inside { IfOk result (λ is. OnTrue is (table_in layout.now + 24 * (index + 1) ≤ size)) }
    ensures faultless { IsFaultless result }
    ensures stays { StoreStays S.opened S.sizes S.files S.may S.asked store.old store.new }
    ensures counts { CountsFaults result (S.faults store.old) (S.faults store.new) }
{
    know_size(store, Slot::Dump, size);
    let table = layout.table();
    if DESCRIPTOR_BYTES as u64 * (index + 1) > size - table {
        return Ok(false);
    }
    let mut bytes = [0; DESCRIPTOR_BYTES];
    store.read_at(
        Slot::Dump,
        table + DESCRIPTOR_BYTES as u64 * index,
        &mut bytes,
    )?;
    Ok(is_inside(size, Descriptor::read(&bytes)))
}

// How many descriptors are read at once, and how many bytes they have.
const TABLE_STEP: u64 = 170;

const TABLE_BYTES: usize = 4080;

// How many of the descriptors that bytes spell come before the first whose page isn't inside a file of this size.
fn count_inside(size: u64, bytes: &[u8]) -> u64
    ensures within { 24 * result ≤ length bytes.now }
    ensures each { (k : ℕ) → k < result → is_inside size (descriptor_of (part (24 * k) 24 bytes.now)) ≡ true }
    ensures next { 24 * (result + 1) ≤ length bytes.now → is_inside size (descriptor_of (part (24 * result) 24 bytes.now)) ≡ false }
{
    let mut count = 0;
    let mut at = 0;
    while bytes.len() - at >= DESCRIPTOR_BYTES {
        if !is_inside(size, Descriptor::read(&bytes[at..at + DESCRIPTOR_BYTES])) {
            return count;
        }
        count += 1;
        at += DESCRIPTOR_BYTES;
    }
    count
}

// The number of the first page, of so many from one on, that isn't in the file, or that after the last. Their descriptors are in the file.
fn first_missing<S: Store>(
    store: &mut S,
    layout: &Layout,
    size: u64,
    index: u64,
    many: u64,
    room: &mut [u8],
) -> Result<u64, KdumpStop>
    requires learnt { S.sizes store.old Dump ≡ Some size }
    requires inside { table_in layout.now + 24 * (index + many) ≤ size }
    requires few { index + many ≤ 2 ^ 47 }
    requires room { length room.old ≡ 24 * many }
    ensures told { IfOk result (λ n. IfSome (content (S.files store.old) Dump (S.opened store.old Dump)) (λ bytes. n ≡ there_from size layout.now bytes index many)) }
    ensures few { IfOk result (λ n. n ≤ index + many) }
    ensures faultless { IsFaultless result }
    ensures stays { StoreStays S.opened S.sizes S.files S.may S.asked store.old store.new }
    ensures counts { CountsFaults result (S.faults store.old) (S.faults store.new) }
{
    know_size(store, Slot::Dump, size);
    store.read_at(
        Slot::Dump,
        layout.table() + DESCRIPTOR_BYTES as u64 * index,
        room,
    )?;
    Ok(index + count_inside(size, room))
}

// How many of so many pages, whose descriptors are in the file, come before the first that isn't there.
fn count_first<S: Store>(
    store: &mut S,
    layout: &Layout,
    size: u64,
    most: u64,
) -> Result<u64, KdumpStop>
    requires learnt { S.sizes store.old Dump ≡ Some size }
    requires inside { table_in layout.now + 24 * most ≤ size }
    requires few { most ≤ 2 ^ 47 }
    ensures told { IfOk result (λ n. IfSome (content (S.files store.old) Dump (S.opened store.old Dump)) (λ bytes. n ≡ there_from size layout.now bytes 0 most)) }
    ensures few { IfOk result (λ n. n ≤ most) }
    ensures faultless { IsFaultless result }
    ensures stays { StoreStays S.opened S.sizes S.files S.may S.asked store.old store.new }
    ensures counts { CountsFaults result (S.faults store.old) (S.faults store.new) }
{
    let mut room = [0; TABLE_BYTES];
    let mut index = 0;
    while index < most {
        let many = (most - index).min(TABLE_STEP);
        let bytes = DESCRIPTOR_BYTES * many as usize;
        let end = first_missing(store, layout, size, index, many, &mut room[..bytes])?;
        if end < index + many {
            return Ok(end);
        }
        index = end;
    }
    Ok(index)
}

// How many of so many pages come before the first that isn't in the file.
fn count_there<S: Store>(
    store: &mut S,
    layout: &Layout,
    size: u64,
    pages: u64,
) -> Result<u64, KdumpStop>
    requires learnt { S.sizes store.old Dump ≡ Some size }
    requires inside { table_in layout.now ≤ size }
    requires few { pages ≤ 2 ^ 47 }
    ensures told { IfOk result (λ n. IfSome (content (S.files store.old) Dump (S.opened store.old Dump)) (λ bytes. n ≡ there_from size layout.now bytes 0 pages)) }
    ensures inside { IfOk result (λ n. table_in layout.now + 24 * n ≤ size) }
    ensures few { IfOk result (λ n. n ≤ pages) }
    ensures faultless { IsFaultless result }
    ensures stays { StoreStays S.opened S.sizes S.files S.may S.asked store.old store.new }
    ensures counts { CountsFaults result (S.faults store.old) (S.faults store.new) }
{
    know_size(store, Slot::Dump, size);
    let fits = (size - layout.table()) / DESCRIPTOR_BYTES as u64;
    count_first(store, layout, size, pages.min(fits))
}

// Whether so many pages are all in the file.
#[tactic(auto, unfolding(crate::specs::Dump::is_whole))]
fn is_whole<S: Store>(
    store: &mut S,
    layout: &Layout,
    size: u64,
    pages: u64,
) -> Result<bool, KdumpStop>
    requires learnt { S.sizes store.old Dump ≡ Some size }
    requires inside { table_in layout.now ≤ size }
    requires few { pages ≤ 2 ^ 47 }
    ensures told { IfOk result (λ is. IfSome (content (S.files store.old) Dump (S.opened store.old Dump)) (λ bytes. is ≡ is_whole size layout.now bytes pages)) }
    ensures inside { IfOk result (λ is. OnTrue is (table_in layout.now + 24 * pages ≤ size)) }
    ensures faultless { IsFaultless result }
    ensures stays { StoreStays S.opened S.sizes S.files S.may S.asked store.old store.new }
    ensures counts { CountsFaults result (S.faults store.old) (S.faults store.new) }
{
    if layout.is_cut {
        return Ok(false);
    }
    if pages == 0 {
        return Ok(true);
    }
    is_there(store, layout, size, pages - 1)
}

// How many of so many pages are in the file.
pub(crate) fn pages_there<S: Store>(
    store: &mut S,
    layout: &Layout,
    size: u64,
    pages: u64,
) -> Result<There, KdumpStop>
    requires learnt { S.sizes store.old Dump ≡ Some size }
    requires inside { table_in layout.now ≤ size }
    requires few { pages ≤ 2 ^ 47 }
    ensures told { IfOk result (λ there. IfSome (content (S.files store.old) Dump (S.opened store.old Dump)) (λ bytes. there.pages ≡ there_of size layout.now bytes pages)) }
    ensures whole { IfOk result (λ there. IfSome (content (S.files store.old) Dump (S.opened store.old Dump)) (λ bytes. there.is_whole ≡ is_whole size layout.now bytes pages)) }
    ensures inside { IfOk result (λ there. table_in layout.now + 24 * there.pages ≤ size) }
    ensures few { IfOk result (λ there. there.pages ≤ pages) }
    ensures faultless { IsFaultless result }
    ensures stays { StoreStays S.opened S.sizes S.files S.may S.asked store.old store.new }
    ensures counts { CountsFaults result (S.faults store.old) (S.faults store.new) }
{
    if is_whole(store, layout, size, pages)? {
        return Ok(There {
            pages,
            is_whole: true,
        });
    }
    let there = count_there(store, layout, size, pages)?;
    Ok(There {
        pages: there,
        is_whole: false,
    })
}

// A run, where only so many of its pages are in the file.
fn cut_run(pages: u64, run: PageRun) -> PageRun
    requires { run.left + run.dumped < 2 ^ 64 }
    ensures { result ≡ cut_run pages run }
{
    PageRun {
        first: run.first,
        dumped: run.dumped.min(pages),
        left: run.left + run.dumped.saturating_sub(pages),
    }
}

// The runs one after another, where only so many pages are in the file.
#[tactic(auto, using(crate::proofs::CutLemmas::cut_more, crate::proofs::CutLemmas::cut_end))]
fn cut_each(alloc: Global, runs: &[PageRun], there: u64) -> Result<Vec<PageRun>, KdumpStop>
    requires { reach runs.now ≤ 2 ^ 47 }
    ensures value { IfOk result (λ cut. cut.items ≡ cut_runs there runs.now) }
    ensures many { IfOk result (λ cut. vec_len cut ≡ length runs.now) }
    ensures memory { IfErr result (λ stop. stop ≡ NoMemory) }
{
    let mut cut = Vec::new(alloc);
    let mut left = there;
    for run in runs {
        cut.push(cut_run(left, *run))?;
        left = left.saturating_sub(run.dumped);
    }
    Ok(cut)
}

// Runs of pages, where only so many of them are in the file.
#[tactic(auto, using(crate::proofs::CutLemmas::cut_all, crate::proofs::CutLemmas::count_of, crate::proofs::CutLemmas::reach_of))]
pub(crate) fn cut_runs(
    alloc: Global,
    runs: Vec<PageRun>,
    pages: u64,
    there: u64,
) -> Result<Vec<PageRun>, KdumpStop>
    requires reached { reach runs.items ≤ 2 ^ 47 }
    requires counted { pages ≡ page_count runs.items }
    requires few { there ≤ pages }
    ensures value { IfOk result (λ cut. cut.items ≡ cut_runs there runs.items) }
    ensures counted { IfOk result (λ cut. there ≡ page_count cut.items) }
    ensures reached { IfOk result (λ cut. reach cut.items ≤ 2 ^ 47) }
    ensures many { IfOk result (λ cut. vec_len cut ≡ vec_len runs) }
    ensures memory { IfErr result (λ stop. stop ≡ NoMemory) }
{
    if there >= pages {
        return Ok(runs);
    }
    cut_each(alloc, &runs, there)
}
