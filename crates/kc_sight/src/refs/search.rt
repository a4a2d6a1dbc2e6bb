// The search for words that hold what is looked for.
ghost use Rattle.std.specs.Prelude.{◌≡◌, ◌+◌, ◌*◌, ◌≤◌, ◌<◌, ◌++◌, length, drop, take, vec_len, IsSome, IsTrue, IfOk, OnOk};
ghost use Rattle.std.specs.List.{All};
ghost use Rattle.std.specs.Option.{ForSome};
ghost use Rattle.kc_outside.specs.declared.store.Slot.TheVariants.{Dump};
ghost use Rattle.kc_outside.specs.Counts.{Rose};
ghost use Rattle.kc_outside.specs.Files.{HasPart, content};
ghost use Rattle.kc_elf.specs.Stays.{StoreStays};
ghost use Rattle.kc_sight.specs.Refs.Holding.{IsAddressed, IsInside, in_block, in_segment, in_segments, place, skipped, word_count};
ghost use Rattle.kc_sight.specs.Refs.Stops.{Told};
ghost use Rattle.kc_sight.specs.Refs.Writings.{is_near};
ghost use Rattle.kc_found.specs.Failures.{CountsFailures};

use crate::refs::place::{FoundWord, WordPlace};
use crate::refs::sought::{GROUP, Sought};
use byteorder::{ByteOrder, LittleEndian};
use kc_found::ReadFailed;
use kc_outside::{Slot, Store};
use kc_word::{NoMemory, Segment};
use std::alloc::{AllocError, Global};

const WORD_BYTES: u64 = 8;

// How many words are read at once, at most.
const BLOCK_WORDS: u64 = 8192;

const BLOCK_BYTES: usize = 65_536;

// How many bytes of a segment come before its first word.
fn skipped(segment: &Segment) -> u64
    ensures { result ≡ skipped segment.now }
{
    (WORD_BYTES - segment.paddr % WORD_BYTES) % WORD_BYTES
}

// How many words stand whole in the file bytes of a segment.
fn word_count(segment: &Segment) -> u64
    ensures { result ≡ word_count segment.now }
{
    segment.filesz.saturating_sub(skipped(segment)) / WORD_BYTES
}

// Word k of a segment.
fn place(segment: &Segment, k: u64) -> WordPlace
    requires addressed { IsAddressed segment.now }
    requires inside { segment.now.offset + segment.now.filesz < 18446744073709551616 }
    requires below { k < word_count segment.now }
    ensures { result ≡ place segment.now k }
{
    let from = skipped(segment) + WORD_BYTES * k;
    WordPlace {
        pa: segment.paddr + from,
        off: segment.offset + from,
    }
}

// Adds those of some words that hold what is looked for, one by one.
fn add_words(
    block: &[u8],
    segment: &Segment,
    first: u64,
    count: u64,
    sought: &Sought,
    found: &mut Vec<FoundWord>,
) -> Result<(), NoMemory>
    requires addressed { IsAddressed segment.now }
    requires inside { segment.now.offset + segment.now.filesz < 18446744073709551616 }
    requires below { first + count ≤ word_count segment.now }
    requires room { 8 * count ≤ length block.now }
    ensures { OnOk result (found.new.items ≡ found.old.items ++ in_block sought.now block.now segment.now first count) }
{
    for k in 0..count {
        let at = (WORD_BYTES * k) as usize;
        let value = LittleEndian::read_u64(&block[at..]);
        let place = place(segment, first + k);
        if let Some(writing) = sought.writing(value, place.pa) {
            found.push(FoundWord {
                place,
                value,
                writing,
            })?;
        }
    }
    Ok(())
}

// Adds those of at most eight words near the direct map's beginning. Nearly always none of the eight can hold what is looked for.
fn add_group(
    words: &[u8],
    segment: &Segment,
    first: u64,
    count: u64,
    sought: &Sought,
    found: &mut Vec<FoundWord>,
) -> Result<(), NoMemory>
    requires addressed { IsAddressed segment.now }
    requires inside { segment.now.offset + segment.now.filesz < 18446744073709551616 }
    requires near { IsTrue (is_near sought.now.direct (segment.now.paddr + segment.now.filesz)) }
    requires below { first + count ≤ word_count segment.now }
    requires room { 8 * count ≤ length words.now }
    ensures { OnOk result (found.new.items ≡ found.old.items ++ in_block sought.now words.now segment.now first count) }
{
    if count == GROUP && !sought.may_hold(words) {
        return Ok(());
    }
    add_words(words, segment, first, count, sought, found)
}

// Adds those of some words near the direct map's beginning, eight at a time.
fn add_groups(
    block: &[u8],
    segment: &Segment,
    first: u64,
    count: u64,
    sought: &Sought,
    found: &mut Vec<FoundWord>,
) -> Result<(), NoMemory>
    requires addressed { IsAddressed segment.now }
    requires inside { segment.now.offset + segment.now.filesz < 18446744073709551616 }
    requires near { IsTrue (is_near sought.now.direct (segment.now.paddr + segment.now.filesz)) }
    requires below { first + count ≤ word_count segment.now }
    requires room { 8 * count ≤ length block.now }
    ensures { OnOk result (found.new.items ≡ found.old.items ++ in_block sought.now block.now segment.now first count) }
{
    let mut k = 0;
    while k < count {
        let some = GROUP.min(count - k);
        let words = &block[(WORD_BYTES * k) as usize..];
        add_group(words, segment, first + k, some, sought, found)?;
        k += some;
    }
    Ok(())
}

// Adds those of some words, wherever they stand; the bytes of the block are theirs.
fn add_block(
    block: &[u8],
    segment: &Segment,
    first: u64,
    count: u64,
    sought: &Sought,
    found: &mut Vec<FoundWord>,
) -> Result<(), NoMemory>
    requires addressed { IsAddressed segment.now }
    requires inside { segment.now.offset + segment.now.filesz < 18446744073709551616 }
    requires below { first + count ≤ word_count segment.now }
    requires room { 8 * count ≤ length block.now }
    ensures { OnOk result (found.new.items ≡ found.old.items ++ in_block sought.now block.now segment.now first count) }
{
    if sought.is_near(segment.paddr.saturating_add(segment.filesz)) {
        add_groups(block, segment, first, count, sought, found)
    } else {
        add_words(block, segment, first, count, sought, found)
    }
}

// Reads so many words of a segment into a block, from one on.
fn read_words<S: Store>(
    store: &mut S,
    segment: &Segment,
    first: u64,
    count: u64,
    block: &mut [u8],
) -> Result<(), ReadFailed>
    requires addressed { IsAddressed segment.now }
    requires below { first + count ≤ word_count segment.now }
    requires some { 1 ≤ count }
    requires room { 8 * count ≤ length block.old }
    requires learnt { IsSome (S.sizes store.old Dump) }
    requires within { ForSome (S.sizes store.old Dump) (λ size. IsInside size segment.now) }

    ensures part { OnOk result (Told (content (S.files store.old) Dump (S.opened store.old Dump)) (λ bytes.
        take (8 * count) block.new ≡ take (8 * count) (drop (place segment.now first).off bytes))) }
    ensures length { length block.new ≡ length block.old }
    ensures stays { StoreStays S.opened S.sizes S.files S.may S.asked store.old store.new }
    ensures cause { CountsFailures result (S.faults store.old) (S.faults store.new) }
{
    let from = place(segment, first).off;
    let len = (WORD_BYTES * count) as usize;
    store.read_at(Slot::Dump, from, &mut block[..len])?;
    Ok(())
}

// Room for the words that are read at once.
fn new_block(alloc: Global) -> Result<Vec<u8>, AllocError>
    ensures { IfOk result (λ block. vec_len block ≡ 65536) }
{
    vec![in alloc; 0; BLOCK_BYTES]
}

// Adds the words of a segment that hold what is looked for.
fn search_segment<S: Store>(
    store: &mut S,
    segment: &Segment,
    sought: &Sought,
    block: &mut [u8],
    found: &mut Vec<FoundWord>,
) -> Result<(), ReadFailed>
    requires addressed { IsAddressed segment.now }
    requires room { length block.old ≡ 65536 }
    requires learnt { IsSome (S.sizes store.old Dump) }
    requires within { ForSome (S.sizes store.old Dump) (λ size. IsInside size segment.now) }

    ensures found { OnOk result (Told (content (S.files store.old) Dump (S.opened store.old Dump)) (λ bytes.
        found.new.items ≡ found.old.items ++ in_segment sought.now bytes segment.now)) }
    ensures length { length block.new ≡ length block.old }
    ensures stays { StoreStays S.opened S.sizes S.files S.may S.asked store.old store.new }
    ensures cause { CountsFailures result (S.faults store.old) (S.faults store.new) }
{
    let words = word_count(segment);
    let mut first = 0;
    while first < words {
        let count = BLOCK_WORDS.min(words - first);
        read_words(store, segment, first, count, block)?;
        add_block(block, segment, first, count, sought, found)?;
        first += count;
    }
    Ok(())
}

/// The words of the segments' file bytes that hold what is looked for: those at physical addresses that are multiples of 8, one segment after
/// the other in the order of the table, each by rising place. The file in slot Dump is read once, in blocks.
///
/// # Errors
///
/// A failure of the store, whose count of failures then rose; or out of memory.
pub fn find_words<S: Store>(
    alloc: Global,
    store: &mut S,
    segments: &[Segment],
    sought: &Sought,
) -> Result<Vec<FoundWord>, ReadFailed>
    requires addressed { All IsAddressed segments.now }
    requires learnt { IsSome (S.sizes store.old Dump) }
    requires within { ForSome (S.sizes store.old Dump) (λ size. All (IsInside size) segments.now) }

    ensures found { IfOk result (λ found. Told (content (S.files store.old) Dump (S.opened store.old Dump)) (λ bytes.
        found.items ≡ in_segments sought.now bytes segments.now)) }
    ensures stays { StoreStays S.opened S.sizes S.files S.may S.asked store.old store.new }
    ensures cause { CountsFailures result (S.faults store.old) (S.faults store.new) }
{
    let mut block = new_block(alloc)?;
    let mut found = Vec::new(alloc);
    for segment in segments {
        search_segment(store, segment, sought, &mut block, &mut found)?;
    }
    Ok(found)
}
