// The ring of records (struct printk_ringbuffer in kernel/printk/printk_ringbuffer.h).
ghost use Rattle.std.specs.Prelude.{◌≡◌, ◌<◌, ◌^◌, IfOk};
ghost use Rattle.kc_memory.specs.Space.{AnswersAs};
ghost use Rattle.kc_memory.specs.Stays.{CountsFaults, SpaceStays};
ghost use Rattle.kc_printk.specs.Rings.{field, fits, ids_of, is_id, ring_of, ring_words};

use crate::fault::LogFault;
use crate::layout::RingLayout;
use kc_bytes::{onward, read_eight, read_four};
use kc_memory::{Space, Stop};
use kc_word::Steps;
use std::sync::ledger::Ledger;

/// The numbers of the ring as they stand in the dump.
#[derive(Clone, Copy, Debug, PartialEq, Eq)]
pub struct RingWords {
    /// The logarithm of the number of descriptors, to the base of 2.
    pub count_bits: u32,
    /// The virtual addresses of the descriptors and of the infos.
    pub descs: u64,
    pub infos: u64,
    /// The ids of the last and of the first record.
    pub head_id: u64,
    pub tail_id: u64,
    /// The logarithm of the number of bytes of the texts, to the base of 2.
    pub size_bits: u32,
    /// The virtual address of the texts.
    pub text_data: u64,
}

/// A ring in order.
#[derive(Clone, Copy, Debug, PartialEq, Eq)]
pub struct Ring {
    /// How many descriptors it has.
    pub count: u64,
    /// The virtual addresses of the descriptors and of the infos.
    pub descs: u64,
    pub infos: u64,
    /// The id of the first record, and how many ids there are from it on.
    pub first: u64,
    pub ids: u64,
    /// How many bytes its texts take, with the ids before them.
    pub size: u64,
    /// The virtual address of the texts.
    pub text_data: u64,
}

// The address of a field of a part of a struct.
fn field(base: u64, part: u64, offset: u64) -> u64
    ensures { result ≡ field base part offset }
{
    onward(onward(base, part), offset)
}

/// The numbers of the ring. It takes no memory.
///
/// # Errors
///
/// The first word that can't be read.
#[tactic(auto, unfolding(crate::specs::Rings::ring_words))]
pub fn read_ring<S: Space, L: Ledger>(
    space: &mut S,
    layout: &RingLayout,
    steps: &mut Steps<L>,
) -> Result<RingWords, Stop>
    ensures words { AnswersAs (λ image. ring_words image layout.now) (S.image space.old) result }
    ensures stays { SpaceStays S.image S.files S.through S.most space.old space.new }
    ensures cause { CountsFaults result (S.faults space.old) (S.faults space.new) }
{
    let prb = read_eight(space, layout.prb, steps)?;
    let descs_at = onward(prb, layout.desc_ring);
    let texts_at = onward(prb, layout.text_ring);
    let count_bits = read_four(space, onward(descs_at, layout.count_bits), steps)?;
    let descs = read_eight(space, onward(descs_at, layout.descs), steps)?;
    let infos = read_eight(space, onward(descs_at, layout.infos), steps)?;
    let head_id = read_eight(
        space,
        field(descs_at, layout.head_id, layout.counter),
        steps,
    )?;
    let tail_id = read_eight(
        space,
        field(descs_at, layout.tail_id, layout.counter),
        steps,
    )?;
    let size_bits = read_four(space, onward(texts_at, layout.size_bits), steps)?;
    let text_data = read_eight(space, onward(texts_at, layout.text_data), steps)?;
    Ok(RingWords {
        count_bits,
        descs,
        infos,
        head_id,
        tail_id,
        size_bits,
        text_data,
    })
}

// Whether a number is the id of a descriptor: its two high bits are 0.
fn is_id(number: u64) -> bool
    ensures { result ≡ is_id number }
{
    number < 1 << 62
}

// How many ids there are from one to another, both with them.
fn ids_of(first: u64, last: u64) -> u64
    requires first { first < 2 ^ 62 }
    requires last { last < 2 ^ 62 }
    ensures { result ≡ ids_of first last }
{
    (last + (1 << 62) - first) % (1 << 62) + 1
}

// Whether these are the first and the last id in so many descriptors.
fn fits(first: u64, last: u64, count: u64) -> bool
    ensures { result ≡ fits first last count }
{
    is_id(first) && is_id(last) && ids_of(first, last) <= count
}

const COUNT_BITS: u32 = 22;

const SIZE_BITS: u32 = 31;

/// The ring that has these numbers. It takes no memory.
///
/// # Errors
///
/// The first of `P2` to `P4`.
#[tactic(auto, unfolding(crate::specs::Rings::ring_of))]
pub fn ring_of(words: &RingWords) -> Result<Ring, LogFault>
    ensures ring { result ≡ ring_of words.now }
    ensures count { IfOk result (λ ring. 0 < ring.count) }
    ensures size { IfOk result (λ ring. 0 < ring.size) }
{
    if words.count_bits > COUNT_BITS {
        return Err(LogFault::P2);
    }
    if words.size_bits > SIZE_BITS {
        return Err(LogFault::P3);
    }
    let count = 1 << words.count_bits;
    if !fits(words.tail_id, words.head_id, count) {
        return Err(LogFault::P4);
    }
    Ok(Ring {
        count,
        descs: words.descs,
        infos: words.infos,
        first: words.tail_id,
        ids: ids_of(words.tail_id, words.head_id),
        size: 1 << words.size_bits,
        text_data: words.text_data,
    })
}
