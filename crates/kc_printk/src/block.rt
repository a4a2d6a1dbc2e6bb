// The text block of a record (`get_data` in kernel/printk/printk_ringbuffer.c).
ghost use Rattle.std.specs.Prelude.{◌≡◌, ◌<◌};
ghost use Rattle.kc_printk.specs.Blocks.{block_in, is_aligned, is_empty};

use kc_bytes::onward;

/// Where a block stands in the ring of texts.
#[derive(Clone, Copy, Debug, PartialEq, Eq)]
pub struct TextSpan {
    /// Where it begins, in bytes from the ring's start.
    pub at: u64,
    /// How many bytes of text it has room for, after the id of its descriptor.
    pub text: u64,
}

/// What a descriptor says of its text block.
#[derive(Clone, Copy, Debug, PartialEq, Eq)]
pub enum Block {
    /// The record has none.
    Empty,
    /// It has this one.
    Filled(TextSpan),
    /// There can be no such block.
    Wrong,
}

// Whether the positions are those of a record without data.
fn is_empty(begin: u64, next: u64) -> bool
    ensures { result ≡ is_empty begin next }
{
    begin % 2 == 1 && next % 2 == 1
}

// Whether both positions are multiples of the size of an id.
fn is_aligned(begin: u64, next: u64) -> bool
    ensures { result ≡ is_aligned begin next }
{
    begin % 8 == 0 && next % 8 == 0
}

/// The block between two positions of a ring of so many bytes. Positions are in bytes; they grow over the rounds of the ring, and wrap at
/// 2^64. A block that doesn't fit before the ring's end stands at its start.
pub fn block_in(size: u64, begin: u64, next: u64) -> Block
    requires { 0 < size }
    ensures { result ≡ block_in size begin next }
{
    let last = onward(next, u64::MAX);
    if is_empty(begin, next) {
        Block::Empty
    } else if !is_aligned(begin, next) {
        Block::Wrong
    } else if begin <= last && begin / size == last / size {
        Block::Filled(TextSpan {
            at: begin % size,
            text: (last - begin).saturating_sub(7),
        })
    } else if onward(begin, size) / size == last / size {
        Block::Filled(TextSpan {
            at: 0,
            text: (last % size).saturating_sub(7),
        })
    } else {
        Block::Wrong
    }
}
