// The parts of a segment that are searched at once.
ghost use Rattle.std.specs.Prelude.{◌≡◌, ◌+◌, ◌≤◌, ◌<◌};
ghost use Rattle.kc_sight.specs.Refs.Holding.{IsAddressed, skipped, word_count};
ghost use Rattle.kc_refs.specs.Parts.{part};

use kc_word::Segment;

const WORD_BYTES: u64 = 8;

// How many bytes of a segment come before its first word.
fn skipped(segment: &Segment) -> u64
    ensures { result ≡ skipped segment.now }
{
    (WORD_BYTES - segment.paddr % WORD_BYTES) % WORD_BYTES
}

// How many words stand whole in the file bytes of a segment.
pub(crate) fn word_count(segment: &Segment) -> u64
    ensures { result ≡ word_count segment.now }
{
    segment.filesz.saturating_sub(skipped(segment)) / WORD_BYTES
}

// The part of a segment that has so many of its words, from one on.
pub(crate) fn part(segment: &Segment, first: u64, count: u64) -> Segment
    requires addressed { IsAddressed segment.now }
    requires inside { segment.now.offset + segment.now.filesz < 18446744073709551616 }
    requires some { 1 ≤ count }
    requires below { first + count ≤ word_count segment.now }
    ensures { result ≡ part segment.now first count }
{
    let from = skipped(segment) + WORD_BYTES * first;
    let bytes = WORD_BYTES * count;
    Segment {
        paddr: segment.paddr + from,
        filesz: bytes,
        memsz: bytes,
        offset: segment.offset + from,
    }
}
