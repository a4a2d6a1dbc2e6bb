// How far words that say the same go on around one.
ghost use Rattle.std.specs.Prelude.{◌≡◌};
ghost use Rattle.kc_told.specs.Spans.{bounds, span_at, spanned};

use kc_sight::{Meaning, Seen, Span, is_fill, meaning_of, span_of};

/// The virtual addresses of the first and the last byte of words that say the same.
#[derive(Clone, Copy, Debug, PartialEq, Eq)]
pub struct Bounds {
    /// That of the first byte.
    pub first: u64,
    /// That of the last one.
    pub last: u64,
}

// Those of the words around one at an address.
fn bounds_of(va: u64, span: Span) -> Bounds
    ensures { result ≡ bounds va span }
{
    let before = (span.before as u64).wrapping_mul(8);
    let after = (span.after as u64).wrapping_mul(8);
    Bounds {
        first: va.wrapping_sub(before),
        last: va.wrapping_add(after).wrapping_add(7),
    }
}

// Those of the words around one that says this at an address, where it is zeros, one of the kernel's bytes, or text.
pub(crate) fn spanned(va: u64, meaning: Meaning, page: &[Seen]) -> Option<Bounds>
    ensures { result ≡ spanned va meaning page.now }
{
    if !is_fill(meaning) {
        return None;
    }
    let span = span_of(meaning, page, (va % 4096 / 8) as usize);
    Some(bounds_of(va, span))
}

// Those of the words around one that may not be there.
pub(crate) fn span_at(word: &Seen, page: &[Seen]) -> Option<Bounds>
    ensures { result ≡ span_at word.now page.now }
{
    match word {
        Ok(word) => spanned(word.va, meaning_of(word.va, word.value), page),
        Err(_) => None,
    }
}
