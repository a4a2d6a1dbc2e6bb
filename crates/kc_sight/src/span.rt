// How far what a word says goes on.
ghost use Rattle.std.specs.Prelude.{◌≡◌, ◌+◌, ◌<◌, length, take_while, reverse};
ghost use Rattle.kc_sight.specs.Spans.{fills_on, goes_on, span};

use crate::meaning::{Meaning, meaning_of};
use crate::words::Seen;

/// How many words say the same directly before a word, and directly after it.
#[derive(Clone, Copy, Debug, PartialEq, Eq)]
pub struct Span {
    /// Before it.
    pub before: usize,
    /// After it.
    pub after: usize,
}

// Whether one word fills on what another one does.
fn fills_on(meaning: Meaning, other: Meaning) -> bool
    ensures { result ≡ fills_on meaning other }
{
    match (meaning, other) {
        (Meaning::Zero, Meaning::Zero) | (Meaning::Text, Meaning::Text) => true,
        (Meaning::Pattern(a), Meaning::Pattern(b)) => a == b,
        _ => false,
    }
}

// The same of a word that may not be there.
fn goes_on(meaning: Meaning, seen: &Seen) -> bool
    ensures { result ≡ goes_on meaning seen.now }
{
    match seen {
        Ok(word) => fills_on(meaning, meaning_of(word.va, word.value)),
        Err(_) => false,
    }
}

fn count_after(meaning: Meaning, words: &[Seen]) -> usize
    ensures { result ≡ length (take_while (goes_on meaning) words.now) }
{
    words
        .iter()
        .take_while(|&seen| goes_on(meaning, seen))
        .count()
}

fn count_before(meaning: Meaning, words: &[Seen]) -> usize
    ensures { result ≡ length (take_while (goes_on meaning) (reverse words.now)) }
{
    words
        .iter()
        .rev()
        .take_while(|&seen| goes_on(meaning, seen))
        .count()
}

/// How many words directly before the one with the number `at` go on with what it says, and directly after it: zeros, one of the
/// kernel's bytes, or text.
pub fn span_of(meaning: Meaning, words: &[Seen], at: usize) -> Span
    ensures { result ≡ span meaning words.now at }
{
    let before = at.min(words.len());
    let after = at.saturating_add(1).min(words.len());
    Span {
        before: count_before(meaning, &words[..before]),
        after: count_after(meaning, &words[after..]),
    }
}

/// Whether what a word says can go on: zeros, one of the kernel's bytes, or text.
pub fn is_fill(meaning: Meaning) -> bool
    ensures { result ≡ fills_on meaning meaning }
{
    fills_on(meaning, meaning)
}
