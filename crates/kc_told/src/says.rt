// The text of what a word says by itself.
ghost use Rattle.std.specs.Prelude.{◌≡◌, ◌++◌, OnOk};
ghost use Rattle.kc_sight.specs.Views.{image_symbols};
ghost use Rattle.kc_told.specs.SaysText.{says_line, says_lines};

use crate::near::nothing;
use crate::text::{push_meaning, push_span};
use kc_sight::{ImageMap, Meaning, Seen, meaning_of};
use kc_text::push;
use kc_word::NoMemory;

// Adds what a word says, but of a number that may be anything.
fn push_word_says(
    text: &mut Vec<u8>,
    image: &ImageMap<'_>,
    meaning: Meaning,
    value: u64,
) -> Result<(), NoMemory>
    ensures { OnOk result (text.new.items ≡ text.old.items ++ says_line (image_symbols image.now) meaning value) }
{
    if meaning == Meaning::Number {
        return Ok(());
    }
    push(text, b"says ")?;
    push_meaning(text, image, &nothing(), meaning, value)?;
    push(text, b"\n")
}

/// Adds what the word at a virtual address says by itself, but of a number that may be anything, and how far zeros, one of the kernel's
/// bytes or text go on around it: `page` is what is read of the 512 words of its 4096 bytes.
///
/// # Errors
///
/// No memory was left.
pub fn push_says(
    text: &mut Vec<u8>,
    image: &ImageMap<'_>,
    va: u64,
    value: u64,
    page: &[Seen],
) -> Result<(), NoMemory>
    ensures { OnOk result (text.new.items ≡ text.old.items ++ says_lines (image_symbols image.now) va value page.now) }
{
    let meaning = meaning_of(va, value);
    push_word_says(text, image, meaning, value)?;
    push_span(text, va, meaning, page)
}
