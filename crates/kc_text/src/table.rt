// One of a table of values, each with a text of its own.
ghost use Rattle.std.specs.Prelude.{◌≡◌, ℕ, List};
ghost use Rattle.kc_text.specs.Answers.{Gives};
ghost use Rattle.kc_text.specs.Readers.{one_of};

use crate::readers::{read_literal, shorter};

/// A value that is written as one text.
pub trait Written {
    /// Its text.
    ghost text: { Self → List ℕ };

    /// The bytes of its text.
    fn text(&self) -> &'static [u8]
        ensures { result.now ≡ text self.now };
}

/// Reads the text of one of these values, the first that fits, and gives the bytes after it. It takes no memory.
///
/// # Errors
///
/// The bytes from the one on where they fit none of the texts.
pub fn read_one_of<'a, T: Written + Copy>(
    bytes: &'a [u8],
    values: &[T],
) -> Result<(T, &'a [u8]), &'a [u8]>
    ensures { Gives (λ r. (r.0, r.1.now)) result ((one_of T.text values.now).read bytes.now) }
{
    let [first, others @ ..] = values else {
        return Err(bytes);
    };
    match read_literal(bytes, first.text()) {
        Ok(rest) => Ok((*first, rest)),
        Err(rest) => match read_one_of(bytes, others) {
            Ok(found) => Ok(found),
            Err(other) => Err(shorter(rest, other)),
        },
    }
}
