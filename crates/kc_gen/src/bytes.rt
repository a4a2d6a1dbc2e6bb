// Bytes one after another.
ghost use Rattle.std.specs.Prelude.{◌≡◌, ◌++◌, flat_map, OnOk};
ghost use Rattle.kc_gen.specs.Bytes.{laid, number_bytes, padded, word_bytes};

use kc_word::NoMemory;

// A number at a place: where it begins, and of how many bytes it is.
#[derive(Clone, Copy)]
pub(crate) struct Field {
    pub at: usize,
    pub width: usize,
    pub value: u64,
}

// Adds a number of so many bytes, the lowest first.
pub(crate) fn push_number(bytes: &mut Vec<u8>, width: usize, value: u64) -> Result<(), NoMemory>
    ensures { OnOk result (bytes.new.items ≡ bytes.old.items ++ number_bytes width value) }
{
    let mut rest = value;
    for _ in 0..width {
        bytes.push((rest % 256) as u8)?;
        rest /= 256;
    }
    Ok(())
}

// Adds a number of 64 bits.
pub(crate) fn push_word(bytes: &mut Vec<u8>, word: u64) -> Result<(), NoMemory>
    ensures { OnOk result (bytes.new.items ≡ bytes.old.items ++ word_bytes word) }
{
    push_number(bytes, 8, word)
}

// Adds zeros up to a place.
pub(crate) fn pad(bytes: &mut Vec<u8>, at: usize) -> Result<(), NoMemory>
    ensures { OnOk result (bytes.new.items ≡ padded at bytes.old.items) }
{
    if bytes.len() < at {
        bytes.resize(at, 0)?;
    }
    Ok(())
}

// Adds numbers at their places, with zeros between.
pub(crate) fn lay(bytes: &mut Vec<u8>, fields: &[Field]) -> Result<(), NoMemory>
    ensures { OnOk result (bytes.new.items ≡ laid fields.now bytes.old.items) }
{
    for field in fields {
        pad(bytes, field.at)?;
        push_number(bytes, field.width, field.value)?;
    }
    Ok(())
}

// Adds numbers of 64 bits.
pub(crate) fn push_words(bytes: &mut Vec<u8>, words: &[u64]) -> Result<(), NoMemory>
    ensures { OnOk result (bytes.new.items ≡ bytes.old.items ++ flat_map word_bytes words.now) }
{
    for word in words {
        push_word(bytes, *word)?;
    }
    Ok(())
}
