// Numbers and the names of addresses.
use kc_word::read_hex;
use std::alloc::{AllocError, Global};

/// The number that a word is: a decimal one, a hex one behind `0x`, or the address that a table of names has; or one of
/// these with a number more or less, as in `node+8`. Numbers wrap at 2^64.
pub fn value_of(names: &str, word: &str) -> Option<u64> {
    if let Some((name, more)) = word.split_once('+') {
        return Some(plain(names, name)?.wrapping_add(plain(names, more)?));
    }
    if let Some((name, less)) = word.split_once('-') {
        return Some(plain(names, name)?.wrapping_sub(plain(names, less)?));
    }
    plain(names, word)
}

fn plain(names: &str, word: &str) -> Option<u64> {
    named(names, word).or(number(word))
}

// The address of a name.
fn named(names: &str, word: &str) -> Option<u64> {
    for line in names.lines() {
        if let Some((name, address)) = line.split_once(' ')
            && name == word
        {
            return number(address);
        }
    }
    None
}

fn number(word: &str) -> Option<u64> {
    match word.strip_prefix("0x") {
        Some(digits) => read_hex(digits.as_bytes()),
        None => word.parse().ok(),
    }
}

/// The text with each number in hex digits, and each name as its address. Words are parted by blanks, and their parts by
/// `=`; what is neither a number nor a name stays as it is.
pub fn spelled(alloc: Global, names: &str, text: &str) -> Result<String, AllocError> {
    let mut spelled = String::new(alloc);
    for (at, word) in text.split(' ').enumerate() {
        if at > 0 {
            spelled.push(' ')?;
        }
        push_word(alloc, &mut spelled, names, word)?;
    }
    Ok(spelled)
}

fn push_word(alloc: Global, text: &mut String, names: &str, word: &str) -> Result<(), AllocError> {
    for (at, part) in word.split('=').enumerate() {
        if at > 0 {
            text.push('=')?;
        }
        match value_of(names, part) {
            Some(value) => text.push_str(&format!(in alloc; "{value:x}")?)?,
            None => text.push_str(part)?,
        }
    }
    Ok(())
}
