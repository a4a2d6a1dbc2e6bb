// Bytes that texts stand for.
use kc_word::read_hex;
use std::alloc::{AllocError, Global};

/// The bytes that a text stands for. Behind a `\`, the letters `0`, `n`, `r` and `t` are the bytes that they are in Rust, `x` is a
/// byte of two hex digits, and the end of a line isn't there.
pub fn bytes_of(alloc: Global, text: &str) -> Result<Vec<u8>, AllocError> {
    let (plain, _) = text.split_once('\\').unwrap_or((text, ""));
    let mut bytes = Vec::from_slice(alloc, plain.as_bytes())?;
    for part in text.split('\\').skip(1) {
        let (byte, rest) = escaped(part);
        if let Some(byte) = byte {
            bytes.push(byte)?;
        }
        bytes.extend_from_slice(rest.as_bytes())?;
    }
    Ok(bytes)
}

// The byte that a text behind a `\` begins with, and the rest of it.
fn escaped(part: &str) -> (Option<u8>, &str) {
    let (letter, rest) = part.split_at_checked(1).unwrap_or(("", part));
    match letter {
        "0" => (Some(0), rest),
        "n" => (Some(b'\n'), rest),
        "r" => (Some(b'\r'), rest),
        "t" => (Some(b'\t'), rest),
        "x" => {
            let (digits, rest) = rest.split_at_checked(2).unwrap_or(("", rest));
            let number = read_hex(digits.as_bytes()).unwrap_or(0);
            (u8::try_from(number).ok(), rest)
        }
        _ => (None, rest),
    }
}
