// Numbers and bytes in texts and files.
use byteorder::{ByteOrder, LittleEndian};
use kc_word::read_hex;
use std::alloc::{AllocError, Global};

/// Puts bytes at a file offset, as far as the file goes.
pub fn set_bytes(file: &mut Vec<u8>, offset: usize, bytes: &[u8]) {
    if offset <= file.len() && bytes.len() <= file.len() - offset {
        file[offset..offset + bytes.len()].copy_from_slice(bytes);
    }
}

/// Puts bytes that a text has: words of a file offset, `=` and the byte. Numbers are decimal, or hex behind 0x.
pub fn put_bytes(file: &mut Vec<u8>, words: &str) {
    for word in words.split_whitespace() {
        if let Some((offset, byte)) = word.split_once('=') {
            set_bytes(
                file,
                number(offset) as usize,
                &[(number(byte) & 0xff) as u8],
            );
        }
    }
}

/// Adds a line to a text.
pub fn push_line(text: &mut Vec<u8>, line: &str) -> Result<(), AllocError> {
    text.extend_from_slice(line.as_bytes())?;
    text.push(b'\n')?;
    Ok(())
}

/// What stands behind a prefix, line by line, of the lines that begin with it.
pub fn lines_behind(alloc: Global, lines: &str, prefix: &str) -> Result<Vec<u8>, AllocError> {
    let mut text = Vec::new(alloc);
    for line in lines.lines() {
        if let Some(value) = line.strip_prefix(prefix) {
            push_line(&mut text, value)?;
        }
    }
    Ok(text)
}

/// A number: a decimal one, or a hex one behind 0x; 0 where it is neither or has more than 32 bits.
pub fn number(text: &str) -> u32 {
    match text.strip_prefix("0x") {
        Some(digits) => u32::try_from(read_hex(digits.as_bytes()).unwrap_or(0)).unwrap_or(0),
        None => text.parse().unwrap_or(0),
    }
}

/// Adds the numbers of a text, of 32 bits each. What stands behind `;` on a line is the reader's.
pub fn push_numbers(file: &mut Vec<u8>, text: &str) -> Result<(), AllocError> {
    for line in text.lines() {
        let (words, _) = line.split_once(';').unwrap_or((line, ""));
        push_row(file, words)?;
    }
    Ok(())
}

fn push_row(file: &mut Vec<u8>, words: &str) -> Result<(), AllocError> {
    for word in words.split_whitespace() {
        push_words(file, &[number(word)])?;
    }
    Ok(())
}

/// Adds numbers of 32 bits each.
pub fn push_words(file: &mut Vec<u8>, words: &[u32]) -> Result<(), AllocError> {
    for word in words {
        let mut bytes = [0; 4];
        LittleEndian::write_u32(&mut bytes, *word);
        file.extend_from_slice(&bytes)?;
    }
    Ok(())
}
