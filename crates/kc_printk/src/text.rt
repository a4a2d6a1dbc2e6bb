// The lines of the log.
ghost use Rattle.std.specs.Prelude.{◌≡◌, ◌++◌, ◌<◌, replicate, OnOk};
ghost use Rattle.kc_word.specs.Hex.{hex_digit};
ghost use Rattle.kc_printk.specs.Texts.{escaped, is_plain, padded, prefix, record_line, shown_byte, shown_text, unknown_line};

use crate::record::{LogRule, code_of};
use itoa::Buffer;
use kc_text::{push, push_hex, push_numbered};
use kc_word::NoMemory;

// Adds a byte so many times.
fn push_many(text: &mut Vec<u8>, byte: u8, count: usize) -> Result<(), NoMemory>
    ensures { OnOk result (text.new.items ≡ text.old.items ++ replicate count byte) }
{
    for i in 0..count {
        text.push(byte)?;
    }
    Ok(())
}

// Adds a number in decimal, after so many bytes that it is so wide.
fn push_padded(text: &mut Vec<u8>, width: usize, fill: u8, n: u64) -> Result<(), NoMemory>
    ensures { OnOk result (text.new.items ≡ text.old.items ++ padded width fill n) }
{
    let mut buffer = Buffer::new();
    let digits = buffer.format(n).as_bytes();
    push_many(text, fill, width.saturating_sub(digits.len()))?;
    push(text, digits)
}

const NANOSECONDS: u64 = 1_000_000_000;

// Adds the time in seconds and microseconds.
fn push_prefix(text: &mut Vec<u8>, time: u64) -> Result<(), NoMemory>
    ensures { OnOk result (text.new.items ≡ text.old.items ++ prefix time) }
{
    push(text, b"[")?;
    push_padded(text, 5, b' ', time / NANOSECONDS)?;
    push(text, b".")?;
    push_padded(text, 6, b'0', time % NANOSECONDS / 1000)?;
    push(text, b"] ")
}

// Whether a byte stands in the log as it is.
fn is_plain(byte: u8) -> bool
    ensures { result ≡ is_plain byte }
{
    matches!(byte, 9 | 11..=13 | 32..=126)
}

// The character of a digit.
fn digit_of(digit: u8) -> u8
    requires { digit < 16 }
    ensures { result ≡ hex_digit digit }
{
    if digit < 10 {
        b'0' + digit
    } else {
        b'a' + (digit - 10)
    }
}

// Adds a byte in hex, as makedumpfile writes it.
fn push_escaped(text: &mut Vec<u8>, byte: u8) -> Result<(), NoMemory>
    ensures { OnOk result (text.new.items ≡ text.old.items ++ escaped byte) }
{
    let digits = [digit_of(byte / 16), digit_of(byte % 16)];
    if byte < 128 {
        push(text, b"\\x")?;
    } else {
        push(text, b"\\xffffff")?;
    }
    push(text, &digits)
}

// Adds a byte of a text, whose further lines are set in so far.
fn push_byte(text: &mut Vec<u8>, indent: usize, byte: u8) -> Result<(), NoMemory>
    ensures { OnOk result (text.new.items ≡ text.old.items ++ shown_byte indent byte) }
{
    if byte == b'\n' {
        push(text, b"\n")?;
        push_many(text, b' ', indent)
    } else if is_plain(byte) {
        push(text, &[byte])
    } else {
        push_escaped(text, byte)
    }
}

// Adds a text.
fn push_text(text: &mut Vec<u8>, indent: usize, bytes: &[u8]) -> Result<(), NoMemory>
    ensures { OnOk result (text.new.items ≡ text.old.items ++ shown_text indent bytes.now) }
{
    for byte in bytes {
        push_byte(text, indent, *byte)?;
    }
    Ok(())
}

// Adds the lines of a record.
pub(crate) fn push_record(text: &mut Vec<u8>, time: u64, bytes: &[u8]) -> Result<(), NoMemory>
    ensures { OnOk result (text.new.items ≡ text.old.items ++ record_line time bytes.now) }
{
    let before = text.len();
    push_prefix(text, time)?;
    let indent = text.len() - before;
    push_text(text, indent, bytes)?;
    push(text, b"\n")
}

// Adds the line of a record that can't be read.
pub(crate) fn push_unknown(
    text: &mut Vec<u8>,
    index: u64,
    rule: LogRule,
    at: u64,
) -> Result<(), NoMemory>
    ensures { OnOk result (text.new.items ≡ text.old.items ++ unknown_line index rule at) }
{
    push_numbered(text, b"record ", index)?;
    push(text, b" unknown ")?;
    push(text, code_of(rule))?;
    push(text, b" ")?;
    push_hex(text, at)?;
    push(text, b"\n")
}
