// Pieces of a text.
ghost use Rattle.std.specs.Prelude.{◌≡◌, ◌++◌, decimal, map, OnOk};
ghost use Rattle.std.specs.Fmt.{signed_decimal};
ghost use Rattle.kc_text.specs.Text.{hex, name_text, visible};

use itoa::Buffer;
use kc_word::{NoMemory, hex16};

/// Adds bytes.
pub fn push(text: &mut Vec<u8>, piece: &[u8]) -> Result<(), NoMemory>
    ensures { OnOk result (text.new.items ≡ text.old.items ++ piece.now) }
{
    text.extend_from_slice(piece)?;
    Ok(())
}

/// Adds a number in hex, of 16 digits.
pub fn push_hex(text: &mut Vec<u8>, n: u64) -> Result<(), NoMemory>
    ensures { OnOk result (text.new.items ≡ text.old.items ++ hex n) }
{
    text.extend_from_slice(&hex16(n))?;
    Ok(())
}

/// Adds a number in decimal.
pub fn push_decimal(text: &mut Vec<u8>, n: u64) -> Result<(), NoMemory>
    ensures { OnOk result (text.new.items ≡ text.old.items ++ decimal n) }
{
    let mut buffer = Buffer::new();
    push(text, buffer.format(n).as_bytes())
}

/// Adds some text and a number in decimal.
pub fn push_numbered(text: &mut Vec<u8>, name: &[u8], n: u64) -> Result<(), NoMemory>
    ensures { OnOk result (text.new.items ≡ text.old.items ++ (name.now ++ decimal n)) }
{
    push(text, name)?;
    push_decimal(text, n)
}

/// Adds a number in decimal, with a sign where it is negative.
pub fn push_signed(text: &mut Vec<u8>, n: i128) -> Result<(), NoMemory>
    ensures { OnOk result (text.new.items ≡ text.old.items ++ signed_decimal n) }
{
    let mut buffer = Buffer::new();
    push(text, buffer.format(n).as_bytes())
}

// A byte of a name as it is printed.
fn visible(c: u8) -> u8
    ensures { result ≡ visible c }
{
    if (0x21..=0x7e).contains(&c) { c } else { b'?' }
}

/// Adds the bytes of a name; what is no visible ASCII character becomes a question mark.
pub fn push_name(text: &mut Vec<u8>, name: &[u8]) -> Result<(), NoMemory>
    ensures { OnOk result (text.new.items ≡ text.old.items ++ map visible name.now) }
{
    for c in name {
        text.push(visible(*c))?;
    }
    Ok(())
}

/// Adds a name, or a dash in place of none.
pub fn push_name_or_dash(text: &mut Vec<u8>, name: &[u8]) -> Result<(), NoMemory>
    ensures { OnOk result (text.new.items ≡ text.old.items ++ name_text name.now) }
{
    if name.is_empty() {
        return push(text, b"-");
    }
    push_name(text, name)
}
