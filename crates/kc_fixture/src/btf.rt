// Files of type information, made of texts.
use crate::bytes::{number, push_words};
use std::alloc::{AllocError, Global};

/// Types in the making: the numbers of their records, and the names that these have, each once.
#[derive(Drop)]
pub struct Types {
    words: Vec<u32>,
    names: Vec<u8>,
    // which number tells the kind of the last type, and how many members it has
    last: usize,
}

impl Types {
    /// No types yet.
    pub fn new(alloc: Global) -> Result<Types, AllocError> {
        Ok(Types {
            words: Vec::new(alloc),
            names: Vec::from_slice(alloc, b"\0")?,
            last: 0,
        })
    }

    /// Adds types, a line each: its number, its name if it has one, `=`, its kind, its size or the type that it stands
    /// on, and what follows by the kind: an `int`'s encoding, or an `array`'s type, its index's type and its length.
    /// The members of a `struct` or `union` are lines behind two blanks: the name, `=`, the type and the bit, and a
    /// bit-field's width. Types are numbered from 1 in the order in which they come; the number in a line is the
    /// reader's.
    pub fn add(&mut self, text: &str) -> Result<(), AllocError> {
        for line in text.lines() {
            if line.starts_with("  ") {
                self.add_members(1, line)?;
            } else {
                self.add_type(line)?;
            }
        }
        Ok(())
    }

    fn add_type(&mut self, line: &str) -> Result<(), AllocError> {
        let (_, line) = line.split_once(' ').unwrap_or(("", line));
        let (name, what) = line.split_once("= ").unwrap_or((line, ""));
        let (kind, numbers) = what.split_once(' ').unwrap_or((what, ""));
        let name = self.name(name.trim_end())?;
        self.words.push(name)?;
        self.last = self.words.len();
        self.words.push(kind_number(kind))?;
        for word in numbers.split(' ') {
            self.words.push(number(word))?;
        }
        Ok(())
    }

    /// Adds so many members of one name, type and bit to the last type.
    pub fn add_members(&mut self, count: u32, member: &str) -> Result<(), AllocError> {
        let (name, what) = member.split_once("= ").unwrap_or((member, ""));
        let (ty, place) = what.split_once(' ').unwrap_or((what, ""));
        let (bit, width) = place.split_once(' ').unwrap_or((place, "0"));
        let name = self.name(name.trim())?;
        let width = number(width);
        let place = number(bit).wrapping_add(width.wrapping_mul(0x100_0000));
        for _ in 0..count {
            self.words.extend_from_slice(&[name, number(ty), place])?;
            self.count_member(width > 0);
        }
        Ok(())
    }

    // A member more of the last type, which has the kind flag where it has bit-fields.
    fn count_member(&mut self, is_bit_field: bool) {
        if let Some(kind) = self.words.get_mut(self.last) {
            *kind = kind.wrapping_add(1);
            if is_bit_field {
                *kind |= FLAG;
            }
        }
    }

    // The place of a name, which is written where it doesn't stand yet.
    fn name(&mut self, name: &str) -> Result<u32, AllocError> {
        let mut place: usize = 0;
        for known in self.names.split(|c| *c == 0) {
            if known == name.as_bytes() {
                return Ok(short(place));
            }
            place = place.saturating_add(known.len()).saturating_add(1);
        }
        let place = short(self.names.len());
        self.names.extend_from_slice(name.as_bytes())?;
        self.names.push(0)?;
        Ok(place)
    }

    /// The file: a header of 24 bytes, the records, and the names.
    pub fn file(&self, alloc: Global) -> Result<Vec<u8>, AllocError> {
        let length = short(self.words.len()).saturating_mul(4);
        let names = short(self.names.len());
        let mut file = Vec::new(alloc);
        push_words(&mut file, &[MAGIC, 24, 0, length, length, names])?;
        push_words(&mut file, &self.words)?;
        file.extend_from_slice(&self.names)?;
        Ok(file)
    }
}

// The magic number, version 1, and no flags.
const MAGIC: u32 = 0x1_eb9f;

// The kind flag: a struct or union with bit-fields, an enum with a sign.
const FLAG: u32 = 0x8000_0000;

fn kind_number(kind: &str) -> u32 {
    match kind {
        "int" => 0x100_0000,
        "ptr" => 0x200_0000,
        "array" => 0x300_0000,
        "struct" => 0x400_0000,
        "union" => 0x500_0000,
        "enum" => 0x600_0000,
        "signed_enum" => 0x8600_0000,
        "typedef" => 0x800_0000,
        "float" => 0x1000_0000,
        _ => 0,
    }
}

// A length that is meant to be small.
fn short(length: usize) -> u32 {
    u32::try_from(length).unwrap_or(u32::MAX)
}
