// The header of a file, and where its two sections lie.
ghost use Rattle.std.specs.Prelude.{◌≡◌, ◌+◌, ◌-◌, ◌^◌, ◌<◌, ◌≤◌, length, IfOk};
ghost use Rattle.kc_btf.specs.Numbers.{word};
ghost use Rattle.kc_btf.specs.Header.{are_strings};

use crate::stop::{BRule, BtfFault};
use kc_word::get_u16;

/// The bytes of a header that every file has.
const HEADER: usize = 24;

/// The first two bytes of a file as a number.
const MAGIC: u16 = 0xeb9f;

/// Where the two sections of a file lie, as its header says.
#[derive(Clone, Copy, Debug)]
pub struct Header {
    /// The place in the file of the types' first byte.
    pub types: usize,
    /// The place behind the types.
    pub types_end: usize,
    /// The place in the file of the strings' first byte.
    pub strings: usize,
    /// The place behind the strings.
    pub strings_end: usize,
}

// The number of 32 bits at a place. Its bytes are taken as one.
#[inline(always)]
#[tactic(auto, unfolding(crate::specs::Numbers::word))]
pub(crate) fn word(bytes: &[u8], at: usize) -> u32
    requires { at + 4 ≤ length bytes.now }
    ensures { result ≡ word bytes.now at }
{
    u32::from_le_bytes(*bytes[at..].first_chunk::<4>().unwrap())
}

impl Header {
    ghost use Rattle.kc_btf.specs.Header.{sections_fault, header_fault, are_sections_inside, IsHeader, AreInside, IsInside};
    ghost use Rattle.kc_btf.specs.Answers.{FaultIs};

    /// Where the sections of a file lie, whatever its strings are.
    ///
    /// # Errors
    ///
    /// The first of the rules on the header's numbers that the file breaks, B1 to B4.
    #[tactic(auto, unfolding(crate::specs::Header::sections_fault))]
    pub fn locate(bytes: &[u8]) -> Result<Header, BtfFault>
        ensures fault { FaultIs result (sections_fault bytes.now) }
        ensures header { IfOk result (IsHeader bytes.now) }
        ensures inside { IfOk result (AreInside bytes.now) }
    {
        if bytes.len() < HEADER {
            return Err(BRule::B1.at(bytes.len()));
        }
        if get_u16(bytes, 0).unwrap() != MAGIC {
            return Err(BRule::B2.at(0));
        }
        if bytes[2] != 1 {
            return Err(BRule::B3.at(2));
        }
        let header = Header::sections(bytes);
        if !header.is_inside(bytes) {
            return Err(BRule::B4.at(4));
        }
        Ok(header)
    }

    // The header of a file, or the first rule that it breaks.
    #[tactic(auto, unfolding(crate::specs::Header::header_fault))]
    pub(crate) fn read(bytes: &[u8]) -> Result<Header, BtfFault>
        ensures fault { FaultIs result (header_fault bytes.now) }
        ensures header { IfOk result (IsHeader bytes.now) }
        ensures inside { IfOk result (IsInside bytes.now) }
    {
        let header = Header::locate(bytes)?;
        if !are_strings(&bytes[header.strings..header.strings_end]) {
            return Err(BRule::B5.at(header.strings));
        }
        Ok(header)
    }

    // Whether the header's length is a header's, and both sections lie inside the file.
    fn is_inside(&self, bytes: &[u8]) -> bool
        requires long { 24 ≤ length bytes.now }
        requires header { IsHeader bytes.now self.now }
        ensures { result ≡ are_sections_inside bytes.now }
    {
        word(bytes, 4) >= HEADER as u32
            && self.types_end <= bytes.len()
            && self.strings_end <= bytes.len()
    }

    // Where the sections lie by the numbers of a header.
    fn sections(bytes: &[u8]) -> Header
        requires { 24 ≤ length bytes.now }
        ensures header { IsHeader bytes.now result }
        ensures types { result.types ≤ result.types_end }
        ensures short { result.types_end - result.types < 2 ^ 32 }
        ensures strings { result.strings ≤ result.strings_end }
    {
        let end = word(bytes, 4) as usize;
        let types = end + word(bytes, 8) as usize;
        let strings = end + word(bytes, 16) as usize;
        Header {
            types,
            types_end: types + word(bytes, 12) as usize,
            strings,
            strings_end: strings + word(bytes, 20) as usize,
        }
    }
}

// Whether a section of strings begins and ends with a NUL.
fn are_strings(strings: &[u8]) -> bool
    ensures { result ≡ are_strings strings.now }
{
    !strings.is_empty() && strings[0] == 0 && strings[strings.len() - 1] == 0
}
