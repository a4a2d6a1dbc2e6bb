// The file header (gABI, "ELF Header").
ghost use Rattle.std.specs.Prelude.{◌≡◌, ◌*◌, ◌+◌, ◌≤◌, length, IfOk};
ghost use Rattle.kc_elf.specs.FileHeader.{header_fault, is_elf, is_plain, table_at};

use crate::fault::CoreFault;
use crate::program_header::{HEADER_BYTES, is_inside};
use byteorder::{ByteOrder, LittleEndian};

/// Where the program headers stand in the file, and how many there are.
#[derive(Clone, Copy, Debug, PartialEq, Eq)]
pub struct Table {
    /// The file offset of the first.
    pub offset: u64,
    pub count: u32,
}

/// How many bytes the file header has.
pub const FILE_HEADER_BYTES: u64 = 64;

/// At most so many program headers has a core file of `kaudit`.
pub const MOST_HEADERS: u32 = 65_536;

/// What is wrong with the file header, but for the places that it names.
#[tactic(auto, unfolding(crate::specs::FileHeader::header_fault))]
pub fn header_fault(header: &[u8]) -> Option<CoreFault>
    requires { 64 ≤ length header.now }
    ensures { result ≡ header_fault header.now }
{
    if !is_elf(header) {
        Some(CoreFault::E2)
    } else if !is_plain(header) {
        Some(CoreFault::E3)
    } else if LittleEndian::read_u16(&header[16..]) != 4 {
        Some(CoreFault::E4)
    } else if LittleEndian::read_u16(&header[18..]) != 62 {
        Some(CoreFault::E5)
    } else if LittleEndian::read_u16(&header[54..]) != 56 {
        Some(CoreFault::E6)
    } else {
        None
    }
}

// Whether a file header begins as ELF's do.
fn is_elf(header: &[u8]) -> bool
    requires { 64 ≤ length header.now }
    ensures { result ≡ is_elf header.now }
{
    header[0] == 0x7f && header[1] == b'E' && header[2] == b'L' && header[3] == b'F'
}

// Whether it is of 64 bits, in little-endian order and of version 1.
fn is_plain(header: &[u8]) -> bool
    requires { 64 ≤ length header.now }
    ensures { result ≡ is_plain header.now }
{
    header[4] == 2 && header[5] == 1 && header[6] == 1
}

/// The table of `count` program headers, at most `most`, at a file offset in a file of this size.
pub fn table_at(most: u32, offset: u64, count: u32, size: u64) -> Result<Table, CoreFault>
    ensures value { result ≡ table_at most offset count size }
    ensures inside { IfOk result (λ table. table.offset + 56 * table.count ≤ size) }
{
    if count == 0 || count > most {
        Err(CoreFault::E8)
    } else if is_inside(offset, HEADER_BYTES as u64 * u64::from(count), size) {
        Ok(Table { offset, count })
    } else {
        Err(CoreFault::E7)
    }
}
