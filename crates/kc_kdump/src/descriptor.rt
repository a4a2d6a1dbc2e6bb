// Page descriptors.
ghost use Rattle.std.specs.Prelude.{◌≡◌, ◌≤◌, length};
ghost use Rattle.kc_kdump.specs.Dump.{descriptor_of};

use byteorder::{ByteOrder, LittleEndian};

/// Where the bytes of a page are, and what they are.
#[derive(Clone, Copy)]
pub struct Descriptor {
    /// The file offset of the bytes.
    pub offset: u64,
    /// How many bytes there are.
    pub size: u32,
    /// How they are packed: 0 for not at all, or one of the flags of the format.
    pub flags: u32,
}

/// How many bytes a descriptor has.
pub const DESCRIPTOR_BYTES: usize = 24;

impl Descriptor {
    /// The descriptor that the bytes spell.
    pub fn read(bytes: &[u8]) -> Self
        requires { 24 ≤ length bytes.now }
        ensures { result ≡ descriptor_of bytes.now }
    {
        Descriptor {
            offset: LittleEndian::read_u64(bytes),
            size: LittleEndian::read_u32(&bytes[8..]),
            flags: LittleEndian::read_u32(&bytes[12..]),
        }
    }
}
