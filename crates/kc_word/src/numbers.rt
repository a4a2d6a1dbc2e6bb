// Numbers in bytes, the lowest byte first.
ghost use Rattle.std.specs.Prelude.{◌≡◌, ◌+◌, nat_le, length};
ghost use Rattle.kc_word.specs.Numbers.{number_at};

use byteorder::{ByteOrder, LittleEndian};

/// The number of two bytes at byte `at`, or `None` exactly where the bytes end before.
pub fn get_u16(bytes: &[u8], at: usize) -> Option<u16>
    ensures { result ≡ number_at 2 bytes.now at }
{
    if holds(bytes, at, 2) {
        Some(LittleEndian::read_u16(&bytes[at..]))
    } else {
        None
    }
}

/// The number of four bytes at byte `at`, or `None` exactly where the bytes end before.
pub fn get_u32(bytes: &[u8], at: usize) -> Option<u32>
    ensures { result ≡ number_at 4 bytes.now at }
{
    if holds(bytes, at, 4) {
        Some(LittleEndian::read_u32(&bytes[at..]))
    } else {
        None
    }
}

/// The number of eight bytes at byte `at`, or `None` exactly where the bytes end before.
pub fn get_u64(bytes: &[u8], at: usize) -> Option<u64>
    ensures { result ≡ number_at 8 bytes.now at }
{
    if holds(bytes, at, 8) {
        Some(LittleEndian::read_u64(&bytes[at..]))
    } else {
        None
    }
}

// Whether the bytes reach `width` bytes past `at`.
fn holds(bytes: &[u8], at: usize, width: usize) -> bool
    ensures { result ≡ nat_le (at + width) (length bytes.now) }
{
    at <= bytes.len() && width <= bytes.len() - at
}
