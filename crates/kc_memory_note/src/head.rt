// The first bytes of the note.
ghost use Rattle.std.specs.Prelude.{◌≡◌, ◌==◌, length, take};
ghost use Rattle.std.specs.List.{before_first};
ghost use Rattle.kc_memory_note.specs.Notes.{size_in, starts_note};

use byteorder::{ByteOrder, LittleEndian};

/// How many bytes the note has up to the end of its first key.
pub const HEAD_BYTES: usize = 34;

// How many bytes the name has, with its NUL.
const NAME_BYTES: u32 = 11;

// The name with its NUL and its padding, and the first key.
const NAME_AND_KEY: &[u8] = b"VMCOREINFO\0\0OSRELEASE=";

// Whether these are the first bytes of the note.
fn starts_note(head: &[u8]) -> bool
    requires { length head.now ≡ 34 }
    ensures { result ≡ starts_note head.now }
{
    LittleEndian::read_u32(head) == NAME_BYTES
        && LittleEndian::read_u32(&head[8..]) == 0
        && &head[12..HEAD_BYTES] == NAME_AND_KEY
}

/// How many bytes the text has, where these are the first bytes of the note.
pub fn size_in(head: &[u8]) -> Option<u32>
    requires { length head.now ≡ 34 }
    ensures { result ≡ size_in head.now }
{
    if starts_note(head) {
        Some(LittleEndian::read_u32(&head[4..]))
    } else {
        None
    }
}

/// How many bytes come before the first NUL.
pub fn text_length(bytes: &[u8]) -> usize
    ensures { take result bytes.now ≡ before_first (λ c. c == 0) bytes.now }
{
    match bytes.iter().position(|c| *c == 0) {
        Some(end) => end,
        None => bytes.len(),
    }
}
