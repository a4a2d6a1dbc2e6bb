// What a word says by itself.
ghost use Rattle.std.specs.Prelude.{◌≡◌, ◌≤◌, length, count_by};
ghost use Rattle.std.specs.List.{list_all};
ghost use Rattle.kc_found.specs.Nodes.{is_poison};
ghost use Rattle.kc_sight.specs.Meanings.{is_filled, is_nul, is_pattern, is_text, is_text_byte, is_text_of, is_visible, meaning, text_length};

/// What a word of memory says by itself, where nothing is known of its type.
#[derive(Clone, Copy, Debug, PartialEq, Eq)]
pub enum Meaning {
    /// Zero.
    Zero,
    /// The word's own address, as in the head of an empty list, in a node that `list_del_init` took out, and in one of a tree that
    /// `RB_CLEAR_NODE` marks as in none.
    Own,
    /// A pointer that the kernel leaves in a list's node that it took out.
    Unlisted,
    /// One byte eight times, which the kernel fills memory with.
    Pattern(u8),
    /// Text: visible characters of ASCII, spaces, tabs and ends of lines, eight, or five to seven and then NULs; at least four of them are
    /// visible or spaces.
    Text,
    /// A number below 65,536.
    Small,
    /// Another number.
    Number,
}

// Whether a list's pointer is what the kernel leaves in a deleted node.
fn is_poison(value: u64) -> bool
    ensures { result ≡ is_poison value }
{
    value == 0xdead_0000_0000_0100 || value == 0xdead_0000_0000_0122
}

// Whether the kernel fills memory with this byte.
fn is_pattern(byte: u8) -> bool
    ensures { result ≡ is_pattern byte }
{
    matches!(byte, 0x5a | 0x6b | 0xa5 | 0xaa | 0xbb | 0xcc)
}

// Whether all eight bytes are one such byte.
fn is_filled(value: u64) -> bool
    ensures { result ≡ is_filled value }
{
    let byte = value % 256;
    value == 0x0101_0101_0101_0101 * byte && is_pattern(byte as u8)
}

fn is_visible(byte: u8) -> bool
    ensures { result ≡ is_visible byte }
{
    matches!(byte, b' '..=b'~')
}

fn is_text_byte(byte: u8) -> bool
    ensures { result ≡ is_text_byte byte }
{
    is_visible(byte) || matches!(byte, b'\t' | b'\n' | b'\r')
}

// How many bytes come before the first NUL.
fn text_length(bytes: &[u8]) -> usize
    ensures exact { result ≡ text_length bytes.now }
    ensures within { result ≤ length bytes.now }
{
    bytes.iter().take_while(|byte| **byte != 0).count()
}

// How many are visible.
fn count_visible(bytes: &[u8]) -> usize
    ensures { result ≡ count_by is_visible bytes.now }
{
    bytes.iter().filter(|byte| is_visible(**byte)).count()
}

fn are_text(bytes: &[u8]) -> bool
    ensures { result ≡ list_all is_text_byte bytes.now }
{
    bytes.iter().all(|byte| is_text_byte(*byte))
}

fn are_nul(bytes: &[u8]) -> bool
    ensures { result ≡ list_all is_nul bytes.now }
{
    bytes.iter().all(|byte| *byte == 0)
}

// Whether bytes are text, behind which only NULs come.
fn is_text_of(bytes: &[u8]) -> bool
    ensures { result ≡ is_text_of bytes.now }
{
    let length = text_length(bytes);
    let (text, behind) = (&bytes[..length], &bytes[length..]);
    length >= 5 && count_visible(bytes) >= 4 && are_text(text) && are_nul(behind)
}

fn is_text(value: u64) -> bool
    ensures { result ≡ is_text value }
{
    is_text_of(&value.to_le_bytes())
}

/// What a word with this value says, which stands at virtual address `va`: the first of the meanings in the order of
/// `Meaning`.
pub fn meaning_of(va: u64, value: u64) -> Meaning
    ensures { result ≡ meaning va value }
{
    if value == 0 {
        Meaning::Zero
    } else if value == va {
        Meaning::Own
    } else if is_poison(value) {
        Meaning::Unlisted
    } else if is_filled(value) {
        Meaning::Pattern((value % 256) as u8)
    } else if is_text(value) {
        Meaning::Text
    } else if value < 65_536 {
        Meaning::Small
    } else {
        Meaning::Number
    }
}
