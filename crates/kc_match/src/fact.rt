// What a line of VMCOREINFO states of a kernel (the kernel's kdump documents, "VMCOREINFO").
ghost use Rattle.std.specs.Prelude.{◌≡◌, ◌<◌, ◌==◌, length, option_map, position, IfSome};
ghost use Rattle.std.specs.Option.{option_copied};
ghost use Rattle.kc_match.specs.Facts.{behind, entry, fact_in, offset_in, parted, size_in, symbol_in};
ghost use Rattle.kc_match.specs.Views.{fact_view, parts_view};

use kc_word::{read_dec, read_hex};

/// What a line states. Names are parts of the line.
#[derive(Clone, Copy, Debug, PartialEq, Eq)]
pub enum Fact<'t> {
    /// A symbol's address at run time.
    Symbol {
        name: &'t [u8],
        address: u64,
    },
    /// The size of a type in bytes.
    Size {
        name: &'t [u8],
        size: i64,
    },
    /// The byte of a type at which a member begins.
    Offset {
        name: &'t [u8],
        member: &'t [u8],
        byte: i64,
    },
}

/// What a line states, where it is one of `SYMBOL(name)=`, `SIZE(name)=` and `OFFSET(name.member)=` with a number: a
/// hex one of a symbol, and else a decimal one. `None` exactly for other lines. The first `)` closes the name, and the
/// first dot ends a type's.
pub fn read_fact(line: &[u8]) -> Option<Fact<'_>>
    ensures { option_map fact_view result ≡ fact_in line.now }
{
    if let Some(fact) = read_symbol(line) {
        return Some(fact);
    }
    if let Some(fact) = read_size(line) {
        return Some(fact);
    }
    read_offset(line)
}

// A symbol's address.
#[tactic(auto, unfolding(crate::specs::Facts::symbol_in))]
fn read_symbol(line: &[u8]) -> Option<Fact<'_>>
    ensures { option_map fact_view result ≡ symbol_in line.now }
{
    let (name, value) = entry(line, b"SYMBOL(")?;
    let address = read_hex(value)?;
    Some(Fact::Symbol { name, address })
}

// A type's size.
#[tactic(auto, unfolding(crate::specs::Facts::size_in))]
fn read_size(line: &[u8]) -> Option<Fact<'_>>
    ensures { option_map fact_view result ≡ size_in line.now }
{
    let (name, value) = entry(line, b"SIZE(")?;
    let size = read_dec(value)?;
    Some(Fact::Size { name, size })
}

// Where a member begins.
#[tactic(auto, unfolding(crate::specs::Facts::offset_in))]
fn read_offset(line: &[u8]) -> Option<Fact<'_>>
    ensures { option_map fact_view result ≡ offset_in line.now }
{
    let (path, value) = entry(line, b"OFFSET(")?;
    let (name, member) = parted(path, b'.')?;
    let byte = read_dec(value)?;
    Some(Fact::Offset { name, member, byte })
}

// What stands behind a head up to the first `)`, and what stands behind `)=`.
#[tactic(auto, unfolding(crate::specs::Facts::entry))]
fn entry<'t>(line: &'t [u8], head: &[u8]) -> Option<(&'t [u8], &'t [u8])>
    ensures { option_map parts_view result ≡ entry head.now line.now }
{
    let (inner, rest) = parted(behind(line, head)?, b')')?;
    let value = behind(rest, b"=")?;
    Some((inner, value))
}

// What stands behind a head of a text.
fn behind<'t>(text: &'t [u8], head: &[u8]) -> Option<&'t [u8]>
    ensures { option_copied result ≡ behind head.now text.now }
{
    text.strip_prefix(head)
}

// The parts of a text before and behind the first such byte.
fn parted(text: &[u8], mark: u8) -> Option<(&[u8], &[u8])>
    ensures { option_map parts_view result ≡ parted mark text.now }
{
    let at = place_of(text, mark)?;
    Some((&text[..at], &text[at + 1..]))
}

// The place of the first such byte.
fn place_of(text: &[u8], mark: u8) -> Option<usize>
    ensures value { result ≡ position (λ c. c == mark) text.now }
    ensures within { IfSome result (λ at. at < length text.now) }
{
    text.iter().position(|c| *c == mark)
}
