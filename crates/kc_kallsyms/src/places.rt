// Where the kernel's symbol table lies.
ghost use Rattle.std.specs.Prelude.{◌≡◌, option_and_then};
ghost use Rattle.std.specs.Option.{option_copied};
ghost use Rattle.kc_word.specs.Hex.{hex_number};
ghost use Rattle.kc_notes.specs.Values.{value_of};
ghost use Rattle.kc_kallsyms.specs.Places.{line_key, place_in, places_in};

use crate::fault::{TableFault, TableLine};
use kc_notes::value;
use kc_word::read_hex;

/// The virtual addresses of the tables at run time, in bytes, and that of the kernel's text.
#[derive(Clone, Copy, Debug, PartialEq, Eq)]
pub struct Places {
    /// `kallsyms_num_syms`: how many symbols there are, in four bytes.
    pub count: u64,
    /// `kallsyms_relative_base`: the address that offsets count from, in eight bytes.
    pub base: u64,
    /// `kallsyms_offsets`: the offsets, four bytes each.
    pub offsets: u64,
    /// `kallsyms_token_index`: where each token begins in the table of tokens, two bytes each.
    pub index: u64,
    /// `kallsyms_token_table`: the tokens, each ended by a NUL.
    pub tokens: u64,
    /// `kallsyms_names`: the names, each a length and so many token numbers.
    pub names: u64,
    /// `_stext`: where the kernel's text begins.
    pub text: u64,
}

/// The key of a line.
pub fn line_key(line: TableLine) -> &'static [u8]
    ensures { result.now ≡ line_key line }
{
    match line {
        TableLine::Count => b"SYMBOL(kallsyms_num_syms)",
        TableLine::Base => b"SYMBOL(kallsyms_relative_base)",
        TableLine::Offsets => b"SYMBOL(kallsyms_offsets)",
        TableLine::Index => b"SYMBOL(kallsyms_token_index)",
        TableLine::Tokens => b"SYMBOL(kallsyms_token_table)",
        TableLine::Names => b"SYMBOL(kallsyms_names)",
        TableLine::Text => b"SYMBOL(_stext)",
    }
}

// The address that a text writes in hex, where there is one.
fn read_place(text: Option<&[u8]>) -> Option<u64>
    ensures { result ≡ option_and_then hex_number (option_copied text.entry) }
{
    read_hex(text?)
}

// The address that a line has.
#[tactic(auto, unfolding(crate::specs::Places::place_in))]
fn place_in(note: &[u8], line: TableLine) -> Result<u64, TableFault>
    ensures { result ≡ place_in note.now line }
{
    read_place(value(note, line_key(line))).ok_or(TableFault::S4(line))
}

/// The places that the text of VMCOREINFO tells.
///
/// # Errors
///
/// `S4` with the first line that is missing or has no hex number.
#[tactic(auto, unfolding(crate::specs::Places::places_in))]
pub fn places_in(note: &[u8]) -> Result<Places, TableFault>
    ensures { result ≡ places_in note.now }
{
    let count = place_in(note, TableLine::Count)?;
    let base = place_in(note, TableLine::Base)?;
    let offsets = place_in(note, TableLine::Offsets)?;
    let index = place_in(note, TableLine::Index)?;
    let tokens = place_in(note, TableLine::Tokens)?;
    let names = place_in(note, TableLine::Names)?;
    let text = place_in(note, TableLine::Text)?;
    Ok(Places {
        count,
        base,
        offsets,
        index,
        tokens,
        names,
        text,
    })
}
