// A symbol.
ghost use Rattle.std.specs.Prelude.{◌≡◌, ◌&&◌, nat_lt, is_some, length};
ghost use Rattle.kc_word.specs.Answers.{Gives};
ghost use Rattle.kc_syms.specs.Rows.{is_kind, is_name_byte, name_in};
ghost use Rattle.std.specs.List.{list_all};
ghost use Rattle.kc_kallsyms.specs.Symbols.{symbol_of};
ghost use Rattle.kc_kallsyms.specs.Views.{symbol_view};

use crate::fault::TableFault;

/// A symbol of the kernel's own table.
#[derive(Clone, Copy, Debug, PartialEq, Eq)]
pub struct Symbol<'t> {
    /// The letter of its kind.
    pub letter: u8,
    /// Its name, of 1 to 511 visible bytes.
    pub name: &'t [u8],
    /// The offset from which its address is made.
    pub offset: u32,
}

// How many bytes a name has at most (KSYM_NAME_LEN of include/linux/kallsyms.h, with a NUL).
const NAME_BYTES: usize = 512;

// The kind of a symbol.
fn is_kind(c: u8) -> bool
    ensures { result ≡ is_kind c }
{
    c.is_ascii_alphabetic() || c == b'?'
}

// A byte of a name.
fn is_name_byte(c: u8) -> bool
    ensures { result ≡ is_name_byte c }
{
    matches!(c, b'!'..=b'~')
}

// All are bytes of a name.
fn are_name_bytes(text: &[u8]) -> bool
    ensures { result ≡ list_all is_name_byte text.now }
{
    text.iter().all(|c| is_name_byte(*c))
}

// A name that can be.
fn is_name(text: &[u8]) -> bool
    ensures { result ≡ (is_some (name_in text.now) && nat_lt (length text.now) 512) }
{
    !text.is_empty() && text.len() < NAME_BYTES && are_name_bytes(text)
}

/// The symbol with this number that a text and an offset make: the text is its letter and its name.
///
/// # Errors
///
/// `S7` or `S8` with the number.
#[tactic(auto, unfolding(crate::specs::Symbols::symbol_of))]
pub(crate) fn symbol_of(number: u32, text: &[u8], offset: u32) -> Result<Symbol<'_>, TableFault>
    ensures { Gives symbol_view result (symbol_of number text.now offset) }
{
    match text {
        [] => Err(TableFault::S7(number)),
        [letter, name @ ..] => {
            if !is_kind(*letter) {
                return Err(TableFault::S8(number));
            }
            if !is_name(name) {
                return Err(TableFault::S7(number));
            }
            Ok(Symbol {
                letter: *letter,
                name,
                offset,
            })
        }
    }
}
