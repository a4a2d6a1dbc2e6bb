// The symbols of a map.
ghost use Rattle.std.specs.Prelude.{◌≡◌, map};
ghost use Rattle.kc_syms.specs.Addresses.{at_run, common_of};
ghost use Rattle.kc_syms.specs.Agreement.{Agrees};
ghost use Rattle.kc_syms.specs.Answers.{IsAnswer, IsAnswerBySpelling};
ghost use Rattle.kc_syms.specs.Rows.{addresses, lines, rows};
ghost use Rattle.kc_syms.specs.Symbols.{symbol};
ghost use Rattle.kc_syms.specs.Views.{row_text};

use crate::fault::{SymFault, SymStop};
use crate::index::{BYTES_A_ROOM, Index, add, new_index};
use crate::part::part_of;
use crate::row::{Row, read_first};
use kc_word::know_hex;
use std::alloc::Global;

// The kernel's image is linked to stand at this address and above.
const IMAGE_START: u64 = 0xffff_ffff_8000_0000;

/// The symbols of a System.map: its rows, by parts of the names. Names stay parts of the file.
#[derive(Drop)]
pub struct Symbols<'a> {
    index: Index<'a>,
}

impl<'a> Symbols<'a> {
    /// The symbols of a System.map, as the kernel's build writes it.
    ///
    /// A row is a line of 16 lower-case hex digits, a space, an ASCII letter or `?`, a space, and a name of
    /// one or more bytes from 0x21 to 0x7e. A line ends at a newline, which goes with a carriage return
    /// directly before it; the last may be without one.
    ///
    /// # Errors
    ///
    /// `S1` with the number of the first line that is no row, from 1; an empty line is none either. `NoMemory`
    /// where no memory was left.
    pub fn read(alloc: Global, bytes: &'a [u8]) -> Result<Self, SymStop>
        ensures exact { IsAnswer result (rows bytes.now) }
        ensures spelled { IsAnswerBySpelling result (lines bytes.now) }
    {
        know_hex();
        let mut index = new_index(alloc, bytes.len() / BYTES_A_ROOM)?;
        let mut rest = bytes;
        let mut number = 1;
        while !rest.is_empty() {
            let Some((row, behind)) = read_first(rest) else {
                return Err(SymStop::S1(number));
            };
            add(&mut index, row)?;
            rest = behind;
            number += 1;
        }
        Ok(Symbols { index })
    }

    /// The address of a symbol at run time, where KASLR moved the kernel's image by `kaslr` bytes.
    ///
    /// A row's address at run time is the listed one plus `kaslr`, modulo 2^64, where the listed one is
    /// 0xffffffff80000000 or above, and else the listed one. It takes no memory, and
    /// looks at the rows of one part of the names, about one row in 256.
    ///
    /// # Errors
    ///
    /// `S2` where no row has the name, and `S3` where its rows have different addresses at run time: that of
    /// the first row, and that of the first row where it is another.
    #[tactic(auto, unfolding(crate::specs::Symbols::symbol))]
    pub fn address(&self, name: &[u8], kaslr: u64) -> Result<u64, SymFault>
        ensures exact { result ≡ common_of kaslr (symbol self.now name.now) }
        ensures agrees { Agrees kaslr (symbol self.now name.now) result }
    {
        match self.index.get(usize::from(part_of(name))) {
            Some(rows) => common(rows, name, kaslr),
            None => Err(SymFault::S2),
        }
    }
}

// The address that the rows of a name have in common.
fn common(rows: &[Row<'_>], name: &[u8], kaslr: u64) -> Result<u64, SymFault>
    ensures { result ≡ common_of kaslr (addresses name.now (map row_text rows.now)) }
{
    let mut found = None;
    for row in rows {
        if row.name == name {
            let address = at_run(row.listed, kaslr);
            match found {
                Some(first) if first != address => return Err(SymFault::S3(first, address)),
                Some(_) => {}
                None => found = Some(address),
            }
        }
    }
    found.ok_or(SymFault::S2)
}

// Where a listed address is at run time.
fn at_run(listed: u64, kaslr: u64) -> u64
    ensures { result ≡ at_run kaslr listed }
{
    if listed >= IMAGE_START {
        listed.wrapping_add(kaslr)
    } else {
        listed
    }
}
