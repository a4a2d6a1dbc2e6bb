// The rows of each part of the names.
ghost use Rattle.std.specs.Prelude.{◌≡◌, ◌≤◌, ℕ, List, [], ◌∷◌, ◌++◌, IfOk, OnOk, vec_len};
ghost use Rattle.std.specs.Str.{bytes_eq};
ghost use Rattle.kc_syms.specs.Listed.{listed, put_behind};

use crate::part::part_of;
use crate::row::Row;
use kc_word::NoMemory;
use std::alloc::Global;

// The 256 parts of the names, each with its rows in their order.
pub type Index<'a> = Vec<Vec<Row<'a>>>;

// A part has room for one row for each so many bytes of the map: a row takes about 40, which are 16 digits, a
// kind and two spaces, a newline, and a name, and there are 256 parts.
pub const BYTES_A_ROOM: usize = 40 * PARTS;

const PARTS: usize = 256;

// An index of no row, where each part has room for so many.
pub fn new_index<'a>(alloc: Global, room: usize) -> Result<Index<'a>, NoMemory>
    ensures parts { IfOk result (λ index. vec_len index ≡ 256) }
    ensures empty { IfOk result (λ index. (query : List ℕ) → listed index query ≡ []) }
{
    let mut index = Vec::with_capacity(alloc, PARTS)?;
    for _part in 0..PARTS {
        let part = Vec::with_capacity(alloc, room)?;
        index.push(part)?;
    }
    Ok(index)
}

// A row after those of its part.
pub fn add<'a>(index: &mut Index<'a>, row: Row<'a>) -> Result<(), NoMemory>
    requires { vec_len index.old ≡ 256 }
    ensures parts { vec_len index.new ≡ 256 }
    ensures put { OnOk result ((query : List ℕ) → listed index.new query ≡ put_behind (bytes_eq row.entry.name.now query) (listed index.old query) row.entry.listed) }
{
    put_last(&mut index[usize::from(part_of(row.name))], row)
}

// A row more.
fn put_last<'a>(rows: &mut Vec<Row<'a>>, row: Row<'a>) -> Result<(), NoMemory>
    ensures { OnOk result (rows.new.items ≡ rows.old.items ++ row.entry ∷ []) }
{
    rows.push(row)?;
    Ok(())
}
