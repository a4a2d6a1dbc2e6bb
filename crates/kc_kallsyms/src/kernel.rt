// A kernel's map and its types, out of the memory of its dump.
ghost use Rattle.std.specs.Prelude.{◌≡◌, ◌+◌, ◌-◌, ◌≤◌, ◌^◌, Ok, Some, IfOk, IfSome, option_map};
ghost use Rattle.kc_memory.specs.Stays.{SpaceStays};
ghost use Rattle.kc_kallsyms.specs.Found.{FindsAs, IsFound};
ghost use Rattle.kc_kallsyms.specs.Map.{kernel_at, map_at};
ghost use Rattle.kc_kallsyms.specs.Reading.{CountsReadFaults, ReadsAs, wanted};
ghost use Rattle.kc_kallsyms.specs.Types.{address_by, size_between, types_at, types_between};
ghost use Rattle.kc_kallsyms.specs.Judged.{Judges};
ghost use Rattle.kc_kallsyms.specs.Marked.{head_in};
ghost use Rattle.kc_kallsyms.specs.Modules.{start_at, start_between};
ghost use Rattle.kc_kallsyms.specs.Views.{start_view};

use crate::bytes::read_bytes;
use crate::fault::{ModuleList, TableFault};
use crate::frame::{RowFrame, address, reading_by};
use crate::map::Lines;
use crate::marks::Marks;
use crate::places::Places;
use crate::stop::TableStop;
use crate::tabled::read_tables;
use crate::tables::Tables;
use crate::walk::walk_symbols;
use kc_memory::Space;
use kc_word::Steps;
use std::alloc::Global;
use std::sync::ledger::Ledger;

/// A kernel's tables, what the rows of its map are made by, and where its types and its lists of modules are.
#[derive(Debug, Drop)]
pub(crate) struct Kernel {
    pub tables: Tables,
    pub frame: RowFrame,
    pub marks: Marks,
}

// Reads the tables and all symbols, and finds the reading of their offsets.
fn find_kernel<S: Space, L: Ledger>(
    alloc: Global,
    space: &mut S,
    places: &Places,
    kaslr: u64,
    steps: &mut Steps<L>,
) -> Result<Kernel, TableStop>
    ensures kernel { FindsAs kaslr places.now (S.image space.old) result }
    ensures stays { SpaceStays S.image S.files S.through S.most space.old space.new }
    ensures cause { CountsReadFaults result (S.faults space.old) (S.faults space.new) }
{
    let tables = read_tables(alloc, space, places, steps)?;
    let mut marks = Marks {
        text: None,
        processors: None,
        start: None,
        end: None,
        loaded: None,
        typed: None,
    };
    walk_symbols(alloc, space, places, &tables, &mut marks, steps)?;
    let reading = reading_by(places.text, tables.base, marks.text).ok_or(TableFault::S9)?;
    let frame = RowFrame {
        reading,
        base: tables.base,
        kaslr,
        processors: marks.processors,
    };
    Ok(Kernel {
        tables,
        frame,
        marks,
    })
}

/// The map of a kernel as its build writes it, out of the symbol table that lies at these places of its dump's memory. KASLR moved the
/// kernel's image by `kaslr` bytes.
///
/// # Errors
///
/// A word that can't be read; the first of `S5` to `S9`; no memory was left.
pub fn read_map<S: Space, L: Ledger>(
    alloc: Global,
    space: &mut S,
    places: &Places,
    kaslr: u64,
    steps: &mut Steps<L>,
) -> Result<Vec<u8>, TableStop>
    ensures map { ReadsAs (λ text. text.items) (λ image. map_at image kaslr places.now) (S.image space.old) result }
    ensures stays { SpaceStays S.image S.files S.through S.most space.old space.new }
    ensures cause { CountsReadFaults result (S.faults space.old) (S.faults space.new) }
{
    let kernel = find_kernel(alloc, space, places, kaslr, steps)?;
    let mut lines = Lines {
        frame: kernel.frame,
        text: Vec::new(alloc),
    };
    walk_symbols(alloc, space, places, &kernel.tables, &mut lines, steps)?;
    Ok(lines.text)
}

// Where a symbol of an offset stands at run time. It has to be there.
fn address_by(frame: &RowFrame, offset: Option<u32>, fault: TableFault) -> Result<u64, TableFault>
    ensures { Judges (wanted fault (address_by frame.now offset)) result }
{
    match offset {
        Some(offset) => Ok(address(frame.reading, frame.base, offset)),
        None => Err(fault),
    }
}

// How many bytes a file of types has at most.
const MOST_BYTES: u64 = 1 << 26;

// How many bytes lie between two addresses.
fn size_between(start: u64, end: u64) -> Result<u64, TableFault>
    ensures { Judges (size_between start end) result }
{
    if start <= end && end - start <= MOST_BYTES {
        Ok(end - start)
    } else {
        Err(TableFault::S11)
    }
}

// The bytes from one symbol to another.
#[tactic(auto, unfolding(crate::specs::Types::types_between))]
fn read_between<S: Space, L: Ledger>(
    alloc: Global,
    space: &mut S,
    frame: &RowFrame,
    first: Option<u32>,
    last: Option<u32>,
    steps: &mut Steps<L>,
) -> Result<Vec<u8>, TableStop>
    ensures types { ReadsAs (λ bytes. bytes.items) (λ image. types_between image frame.now first last) (S.image space.old) result }
    ensures stays { SpaceStays S.image S.files S.through S.most space.old space.new }
    ensures cause { CountsReadFaults result (S.faults space.old) (S.faults space.new) }
{
    let start = address_by(frame, first, TableFault::S10)?;
    let end = address_by(frame, last, TableFault::S10)?;
    let size = size_between(start, end)?;
    read_bytes(alloc, space, start, size, steps)
}

/// The types of a kernel, the bytes from `__start_BTF` to `__stop_BTF`, by the symbol table that lies at these places of its dump's
/// memory.
///
/// # Errors
///
/// A word that can't be read; the first of `S5` to `S11`; no memory was left.
pub fn read_types<S: Space, L: Ledger>(
    alloc: Global,
    space: &mut S,
    places: &Places,
    kaslr: u64,
    steps: &mut Steps<L>,
) -> Result<Vec<u8>, TableStop>
    ensures types { ReadsAs (λ bytes. bytes.items) (λ image. types_at image kaslr places.now) (S.image space.old) result }
    ensures stays { SpaceStays S.image S.files S.through S.most space.old space.new }
    ensures cause { CountsReadFaults result (S.faults space.old) (S.faults space.new) }
{
    let kernel = find_kernel(alloc, space, places, kaslr, steps)?;
    let marks = kernel.marks;
    read_between(alloc, space, &kernel.frame, marks.start, marks.end, steps)
}

/// The types of a kernel, and where a list of its modules begins.
#[derive(Debug, Drop)]
pub struct ListStart {
    /// The bytes of the types.
    pub types: Vec<u8>,
    /// The virtual address of the list's head.
    pub head: u64,
}

// The types between two symbols, and a third symbol's address.
#[tactic(auto, unfolding(crate::specs::Modules::start_between))]
fn read_start<S: Space, L: Ledger>(
    alloc: Global,
    space: &mut S,
    frame: &RowFrame,
    marks: &Marks,
    list: ModuleList,
    steps: &mut Steps<L>,
) -> Result<ListStart, TableStop>
    ensures start { ReadsAs start_view (λ image. start_between image frame.now list marks.now.start marks.now.end (head_in marks.now list)) (S.image space.old) result }
    ensures stays { SpaceStays S.image S.files S.through S.most space.old space.new }
    ensures cause { CountsReadFaults result (S.faults space.old) (S.faults space.new) }
{
    let types = read_between(alloc, space, frame, marks.start, marks.end, steps)?;
    let head = address_by(frame, marks.head(list), TableFault::S13(list))?;
    Ok(ListStart { types, head })
}

/// The types of a kernel, as `read_types` gives them, and where a list of its modules begins.
///
/// # Errors
///
/// A word that can't be read; the first of `S5` to `S11`, or `S13`; no memory was left.
pub fn read_list_start<S: Space, L: Ledger>(
    alloc: Global,
    space: &mut S,
    places: &Places,
    kaslr: u64,
    list: ModuleList,
    steps: &mut Steps<L>,
) -> Result<ListStart, TableStop>
    ensures start { ReadsAs start_view (λ image. start_at image kaslr places.now list) (S.image space.old) result }
    ensures stays { SpaceStays S.image S.files S.through S.most space.old space.new }
    ensures cause { CountsReadFaults result (S.faults space.old) (S.faults space.new) }
{
    let kernel = find_kernel(alloc, space, places, kaslr, steps)?;
    read_start(alloc, space, &kernel.frame, &kernel.marks, list, steps)
}
