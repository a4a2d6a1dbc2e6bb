// The files of kslab, and what is seen of a dump's slabs.
ghost use Rattle.std.specs.Prelude.{◌≡◌, ◌≤◌, ◌+◌, ◌^◌, max, map, None, Some, option_map, IfOk, Ok};
ghost use Rattle.std.specs.List.{All};
ghost use Rattle.std.specs.Option.{ForSome, option_copied};
ghost use Rattle.std.specs.String.{string_bytes};
ghost use Rattle.kc_outside.specs.declared.store.Slot.{Slot};
ghost use Rattle.kc_outside.specs.declared.store.Slot.TheVariants.{Dump, Map};
ghost use Rattle.kc_outside.specs.Counts.{Rose};
ghost use Rattle.kc_outside.specs.Files.{content};
ghost use Rattle.kc_notes.specs.Notes.{text_in};
ghost use Rattle.kc_phys.specs.Stored.{AreInside};
ghost use Rattle.kc_syms.specs.Symbols.{symbol};
ghost use Rattle.kc_command.specs.declared.refusal.Refusal.TheVariants.{Notes};
ghost use Rattle.kc_command.specs.Halts.{NotStore, OnStore, UnlessStore};
ghost use Rattle.kc_command.specs.Made.{Is, Tells, checked};
ghost use Rattle.kc_command.specs.Paging.{IsTable};
ghost use Rattle.kc_command.specs.Slots.{IsAbout, RefusesAbout};
ghost use Rattle.kc_command.specs.Ends.Answers.{OnNone, OnStoreIn, PrintsOf, PrintsOfBytes, RefusesLast, Runs, StayBehind, UnlessStoreIn, written_by};
ghost use Rattle.kc_command.specs.Ends.Asked.{word_in};
ghost use Rattle.kc_slabs.specs.Looking.{told_view};
ghost use Rattle.kc_slabs.specs.OfCache.{slab_shapes};
ghost use Rattle.kc_slabs.specs.Slabs.{asking, kernel_with, seen_made, shape_made, slabs_asked, slabs_asks, slabs_made, slabs_view, slabs_written};

use crate::looking::{SlabShapes, SlabsSeen, look_at};
use crate::text::{are_sound, told_text};
use kc_btf::Btf;
use kc_command::{
    Answer, Halt, Refusal, VIEW_HEADERS, read_map, read_noted, read_symbols, read_types,
};
use kc_elf::Core;
use kc_found::Found;
use kc_kinds::Known;
use kc_layout::Names;
use kc_notes::{Info, vmcoreinfo};
use kc_outside::Store;
use kc_slab_page::page_shape;
use kc_slab_scan::cpu_shape;
use kc_syms::Symbols;
use kc_word::NoMemory;
use std::alloc::Global;

/// What is asked of a dump, with the files of its kernel.
#[derive(Clone, Copy)]
pub struct Asks<'w> {
    /// The name of the dump.
    pub dump: &'w str,
    /// The name of the file of types.
    pub btf: &'w str,
    /// The name of the map.
    pub map: &'w str,
    /// The name of the cache whose slabs are looked at, or `None` where all are.
    pub cache: Option<&'w [u8]>,
}

// What the words ask.
fn read(words: &[String]) -> Option<Asks<'_>>
    ensures asked { option_map slabs_view result ≡ slabs_asks (map string_bytes words.now) }
{
    match words {
        [dump, btf, map] => Some(Asks {
            dump: dump.as_str(),
            btf: btf.as_str(),
            map: map.as_str(),
            cache: None,
        }),
        [dump, btf, map, cache] => Some(Asks {
            dump: dump.as_str(),
            btf: btf.as_str(),
            map: map.as_str(),
            cache: Some(cache.as_str().as_bytes()),
        }),
        _ => None,
    }
}

/// Runs kslab on the words after its name: the first fault of the dump, the types or the map, else what is seen of the dump's slabs. `None`
/// where these aren't its words; the store isn't asked then.
pub fn run<S: Store>(alloc: Global, store: &mut S, words: &[String]) -> Option<Result<Answer, Halt>>
    requires { (slot : Slot) → ForSome (word_in (slabs_asks (map string_bytes words.now)) slot) (S.may store.old slot) }

    ensures output { Runs slabs_written (slabs_asks (map string_bytes words.now)) (S.files store.old) result
        (S.opened store.old) (S.opened store.new) }
    ensures unasked { OnNone result (S.asked store.new ≡ S.asked store.old) }
    ensures files { S.files store.new ≡ S.files store.old }
    ensures later { S.faults store.old ≤ S.faults store.new }
    ensures quiet { UnlessStoreIn result (S.faults store.new ≡ S.faults store.old) }
    ensures cause { OnStoreIn result (Rose (S.faults store.old) (S.faults store.new)) }
{
    let asks = read(words)?;
    Some(look_over(alloc, store, &asks))
}

// The answer to what is asked.
fn look_over<S: Store>(alloc: Global, store: &mut S, asks: &Asks<'_>) -> Result<Answer, Halt>
    requires dump { S.may store.old Dump asks.now.dump.now }
    requires btf { S.may store.old Slot.Btf asks.now.btf.now }
    requires map { S.may store.old Map asks.now.map.now }

    ensures output { PrintsOf slabs_written
        (λ files. slabs_made (option_copied asks.now.cache) (files Dump asks.now.dump.now) (files Slot.Btf asks.now.btf.now)
        (files Map asks.now.map.now)) (S.files store.old) result }
    ensures unopened { StayBehind (slabs_asked (asking asks.now)).named result (S.opened store.old)
        (S.opened store.new) }
    ensures files { S.files store.new ≡ S.files store.old }
    ensures later { S.faults store.old ≤ S.faults store.new }
    ensures quiet { UnlessStore result (S.faults store.new ≡ S.faults store.old) }
    ensures cause { OnStore result (Rose (S.faults store.old) (S.faults store.new)) }
{
    let noted = read_noted(alloc, store, VIEW_HEADERS, asks.dump)?;
    let note = read_note(&noted.core)?;
    let types = read_types(alloc, store, asks.btf)?;
    let map = read_map(alloc, store, asks.map)?;
    let files = Kernel {
        core: &noted.core,
        info: noted.info,
        note,
        types: &types,
        map: &map,
    };
    look_with(alloc, store, &files, asks)
}

// The text of a dump's VMCOREINFO.
fn read_note(core: &Core) -> Result<&[u8], Refusal>
    ensures made { Tells (λ note. note.now) (checked Notes (text_in core.now.notes)) result }
    ensures refused { IsAbout (Some Dump) result }
{
    Ok(vmcoreinfo(core)?)
}

// A dump and the files of its kernel, read.
#[derive(Clone, Copy)]
struct Kernel<'k> {
    core: &'k Core,
    info: Info,
    note: &'k [u8],
    types: &'k Btf,
    map: &'k [u8],
}

/// Where a kernel has what tells of its slabs, by its types, the symbols of its map and the text of its dump's VMCOREINFO, or `None` where it
/// lacks that.
///
/// # Errors
///
/// Out of memory.
pub fn slab_shapes(
    alloc: Global,
    types: &Btf,
    symbols: &Symbols<'_>,
    info: Info,
    note: &[u8],
) -> Result<Option<SlabShapes>, NoMemory>
    ensures { IfOk result (λ s. s ≡ slab_shapes (kernel_with types.now (symbol symbols.now) info) note.now) }
{
    let names = Names::new(alloc, types)?;
    let known = Known {
        btf: types,
        names: &names,
        symbols,
        kaslr: info.kaslr,
        five: info.five,
    };
    match page_shape(&known, note) {
        Some(pages) => Ok(Some(SlabShapes {
            pages,
            cpus: cpu_shape(&known),
        })),
        None => Ok(None),
    }
}

// The same, or the refusal of its types.
fn shape_of(
    alloc: Global,
    types: &Btf,
    symbols: &Symbols<'_>,
    info: Info,
    note: &[u8],
) -> Result<SlabShapes, Halt>
    ensures made { Is (λ s. s) (shape_made (kernel_with types.now (symbol symbols.now) info) note.now) result }
    ensures refused { RefusesAbout None result }
    ensures no_call { NotStore result }
{
    match slab_shapes(alloc, types, symbols, info, note)? {
        Some(shapes) => Ok(shapes),
        None => Err(Halt::Refused(Refusal::NoType)),
    }
}

// The answer over files that were read.
fn look_with<S: Store>(
    alloc: Global,
    store: &mut S,
    files: &Kernel<'_>,
    asks: &Asks<'_>,
) -> Result<Answer, Halt>
    requires table { IsTable files.now.info.table }
    requires inside { AreInside (S.sizes store.old Dump) files.now.core.now.segments }
    requires below { All (λ s. s.paddr + max s.filesz s.memsz ≤ 2 ^ 64) files.now.core.now.segments }

    ensures output { PrintsOfBytes slabs_written
        (λ bytes. seen_made (option_copied asks.now.cache) bytes files.now.core.now.segments files.now.info files.now.note.now files.now.types.now files.now.map.now)
        (content (S.files store.old) Dump (S.opened store.old Dump)) result }
    ensures last { RefusesLast (slabs_asked (asking asks.now)).named result }
    ensures files { S.files store.new ≡ S.files store.old }
    ensures later { S.faults store.old ≤ S.faults store.new }
    ensures quiet { UnlessStore result (S.faults store.new ≡ S.faults store.old) }
    ensures cause { OnStore result (Rose (S.faults store.old) (S.faults store.new)) }
{
    let symbols = read_symbols(alloc, files.map)?;
    let shape = shape_of(alloc, files.types, &symbols, files.info, files.note)?;
    let seen = look_at(
        alloc,
        store,
        files.core,
        files.info,
        files.types,
        &shape,
        asks.cache,
    )?;
    Ok(answer_of(alloc, &seen)?)
}

// The answer of what was seen.
fn answer_of(alloc: Global, seen: &Result<SlabsSeen, Found>) -> Result<Answer, NoMemory>
    ensures { IfOk result (λ answer. written_by answer ≡ slabs_written (told_view seen.now)) }
{
    let text = told_text(alloc, seen)?;
    if are_sound(seen) {
        Ok(Answer::Done(text))
    } else {
        Ok(Answer::Broken(text))
    }
}
