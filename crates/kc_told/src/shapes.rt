// Where a kernel has what tells of an address.
ghost use Rattle.std.specs.Prelude.{◌≡◌, List, ℕ, Ok, IfOk, IfSome};
ghost use Rattle.kc_syms.specs.Answers.{Stands};
ghost use Rattle.kc_syms.specs.Rows.{RowText, rows};
ghost use Rattle.kc_syms.specs.Symbols.{symbol};
ghost use Rattle.kc_view.specs.TaskLists.{IsInside};
ghost use Rattle.kc_owner.specs.Area.Shapes.{area_shape};
ghost use Rattle.kc_kinds.specs.Kernels.{kernel};
ghost use Rattle.kc_module_symbols.specs.Shapes.{symbol_shape};
ghost use Rattle.kc_sight.specs.Nearest.{parts_by};
ghost use Rattle.kc_slab_scan.specs.CpuShapes.{cpu_shape};
ghost use Rattle.kc_told.specs.Objects.{kernel_with, page_words, shapes_by};
ghost use Rattle.kc_told.specs.SeenText.{map_symbols, symbols_by};
ghost use Rattle.kc_told.specs.Views.{shapes_view};

use crate::told::{PageWords, Shapes, Words};
use kc_btf::Btf;
use kc_frame::frame_shape;
use kc_kinds::Known;
use kc_layout::Names;
use kc_module_symbols::symbol_shape;
use kc_notes::Info;
use kc_owner::{area_shape, object_shape};
use kc_sight::{ImageMap, ImageParts, know_sights};
use kc_slab_page::slab_mark;
use kc_slab_scan::cpu_shape;
use kc_syms::Symbols;
use kc_word::NoMemory;
use std::alloc::Global;

// Where a kernel has the words of page descriptors and slab caches, by the text of its dump's VMCOREINFO.
fn page_words(known: &Known<'_>, note: &[u8]) -> Option<PageWords>
    ensures { result ≡ page_words (kernel known.now) note.now }
{
    Some(PageWords {
        objects: object_shape(known)?,
        mark: slab_mark(known, note),
        frame: frame_shape(known, note),
    })
}

// Where a kernel has the words that tell of an address.
fn words_in(
    alloc: Global,
    types: &Btf,
    symbols: &Symbols<'_>,
    info: Info,
    note: &[u8],
) -> Result<Words, NoMemory>
    ensures objects { IfOk result (λ words. words.objects ≡ page_words (kernel_with types.now (symbol symbols.now) info) note.now) }
    ensures cpus { IfOk result (λ words. words.cpus ≡ cpu_shape (kernel_with types.now (symbol symbols.now) info)) }
    ensures areas { IfOk result (λ words. words.areas ≡ area_shape (kernel_with types.now (symbol symbols.now) info)) }
    ensures symbols { IfOk result (λ words. words.symbols ≡ symbol_shape (kernel_with types.now (symbol symbols.now) info)) }
    ensures tasks { IfOk result (λ words. IfSome words.areas.stacks (λ shape. IsInside shape.tasks types.now)) }
{
    let names = Names::new(alloc, types)?;
    let known = Known {
        btf: types,
        names: &names,
        symbols,
        kaslr: info.kaslr,
        five: info.five,
    };
    Ok(Words {
        objects: page_words(&known, note),
        cpus: cpu_shape(&known),
        areas: area_shape(&known),
        symbols: symbol_shape(&known),
    })
}

// Where the parts of a kernel's image begin and end.
fn parts_in(symbols: &Symbols<'_>, kaslr: u64) -> ImageParts
    ensures { result ≡ parts_by kaslr (symbol symbols.now) }
{
    ImageParts {
        text_end: symbols.address(b"_etext", kaslr).ok(),
        end: symbols.address(b"_end", kaslr).ok(),
        init_start: symbols.address(b"__init_begin", kaslr).ok(),
        init_end: symbols.address(b"__init_end", kaslr).ok(),
    }
}

/// What tells of an address, by a kernel's types, by the text of its dump's VMCOREINFO, and by the symbols of its map, which has these bytes.
///
/// # Errors
///
/// No memory was left.
pub fn shapes_in<'m>(
    alloc: Global,
    types: &Btf,
    symbols: &Symbols<'_>,
    info: Info,
    note: &[u8],
    map: &'m [u8],
) -> Result<Shapes<'m>, NoMemory>
    ensures exact { IfOk result (λ shapes. (read : List RowText) → rows map.now ≡ Ok read → Stands (symbol symbols.now) read
        → shapes_view shapes ≡ shapes_by types.now read info note.now) }
    ensures symbols { IfOk result (λ shapes. (read : List RowText) → rows map.now ≡ Ok read → Stands (symbol symbols.now) read
        → map_symbols shapes.map ≡ symbols_by info.kaslr read) }
    ensures tasks { IfOk result (λ shapes. IfSome shapes.words.areas.stacks (λ shape. IsInside shape.tasks types.now)) }
{
    know_sights();
    let words = words_in(alloc, types, symbols, info, note)?;
    Ok(Shapes {
        words,
        map: ImageMap {
            map,
            kaslr: info.kaslr,
            parts: parts_in(symbols, info.kaslr),
        },
    })
}
