// What is told of an address, beside what is seen of it.
ghost use Rattle.std.specs.Prelude.{◌≡◌, map, option_map, Ok, IfOk, IfSome};
ghost use Rattle.kc_memory.specs.Stays.{SpaceStays};
ghost use Rattle.kc_memory.specs.Translation.{vword};
ghost use Rattle.kc_found.specs.FreeLists.{IsGrid};
ghost use Rattle.kc_view.specs.TaskLists.{IsInside};
ghost use Rattle.kc_owner.specs.Area.Areas.{areas};
ghost use Rattle.kc_sight.specs.Aliases.{aliases};
ghost use Rattle.kc_sight.specs.Looks.{FaultsAfter, LooksAs, words};
ghost use Rattle.kc_sight.specs.Sights.{near, page_start, word_start};
ghost use Rattle.kc_sight.specs.Views.{symbol_view, symbols_holding};
ghost use Rattle.kc_told.specs.Near.{near_of};
ghost use Rattle.kc_told.specs.Objects.{areas_by, as_marked, grid_in, held_by, holders_by, is_slab, kept_by, marked_held, shared, shared_in, sought, sought_at, sought_free, told_by, told_of};
ghost use Rattle.kc_told.specs.Views.{shapes_view, told_view};
ghost use Rattle.kc_found.specs.Failures.{CountsFailures};

use crate::framed::tell_frame;
use crate::module_symbol::tell_symbol;
use crate::named::{Named, tell_named};
use crate::near::{NearWord, near_words};
use crate::object_text::NEGATIVE;
use crate::span::{Bounds, span_at};
use kc_btf::Btf;
use kc_found::{Found, Grid, ReadFailed, WalkStop};
use kc_frame::{FrameShape, FrameWords};
use kc_memory::Space;
use kc_module_symbols::{ModuleSymbol, SymbolShape};
use kc_owner::{
    AreaShape, Areas, Cache, Held, ObjectShape, Slab, Spot, find_object, read_areas, view_at,
};
use kc_sight::{
    ImageMap, Rules, Seen, Sight, Symbol, TableEntry, find_holders, read_sight, read_word,
    read_words, word_start,
};
use kc_slab_page::{Mark, is_laid, read_mark};
use kc_slab_scan::{CpuShape, CpuSpot, SlabObject, find_spot};
use kc_word::Steps;
use std::alloc::Global;
use std::sync::ledger::Ledger;

/// Where a kernel has the words of page descriptors and slab caches, and its mark of a slab.
#[derive(Clone, Copy)]
pub struct PageWords {
    /// Those words.
    pub objects: ObjectShape,
    /// How it marks a slab's first page, where its types and the notes of its dump tell it.
    pub mark: Option<Mark>,
    /// The words of a page's descriptor, where it has `struct page`.
    pub frame: Option<FrameShape>,
}

/// Where a kernel has the words that tell of an address.
#[derive(Clone, Copy)]
pub struct Words {
    /// Those of page descriptors and slab caches, where it has all that these ask for.
    pub objects: Option<PageWords>,
    /// Those that tell which slabs processors own, where it has them.
    pub cpus: Option<CpuShape>,
    /// Those of areas.
    pub areas: AreaShape,
    /// Those of the symbols of modules, where it has them.
    pub symbols: Option<SymbolShape>,
}

impl Words {
    /// Those of page descriptors and slab caches by themselves.
    pub fn object_shape(&self) -> Option<ObjectShape>
        ensures { result ≡ option_map (λ w. w.objects) self.now.objects }
    {
        Some(self.objects?.objects)
    }
}

/// What tells of an address.
#[derive(Clone, Copy)]
pub struct Shapes<'m> {
    /// The kernel's words.
    pub words: Words,
    /// The symbols of its map.
    pub map: ImageMap<'m>,
}

/// Where a processor's own free list has an object, which none may have, or why that can't be told; `None` where it isn't asked for.
pub type Kept = Option<Result<Option<CpuSpot>, Found>>;

/// What is told of an address.
#[derive(Drop)]
pub struct Told<'m> {
    /// The areas in which it lies; of an address of the image none is asked for.
    pub areas: Areas,
    /// The symbol of its module that stands nearest below it, where one is told.
    pub symbol: Option<ModuleSymbol>,
    /// What holds it, or why its page can't be told; `None` where its word can't be read, or the kernel lacks what that asks for.
    pub held: Option<Result<Held, Found>>,
    /// What its page's descriptor says, where that page is told.
    pub frame: Option<FrameWords>,
    /// Where a processor's own free list has the object. It is asked for where a processor owns the slab, whose own free list doesn't have it, and
    /// where the kernel has the words that tell it.
    pub kept: Kept,
    /// The symbols whose words hold the address of the object's cache, where this has several users.
    pub holders: Vec<Symbol<'m>>,
    /// What the object says it is, a task or a slab cache; one that is free, or whose words can't be read, says nothing.
    pub named: Option<Named>,
    /// Where words begin and end that say the same around it in its 4096 bytes: zeros, one of the kernel's bytes, or text.
    pub span: Option<Bounds>,
}

/// What is seen of an address, and what is told of it.
#[derive(Drop)]
pub struct Sighted<'m> {
    /// What is seen of it.
    pub sight: Sight,
    /// The words beside it, with what they lead to.
    pub near: Vec<NearWord>,
    /// What is told of it.
    pub told: Told<'m>,
}

// What holds an address, as the mark of its page has it.
fn as_marked(marked: Option<bool>, held: Held) -> Held
    ensures { result ≡ as_marked marked held }
{
    match marked {
        Some(false) => Held {
            page: held.page,
            slab: Ok(None),
        },
        _ => held,
    }
}

// The same, where the mark has to be read.
fn tell_marked<S: Space, L: Ledger>(
    alloc: Global,
    space: &mut S,
    types: &Btf,
    mark: &Option<Mark>,
    held: Held,
    steps: &mut Steps<L>,
) -> Result<Held, ReadFailed>
    ensures told { LooksAs (λ h. h) (λ image. marked_held image mark.now held) (S.image space.old) result }
    ensures stays { SpaceStays S.image S.files S.through S.most space.old space.new }
    ensures cause { CountsFailures result (S.faults space.old) (S.faults space.new) }
{
    let Some(mark) = mark else {
        return Ok(held);
    };
    let view = view_at(types, held.page.head);
    match read_mark(alloc, space, &view, mark, steps) {
        Ok(marked) => Ok(as_marked(marked, held)),
        Err(WalkStop::NoMemory) => Err(ReadFailed::NoMemory),
        Err(WalkStop::Fault | WalkStop::Broken(_)) => Err(ReadFailed::Fault),
    }
}

// What holds an address, by its word.
pub(crate) fn tell_held<S: Space, L: Ledger>(
    alloc: Global,
    space: &mut S,
    types: &Btf,
    words: &Option<PageWords>,
    address: u64,
    word: &Seen,
    steps: &mut Steps<L>,
) -> Result<Option<Result<Held, Found>>, ReadFailed>
    ensures told { LooksAs (λ t. t) (λ image. held_by image words.now address word.now) (S.image space.old) result }
    ensures stays { SpaceStays S.image S.files S.through S.most space.old space.new }
    ensures cause { CountsFailures result (S.faults space.old) (S.faults space.new) }
{
    let Some(words) = words else {
        return Ok(None);
    };
    let Ok(word) = word else {
        return Ok(None);
    };
    let pa = word.pa.wrapping_add(address % 8);
    match find_object(alloc, space, types, &words.objects, pa, steps) {
        Ok(held) => {
            let held = tell_marked(alloc, space, types, &words.mark, held, steps)?;
            Ok(Some(Ok(held)))
        }
        Err(WalkStop::Broken(found)) => Ok(Some(Err(found))),
        Err(WalkStop::Fault) => Err(ReadFailed::Fault),
        Err(WalkStop::NoMemory) => Err(ReadFailed::NoMemory),
    }
}

// Whether a slab holds an address.
fn is_slab(held: &Option<Result<Held, Found>>) -> bool
    ensures { result ≡ is_slab held.now }
{
    match held {
        Some(Ok(held)) => matches!(&held.slab, Ok(Some(_))),
        _ => false,
    }
}

// The address of a cache that has several users.
fn shared(cache: &Cache) -> Option<u64>
    ensures { result ≡ shared cache.now }
{
    match cache.users {
        Some(users) if 1 < users && users < NEGATIVE => Some(cache.at),
        _ => None,
    }
}

// The address of a slab's cache, where it has several users.
fn shared_in(held: &Option<Result<Held, Found>>) -> Option<u64>
    ensures { result ≡ shared_in held.now }
{
    let Some(Ok(held)) = held else {
        return None;
    };
    match &held.slab {
        Ok(Some(slab)) => shared(&slab.cache),
        _ => None,
    }
}

// Where the objects of a slab lie.
fn grid_in(slab: &Slab) -> Grid
    ensures { result ≡ grid_in slab.now }
{
    let objects = &slab.objects;
    Grid {
        base: slab.first.wrapping_add(objects.left_pad),
        size: objects.size,
        objects: slab.counts.objects,
        offset: objects.offset,
        random: objects.random,
    }
}

// The object of a slab for which processors are asked.
fn sought_at(head: u64, slab: &Slab) -> Option<SlabObject>
    ensures exact { result ≡ sought_at head slab.now slab.now.spot }
    ensures grid { IfSome result (λ o. IsGrid o.grid) }
{
    let Spot::Object(object) = &slab.spot else {
        return None;
    };
    if !is_laid(slab.objects) {
        return None;
    }
    Some(SlabObject {
        cache: slab.cache.at,
        slab: head,
        grid: grid_in(slab),
        object: object.first,
    })
}

// The same where a processor owns the slab, whose own free list doesn't have the object.
fn sought_free(head: u64, slab: &Slab) -> Option<SlabObject>
    ensures exact { result ≡ sought_free head slab.now slab.now.free }
    ensures grid { IfSome result (λ o. IsGrid o.grid) }
{
    match &slab.free {
        Ok(free) if slab.counts.frozen && free.place.is_none() => sought_at(head, slab),
        _ => None,
    }
}

// The object at an address for which processors are asked.
pub(crate) fn sought(held: &Option<Result<Held, Found>>) -> Option<SlabObject>
    ensures exact { result ≡ sought held.now }
    ensures grid { IfSome result (λ o. IsGrid o.grid) }
{
    let Some(Ok(held)) = held else {
        return None;
    };
    match &held.slab {
        Ok(Some(slab)) => sought_free(held.page.head, slab),
        _ => None,
    }
}

// Where a processor's own free list has it.
pub(crate) fn tell_kept<S: Space, L: Ledger>(
    alloc: Global,
    space: &mut S,
    types: &Btf,
    shape: &Option<CpuShape>,
    object: Option<SlabObject>,
    steps: &mut Steps<L>,
) -> Result<Kept, ReadFailed>
    requires { IfSome object (λ o. IsGrid o.grid) }
    ensures told { LooksAs (λ k. k) (λ image. kept_by image shape.now object) (S.image space.old) result }
    ensures stays { SpaceStays S.image S.files S.through S.most space.old space.new }
    ensures cause { CountsFailures result (S.faults space.old) (S.faults space.new) }
{
    let Some(object) = object else {
        return Ok(None);
    };
    let Some(shape) = shape else {
        return Ok(None);
    };
    match find_spot(alloc, space, types, shape, &object, steps) {
        Ok(spot) => Ok(Some(Ok(spot))),
        Err(WalkStop::Broken(why)) => Ok(Some(Err(why))),
        Err(WalkStop::Fault) => Err(ReadFailed::Fault),
        Err(WalkStop::NoMemory) => Err(ReadFailed::NoMemory),
    }
}

// The areas in which an address lies, which isn't one of the image.
fn tell_areas<S: Space, L: Ledger>(
    alloc: Global,
    space: &mut S,
    types: &Btf,
    shape: &AreaShape,
    stacks: bool,
    address: u64,
    steps: &mut Steps<L>,
) -> Result<Areas, ReadFailed>
    requires { IfSome shape.now.stacks (λ shape. IsInside shape.tasks types.now) }
    ensures told { LooksAs (λ a. a) (λ image. areas image shape.now stacks address) (S.image space.old) result }
    ensures stays { SpaceStays S.image S.files S.through S.most space.old space.new }
    ensures cause { CountsFailures result (S.faults space.old) (S.faults space.new) }
{
    match read_areas(alloc, space, types, shape, stacks, address, steps) {
        Ok(areas) => Ok(areas),
        Err(WalkStop::NoMemory) => Err(ReadFailed::NoMemory),
        Err(WalkStop::Fault | WalkStop::Broken(_)) => Err(ReadFailed::Fault),
    }
}

// The same of any address; in the image no area is asked for.
fn tell_outside<S: Space, L: Ledger>(
    alloc: Global,
    space: &mut S,
    types: &Btf,
    shapes: &Shapes<'_>,
    address: u64,
    held: &Option<Result<Held, Found>>,
    steps: &mut Steps<L>,
) -> Result<Areas, ReadFailed>
    requires { IfSome shapes.now.words.areas.stacks (λ shape. IsInside shape.tasks types.now) }
    ensures told { LooksAs (λ a. a) (λ image. areas_by image (shapes_view shapes.now) address held.now) (S.image space.old) result }
    ensures stays { SpaceStays S.image S.files S.through S.most space.old space.new }
    ensures cause { CountsFailures result (S.faults space.old) (S.faults space.new) }
{
    if shapes.map.parts.hold(address) {
        return Ok(Areas {
            module_found: Ok(None),
            processor_found: Ok(None),
            stack_found: Ok(None),
        });
    }
    let stacks = !is_slab(held);
    tell_areas(
        alloc,
        space,
        types,
        &shapes.words.areas,
        stacks,
        address,
        steps,
    )
}

// The symbols whose words hold the address of the object's cache, where this has several users.
fn tell_holders<'m, S: Space, L: Ledger>(
    alloc: Global,
    space: &mut S,
    symbols: &ImageMap<'m>,
    cache: Option<u64>,
    steps: &mut Steps<L>,
) -> Result<Vec<Symbol<'m>>, ReadFailed>
    ensures told { LooksAs (λ found. map symbol_view found.items) (λ image. holders_by (λ cache. symbols_holding image symbols.now cache) cache) (S.image space.old) result }
    ensures stays { SpaceStays S.image S.files S.through S.most space.old space.new }
    ensures cause { CountsFailures result (S.faults space.old) (S.faults space.new) }
{
    match cache {
        Some(cache) => find_holders(alloc, space, symbols, cache, steps),
        None => Ok(Vec::new(alloc)),
    }
}

// Where the 4096 bytes begin that have an address.
fn page_start(address: u64) -> u64
    ensures { result ≡ page_start address }
{
    address / 4096 * 4096
}

// The word that holds an address, and the words of its 4096 bytes.
#[derive(Clone, Copy)]
struct Around<'s> {
    word: &'s Seen,
    page: &'s [Seen],
}

// What is told of an address, by the words around it.
fn tell<'m, S: Space, L: Ledger>(
    alloc: Global,
    space: &mut S,
    types: &Btf,
    shapes: &Shapes<'m>,
    address: u64,
    around: &Around<'_>,
    steps: &mut Steps<L>,
) -> Result<Told<'m>, ReadFailed>
    requires { IfSome shapes.now.words.areas.stacks (λ shape. IsInside shape.tasks types.now) }
    ensures told { LooksAs told_view (λ image. told_by image (shapes_view shapes.now) address around.now.word.now around.now.page.now) (S.image space.old) result }
    ensures stays { SpaceStays S.image S.files S.through S.most space.old space.new }
    ensures cause { CountsFailures result (S.faults space.old) (S.faults space.new) }
{
    let words = &shapes.words;
    let word = around.word;
    let held = tell_held(alloc, space, types, &words.objects, address, word, steps)?;
    let frame = tell_frame(alloc, space, types, &words.objects, &held, steps)?;
    let areas = tell_outside(alloc, space, types, shapes, address, &held, steps)?;
    let found = &areas.module_found;
    let symbol = tell_symbol(alloc, space, types, &words.symbols, found, address, steps)?;
    let kept = tell_kept(alloc, space, types, &words.cpus, sought(&held), steps)?;
    let holders = tell_holders(alloc, space, &shapes.map, shared_in(&held), steps)?;
    let named = tell_named(alloc, space, types, words, &held, &kept, steps)?;
    Ok(Told {
        areas,
        symbol,
        held,
        frame,
        kept,
        holders,
        named,
        span: span_at(word, around.page),
    })
}

/// What is told of an address.
///
/// # Errors
///
/// A failure to read the dump; no memory was left.
pub fn read_told<'m, S: Space, L: Ledger>(
    alloc: Global,
    space: &mut S,
    types: &Btf,
    shapes: &Shapes<'m>,
    address: u64,
    steps: &mut Steps<L>,
) -> Result<Told<'m>, ReadFailed>
    requires { IfSome shapes.now.words.areas.stacks (λ shape. IsInside shape.tasks types.now) }
    ensures told { LooksAs told_view (λ image. told_of image (shapes_view shapes.now) address) (S.image space.old) result }
    ensures stays { SpaceStays S.image S.files S.through S.most space.old space.new }
    ensures cause { CountsFailures result (S.faults space.old) (S.faults space.new) }
{
    let word = read_word(space, word_start(address), steps)?;
    let page = read_words(alloc, space, page_start(address), 512, steps)?;
    let around = Around {
        word: &word,
        page: &page,
    };
    tell(alloc, space, types, shapes, address, &around, steps)
}

/// What is seen of an address, with the entries on the way to it, and what is told of it. Where the entries weren't read, it reads nothing.
///
/// # Errors
///
/// A failure to read the dump; no memory was left.
pub fn read_sighted<'m, S: Space, L: Ledger>(
    alloc: Global,
    space: &mut S,
    types: &Btf,
    shapes: &Shapes<'m>,
    address: u64,
    rules: &Rules,
    entries: Result<Vec<TableEntry>, ReadFailed>,
    steps: &mut Steps<L>,
) -> Result<Sighted<'m>, ReadFailed>
    requires { IfSome shapes.now.words.areas.stacks (λ shape. IsInside shape.tasks types.now) }
    ensures address { IfOk result (λ s. s.sight.address ≡ address) }
    ensures entries { IfOk result (λ s. entries ≡ Ok s.sight.entries) }
    ensures word { LooksAs (λ s. s.sight.word) (λ image. vword image (word_start address)) (S.image space.old) result }
    ensures aliases { LooksAs (λ s. s.sight.aliases) (λ image. aliases image rules.now (vword image (word_start address))) (S.image space.old) result }
    ensures near { LooksAs (λ s. s.sight.near.items) (λ image. near image address) (S.image space.old) result }
    ensures page { LooksAs (λ s. s.sight.page.items) (λ image. words image (page_start address) 512) (S.image space.old) result }
    ensures told { LooksAs (λ s. told_view s.told) (λ image. told_of image (shapes_view shapes.now) address) (S.image space.old) result }
    ensures leads { LooksAs (λ s. s.near.items) (λ image. near_of image (shapes_view shapes.now) address) (S.image space.old) result }
    ensures stays { SpaceStays S.image S.files S.through S.most space.old space.new }
    ensures cause { FaultsAfter entries result (S.faults space.old) (S.faults space.new) }
{
    let sight = read_sight(alloc, space, address, rules, entries, steps)?;
    let near = near_words(alloc, space, types, &shapes.words, &sight.near, steps)?;
    let around = Around {
        word: &sight.word,
        page: &sight.page,
    };
    let told = tell(alloc, space, types, shapes, address, &around, steps)?;
    Ok(Sighted { sight, near, told })
}
