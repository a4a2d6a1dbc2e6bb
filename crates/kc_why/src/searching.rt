// The search for a value in a dump.
ghost use Rattle.std.specs.Prelude.{◌≡◌, ⊤, ◌+◌, ◌≤◌, ◌^◌, map, max, false, IfOk, IfSome, OnErr, OnOk};
ghost use Rattle.std.specs.Bool.{OnTrue};
ghost use Rattle.std.specs.List.{All};
ghost use Rattle.kc_outside.specs.declared.store.Slot.TheVariants.{Dump};
ghost use Rattle.kc_outside.specs.Counts.{Rose};
ghost use Rattle.kc_outside.specs.Files.{content};
ghost use Rattle.kc_memory.specs.Stays.{SpaceStays};
ghost use Rattle.kc_phys.specs.Stored.{AreInside};
ghost use Rattle.kc_command.specs.Ends.Ends.{TookPrefix};
ghost use Rattle.kc_command.specs.Kernels.{kernel_view};
ghost use Rattle.kc_command.specs.Paging.{IsTable};
ghost use Rattle.kc_owner.specs.declared.object.keys.CacheKey.{CacheKey as Key};
ghost use Rattle.kc_text.specs.Compose.{texts};
ghost use Rattle.kc_sight.specs.Refs.Holding.{in_segments};
ghost use Rattle.kc_sight.specs.Refs.Stops.{Told};
ghost use Rattle.kc_refs.specs.Lines.{found_lines};
ghost use Rattle.kc_refs.specs.Progress.{goal_of, words_in};
ghost use Rattle.kc_refs.specs.Put.{Wrote};
ghost use Rattle.kc_refs.specs.Says.{CountsProgress, Says};
ghost use Rattle.kc_refs.specs.Stops.{CountsSink, CountsStore};
ghost use Rattle.kc_why.specs.Memory.{memory_of};
ghost use Rattle.kc_why.specs.Searching.{IsThere, direct_in, keys_in, keys_of, sought_by};
ghost use Rattle.kc_found.specs.Failures.{CountsFailures};

use crate::written::keys_in;
use kc_btf::Btf;
use kc_command::{Kernel, paging_by};
use kc_found::{Found, ReadFailed, Space, WalkStop};
use kc_outside::{Sink, Store};
use kc_owner::{CacheKey, FreeKeys, ObjectShape, free_keys};
use kc_phys::{Phys, Room};
use kc_question::{Question, Returned, ask_over};
use kc_refs::{RefsStop, Search, put_words};
use kc_sight::Sought;
use kc_word::{NoMemory, Segment, Steps, Tail};
use std::alloc::Global;
use std::sync::ledger::Ledger;

/// What free pointers are encoded with, or why that can't be told, where the kernel has what it asks for.
pub(crate) type ToldKeys = Option<Result<FreeKeys, Found>>;

// What free pointers are encoded with.
fn read_told<S: Space, L: Ledger>(
    alloc: Global,
    space: &mut S,
    types: &Btf,
    shape: &Option<ObjectShape>,
    steps: &mut Steps<L>,
) -> Result<ToldKeys, ReadFailed>
    ensures told { IfOk result (λ told. IfSome (S.image space.old) (λ i. told ≡ keys_of i shape.now)) }
    ensures stays { SpaceStays S.image S.files S.through S.most space.old space.new }
    ensures cause { CountsFailures result (S.faults space.old) (S.faults space.new) }
{
    let Some(shape) = shape else {
        return Ok(None);
    };
    match free_keys(alloc, space, types, shape, steps) {
        Ok(keys) => Ok(Some(Ok(keys))),
        Err(WalkStop::Broken(found)) => Ok(Some(Err(found))),
        Err(WalkStop::Fault) => Err(ReadFailed::Fault),
        Err(WalkStop::NoMemory) => Err(ReadFailed::NoMemory),
    }
}

// The question what free pointers are encoded with, to the memory of a dump.
#[derive(Drop)]
struct AsksKeys<'k> {
    alloc: Global,
    types: &'k Btf,
    shape: &'k Option<ObjectShape>,
}

impl<'k> Question for AsksKeys<'k> {
    type Answer = Result<ToldKeys, ReadFailed>;

    ghost may = { λ _. ⊤ };

    ghost says = { λ of image answer. IfOk answer (λ told. told ≡ keys_of image of.shape.now) };

    ghost leaves = { λ _ answer before after. CountsFailures answer before after };

    fn ask<M: Space, L: Ledger>(
        &self,
        memory: &mut M,
        steps: &mut Steps<L>,
    ) -> Result<ToldKeys, ReadFailed> {
        read_told(self.alloc, memory, self.types, self.shape, steps)
    }
}

// Their random numbers.
fn randoms_of(alloc: Global, keys: &[CacheKey]) -> Result<Vec<u64>, NoMemory>
    ensures { IfOk result (λ randoms. randoms.items ≡ map (λ (k : Key). k.random) keys.now) }
{
    let mut randoms = Vec::new(alloc);
    for key in keys {
        randoms.push(key.random)?;
    }
    Ok(randoms)
}

// What is looked for.
fn sought_by(alloc: Global, value: u64, told: &ToldKeys) -> Result<Sought, NoMemory>
    ensures { IfOk result (λ sought. sought ≡ sought_by value told.now) }
{
    let randoms = randoms_of(alloc, keys_in(told))?;
    Sought::new(alloc, value, direct_in(told), randoms)
}

// Where the direct map begins, where free pointers are told.
fn direct_in(told: &ToldKeys) -> u64
    ensures { result ≡ direct_in told.now }
{
    match told {
        Some(Ok(free)) => free.direct,
        _ => 0,
    }
}

/// A search that can begin.
#[derive(Drop)]
pub(crate) struct Hunt {
    /// What free pointers are encoded with.
    pub told: ToldKeys,
    /// What is looked for.
    pub sought: Sought,
    /// Whether the segments lie in the dump still after it was asked, as they do wherever it is told.
    pub same: bool,
}

/// Asks the dump in slot Dump what its free pointers are encoded with, where the files of its kernel were read; a value is then looked for.
///
/// # Errors
///
/// A failed call of the store; no memory was left.
pub(crate) fn begin<S: Store>(
    alloc: Global,
    store: &mut S,
    kernel: &Kernel,
    shape: &Option<ObjectShape>,
    value: u64,
) -> Result<Hunt, ReadFailed>
    requires table { IsTable kernel.now.info.table }
    requires inside { AreInside (S.sizes store.old Dump) kernel.now.core.segments }

    ensures told { IfOk result (λ h. Told (content (S.files store.old) Dump (S.opened store.old Dump)) (λ bytes.
        h.told ≡ keys_of (memory_of (kernel_view kernel.now) bytes) shape.now)) }
    ensures sought { IfOk result (λ h. h.sought ≡ sought_by value h.told) }
    ensures inside { IfOk result (λ h. OnTrue h.same (AreInside (S.sizes store.new Dump) kernel.now.core.segments)) }
    ensures there { IfOk result (λ h. IsThere h.same (content (S.files store.old) Dump (S.opened store.old Dump))
        (content (S.files store.new) Dump (S.opened store.new Dump))) }
    ensures files { S.files store.new ≡ S.files store.old }
    ensures cause { CountsFailures result (S.faults store.old) (S.faults store.new) }
{
    let segments = kernel.core.segments();
    let room = Room::new(alloc, segments, Tail::Absent)?;
    let frames = Phys::over(store, room);
    let end = frames.end;
    let asks = AsksKeys {
        alloc,
        types: &kernel.types,
        shape,
    };
    let Returned { memory, answer } = ask_over(alloc, frames, paging_by(kernel.info), &asks);
    let same = memory.end == end;
    let _store = memory.into_store();
    let asked = answer?;
    let told = asked?;
    let sought = sought_by(alloc, value, &told)?;
    Ok(Hunt { told, sought, same })
}

/// Writes the words that are looked for, where the segments lie in the dump still, and tells how many they are; and how far the search is, where
/// that is to be told.
///
/// # Errors
///
/// A failed call of the store or of a sink; no memory was left.
pub(crate) fn put_found<S: Store, O: Sink, E: Sink>(
    alloc: Global,
    store: &mut S,
    segments: &[Segment],
    hunt: &Hunt,
    progress: bool,
    out: &mut O,
    err: &mut E,
) -> Result<u64, RefsStop>
    requires inside { OnTrue hunt.now.same (AreInside (S.sizes store.old Dump) segments.now) }
    requires below { All (λ s. s.paddr + max s.filesz s.memsz ≤ 2 ^ 64) segments.now }

    ensures wrote { OnTrue hunt.now.same (IfOk result (λ count. Told (content (S.files store.old) Dump (S.opened store.old Dump)) (λ bytes.
        Wrote (keys_in hunt.now.told) (in_segments hunt.now.sought bytes segments.now) (O.taken out.old) (O.taken out.new) count))) }
    ensures part { OnTrue hunt.now.same (OnErr result (Told (content (S.files store.old) Dump (S.opened store.old Dump)) (λ bytes.
        TookPrefix (O.taken out.old) (O.taken out.new) (texts (found_lines (keys_in hunt.now.told)) (in_segments hunt.now.sought bytes segments.now))))) }
    ensures says { OnTrue hunt.now.same (Says (goal_of progress segments.now) 0 (words_in segments.now) result (E.taken err.old) (E.taken err.new)) }
    ensures unsaid { hunt.now.same ≡ false → err.new ≡ err.old }
    ensures untold { progress ≡ false → err.new ≡ err.old }
    ensures files { S.files store.new ≡ S.files store.old }
    ensures store_counts { CountsStore result (S.faults store.old) (S.faults store.new) }
    ensures sink_counts { CountsSink O.taken O.faults O.asked result out.old out.new }
    ensures progress_counts { CountsProgress E.taken E.faults E.asked result err.old err.new }
{
    if !hunt.same {
        return Ok(0);
    }
    let search = Search {
        sought: &hunt.sought,
        keys: keys_in(&hunt.told),
        progress,
    };
    put_words(alloc, store, segments, &search, out, err)
}
