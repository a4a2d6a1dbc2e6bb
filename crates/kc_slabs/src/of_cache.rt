// What is seen of the slabs of a cache, in one line.
ghost use Rattle.std.specs.Prelude.{◌≡◌, ◌++◌, Ok, OnOk};
ghost use Rattle.kc_memory.specs.Stays.{SpaceStays};
ghost use Rattle.kc_found.specs.Walks.{CountsWalkFaults, OnBroken, WalksAs};
ghost use Rattle.kc_slab_page.specs.Caches.{caches_view};
ghost use Rattle.kc_slab_page.specs.Frames.Frames.{frames_of};
ghost use Rattle.std.specs.Option.{option_copied};
ghost use Rattle.kc_slabs.specs.Looking.{seen_in, seen_view, told_view};
ghost use Rattle.kc_slabs.specs.OfCache.{at_text, cache_line, fault_at, first_cpu, first_slab, name_at, of_cache, owned_count, owned_part, seen_line, slabs_part, unknown_line, why_text};

use crate::looking::{CpusSeen, EachSlab, SlabShapes, SlabsSeen, read_seen};
use crate::text::{guard_code, name_in};
use kc_btf::Btf;
use kc_found::{Found, Name, Space, WalkStop};
use kc_owner::{read_known, read_text, view_at};
use kc_report::rule_code;
use kc_slab_page::{FrameRun, SlabFault};
use kc_slab_scan::{BrokenCpu, BrokenSlab};
use kc_text::{push, push_hex, push_name_or_dash, push_numbered};
use kc_word::{NoMemory, Steps};
use std::alloc::Global;
use std::sync::ledger::Ledger;

// How many bytes of a name are looked at.
const NAME: u8 = 64;

/// A dump's page frames, and what tells which of them are slabs.
#[derive(Clone, Copy)]
pub struct SlabFrames<'f> {
    /// The kernel's types.
    pub btf: &'f Btf,
    /// Where the words stand that tell of slabs.
    pub shapes: &'f SlabShapes,
    /// The page frames, as runs.
    pub runs: &'f [FrameRun],
}

// The name of a cache.
fn read_name<S: Space, L: Ledger>(
    alloc: Global,
    space: &mut S,
    frames: &SlabFrames<'_>,
    cache: u64,
    steps: &mut Steps<L>,
) -> Result<Name, WalkStop>
    ensures exact { WalksAs (λ n. n) (λ i. Ok (name_at i frames.now.shapes.now cache)) (S.image space.old) result }
    ensures broken { OnBroken result ⊥ }
    ensures stays { SpaceStays S.image S.files S.through S.most space.old space.new }
    ensures cause { CountsWalkFaults result (S.faults space.old) (S.faults space.new) }
{
    let view = view_at(frames.btf, cache);
    let field = &frames.shapes.pages.objects.name;
    match read_known(alloc, space, &view, field, steps)? {
        Some(at) => read_text(alloc, space, at, NAME, steps),
        None => Ok(Name::new(alloc)),
    }
}

// What is seen of the slabs of the caches with a name.
fn see_named<S: Space, L: Ledger>(
    alloc: Global,
    space: &mut S,
    frames: &SlabFrames<'_>,
    wanted: Option<&[u8]>,
    steps: &mut Steps<L>,
) -> Result<SlabsSeen, WalkStop>
    ensures exact { WalksAs seen_view (λ i. seen_in i frames.now.shapes.now (option_copied wanted.entry) (frames_of frames.now.runs.now)) (S.image space.old) result }
    ensures stays { SpaceStays S.image S.files S.through S.most space.old space.new }
    ensures cause { CountsWalkFaults result (S.faults space.old) (S.faults space.new) }
{
    let asks = EachSlab {
        alloc,
        btf: frames.btf,
        shapes: frames.shapes,
        wanted,
        runs: frames.runs,
    };
    read_seen(space, &asks, steps)
}

/// What is seen of the slabs of the caches that have the name of a cache.
///
/// # Errors
///
/// The violation by a word that can't be read, of those that tell where page descriptors and physical memory begin; a failure of the space, whose count of faults then rose; or out of memory.
pub fn see_cache<S: Space, L: Ledger>(
    alloc: Global,
    space: &mut S,
    frames: &SlabFrames<'_>,
    cache: u64,
    steps: &mut Steps<L>,
) -> Result<SlabsSeen, WalkStop>
    ensures exact { WalksAs seen_view (λ i. of_cache i frames.now.shapes.now cache (frames_of frames.now.runs.now)) (S.image space.old) result }
    ensures stays { SpaceStays S.image S.files S.through S.most space.old space.new }
    ensures cause { CountsWalkFaults result (S.faults space.old) (S.faults space.new) }
{
    let name = read_name(alloc, space, frames, cache, steps)?;
    see_named(alloc, space, frames, Some(name.as_slice()), steps)
}

// A rule that is broken, and where.
fn push_at(text: &mut Vec<u8>, code: &[u8], at: u64) -> Result<(), NoMemory>
    ensures { OnOk result (text.new.items ≡ text.old.items ++ at_text code.now at) }
{
    push(text, b" first ")?;
    push(text, code)?;
    push(text, b" at ")?;
    push_hex(text, at)
}

fn push_fault_at(text: &mut Vec<u8>, fault: &SlabFault) -> Result<(), NoMemory>
    ensures { OnOk result (text.new.items ≡ text.old.items ++ fault_at fault.now) }
{
    match fault {
        SlabFault::Words(found) => push_at(text, rule_code(found.rule), found.at),
        SlabFault::Bytes(spoiled) => push_at(text, guard_code(spoiled.rule), spoiled.at),
    }
}

// That of the first of these slabs.
fn push_first_slab(text: &mut Vec<u8>, broken: &[BrokenSlab]) -> Result<(), NoMemory>
    ensures { OnOk result (text.new.items ≡ text.old.items ++ first_slab broken.now) }
{
    match broken {
        [first, ..] => push_fault_at(text, &first.found),
        [] => Ok(()),
    }
}

// That of the first of these slabs that processors own.
fn push_first_cpu(text: &mut Vec<u8>, broken: &[BrokenCpu]) -> Result<(), NoMemory>
    ensures { OnOk result (text.new.items ≡ text.old.items ++ first_cpu broken.now) }
{
    match broken {
        [first, ..] => push_at(text, rule_code(first.found.rule), first.found.at),
        [] => Ok(()),
    }
}

// How many of the slabs that processors own break a rule.
fn push_owned_count(text: &mut Vec<u8>, seen: &CpusSeen) -> Result<(), NoMemory>
    ensures { OnOk result (text.new.items ≡ text.old.items ++ owned_count seen.now) }
{
    push_numbered(text, b" processors ", seen.scan.slabs)?;
    push_numbered(text, b" broken ", seen.scan.broken.len() as u64)?;
    push_first_cpu(text, seen.scan.broken.as_slice())
}

// The same, where that is told.
fn push_owned_part(
    text: &mut Vec<u8>,
    cpus: &Option<Result<CpusSeen, Found>>,
) -> Result<(), NoMemory>
    ensures { OnOk result (text.new.items ≡ text.old.items ++ owned_part cpus.now) }
{
    match cpus {
        None => Ok(()),
        Some(Ok(seen)) => push_owned_count(text, seen),
        Some(Err(found)) => {
            push(text, b" processors unknown ")?;
            push(text, rule_code(found.rule))
        }
    }
}

// And of all slabs.
fn push_slabs_part(text: &mut Vec<u8>, seen: &SlabsSeen) -> Result<(), NoMemory>
    ensures { OnOk result (text.new.items ≡ text.old.items ++ slabs_part (seen_view seen.now)) }
{
    push_numbered(text, b"slabs ", seen.scan.totals.slabs)?;
    push_numbered(text, b" broken ", seen.scan.broken.len() as u64)?;
    push_first_slab(text, seen.scan.broken.as_slice())
}

fn push_seen_line(text: &mut Vec<u8>, cache: u64, seen: &SlabsSeen) -> Result<(), NoMemory>
    ensures { OnOk result (text.new.items ≡ text.old.items ++ seen_line cache (seen_view seen.now)) }
{
    push_slabs_part(text, seen)?;
    push_owned_part(text, &seen.cpus)?;
    push(text, b" cache ")?;
    push_name_or_dash(text, name_in(&seen.caches, cache))?;
    push(text, b"\n")
}

// Why the slabs can't be told.
fn push_why(text: &mut Vec<u8>, found: &Found) -> Result<(), NoMemory>
    ensures { OnOk result (text.new.items ≡ text.old.items ++ why_text found.now) }
{
    push(text, rule_code(found.rule))?;
    push(text, b" ")?;
    push_hex(text, found.at)?;
    push(text, b"\n")
}

fn push_unknown(text: &mut Vec<u8>, found: &Found) -> Result<(), NoMemory>
    ensures { OnOk result (text.new.items ≡ text.old.items ++ unknown_line found.now) }
{
    push(text, b"slabs unknown ")?;
    push_why(text, found)
}

/// Adds the line of what was seen of the slabs of a cache, or of why that can't be told: how many there are, how many break a rule, and the first.
///
/// # Errors
///
/// No memory was left.
pub fn push_cache_line(
    text: &mut Vec<u8>,
    cache: u64,
    seen: &Result<SlabsSeen, Found>,
) -> Result<(), NoMemory>
    ensures { OnOk result (text.new.items ≡ text.old.items ++ cache_line cache (told_view seen.now)) }
{
    match seen {
        Ok(seen) => push_seen_line(text, cache, seen),
        Err(found) => push_unknown(text, found),
    }
}
