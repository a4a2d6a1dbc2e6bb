// What is printed.
ghost use Rattle.std.specs.Prelude.{◌≡◌, ◌++◌, IfOk, OnOk};
ghost use Rattle.kc_text.specs.Compose.{texts};
ghost use Rattle.kc_slab_page.specs.Caches.{caches_view};
ghost use Rattle.kc_slabs.specs.Looking.{seen_view, told_view};
ghost use Rattle.kc_slabs.specs.Text.{are_sound, broken_ring_text, byte_text, caches_text, count_text, cpu_text, expected_text, fault_text, frames_line, guard_code, name_in, objects_line, own_free_text, own_sound, own_text, owned_text, ring_text, rule_text, seen_text, slab_text, slabs_line, spoiled_text, told_text, totals_lines};

use crate::looking::{CpusSeen, SlabsSeen};
use kc_found::Found;
use kc_guard::{GuardRule, Spoiled};
use kc_report::{push_places, rule_code};
use kc_slab_page::{SlabCaches, SlabFault};
use kc_slab_scan::{BrokenCpu, BrokenSlab, CpuScan, Totals};
use kc_text::{push, push_hex, push_name_or_dash, push_numbered};
use kc_word::NoMemory;
use std::alloc::Global;

// The number that a rule asks for, where it names one.
fn push_expected(text: &mut Vec<u8>, expected: Option<u64>) -> Result<(), NoMemory>
    ensures { OnOk result (text.new.items ≡ text.old.items ++ expected_text expected) }
{
    let Some(number) = expected else {
        return Ok(());
    };
    push(text, b" expected ")?;
    push_hex(text, number)
}

// The rule that is broken, and the words that show it.
fn push_rule(text: &mut Vec<u8>, found: &Found) -> Result<(), NoMemory>
    ensures { OnOk result (text.new.items ≡ text.old.items ++ rule_text found.now) }
{
    push(text, rule_code(found.rule))?;
    push(text, b" at ")?;
    push_hex(text, found.at)?;
    push_expected(text, found.expected)?;
    push(text, b"\n")?;
    push_places(text, found.places.as_slice())
}

// The letters of a rule of the bytes that slub_debug keeps.
pub(crate) fn guard_code(rule: GuardRule) -> &'static [u8]
    ensures { result.now ≡ guard_code rule }
{
    match rule {
        GuardRule::Z1 => b"Z1",
        GuardRule::Z2 => b"Z2",
        GuardRule::Z3 => b"Z3",
        GuardRule::Z4 => b"Z4",
    }
}

// A byte that isn't as slub_debug keeps it.
fn push_byte(text: &mut Vec<u8>, spoiled: &Spoiled) -> Result<(), NoMemory>
    ensures { OnOk result (text.new.items ≡ text.old.items ++ byte_text spoiled.now) }
{
    push(text, guard_code(spoiled.rule))?;
    push(text, b" at ")?;
    push_hex(text, spoiled.at)?;
    push(text, b" expected ")?;
    push_hex(text, u64::from(spoiled.expected))
}

// The same with its object, and the word where it stands.
fn push_spoiled(text: &mut Vec<u8>, spoiled: &Spoiled) -> Result<(), NoMemory>
    ensures { OnOk result (text.new.items ≡ text.old.items ++ spoiled_text spoiled.now) }
{
    push_byte(text, spoiled)?;
    push(text, b" object ")?;
    push_hex(text, spoiled.object)?;
    push(text, b"\n")?;
    push_places(text, &[spoiled.place])
}

// What a slab breaks.
fn push_fault(text: &mut Vec<u8>, fault: &SlabFault) -> Result<(), NoMemory>
    ensures { OnOk result (text.new.items ≡ text.old.items ++ fault_text fault.now) }
{
    match fault {
        SlabFault::Words(found) => push_rule(text, found),
        SlabFault::Bytes(spoiled) => push_spoiled(text, spoiled),
    }
}

// The name of a cache, by its address.
pub(crate) fn name_in(caches: &SlabCaches, cache: u64) -> &[u8]
    ensures { result.now ≡ name_in (caches_view caches.now) cache }
{
    match caches.caches.get(&cache) {
        Some(seen) => seen.name.as_slice(),
        None => b"",
    }
}

// The lines of a slab that breaks a rule.
fn push_slab(text: &mut Vec<u8>, caches: &SlabCaches, broken: &BrokenSlab) -> Result<(), NoMemory>
    ensures { OnOk result (text.new.items ≡ text.old.items ++ slab_text (caches_view caches.now) broken.now) }
{
    push(text, b"slab ")?;
    push_hex(text, broken.slab)?;
    push(text, b" cache ")?;
    push_hex(text, broken.cache)?;
    push(text, b" ")?;
    push_name_or_dash(text, name_in(caches, broken.cache))?;
    push(text, b" broken ")?;
    push_fault(text, &broken.found)
}

fn push_broken(
    text: &mut Vec<u8>,
    caches: &SlabCaches,
    broken: &[BrokenSlab],
) -> Result<(), NoMemory>
    ensures { OnOk result (text.new.items ≡ text.old.items ++ texts (slab_text (caches_view caches.now)) broken.now) }
{
    for slab in broken {
        push_slab(text, caches, slab)?;
    }
    Ok(())
}

// The lines of a processor's slab that breaks a rule.
fn push_cpu(text: &mut Vec<u8>, caches: &SlabCaches, broken: &BrokenCpu) -> Result<(), NoMemory>
    ensures { OnOk result (text.new.items ≡ text.old.items ++ cpu_text (caches_view caches.now) broken.now) }
{
    push_numbered(text, b"processor ", broken.cpu)?;
    push(text, b" slab ")?;
    push_hex(text, broken.slab)?;
    push(text, b" cache ")?;
    push_hex(text, broken.cache)?;
    push(text, b" ")?;
    push_name_or_dash(text, name_in(caches, broken.cache))?;
    push(text, b" broken ")?;
    push_rule(text, &broken.found)
}

fn push_cpus(text: &mut Vec<u8>, caches: &SlabCaches, broken: &[BrokenCpu]) -> Result<(), NoMemory>
    ensures { OnOk result (text.new.items ≡ text.old.items ++ texts (cpu_text (caches_view caches.now)) broken.now) }
{
    for cpu in broken {
        push_cpu(text, caches, cpu)?;
    }
    Ok(())
}

// How many processors there may be, and how many slabs they own.
fn push_count(text: &mut Vec<u8>, count: u64, scan: &CpuScan) -> Result<(), NoMemory>
    ensures { OnOk result (text.new.items ≡ text.old.items ++ count_text count scan.now) }
{
    push_numbered(text, b"processors ", count)?;
    push_numbered(text, b" slabs ", scan.slabs)?;
    push_numbered(text, b" unread ", scan.unread)
}

// How many of these break a rule, and how many objects are free in the others.
fn push_own_free(text: &mut Vec<u8>, broken: u64, free: u64) -> Result<(), NoMemory>
    ensures { OnOk result (text.new.items ≡ text.old.items ++ own_free_text broken free) }
{
    push_numbered(text, b" broken ", broken)?;
    push_numbered(text, b" free ", free)?;
    push(text, b"\n")
}

// What processors have.
fn push_own(text: &mut Vec<u8>, caches: &SlabCaches, seen: &CpusSeen) -> Result<(), NoMemory>
    ensures { OnOk result (text.new.items ≡ text.old.items ++ own_text (caches_view caches.now) seen.now) }
{
    push_cpus(text, caches, seen.scan.broken.as_slice())?;
    push_count(text, seen.count, &seen.scan)?;
    push_own_free(text, seen.scan.broken.len() as u64, seen.scan.free)
}

// The same, or why it can't be told.
fn push_owned(
    text: &mut Vec<u8>,
    caches: &SlabCaches,
    cpus: &Option<Result<CpusSeen, Found>>,
) -> Result<(), NoMemory>
    ensures { OnOk result (text.new.items ≡ text.old.items ++ owned_text (caches_view caches.now) cpus.now) }
{
    match cpus {
        None => Ok(()),
        Some(Ok(seen)) => push_own(text, caches, seen),
        Some(Err(found)) => {
            push(text, b"processors unknown ")?;
            push_rule(text, found)
        }
    }
}

// The count of frames.
fn push_frames(text: &mut Vec<u8>, totals: &Totals) -> Result<(), NoMemory>
    ensures { OnOk result (text.new.items ≡ text.old.items ++ frames_line totals.now) }
{
    push_numbered(text, b"frames ", totals.frames)?;
    push_numbered(text, b" absent ", totals.absent)?;
    push_numbered(text, b" unmarked ", totals.unmarked)?;
    push_numbered(text, b" kfence ", totals.fenced)?;
    push(text, b"\n")
}

// That of slabs.
fn push_slabs(text: &mut Vec<u8>, totals: &Totals, broken: u64) -> Result<(), NoMemory>
    ensures { OnOk result (text.new.items ≡ text.old.items ++ slabs_line totals.now broken) }
{
    push_numbered(text, b"slabs ", totals.slabs)?;
    push_numbered(text, b" frozen ", totals.frozen)?;
    push_numbered(text, b" untold ", totals.untold)?;
    push_numbered(text, b" guarded ", totals.guarded)?;
    push_numbered(text, b" broken ", broken)?;
    push(text, b"\n")
}

// That of objects.
fn push_objects(text: &mut Vec<u8>, totals: &Totals) -> Result<(), NoMemory>
    ensures { OnOk result (text.new.items ≡ text.old.items ++ objects_line totals.now) }
{
    push_numbered(text, b"objects ", totals.objects)?;
    push_numbered(text, b" free ", totals.free)?;
    push(text, b"\n")
}

// The counts of frames, slabs and objects.
fn push_totals(text: &mut Vec<u8>, totals: &Totals, broken: u64) -> Result<(), NoMemory>
    ensures { OnOk result (text.new.items ≡ text.old.items ++ totals_lines totals.now broken) }
{
    push_frames(text, totals)?;
    push_slabs(text, totals, broken)?;
    push_objects(text, totals)
}

// What a ring of all caches that is broken breaks.
fn push_broken_ring(text: &mut Vec<u8>, found: &Found) -> Result<(), NoMemory>
    ensures { OnOk result (text.new.items ≡ text.old.items ++ broken_ring_text found.now) }
{
    push(text, b"caches broken ")?;
    push_rule(text, found)
}

// What the ring of all caches breaks.
fn push_ring(text: &mut Vec<u8>, broken: &Option<Found>) -> Result<(), NoMemory>
    ensures { OnOk result (text.new.items ≡ text.old.items ++ ring_text broken.now) }
{
    match broken {
        None => Ok(()),
        Some(found) => push_broken_ring(text, found),
    }
}

// The same, and how many caches there are.
fn push_caches(text: &mut Vec<u8>, caches: &SlabCaches) -> Result<(), NoMemory>
    ensures { OnOk result (text.new.items ≡ text.old.items ++ caches_text (caches_view caches.now)) }
{
    push_ring(text, &caches.broken)?;
    push_numbered(text, b"caches ", caches.caches.len() as u64)?;
    push(text, b"\n")
}

// The lines of what was seen.
fn push_seen(text: &mut Vec<u8>, seen: &SlabsSeen) -> Result<(), NoMemory>
    ensures { OnOk result (text.new.items ≡ text.old.items ++ seen_text (seen_view seen.now)) }
{
    push_broken(text, &seen.caches, seen.scan.broken.as_slice())?;
    push_owned(text, &seen.caches, &seen.cpus)?;
    push_caches(text, &seen.caches)?;
    push_totals(text, &seen.scan.totals, seen.scan.broken.len() as u64)
}

/// The text of what was seen of a dump's slabs, or of why its caches can't be told: the slabs that break a rule, and the counts.
pub(crate) fn told_text(alloc: Global, seen: &Result<SlabsSeen, Found>) -> Result<Vec<u8>, NoMemory>
    ensures { IfOk result (λ text. text.items ≡ told_text (told_view seen.now)) }
{
    let mut text = Vec::new(alloc);
    match seen {
        Ok(seen) => push_seen(&mut text, seen)?,
        Err(found) => {
            push(&mut text, b"caches unknown ")?;
            push_rule(&mut text, found)?;
        }
    }
    Ok(text)
}

// No processor's slab breaks a rule.
fn own_sound(cpus: &Option<Result<CpusSeen, Found>>) -> bool
    ensures { result ≡ own_sound cpus.now }
{
    match cpus {
        None => true,
        Some(Ok(seen)) => seen.scan.broken.len() == 0,
        Some(Err(_)) => false,
    }
}

/// Whether a dump's slabs are sound: at least one cache was looked at, their ring is whole, and no slab breaks a rule or is left out.
pub(crate) fn are_sound(seen: &Result<SlabsSeen, Found>) -> bool
    ensures { result ≡ are_sound (told_view seen.now) }
{
    match seen {
        Ok(seen) => {
            seen.scan.broken.len() == 0
                && seen.scan.totals.untold == 0
                && seen.caches.caches.len() != 0
                && own_sound(&seen.cpus)
                && seen.caches.broken.is_none()
        }
        Err(_) => false,
    }
}
