// What an object says it is.
ghost use Rattle.std.specs.Prelude.{◌≡◌, ◌++◌, Ok, OnOk};
ghost use Rattle.kc_memory.specs.Stays.{SpaceStays};
ghost use Rattle.kc_found.specs.Failures.{CountsFailures};
ghost use Rattle.kc_owner.specs.Known.{known};
ghost use Rattle.kc_sight.specs.Looks.{LooksAs};
ghost use Rattle.kc_told.specs.Inside.{object_at};
ghost use Rattle.kc_told.specs.Named.{cache_at, cache_with, named_by, named_in, named_line, task_at, task_by, task_with, text_at};

use crate::inside::{is_free, object_at};
use crate::told::{Kept, PageWords, Words};
use kc_btf::Btf;
use kc_found::{Found, Name, ReadFailed, WalkStop};
use kc_layout::Field;
use kc_memory::Space;
use kc_owner::{Held, StackShape, read_known, read_text, view_at};
use kc_sight::{read_word, word_start};
use kc_text::{push, push_name, push_numbered};
use kc_word::{NoMemory, Steps};
use std::alloc::Global;
use std::sync::ledger::Ledger;

// How many bytes of a cache's name are looked at.
const NAME: u8 = 64;

/// A task, as it says itself.
#[derive(Drop)]
pub struct TaskName {
    /// Its number.
    pub pid: u64,
    /// Its name, up to a NUL, or to a byte that can't be read.
    pub comm: Name,
}

/// What an object says it is.
#[derive(Drop)]
pub enum Named {
    /// A task (`struct task_struct`).
    Task(TaskName),
    /// A slab cache (`struct kmem_cache`), by its name: 64 bytes at most, up to a NUL, or to a byte that can't be read.
    Cache(Name),
}

// The number of a field of what lies at an address.
fn read_number<S: Space, L: Ledger>(
    alloc: Global,
    space: &mut S,
    types: &Btf,
    at: u64,
    field: &Option<Field>,
    steps: &mut Steps<L>,
) -> Result<Option<u64>, ReadFailed>
    ensures told { LooksAs (λ n. n) (λ image. known image at field.now) (S.image space.old) result }
    ensures stays { SpaceStays S.image S.files S.through S.most space.old space.new }
    ensures cause { CountsFailures result (S.faults space.old) (S.faults space.new) }
{
    match read_known(alloc, space, &view_at(types, at), field, steps) {
        Ok(number) => Ok(number),
        Err(WalkStop::NoMemory) => Err(ReadFailed::NoMemory),
        Err(WalkStop::Fault | WalkStop::Broken(_)) => Err(ReadFailed::Fault),
    }
}

// The text at an address, of so many bytes at most, where its first word can be read.
fn text_at<S: Space, L: Ledger>(
    alloc: Global,
    space: &mut S,
    at: u64,
    most: u8,
    steps: &mut Steps<L>,
) -> Result<Option<Name>, ReadFailed>
    ensures told { LooksAs (λ t. t) (λ image. text_at image most at) (S.image space.old) result }
    ensures stays { SpaceStays S.image S.files S.through S.most space.old space.new }
    ensures cause { CountsFailures result (S.faults space.old) (S.faults space.new) }
{
    let word = read_word(space, word_start(at), steps)?;
    let Ok(_) = word else {
        return Ok(None);
    };
    match read_text(alloc, space, at, most, steps) {
        Ok(text) => Ok(Some(text)),
        Err(WalkStop::NoMemory) => Err(ReadFailed::NoMemory),
        Err(WalkStop::Fault | WalkStop::Broken(_)) => Err(ReadFailed::Fault),
    }
}

fn task_with(pid: u64, comm: Option<Name>) -> Option<Named>
    ensures { result ≡ task_with pid comm }
{
    match comm {
        Some(comm) => Some(Named::Task(TaskName { pid, comm })),
        None => None,
    }
}

fn task_by<S: Space, L: Ledger>(
    alloc: Global,
    space: &mut S,
    shape: &StackShape,
    at: u64,
    pid: Option<u64>,
    steps: &mut Steps<L>,
) -> Result<Option<Named>, ReadFailed>
    ensures told { LooksAs (λ n. n) (λ image. task_by image shape.now at pid) (S.image space.old) result }
    ensures stays { SpaceStays S.image S.files S.through S.most space.old space.new }
    ensures cause { CountsFailures result (S.faults space.old) (S.faults space.new) }
{
    let Some(pid) = pid else {
        return Ok(None);
    };
    let comm = at.wrapping_add(shape.comm.byte);
    let comm = text_at(alloc, space, comm, shape.comm.count, steps)?;
    Ok(task_with(pid, comm))
}

// The task at an address.
fn task_at<S: Space, L: Ledger>(
    alloc: Global,
    space: &mut S,
    types: &Btf,
    shape: &Option<StackShape>,
    at: u64,
    steps: &mut Steps<L>,
) -> Result<Option<Named>, ReadFailed>
    ensures told { LooksAs (λ n. n) (λ image. task_at image shape.now at) (S.image space.old) result }
    ensures stays { SpaceStays S.image S.files S.through S.most space.old space.new }
    ensures cause { CountsFailures result (S.faults space.old) (S.faults space.new) }
{
    let Some(shape) = shape else {
        return Ok(None);
    };
    let pid = read_number(alloc, space, types, at, &Some(shape.tasks.pid), steps)?;
    task_by(alloc, space, shape, at, pid, steps)
}

fn cache_with(name: Option<Name>) -> Option<Named>
    ensures { result ≡ cache_with name }
{
    match name {
        Some(name) => Some(Named::Cache(name)),
        None => None,
    }
}

// The slab cache at an address.
fn cache_at<S: Space, L: Ledger>(
    alloc: Global,
    space: &mut S,
    types: &Btf,
    words: &Option<PageWords>,
    at: u64,
    steps: &mut Steps<L>,
) -> Result<Option<Named>, ReadFailed>
    ensures told { LooksAs (λ n. n) (λ image. cache_at image words.now at) (S.image space.old) result }
    ensures stays { SpaceStays S.image S.files S.through S.most space.old space.new }
    ensures cause { CountsFailures result (S.faults space.old) (S.faults space.new) }
{
    let Some(words) = words else {
        return Ok(None);
    };
    let name = read_number(alloc, space, types, at, &words.objects.name, steps)?;
    let Some(name) = name else {
        return Ok(None);
    };
    let name = text_at(alloc, space, name, NAME, steps)?;
    Ok(cache_with(name))
}

// What an object at an address says, by its cache's name.
fn named_by<S: Space, L: Ledger>(
    alloc: Global,
    space: &mut S,
    types: &Btf,
    words: &Words,
    cache: &[u8],
    at: u64,
    steps: &mut Steps<L>,
) -> Result<Option<Named>, ReadFailed>
    ensures told { LooksAs (λ n. n) (λ image. named_by image words.now.objects words.now.areas.stacks cache.now at) (S.image space.old) result }
    ensures stays { SpaceStays S.image S.files S.through S.most space.old space.new }
    ensures cause { CountsFailures result (S.faults space.old) (S.faults space.new) }
{
    if cache == b"task_struct".as_slice() {
        task_at(alloc, space, types, &words.areas.stacks, at, steps)
    } else if cache == b"kmem_cache".as_slice() {
        cache_at(alloc, space, types, &words.objects, at, steps)
    } else {
        Ok(None)
    }
}

// What the object that has an address says; one that is free says nothing.
pub(crate) fn tell_named<S: Space, L: Ledger>(
    alloc: Global,
    space: &mut S,
    types: &Btf,
    words: &Words,
    held: &Option<Result<Held, Found>>,
    kept: &Kept,
    steps: &mut Steps<L>,
) -> Result<Option<Named>, ReadFailed>
    ensures told { LooksAs (λ n. n) (λ image. named_in image words.now.objects words.now.areas.stacks kept.now (object_at held.now)) (S.image space.old) result }
    ensures stays { SpaceStays S.image S.files S.through S.most space.old space.new }
    ensures cause { CountsFailures result (S.faults space.old) (S.faults space.new) }
{
    let Some(inside) = object_at(held) else {
        return Ok(None);
    };
    if is_free(&inside.slab.free, kept) {
        return Ok(None);
    }
    let cache = inside.slab.cache.name.as_slice();
    let at = inside.object.first;
    named_by(alloc, space, types, words, cache, at, steps)
}

/// Adds the line of what an object says it is.
pub(crate) fn push_named(text: &mut Vec<u8>, named: &Option<Named>) -> Result<(), NoMemory>
    ensures { OnOk result (text.new.items ≡ text.old.items ++ named_line named.now) }
{
    match named {
        None => Ok(()),
        Some(Named::Task(task)) => {
            push_numbered(text, b"task ", task.pid)?;
            push(text, b" ")?;
            push_name(text, task.comm.as_slice())?;
            push(text, b"\n")
        }
        Some(Named::Cache(name)) => {
            push(text, b"names ")?;
            push_name(text, name.as_slice())?;
            push(text, b"\n")
        }
    }
}
