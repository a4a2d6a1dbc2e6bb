// Which bytes slub_debug keeps at the objects of a cache.
ghost use Rattle.std.specs.Prelude.{◌≡◌, ◌<◌, ◌≤◌, ◌&&◌, bytes_eq, length, Ok, IfOk, IfSome};
ghost use Rattle.kc_btf.specs.Readers.{name_at};
ghost use Rattle.kc_kinds.specs.Kernels.{kernel};
ghost use Rattle.kc_memory.specs.Stays.{SpaceStays};
ghost use Rattle.kc_found.specs.Walks.{CountsWalkFaults, OnBroken, WalksAs};
ghost use Rattle.kc_slab_page.specs.Guards.{bytes_by, bytes_of, flag_bits, guard_shape, has_enum, has_flag, has_kasan, is_enum, runs_by, runs_of, shape_by};

use kc_btf::{Btf, Kind, TypeRef};
use kc_found::{Found, Space, WalkStop};
use kc_guard::{CacheBytes, GuardRuns, guard_runs};
use kc_kinds::Known;
use kc_layout::Field;
use kc_owner::{read_known, scalar_in, struct_named};
use kc_view::{SlabObjects, View};
use kc_word::{NoMemory, Steps};
use std::alloc::Global;
use std::sync::ledger::Ledger;

/// Bits of a cache's `flags`, each as a number that has no other.
#[derive(Clone, Copy, Debug, PartialEq, Eq)]
pub struct FlagBits {
    /// SLAB_RED_ZONE.
    pub zones: u64,
    /// SLAB_POISON.
    pub poison: u64,
    /// SLAB_TYPESAFE_BY_RCU.
    pub by_rcu: u64,
}

/// Where the words stand that tell which bytes slub_debug keeps at the objects of a cache (`struct kmem_cache`).
#[derive(Clone, Copy, Debug, PartialEq, Eq)]
pub struct GuardShape {
    /// The field `object_size`.
    pub object: Option<Field>,
    /// The field `inuse`.
    pub inuse: Option<Field>,
    /// The field `flags`.
    pub flags: Option<Field>,
    /// The field `ctor`: the address of the function that makes an object, or 0.
    pub ctor: Option<Field>,
    /// The bits of `flags`.
    pub bits: FlagBits,
}

// A type is an enumeration with this name.
fn is_enum_named(types: &Btf, t: TypeRef, name: &[u8]) -> bool
    requires { t.name < length types.now.strings }
    ensures { result ≡ (is_enum t.kind && bytes_eq (name_at types.now.strings t.name) name.now) }
{
    t.kind == Kind::Enum && types.is_named(t.name, name)
}

// There is one.
fn has_enum(types: &Btf, name: &[u8]) -> bool
    ensures { result ≡ has_enum types.now name.now }
{
    for index in 0..types.count() {
        let t = types.ty(index + 1);
        if is_enum_named(types, t, name) {
            return true;
        }
    }
    false
}

// The bits of a cache's flags, where they are those of an enumeration and where they are constants.
fn flag_bits(enumerated: bool) -> FlagBits
    ensures { result ≡ flag_bits enumerated }
{
    if enumerated {
        FlagBits {
            zones: 1 << 1,
            poison: 1 << 2,
            by_rcu: 1 << 9,
        }
    } else {
        FlagBits {
            zones: 0x400,
            poison: 0x800,
            by_rcu: 0x80000,
        }
    }
}

// Where these words stand in the type of caches.
fn shape_by(types: &Btf, cache: Option<u32>) -> GuardShape
    requires { IfSome cache (λ id. id ≤ length types.now.records) }
    ensures { result ≡ shape_by types.now cache }
{
    GuardShape {
        object: scalar_in(types, cache, b"object_size"),
        inuse: scalar_in(types, cache, b"inuse"),
        flags: scalar_in(types, cache, b"flags"),
        ctor: scalar_in(types, cache, b"ctor"),
        bits: flag_bits(has_enum(types, b"_slab_flag_bits")),
    }
}

// A kernel's caches have words of KASAN's.
fn has_kasan(known: &Known<'_>) -> bool
    ensures { result ≡ has_kasan (kernel known.now) }
{
    struct_named(known, b"kasan_cache").is_some()
}

// Where a kernel has these words, or `None` where KASAN keeps words of its own in free objects.
pub(crate) fn guard_shape(known: &Known<'_>) -> Option<GuardShape>
    ensures { result ≡ guard_shape (kernel known.now) }
{
    if has_kasan(known) {
        None
    } else {
        Some(shape_by(known.btf, struct_named(known, b"kmem_cache")))
    }
}

// A flag is set.
fn has_flag(flags: u64, bit: u64) -> bool
    ensures { result ≡ has_flag flags bit }
{
    flags & bit != 0
}

// What a cache says of its objects' bytes, by its numbers.
fn bytes_by(
    bits: FlagBits,
    objects: &SlabObjects,
    object: u64,
    inuse: u64,
    flags: u64,
    ctor: u64,
) -> CacheBytes
    ensures { result ≡ bytes_by bits objects.now object inuse flags ctor }
{
    let poison = has_flag(flags, bits.poison);
    CacheBytes {
        object,
        inuse,
        size: objects.size,
        left: objects.left_pad,
        zones: has_flag(flags, bits.zones),
        padding: poison,
        poison: poison && !has_flag(flags, bits.by_rcu) && ctor == 0,
    }
}

// What a cache whose objects lie so says of their bytes, where that can be read.
fn read_bytes<S: Space, L: Ledger>(
    alloc: Global,
    space: &mut S,
    shape: &GuardShape,
    objects: &SlabObjects,
    cache: &View<'_>,
    steps: &mut Steps<L>,
) -> Result<Option<CacheBytes>, WalkStop>
    ensures exact { WalksAs (λ b. b) (λ i. Ok (bytes_of i shape.now objects.now cache.now.at)) (S.image space.old) result }
    ensures broken { OnBroken result ⊥ }
    ensures stays { SpaceStays S.image S.files S.through S.most space.old space.new }
    ensures cause { CountsWalkFaults result (S.faults space.old) (S.faults space.new) }
{
    let Some(object) = read_known(alloc, space, cache, &shape.object, steps)? else {
        return Ok(None);
    };
    let Some(inuse) = read_known(alloc, space, cache, &shape.inuse, steps)? else {
        return Ok(None);
    };
    let Some(flags) = read_known(alloc, space, cache, &shape.flags, steps)? else {
        return Ok(None);
    };
    let Some(ctor) = read_known(alloc, space, cache, &shape.ctor, steps)? else {
        return Ok(None);
    };
    Ok(Some(bytes_by(shape.bits, objects, object, inuse, flags, ctor)))
}

// The bytes that a cache keeps, by what it says of its objects' bytes.
fn runs_by(alloc: Global, bytes: Option<CacheBytes>) -> Result<GuardRuns, NoMemory>
    ensures { IfOk result (λ runs. runs ≡ runs_by bytes) }
{
    match bytes {
        Some(bytes) => guard_runs(alloc, &bytes),
        None => Ok(GuardRuns::new(alloc)),
    }
}

// The bytes that slub_debug keeps at the objects of a cache: none where that can't be told.
pub(crate) fn read_runs<S: Space, L: Ledger>(
    alloc: Global,
    space: &mut S,
    shape: &Option<GuardShape>,
    objects: &Result<SlabObjects, Found>,
    cache: &View<'_>,
    steps: &mut Steps<L>,
) -> Result<GuardRuns, WalkStop>
    ensures exact { WalksAs (λ r. r) (λ i. Ok (runs_of i shape.now objects.now cache.now.at)) (S.image space.old) result }
    ensures broken { OnBroken result ⊥ }
    ensures stays { SpaceStays S.image S.files S.through S.most space.old space.new }
    ensures cause { CountsWalkFaults result (S.faults space.old) (S.faults space.new) }
{
    match (shape, objects) {
        (Some(shape), Ok(objects)) => {
            let bytes = read_bytes(alloc, space, shape, objects, cache, steps)?;
            Ok(runs_by(alloc, bytes)?)
        }
        _ => Ok(GuardRuns::new(alloc)),
    }
}
