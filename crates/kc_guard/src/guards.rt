// Which bytes a slab cache keeps at each object.
ghost use Rattle.std.specs.Prelude.{◌≡◌, ◌≤◌, ◌++◌, IfOk, OnOk};
ghost use Rattle.kc_guard.specs.Guards.{are_told, poison_runs, guard_runs, zone_runs};

use kc_found::Items;
use kc_word::NoMemory;
use std::alloc::Global;

/// The byte of a red zone at a free object: the kernel's SLUB_RED_INACTIVE.
const RED_FREE: u8 = 0xbb;

/// The byte of a red zone at an object in use: the kernel's SLUB_RED_ACTIVE.
const RED_USED: u8 = 0xcc;

/// The byte of a padding: the kernel's POISON_INUSE.
const PADDING: u8 = 0x5a;

/// A byte of a free object, but for the last one: the kernel's POISON_FREE.
const POISON: u8 = 0x6b;

/// The last byte of a free object: the kernel's POISON_END.
const POISON_END: u8 = 0xa5;

/// A rule of the bytes that slub_debug keeps.
#[derive(Clone, Copy, Debug, PartialEq, Eq)]
pub enum GuardRule {
    /// The red zone before an object.
    Z1,
    /// The red zone after an object.
    Z2,
    /// The padding after an object, where there is no red zone.
    Z3,
    /// The poison of a free object.
    Z4,
}

/// Bytes at each object of a cache that are all the same.
#[derive(Clone, Copy, Debug, PartialEq, Eq)]
pub struct GuardRun {
    /// The rule that another byte there breaks.
    pub rule: GuardRule,
    /// Where they begin, in bytes after the object's address. Addresses wrap at 2^64.
    pub from: u64,
    /// How many they are.
    pub count: u64,
    /// What each of them is where the object is free, or `None` where it may be any.
    pub free: Option<u8>,
    /// What each of them is where the object is in use.
    pub used: Option<u8>,
}

/// All such bytes of a cache, in the order in which the kernel looks at them.
pub type GuardRuns = Items<GuardRun>;

/// What a cache says of its objects' bytes.
#[derive(Clone, Copy, Debug, PartialEq, Eq)]
pub struct CacheBytes {
    /// `object_size`: the bytes of an object.
    pub object: u64,
    /// `inuse`: those, with what follows up to the words that belong to the allocator.
    pub inuse: u64,
    /// `size`: the bytes from one object to the next.
    pub size: u64,
    /// `red_left_pad`: the bytes before an object.
    pub left: u64,
    /// Whether red zones are kept (SLAB_RED_ZONE).
    pub zones: bool,
    /// Whether padding is kept (SLAB_POISON).
    pub padding: bool,
    /// Whether free objects are poisoned (__OBJECT_POISON).
    pub poison: bool,
}

// An object has bytes, and they, what follows and what comes before lie in the bytes from one object to the next.
fn are_told(bytes: &CacheBytes) -> bool
    ensures { result ≡ are_told bytes.now }
{
    1 <= bytes.object
        && bytes.object <= bytes.inuse
        && u128::from(bytes.inuse) + u128::from(bytes.left) <= u128::from(bytes.size)
}

// Adds the red zones, or the padding that is there in their place.
fn push_zones(runs: &mut GuardRuns, bytes: &CacheBytes) -> Result<(), NoMemory>
    requires { bytes.now.object ≤ bytes.now.inuse }
    ensures { OnOk result (runs.new ≡ runs.old ++ zone_runs bytes.now) }
{
    let after = bytes.inuse - bytes.object;
    if bytes.zones {
        runs.push(GuardRun {
            rule: GuardRule::Z1,
            from: 0u64.wrapping_sub(bytes.left),
            count: bytes.left,
            free: Some(RED_FREE),
            used: Some(RED_USED),
        })?;
        runs.push(GuardRun {
            rule: GuardRule::Z2,
            from: bytes.object,
            count: after,
            free: Some(RED_FREE),
            used: Some(RED_USED),
        })
    } else if bytes.padding {
        runs.push(GuardRun {
            rule: GuardRule::Z3,
            from: bytes.object,
            count: after,
            free: Some(PADDING),
            used: Some(PADDING),
        })
    } else {
        Ok(())
    }
}

// Adds the poison of free objects.
fn push_poison(runs: &mut GuardRuns, bytes: &CacheBytes) -> Result<(), NoMemory>
    requires { 1 ≤ bytes.now.object }
    ensures { OnOk result (runs.new ≡ runs.old ++ poison_runs bytes.now) }
{
    if !bytes.poison {
        return Ok(());
    }
    runs.push(GuardRun {
        rule: GuardRule::Z4,
        from: 0,
        count: bytes.object - 1,
        free: Some(POISON),
        used: None,
    })?;
    runs.push(GuardRun {
        rule: GuardRule::Z4,
        from: bytes.object - 1,
        count: 1,
        free: Some(POISON_END),
        used: None,
    })
}

/// The bytes that a cache keeps at each object, by what it says of them: none where what it says can't be.
///
/// # Errors
///
/// Out of memory.
pub fn guard_runs(alloc: Global, bytes: &CacheBytes) -> Result<GuardRuns, NoMemory>
    ensures { IfOk result (λ runs. runs ≡ guard_runs bytes.now) }
{
    let mut runs = GuardRuns::new(alloc);
    if are_told(bytes) {
        push_zones(&mut runs, bytes)?;
        push_poison(&mut runs, bytes)?;
    }
    Ok(runs)
}
