// The pages of KFENCE's pool.
ghost use Rattle.std.specs.Prelude.{◌≡◌, ◌≤◌, length, Ok};
ghost use Rattle.kc_memory.specs.Stays.{SpaceStays};
ghost use Rattle.kc_found.specs.Walks.{CountsWalkFaults, OnBroken, WalksAs};
ghost use Rattle.kc_kinds.specs.Kernels.{kernel};
ghost use Rattle.kc_slab_page.specs.Fences.{fence_by, fence_shape, in_pool, is_named, is_named_by, metadata_at, metadata_of, page_at, pool_at, pool_by, pool_with};

use kc_btf::Btf;
use kc_found::{Space, WalkStop};
use kc_kinds::Known;
use kc_layout::{Field, size_of};
use kc_owner::{read_known, read_word, scalar_in, single, struct_named, view_at};
use kc_view::SlubBases;
use kc_word::Steps;
use std::alloc::Global;
use std::sync::ledger::Ledger;

// How many pages a pool has at most.
const MOST: u64 = 131_072;

/// Where the words stand that tell which pages are of KFENCE's pool.
#[derive(Clone, Copy, Debug, PartialEq, Eq)]
pub struct FenceShape {
    /// The virtual address of the word that holds that of the pool's first byte (`__kfence_pool`).
    pub pool: u64,
    /// The virtual address of the metadata (`kfence_metadata`), or of the word that holds it.
    pub metadata: u64,
    /// Whether it is that of the word, as from Linux 6.6 on.
    pub pointed: bool,
    /// The size of the metadata of one object in bytes.
    pub size: u64,
    /// Their field `addr`: an address in the object's page.
    pub addr: Option<Field>,
}

/// KFENCE's pool.
#[derive(Clone, Copy, Debug, PartialEq, Eq)]
pub struct FencePool {
    /// Where the words stand that tell its pages.
    pub shape: FenceShape,
    /// The number of its first page.
    pub first: u64,
    /// The virtual address of its first object's metadata.
    pub metadata: u64,
}

// Where these words stand, by the symbols and the type of the metadata.
fn fence_by(known: &Known<'_>, pool: u64, metadata: u64, ty: u32, size: u64) -> FenceShape
    requires { ty ≤ length known.now.btf.now.records }
    ensures { result ≡ fence_by (kernel known.now) pool metadata ty size }
{
    FenceShape {
        pool,
        metadata,
        pointed: single(known, b"kfence_metadata_init").is_some(),
        size,
        addr: scalar_in(known.btf, Some(ty), b"addr"),
    }
}

/// Where a kernel has the words that tell which pages are of KFENCE's pool, or `None` where its map or its types lack them.
pub(crate) fn fence_shape(known: &Known<'_>) -> Option<FenceShape>
    ensures { result ≡ fence_shape (kernel known.now) }
{
    let pool = single(known, b"__kfence_pool")?;
    let metadata = single(known, b"kfence_metadata")?;
    let ty = struct_named(known, b"kfence_metadata")?;
    let size = size_of(known.btf, ty)?;
    Some(fence_by(known, pool, metadata, ty, size))
}

// The number of the page at an address where physical memory is mapped.
fn page_at(bases: &SlubBases, address: u64) -> u64
    ensures { result ≡ page_at bases.now address }
{
    address.wrapping_sub(bases.direct) / 4096
}

// Where the metadata begin.
fn read_metadata<S: Space, L: Ledger>(
    space: &mut S,
    shape: &FenceShape,
    steps: &mut Steps<L>,
) -> Result<Option<u64>, WalkStop>
    ensures exact { WalksAs (λ m. m) (λ i. Ok (metadata_at i shape.now)) (S.image space.old) result }
    ensures broken { OnBroken result ⊥ }
    ensures stays { SpaceStays S.image S.files S.through S.most space.old space.new }
    ensures cause { CountsWalkFaults result (S.faults space.old) (S.faults space.new) }
{
    if shape.pointed {
        read_word(space, shape.metadata, steps)
    } else {
        Ok(Some(shape.metadata))
    }
}

// The pool with this first byte and these metadata.
fn pool_by(bases: &SlubBases, shape: &FenceShape, pool: u64, metadata: u64) -> Option<FencePool>
    ensures { result ≡ pool_by bases.now shape.now pool metadata }
{
    if pool == 0 {
        None
    } else {
        Some(FencePool {
            shape: *shape,
            first: page_at(bases, pool),
            metadata,
        })
    }
}

// The pool of a kernel that has these words.
fn pool_with<S: Space, L: Ledger>(
    space: &mut S,
    bases: &SlubBases,
    shape: &FenceShape,
    steps: &mut Steps<L>,
) -> Result<Option<FencePool>, WalkStop>
    ensures exact { WalksAs (λ p. p) (λ i. Ok (pool_with i bases.now shape.now)) (S.image space.old) result }
    ensures broken { OnBroken result ⊥ }
    ensures stays { SpaceStays S.image S.files S.through S.most space.old space.new }
    ensures cause { CountsWalkFaults result (S.faults space.old) (S.faults space.new) }
{
    let Some(pool) = read_word(space, shape.pool, steps)? else {
        return Ok(None);
    };
    let Some(metadata) = read_metadata(space, shape, steps)? else {
        return Ok(None);
    };
    Ok(pool_by(bases, shape, pool, metadata))
}

/// KFENCE's pool, where there is one.
pub(crate) fn read_pool<S: Space, L: Ledger>(
    space: &mut S,
    bases: &SlubBases,
    shape: &Option<FenceShape>,
    steps: &mut Steps<L>,
) -> Result<Option<FencePool>, WalkStop>
    ensures exact { WalksAs (λ p. p) (λ i. Ok (pool_at i bases.now shape.now)) (S.image space.old) result }
    ensures broken { OnBroken result ⊥ }
    ensures stays { SpaceStays S.image S.files S.through S.most space.old space.new }
    ensures cause { CountsWalkFaults result (S.faults space.old) (S.faults space.new) }
{
    match shape {
        Some(shape) => pool_with(space, bases, shape, steps),
        None => Ok(None),
    }
}

// An even page from the second on, of a pool as great as one can be.
fn in_pool(pool: &FencePool, number: u64) -> bool
    ensures { result ≡ in_pool pool.now number }
{
    pool.first < number && number - pool.first < MOST && (number - pool.first) % 2 == 0
}

// Where the metadata of such a page are.
fn metadata_of(pool: &FencePool, number: u64) -> u64
    ensures { result ≡ metadata_of pool.now number }
{
    let object = (number.saturating_sub(pool.first) / 2).saturating_sub(1);
    pool.metadata
        .wrapping_add(pool.shape.size.wrapping_mul(object))
}

// The metadata of a pool name a page as one of it.
fn is_named_by<S: Space, L: Ledger>(
    alloc: Global,
    space: &mut S,
    btf: &Btf,
    bases: &SlubBases,
    pool: &FencePool,
    number: u64,
    steps: &mut Steps<L>,
) -> Result<bool, WalkStop>
    ensures exact { WalksAs (λ b. b) (λ i. Ok (is_named_by i bases.now pool.now number)) (S.image space.old) result }
    ensures broken { OnBroken result ⊥ }
    ensures stays { SpaceStays S.image S.files S.through S.most space.old space.new }
    ensures cause { CountsWalkFaults result (S.faults space.old) (S.faults space.new) }
{
    if !in_pool(pool, number) {
        return Ok(false);
    }
    let metadata = view_at(btf, metadata_of(pool, number));
    match read_known(alloc, space, &metadata, &pool.shape.addr, steps)? {
        Some(address) => Ok(page_at(bases, address) == number),
        None => Ok(false),
    }
}

/// Whether the metadata of a kernel name the page with a number as one of KFENCE's pool.
pub(crate) fn is_named<S: Space, L: Ledger>(
    alloc: Global,
    space: &mut S,
    btf: &Btf,
    bases: &SlubBases,
    pool: &Option<FencePool>,
    number: u64,
    steps: &mut Steps<L>,
) -> Result<bool, WalkStop>
    ensures exact { WalksAs (λ b. b) (λ i. Ok (is_named i bases.now pool.now number)) (S.image space.old) result }
    ensures broken { OnBroken result ⊥ }
    ensures stays { SpaceStays S.image S.files S.through S.most space.old space.new }
    ensures cause { CountsWalkFaults result (S.faults space.old) (S.faults space.new) }
{
    match pool {
        Some(pool) => is_named_by(alloc, space, btf, bases, pool, number, steps),
        None => Ok(false),
    }
}
