// The types of a kernel in an index by their names.
use crate::find::{Wanted, is_named};
use kc_btf::{Btf, Kind};
use kc_word::NoMemory;
use std::alloc::Global;
use std::marker::Model;

/// How many buckets an index has.
const BUCKETS: usize = 8192;

/// How many bytes of a name choose its bucket. Names may be long, and many types may have the same.
const CHOOSING: usize = 64;

/// The numbers of a kernel's structs, unions and typedefs by their names, seen as those of each bucket. It keeps no name,
/// so it is asked together with the types that it was made of.
#[derive(Drop)]
pub struct Names {
    buckets: Vec<Vec<u32>>,
}

impl Model for Names {
    ghost use Rattle.std.specs.Prelude.{List, ℕ, map};

    ghost Value = { List (List ℕ) };

    ghost view = { λ n. map (λ v. v.items) n.buckets.items };
}

impl Names {
    ghost use Rattle.std.specs.Prelude.{◌≡◌, ◌<◌, ◌≤◌, length, IfOk, IfSome};
    ghost use Rattle.kc_layout.specs.Find.{find};
    ghost use Rattle.kc_layout.specs.Names.{StandsFor};

    /// Makes an index of the types of a kernel, in one pass.
    ///
    /// # Errors
    ///
    /// `NoMemory` where there is none for it: it takes 24 bytes for each of 8192 buckets, and 4 to 8 for each struct, union
    /// and typedef.
    pub fn new(alloc: Global, btf: &Btf) -> Result<Names, NoMemory>
        ensures { IfOk result (StandsFor btf.now) }
    {
        let mut buckets = empty_buckets(alloc)?;
        for index in 0..btf.count() {
            let t = btf.ty(index + 1);
            if is_kept(t.kind) {
                let bucket = bucket_of(btf.name_start(t.name, CHOOSING));
                keep(&mut buckets, bucket, index + 1)?;
            }
        }
        Ok(Names { buckets })
    }

    /// The number of the type with a name, as `find_type` has it: of the structs and unions the least, and where there
    /// are none, the least typedef that leads to one under at most 32 modifiers, itself among them. `None` for other
    /// names and for the empty one. The types are those that the index was made of.
    pub fn find(&self, btf: &Btf, name: &[u8]) -> Option<u32>
        requires { StandsFor btf.now self.now }
        ensures exact { result ≡ find btf.now name.now }
        ensures some { IfSome result (λ id. 0 < id) }
        ensures there { IfSome result (λ id. id ≤ length btf.now.records) }
    {
        if name.is_empty() {
            return None;
        }
        let bucket = bucket_of(&name[..CHOOSING.min(name.len())]);
        sought_in(btf, &self.buckets[bucket], name)
    }
}

ghost use Rattle.std.specs.Prelude.{◌≡◌, ℕ, ◌+◌, ◌*◌, ◌<◌, ◌≤◌, [], ◌∷◌, ◌++◌, length, map, take, All, IfOk, IfSome, OnOk, slice_index_or, slice_set};
ghost use Rattle.std.specs.Option.{option_or};
ghost use Rattle.kc_layout.specs.Names.{chosen, is_kept, first_in, IsNumber};

// Buckets with nothing in them.
fn empty_buckets(alloc: Global) -> Result<Vec<Vec<u32>>, NoMemory>
    ensures many { IfOk result (λ buckets. length buckets.items ≡ 8192) }
    ensures empty { IfOk result (λ buckets. (bucket : ℕ) → slice_index_or (map (λ v. v.items) buckets.items) bucket [] ≡ []) }
{
    let mut buckets = Vec::with_capacity(alloc, BUCKETS)?;
    for _ in 0..BUCKETS {
        buckets.push(Vec::new(alloc))?;
    }
    Ok(buckets)
}

// Adds a number to a bucket.
fn keep(buckets: &mut Vec<Vec<u32>>, bucket: usize, id: u32) -> Result<(), NoMemory>
    requires { bucket < length buckets.old.items }
    ensures many { length buckets.new.items ≡ length buckets.old.items }
    ensures added { OnOk result (map (λ v. v.items) buckets.new.items ≡ slice_set (map (λ v. v.items) buckets.old.items) bucket (slice_index_or (map (λ v. v.items) buckets.old.items) bucket [] ++ id ∷ [])) }
{
    buckets[bucket].push(id)?;
    Ok(())
}

// Whether types of a kind are found by their names.
fn is_kept(kind: Kind) -> bool
    ensures { result ≡ is_kept kind }
{
    kind.is_compound() || kind == Kind::Typedef
}

// The bucket that the first bytes of a name choose.
fn bucket_of(start: &[u8]) -> usize
    ensures exact { result ≡ chosen 0 start.now }
    ensures there { result < 8192 }
{
    let mut bucket: usize = 0;
    for c in start {
        bucket = (31 * bucket + usize::from(*c)) % BUCKETS;
    }
    bucket
}

// The first of some numbers whose type has a name and is wanted.
fn first_in(btf: &Btf, numbers: &[u32], name: &[u8], wanted: Wanted) -> Option<u32>
    requires { All (IsNumber btf.now) numbers.now }
    ensures exact { result ≡ first_in btf.now numbers.now name.now wanted }
    ensures some { IfSome result (λ id. 0 < id) }
    ensures there { IfSome result (λ id. id ≤ length btf.now.records) }
{
    for id in numbers {
        if is_named(btf, btf.ty(*id), name, wanted) {
            return Some(*id);
        }
    }
    None
}

// Of some numbers the first of a struct or union with a name, and where there is none, the first of a typedef with it that
// leads to one.
fn sought_in(btf: &Btf, numbers: &[u32], name: &[u8]) -> Option<u32>
    requires { All (IsNumber btf.now) numbers.now }
    ensures exact { result ≡ option_or (first_in btf.now numbers.now name.now Wanted.Compound) (first_in btf.now numbers.now name.now Wanted.Alias) }
    ensures some { IfSome result (λ id. 0 < id) }
    ensures there { IfSome result (λ id. id ≤ length btf.now.records) }
{
    match first_in(btf, numbers, name, Wanted::Compound) {
        Some(id) => Some(id),
        None => first_in(btf, numbers, name, Wanted::Alias),
    }
}
