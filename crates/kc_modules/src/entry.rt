// A module of the kernel.
ghost use Rattle.std.specs.Prelude.{◌≡◌};
ghost use Rattle.kc_memory.specs.Stays.{SpaceStays};
ghost use Rattle.kc_kallsyms.specs.Bytes.{bytes_at, four_at};
ghost use Rattle.kc_kallsyms.specs.Reading.{CountsReadFaults, ReadsAs};
ghost use Rattle.kc_modules.specs.Lines.{entry_at, name_at, sizes_from, text_of};
ghost use Rattle.kc_modules.specs.Views.{entry_view};

use crate::nodes::read_address;
use crate::shape::{ModuleFields, back};
use kc_bytes::{onward, read_bytes, read_four};
use kc_kallsyms::TableStop;
use kc_memory::Space;
use kc_word::Steps;
use std::alloc::Global;
use std::sync::ledger::Ledger;

/// A module of the kernel.
#[derive(Debug, Drop)]
pub struct ModuleEntry {
    /// The bytes of its name, which ends before the first NUL.
    pub name: Vec<u8>,
    /// Its size in bytes.
    pub size: u64,
    /// The virtual address of its first part.
    pub base: u64,
}

// How many bytes a name has, with its NUL (MODULE_NAME_LEN).
const NAME_BYTES: usize = 56;

// The bytes before the first NUL.
pub(crate) fn text_of(bytes: &[u8]) -> &[u8]
    ensures { result.now ≡ text_of bytes.now }
{
    match bytes.iter().position(|c| *c == 0) {
        Some(end) => &bytes[..end],
        None => bytes,
    }
}

// The bytes of the name at an address.
#[tactic(auto, unfolding(crate::specs::Lines::name_at))]
pub(crate) fn read_name<S: Space, L: Ledger>(
    alloc: Global,
    space: &mut S,
    at: u64,
    steps: &mut Steps<L>,
) -> Result<Vec<u8>, TableStop>
    ensures name { ReadsAs (λ v. text_of v.items) (λ image. name_at image at) (S.image space.old) result }
    ensures stays { SpaceStays S.image S.files S.through S.most space.old space.new }
    ensures cause { CountsReadFaults result (S.faults space.old) (S.faults space.new) }
{
    Ok(read_bytes(alloc, space, at, NAME_BYTES, steps)?)
}

// The number of four bytes.
pub(crate) fn read_size<S: Space, L: Ledger>(
    space: &mut S,
    at: u64,
    steps: &mut Steps<L>,
) -> Result<u32, TableStop>
    ensures size { ReadsAs (λ n. n) (λ image. four_at image at) (S.image space.old) result }
    ensures stays { SpaceStays S.image S.files S.through S.most space.old space.new }
    ensures cause { CountsReadFaults result (S.faults space.old) (S.faults space.new) }
{
    Ok(read_four(space, at, steps)?)
}

// The sum of the sizes of a module's parts.
fn sum_sizes<S: Space, L: Ledger>(
    space: &mut S,
    first: u64,
    count: u32,
    stride: u64,
    steps: &mut Steps<L>,
) -> Result<u64, TableStop>
    ensures sum { ReadsAs (λ n. n) (λ image. sizes_from image stride count first 0) (S.image space.old) result }
    ensures stays { SpaceStays S.image S.files S.through S.most space.old space.new }
    ensures cause { CountsReadFaults result (S.faults space.old) (S.faults space.new) }
{
    let mut at = first;
    let mut sum = 0;
    for i in 0..count {
        let size = read_size(space, at, steps)?;
        sum = onward(sum, u64::from(size));
        at = onward(at, stride);
    }
    Ok(sum)
}

/// The module that has this node in the list of modules.
///
/// # Errors
///
/// A word that can't be read; no memory was left.
#[tactic(auto, unfolding(crate::specs::Lines::entry_at))]
pub fn read_entry<S: Space, L: Ledger>(
    alloc: Global,
    space: &mut S,
    shape: &ModuleFields,
    node: u64,
    steps: &mut Steps<L>,
) -> Result<ModuleEntry, TableStop>
    ensures entry { ReadsAs entry_view (λ image. entry_at image shape.now node) (S.image space.old) result }
    ensures stays { SpaceStays S.image S.files S.through S.most space.old space.new }
    ensures cause { CountsReadFaults result (S.faults space.old) (S.faults space.new) }
{
    let module_va = back(node, shape.list);
    let parts = shape.parts;
    let name = read_name(alloc, space, onward(module_va, shape.name), steps)?;
    let sizes = onward(module_va, parts.size);
    let size = sum_sizes(space, sizes, parts.count, parts.stride, steps)?;
    let base = read_address(space, onward(module_va, parts.base), steps)?;
    Ok(ModuleEntry { name, size, base })
}
