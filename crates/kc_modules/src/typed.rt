// A module's types.
ghost use Rattle.std.specs.Prelude.{◌≡◌};
ghost use Rattle.kc_memory.specs.Stays.{SpaceStays};
ghost use Rattle.kc_kallsyms.specs.Bytes.{bytes_at};
ghost use Rattle.kc_kallsyms.specs.Reading.{CountsReadFaults, ReadsAs};
ghost use Rattle.kc_modules.specs.Lines.{text_of};
ghost use Rattle.kc_modules.specs.Typed.{checked_size, data_at, module_types_at, named_at, types_of};

use crate::entry::{read_name, read_size, text_of};
use crate::nodes::{read_address, read_nodes};
use crate::shape::{TypedShape, back, typed_shape};
use crate::types::sound_types;
use kc_bytes::{onward, read_bytes};
use kc_kallsyms::{ListStart, ModuleList, Places, TableFault, TableStop, read_list_start};
use kc_memory::Space;
use kc_word::Steps;
use std::alloc::Global;
use std::sync::ledger::Ledger;

// The bytes of the name of the module that has types at a node.
#[tactic(auto, unfolding(crate::specs::Typed::named_at))]
fn read_named<S: Space, L: Ledger>(
    alloc: Global,
    space: &mut S,
    shape: &TypedShape,
    node: u64,
    steps: &mut Steps<L>,
) -> Result<Vec<u8>, TableStop>
    ensures name { ReadsAs (λ v. text_of v.items) (λ image. named_at image shape.now node) (S.image space.old) result }
    ensures stays { SpaceStays S.image S.files S.through S.most space.old space.new }
    ensures cause { CountsReadFaults result (S.faults space.old) (S.faults space.new) }
{
    let at = onward(back(node, shape.list), shape.module_at);
    let module_va = read_address(space, at, steps)?;
    read_name(alloc, space, onward(module_va, shape.name), steps)
}

// How many bytes a file of types has at most.
const MOST_BYTES: u32 = 1 << 26;

// No more bytes than a file of types has.
fn checked_size(size: u32) -> Result<u32, TableFault>
    ensures { result ≡ checked_size size }
{
    if size <= MOST_BYTES {
        Ok(size)
    } else {
        Err(TableFault::S17)
    }
}

// So many bytes.
fn read_all<S: Space, L: Ledger>(
    alloc: Global,
    space: &mut S,
    start: u64,
    size: u32,
    steps: &mut Steps<L>,
) -> Result<Vec<u8>, TableStop>
    ensures bytes { ReadsAs (λ v. v.items) (λ image. bytes_at image size start) (S.image space.old) result }
    ensures stays { SpaceStays S.image S.files S.through S.most space.old space.new }
    ensures cause { CountsReadFaults result (S.faults space.old) (S.faults space.new) }
{
    Ok(read_bytes(alloc, space, start, size as usize, steps)?)
}

// The types of the module at a node.
#[tactic(auto, unfolding(crate::specs::Typed::data_at))]
fn read_data<S: Space, L: Ledger>(
    alloc: Global,
    space: &mut S,
    shape: &TypedShape,
    node: u64,
    steps: &mut Steps<L>,
) -> Result<Vec<u8>, TableStop>
    ensures types { ReadsAs (λ v. v.items) (λ image. data_at image shape.now node) (S.image space.old) result }
    ensures stays { SpaceStays S.image S.files S.through S.most space.old space.new }
    ensures cause { CountsReadFaults result (S.faults space.old) (S.faults space.new) }
{
    let at = onward(back(node, shape.list), shape.btf);
    let types = read_address(space, at, steps)?;
    let start = read_address(space, onward(types, shape.data_at), steps)?;
    let told = read_size(space, onward(types, shape.size), steps)?;
    let size = checked_size(told)?;
    read_all(alloc, space, start, size, steps)
}

// The types of the first module with the name, of those at these nodes.
fn read_types_of<S: Space, L: Ledger>(
    alloc: Global,
    space: &mut S,
    shape: &TypedShape,
    name: &[u8],
    nodes: &[u64],
    steps: &mut Steps<L>,
) -> Result<Vec<u8>, TableStop>
    ensures types { ReadsAs (λ v. v.items) (λ image. types_of image shape.now name.now nodes.now) (S.image space.old) result }
    ensures stays { SpaceStays S.image S.files S.through S.most space.old space.new }
    ensures cause { CountsReadFaults result (S.faults space.old) (S.faults space.new) }
{
    for node in nodes {
        let other = read_named(alloc, space, shape, *node, steps)?;
        if text_of(&other) == name {
            return read_data(alloc, space, shape, *node, steps);
        }
    }
    Err(TableStop::Table(TableFault::S16))
}

/// The types of the module with a name, as /sys/kernel/btf has them, by the symbol table that lies at these places of its dump's memory
/// (kernel/bpf/btf.c, btf_modules). KASLR moved the kernel's image by `kaslr` bytes.
///
/// # Errors
///
/// A word that can't be read; the first of S5 to S17; no memory was left.
#[tactic(auto, unfolding(crate::specs::Typed::module_types_at))]
pub fn read_module_types<S: Space, L: Ledger>(
    alloc: Global,
    space: &mut S,
    places: &Places,
    kaslr: u64,
    name: &[u8],
    steps: &mut Steps<L>,
) -> Result<Vec<u8>, TableStop>
    ensures types { ReadsAs (λ v. v.items) (λ image. module_types_at image kaslr places.now name.now) (S.image space.old) result }
    ensures stays { SpaceStays S.image S.files S.through S.most space.old space.new }
    ensures cause { CountsReadFaults result (S.faults space.old) (S.faults space.new) }
{
    let ListStart { types, head } = read_list_start(
        alloc,
        space,
        places,
        kaslr,
        ModuleList::Typed,
        steps,
    )?;
    let types = sound_types(alloc, types)?;
    let shape = typed_shape(&types)?;
    let nodes = read_nodes(alloc, space, head, steps)?;
    read_types_of(alloc, space, &shape, name, &nodes, steps)
}
