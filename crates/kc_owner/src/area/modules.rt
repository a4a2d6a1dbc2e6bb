// The module whose memory has an address.
ghost use Rattle.std.specs.Prelude.{◌≡◌, ◌*◌, Ok};
ghost use Rattle.std.specs.List.{range_with_len};
ghost use Rattle.kc_memory.specs.Stays.{SpaceStays};
ghost use Rattle.kc_found.specs.Nodes.{at_offset};
ghost use Rattle.kc_found.specs.Walks.{CountsWalkFaults, WalksAs};
ghost use Rattle.kc_view.specs.TaskLists.{task_of};
ghost use Rattle.kc_owner.specs.Firsts.{first_of};
ghost use Rattle.kc_owner.specs.Area.Modules.{in_module, in_part, module_at, named};

use crate::area::shape::{ModuleShape, PartShape};
use crate::firsts::{byte_of, despite_any, none_found, pass_broken};
use crate::{looked_at, read_ring, read_text, view_at};
use kc_btf::Btf;
use kc_found::{Found, Name, Space, WalkStop, Walked};
use kc_steps::read_field;
use kc_word::Steps;
use std::alloc::Global;
use std::sync::ledger::Ledger;

/// A module, and a byte of its memory.
#[derive(Drop)]
pub struct InModule {
    /// The virtual address of the module (`struct module`).
    pub at: u64,
    /// Its name.
    pub name: Name,
    /// The byte, counted from the start of the part of its memory that has the address.
    pub byte: u64,
}

// A search for the module that has an address: its allocator, and where the words of modules stand.
#[derive(Drop)]
struct ModulePass {
    alloc: Global,
    shape: ModuleShape,
    address: u64,
}

// The module that has a node of the ring of modules.
fn module_by(link: u64, node: u64) -> u64
    ensures { result ≡ task_of link node }
{
    node.wrapping_sub(link)
}

// Where the fields of a part of a module's memory are counted from.
fn part_at(shape: &PartShape, module_va: u64, number: u8) -> u64
    ensures { result ≡ at_offset module_va (shape.now.stride * number) }
{
    let offset = shape.stride.wrapping_mul(u64::from(number));
    module_va.wrapping_add(offset)
}

// The byte in a part of a module's memory.
fn in_part<S: Space, L: Ledger>(
    pass: &ModulePass,
    space: &mut S,
    btf: &Btf,
    module_va: u64,
    number: u8,
    steps: &mut Steps<L>,
) -> Result<Option<u64>, WalkStop>
    ensures exact { WalksAs (λ byte. byte) (λ i. in_part i pass.now.shape.parts pass.now.address module_va number) (S.image space.old) result }
    ensures stays { SpaceStays S.image S.files S.through S.most space.old space.new }
    ensures cause { CountsWalkFaults result (S.faults space.old) (S.faults space.new) }
{
    let asked = looked_at(module_va);
    let shape = &pass.shape.parts;
    let view = view_at(btf, part_at(shape, module_va, number));
    let base = read_field(pass.alloc, space, &asked, &view, &shape.base, steps)?.value();
    let size = read_field(pass.alloc, space, &asked, &view, &shape.size, steps)?.value();
    Ok(byte_of(base, size, pass.address))
}

// The byte in the first part that has an address.
fn in_parts<S: Space, L: Ledger>(
    pass: &ModulePass,
    space: &mut S,
    btf: &Btf,
    module_va: u64,
    steps: &mut Steps<L>,
) -> Result<Option<u64>, WalkStop>
    ensures exact { WalksAs (λ byte. byte) (λ i. first_of (in_part i pass.now.shape.parts pass.now.address module_va) (range_with_len 0 pass.now.shape.parts.count)) (S.image space.old) result }
    ensures stays { SpaceStays S.image S.files S.through S.most space.old space.new }
    ensures cause { CountsWalkFaults result (S.faults space.old) (S.faults space.new) }
{
    let mut missed: Option<Found> = None;
    for number in 0..pass.shape.parts.count {
        let told = in_part(pass, space, btf, module_va, number, steps);
        match pass_broken(&mut missed, told) {
            Ok(None) => {}
            Ok(Some(found)) => return Ok(Some(found)),
            Err(stop) => return Err(stop),
        }
    }
    none_found(missed)
}

// A module that has an address in its memory, with its name.
fn in_module<S: Space, L: Ledger>(
    pass: &ModulePass,
    space: &mut S,
    btf: &Btf,
    module_va: u64,
    steps: &mut Steps<L>,
) -> Result<Option<InModule>, WalkStop>
    ensures exact { WalksAs (λ found. found) (λ i. in_module i pass.now.shape pass.now.address module_va) (S.image space.old) result }
    ensures stays { SpaceStays S.image S.files S.through S.most space.old space.new }
    ensures cause { CountsWalkFaults result (S.faults space.old) (S.faults space.new) }
{
    let Some(byte) = in_parts(pass, space, btf, module_va, steps)? else {
        return Ok(None);
    };
    let at = module_va.wrapping_add(pass.shape.name.byte);
    let name = read_text(pass.alloc, space, at, pass.shape.name.count, steps)?;
    Ok(Some(InModule {
        at: module_va,
        name,
        byte,
    }))
}

// The first module that has an address, of those that have these nodes.
fn in_modules<S: Space, L: Ledger>(
    pass: &ModulePass,
    space: &mut S,
    btf: &Btf,
    nodes: &Walked,
    steps: &mut Steps<L>,
) -> Result<Option<InModule>, WalkStop>
    ensures exact { WalksAs (λ found. found) (λ i. first_of (λ node. in_module i pass.now.shape pass.now.address (task_of pass.now.shape.link node)) nodes.now) (S.image space.old) result }
    ensures stays { SpaceStays S.image S.files S.through S.most space.old space.new }
    ensures cause { CountsWalkFaults result (S.faults space.old) (S.faults space.new) }
{
    let mut missed: Option<Found> = None;
    let mut i = 0;
    while i < nodes.len() {
        let node = *nodes.get(i);
        let module_va = module_by(pass.shape.link, node);
        let told = in_module(pass, space, btf, module_va, steps);
        match pass_broken(&mut missed, told) {
            Ok(None) => {}
            Ok(Some(found)) => return Ok(Some(found)),
            Err(stop) => return Err(stop),
        }
        i += 1;
    }
    none_found(missed)
}

// The first module of the ring that has an address, also where that is broken.
pub(crate) fn read_module<S: Space, L: Ledger>(
    alloc: Global,
    space: &mut S,
    btf: &Btf,
    shape: &ModuleShape,
    address: u64,
    steps: &mut Steps<L>,
) -> Result<Option<InModule>, WalkStop>
    ensures exact { WalksAs (λ found. found) (λ i. module_at i shape.now address) (S.image space.old) result }
    ensures stays { SpaceStays S.image S.files S.through S.most space.old space.new }
    ensures cause { CountsWalkFaults result (S.faults space.old) (S.faults space.new) }
{
    let ring = read_ring(alloc, space, &shape.list, shape.head, steps)?;
    let pass = ModulePass {
        alloc,
        shape: *shape,
        address,
    };
    let found = in_modules(&pass, space, btf, &ring.nodes, steps);
    despite_any(ring.broken, found)
}
