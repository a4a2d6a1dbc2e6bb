// In which areas an address lies.
ghost use Rattle.std.specs.Prelude.{◌≡◌, Ok, IfSome};
ghost use Rattle.kc_memory.specs.Stays.{SpaceStays};
ghost use Rattle.kc_found.specs.Walks.{CountsWalkFaults, OnBroken, WalksAs};
ghost use Rattle.kc_view.specs.TaskLists.{IsInside};
ghost use Rattle.kc_owner.specs.Area.Areas.{areas, module_of, processor_of, stack_of};

use crate::area::modules::{InModule, read_module};
use crate::area::processors::{InProcessor, read_processor};
use crate::area::shape::{AreaShape, ModuleShape, ProcessorShape, StackShape};
use crate::area::stacks::{InStack, read_stack};
use kc_btf::Btf;
use kc_found::{Found, Space, WalkStop};
use kc_word::Steps;
use std::alloc::Global;
use std::sync::ledger::Ledger;

/// In which areas an address lies: each is `None` where no one has it, or where the kernel lacks what tells it, and else a
/// violation that keeps it from being told, which names audit 0, and as its start what was looked at.
#[derive(Drop)]
pub struct Areas {
    /// In the memory of a module.
    pub module_found: Result<Option<InModule>, Found>,
    /// In the area of a processor.
    pub processor_found: Result<Option<InProcessor>, Found>,
    /// In the stack of a task.
    pub stack_found: Result<Option<InStack>, Found>,
}

// The module that has an address, where the kernel tells it.
fn tell_module<S: Space, L: Ledger>(
    alloc: Global,
    space: &mut S,
    btf: &Btf,
    shape: &Option<ModuleShape>,
    address: u64,
    steps: &mut Steps<L>,
) -> Result<Result<Option<InModule>, Found>, WalkStop>
    ensures exact { WalksAs (λ m. m) (λ i. Ok (module_of i shape.now address)) (S.image space.old) result }
    ensures broken { OnBroken result ⊥ }
    ensures stays { SpaceStays S.image S.files S.through S.most space.old space.new }
    ensures cause { CountsWalkFaults result (S.faults space.old) (S.faults space.new) }
{
    let Some(shape) = shape else {
        return Ok(Ok(None));
    };
    match read_module(alloc, space, btf, shape, address, steps) {
        Ok(found) => Ok(Ok(found)),
        Err(WalkStop::Broken(broken)) => Ok(Err(broken)),
        Err(WalkStop::Fault) => Err(WalkStop::Fault),
        Err(WalkStop::NoMemory) => Err(WalkStop::NoMemory),
    }
}

// The processor whose area has an address, where the kernel tells it.
fn tell_processor<S: Space, L: Ledger>(
    alloc: Global,
    space: &mut S,
    shape: &Option<ProcessorShape>,
    address: u64,
    steps: &mut Steps<L>,
) -> Result<Result<Option<InProcessor>, Found>, WalkStop>
    ensures exact { WalksAs (λ p. p) (λ i. Ok (processor_of i shape.now address)) (S.image space.old) result }
    ensures broken { OnBroken result ⊥ }
    ensures stays { SpaceStays S.image S.files S.through S.most space.old space.new }
    ensures cause { CountsWalkFaults result (S.faults space.old) (S.faults space.new) }
{
    let Some(shape) = shape else {
        return Ok(Ok(None));
    };
    match read_processor(alloc, space, shape, address, steps) {
        Ok(found) => Ok(Ok(found)),
        Err(WalkStop::Broken(broken)) => Ok(Err(broken)),
        Err(WalkStop::Fault) => Err(WalkStop::Fault),
        Err(WalkStop::NoMemory) => Err(WalkStop::NoMemory),
    }
}

// The task whose stack has an address, where stacks are asked for and the kernel tells it.
fn tell_stack<S: Space, L: Ledger>(
    alloc: Global,
    space: &mut S,
    btf: &Btf,
    stacks: bool,
    shape: &Option<StackShape>,
    address: u64,
    steps: &mut Steps<L>,
) -> Result<Result<Option<InStack>, Found>, WalkStop>
    requires { IfSome shape.now (λ shape. IsInside shape.tasks btf.now) }
    ensures exact { WalksAs (λ s. s) (λ i. Ok (stack_of i stacks shape.now address)) (S.image space.old) result }
    ensures broken { OnBroken result ⊥ }
    ensures stays { SpaceStays S.image S.files S.through S.most space.old space.new }
    ensures cause { CountsWalkFaults result (S.faults space.old) (S.faults space.new) }
{
    let Some(shape) = shape else {
        return Ok(Ok(None));
    };
    if !stacks {
        return Ok(Ok(None));
    }
    match read_stack(alloc, space, btf, shape, address, steps) {
        Ok(found) => Ok(Ok(found)),
        Err(WalkStop::Broken(broken)) => Ok(Err(broken)),
        Err(WalkStop::Fault) => Err(WalkStop::Fault),
        Err(WalkStop::NoMemory) => Err(WalkStop::NoMemory),
    }
}

/// In which areas a virtual address lies, of stacks only where these are asked for.
///
/// # Errors
///
/// A failure of the space, whose count of faults then rose; or out of memory.
pub fn read_areas<S: Space, L: Ledger>(
    alloc: Global,
    space: &mut S,
    btf: &Btf,
    shape: &AreaShape,
    stacks: bool,
    address: u64,
    steps: &mut Steps<L>,
) -> Result<Areas, WalkStop>
    requires { IfSome shape.now.stacks (λ shape. IsInside shape.tasks btf.now) }
    ensures exact { WalksAs (λ a. a) (λ i. Ok (areas i shape.now stacks address)) (S.image space.old) result }
    ensures broken { OnBroken result ⊥ }
    ensures stays { SpaceStays S.image S.files S.through S.most space.old space.new }
    ensures cause { CountsWalkFaults result (S.faults space.old) (S.faults space.new) }
{
    let module_found = tell_module(alloc, space, btf, &shape.modules, address, steps)?;
    let processor_found = tell_processor(alloc, space, &shape.processors, address, steps)?;
    let stack_found = tell_stack(alloc, space, btf, stacks, &shape.stacks, address, steps)?;
    Ok(Areas {
        module_found,
        processor_found,
        stack_found,
    })
}
