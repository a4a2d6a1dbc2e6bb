// A plan over the files of a kernel.
ghost use Rattle.std.specs.Prelude.{◌≡◌, ◌≤◌, ℕ, List, length, IfOk, IfSome};
ghost use Rattle.kc_outside.specs.declared.store.Slot.{Slot};
ghost use Rattle.kc_outside.specs.declared.store.Slot.TheVariants.{Dump};
ghost use Rattle.kc_outside.specs.Counts.{Rose};
ghost use Rattle.kc_view.specs.TaskLists.{IsInside};
ghost use Rattle.kc_plan.specs.Inside.{AreInside as TypesAreInside};
ghost use Rattle.kc_command.specs.Halts.{OnStore, UnlessStore};
ghost use Rattle.kc_command.specs.Made.{IsOf};
ghost use Rattle.kc_cause.specs.Explained.{planned_in};
ghost use Rattle.kc_cause.specs.Files.{RefusesLate, kernel_read, planned_view};

use kc_audit::read_audits;
use kc_btf::Btf;
use kc_command::{Halt, read_plan_file, read_symbols};
use kc_elf::Core;
use kc_notes::Info;
use kc_outside::Store;
use kc_plan::Plan;
use kc_slabs::{SlabShapes, slab_shapes};
use kc_told::{Shapes, shapes_in};
use std::alloc::Global;

/// What the files of a kernel hold. The dump stays in slot Dump.
#[derive(Clone, Copy)]
pub struct KernelRead<'k> {
    /// The segments and notes of the dump.
    pub core: &'k Core,
    /// What its notes tell.
    pub info: Info,
    /// The text of its VMCOREINFO.
    pub note: &'k [u8],
    /// The kernel's types.
    pub types: &'k Btf,
    /// The bytes of the map.
    pub map: &'k [u8],
}

/// A plan, and what tells of an address and of slabs.
#[derive(Drop)]
pub struct Planned<'m> {
    /// The plan.
    pub plan: Plan,
    /// What tells of an address.
    pub shapes: Shapes<'m>,
    /// What tells of slabs, where the kernel has it.
    pub slabs: Option<SlabShapes>,
}

/// A plan over the files of a kernel, and what tells of an address and of slabs.
///
/// # Errors
///
/// The first fault of the map's rows, or of the plan; a failed call of the store; no memory was left.
pub fn find_plan<'m, S: Store>(
    alloc: Global,
    store: &mut S,
    name: &str,
    kernel: &KernelRead<'m>,
) -> Result<Planned<'m>, Halt>
    requires plan { S.may store.old Slot.Plan name.now }

    ensures told { IsOf planned_view (λ told. planned_in (kernel_read kernel.now) kernel.now.note.now (told Slot.Plan name.now)) (S.files store.old) result }
    ensures unopened { RefusesLate result (S.opened store.old) (S.opened store.new) }
    ensures types { IfOk result (λ p. TypesAreInside (length kernel.now.types.now.records) p.plan.audits) }
    ensures tasks { IfOk result (λ p. IfSome p.shapes.words.areas.stacks (λ shape. IsInside shape.tasks kernel.now.types.now)) }

    ensures report_opened { S.opened store.new Slot.Report ≡ S.opened store.old Slot.Report }
    ensures dump_opened { S.opened store.new Dump ≡ S.opened store.old Dump }
    ensures dump_sizes { S.sizes store.new Dump ≡ S.sizes store.old Dump }
    ensures may { (s : Slot) (n : List ℕ) → S.may store.old s n → S.may store.new s n }
    ensures files { S.files store.new ≡ S.files store.old }
    ensures later { S.faults store.old ≤ S.faults store.new }
    ensures quiet { UnlessStore result (S.faults store.new ≡ S.faults store.old) }
    ensures cause { OnStore result (Rose (S.faults store.old) (S.faults store.new)) }
{
    let KernelRead {
        info,
        note,
        types,
        map,
        ..
    } = *kernel;
    let symbols = read_symbols(alloc, map)?;
    let bytes = read_plan_file(alloc, store, name)?;
    let plan = read_audits(alloc, &bytes, types, &symbols, &info)?;
    let shapes = shapes_in(alloc, types, &symbols, info, note, map)?;
    let slabs = slab_shapes(alloc, types, &symbols, info, note)?;
    Ok(Planned {
        plan,
        shapes,
        slabs,
    })
}
