// One look at the memory of a dump.
ghost use Rattle.std.specs.Prelude.{◌≡◌, ◌<◌, ◌≤◌, option_map, IfOk, IfSome};
ghost use Rattle.kc_outside.specs.declared.store.Slot.TheVariants.{Dump};
ghost use Rattle.kc_outside.specs.Counts.{Rose};
ghost use Rattle.kc_outside.specs.Files.{content};
ghost use Rattle.kc_phys.specs.Stored.{AreInside};
ghost use Rattle.kc_command.specs.Halts.{NotRefused, OnStore, UnlessStore};
ghost use Rattle.kc_command.specs.Kernels.{kernel_view};
ghost use Rattle.kc_command.specs.Paging.{IsTable};
ghost use Rattle.kc_why.specs.Looking.{IsSeen, LeadsAs, SightsAs, TellsAs};
ghost use Rattle.kc_why.specs.Memory.{memory_of};
ghost use Rattle.kc_told.specs.Views.{shapes_view};
ghost use Rattle.kc_view.specs.TaskLists.{IsInside};
ghost use Rattle.kc_found.specs.Failures.{CountsFailures};

use crate::failures::halted;
use kc_btf::Btf;
use kc_command::{Halt, Kernel, paging_by};
use kc_found::ReadFailed;
use kc_memory::Space;
use kc_outside::Store;
use kc_phys::{Phys, Room};
use kc_question::{Question, Returned, ask_over};
use kc_sight::{Rules, TableEntry, read_entries, word_start};
use kc_told::{Shapes, Sighted, read_sighted};
use kc_word::{Steps, Tail};
use std::alloc::Global;
use std::marker::Brand;
use std::sync::ledger::{Blank, Ledger};

// An address, with the kernel's rules for addresses and what it has that tells of them.
#[derive(Drop)]
struct Looking<'l, 'm> {
    alloc: Global,
    types: &'l Btf,
    rules: &'l Rules,
    shapes: &'l Shapes<'m>,
    address: u64,
    // The entries of the page tables on the way to it.
    entries: Vec<TableEntry>,
}

impl<'l, 'm> Question for Looking<'l, 'm> {
    type Answer = Result<Sighted<'m>, ReadFailed>;

    ghost may = { λ of. IfSome of.shapes.now.words.areas.stacks (λ shape. IsInside shape.tasks of.types.now) };

    ghost says = { λ of image answer. IfOk answer (IsSeen image of.rules.now (shapes_view of.shapes.now) of.address of.entries.items) };

    ghost leaves = { λ _ answer before after. CountsFailures answer before after };

    fn ask<M: Space, L: Ledger>(
        &self,
        memory: &mut M,
        steps: &mut Steps<L>,
    ) -> Result<Sighted<'m>, ReadFailed> {
        let entries = self.entries.to_vec(self.alloc)?;
        read_sighted(
            self.alloc,
            memory,
            self.types,
            self.shapes,
            self.address,
            self.rules,
            Ok(entries),
            steps,
        )
    }
}

/// What is seen of an address of the dump in slot Dump, and what holds it, where the files of its kernel were read.
///
/// # Errors
///
/// A failed call of the store; no memory was left.
pub fn look_at<'m, S: Store>(
    alloc: Global,
    store: &mut S,
    kernel: &Kernel,
    rules: &Rules,
    shapes: &Shapes<'m>,
    address: u64,
) -> Result<Sighted<'m>, Halt>
    requires table { IsTable kernel.now.info.table }
    requires inside { AreInside (S.sizes store.old Dump) kernel.now.core.segments }
    requires tasks { IfSome shapes.now.words.areas.stacks (λ shape. IsInside shape.tasks kernel.now.types) }

    ensures sight { SightsAs (option_map (memory_of (kernel_view kernel.now)) (content (S.files store.old) Dump (S.opened store.old Dump)))
        rules.now address result }
    ensures told { TellsAs (option_map (memory_of (kernel_view kernel.now)) (content (S.files store.old) Dump (S.opened store.old Dump)))
        (shapes_view shapes.now) address result }
    ensures leads { LeadsAs (option_map (memory_of (kernel_view kernel.now)) (content (S.files store.old) Dump (S.opened store.old Dump)))
        (shapes_view shapes.now) address result }
    ensures not_refused { NotRefused result }
    ensures files { S.files store.new ≡ S.files store.old }
    ensures later { S.faults store.old ≤ S.faults store.new }
    ensures quiet { UnlessStore result (S.faults store.new ≡ S.faults store.old) }
    ensures cause { OnStore result (Rose (S.faults store.old) (S.faults store.new)) }
{
    match look::<S, Brand>(alloc, store, kernel, rules, shapes, address, Blank::new(1)) {
        Ok(sight) => Ok(sight),
        Err(stop) => Err(halted(stop)),
    }
}

// The same with the steps to the entries on a blank of the caller's.
fn look<'m, S: Store, L: Ledger>(
    alloc: Global,
    store: &mut S,
    kernel: &Kernel,
    rules: &Rules,
    shapes: &Shapes<'m>,
    address: u64,
    blank: Blank,
) -> Result<Sighted<'m>, ReadFailed>
    requires name { blank.name ≡ L.name }
    requires parts { blank.parts ≡ L.parts }
    requires some { 0 < L.parts }
    requires table { IsTable kernel.now.info.table }
    requires inside { AreInside (S.sizes store.old Dump) kernel.now.core.segments }
    requires tasks { IfSome shapes.now.words.areas.stacks (λ shape. IsInside shape.tasks kernel.now.types) }

    ensures sight { SightsAs (option_map (memory_of (kernel_view kernel.now)) (content (S.files store.old) Dump (S.opened store.old Dump)))
        rules.now address result }
    ensures told { TellsAs (option_map (memory_of (kernel_view kernel.now)) (content (S.files store.old) Dump (S.opened store.old Dump)))
        (shapes_view shapes.now) address result }
    ensures leads { LeadsAs (option_map (memory_of (kernel_view kernel.now)) (content (S.files store.old) Dump (S.opened store.old Dump)))
        (shapes_view shapes.now) address result }
    ensures files { S.files store.new ≡ S.files store.old }
    ensures cause { CountsFailures result (S.faults store.old) (S.faults store.new) }
{
    let room = Room::new(alloc, kernel.core.segments(), Tail::Absent)?;
    let paging = paging_by(kernel.info);
    let mut steps = Steps::<L>::new(blank);
    let mut frames = Phys::over(store, room);
    match read_entries(alloc, &mut frames, &paging, word_start(address), &mut steps) {
        Ok(entries) => {
            let looking = Looking {
                alloc,
                types: &kernel.types,
                rules,
                shapes,
                address,
                entries,
            };
            let Returned { memory, answer } = ask_over(alloc, frames, paging, &looking);
            let _store = memory.into_store();
            let seen = answer?;
            seen
        }
        Err(stop) => {
            let _store = frames.into_store();
            Err(stop)
        }
    }
}
