// A dump and its notes.
ghost use Rattle.std.specs.Prelude.{◌≡◌, ◌+◌, ◌≤◌, ◌^◌, ℕ, List, Some, max, IfOk, OnOk};
ghost use Rattle.std.specs.List.{All};
ghost use Rattle.kc_outside.specs.declared.store.Slot.{Slot};
ghost use Rattle.kc_outside.specs.declared.store.Slot.TheVariants.{Dump};
ghost use Rattle.kc_outside.specs.Counts.{Rose};
ghost use Rattle.kc_outside.specs.Files.{content, named, OthersStay};
ghost use Rattle.kc_phys.specs.Stored.{AreInside};
ghost use Rattle.kc_notes.specs.Info.{info};
ghost use Rattle.kc_command.specs.declared.refusal.Refusal.TheVariants.{Notes};
ghost use Rattle.kc_command.specs.Paging.{IsTable, by_info};
ghost use Rattle.kc_command.specs.Inputs.{dump_parts};
ghost use Rattle.kc_command.specs.Slots.{IsAbout, RefusesIn};
ghost use Rattle.kc_command.specs.Made.{checked, IsOf, Tells};
ghost use Rattle.kc_command.specs.Halts.{OnStore, UnlessStore};

use crate::file::open;
use crate::halt::Halt;
use crate::refusal::Refusal;
use kc_elf::{Core, read_core_of};
use kc_notes::{Info, kernel_info, vmcoreinfo};
use kc_outside::{Slot, Store};
use kc_word::PageCfg;
use std::alloc::Global;

/// At most so many program headers has the core file that stands for a compressed dump: one for each of
/// 2^22 runs of pages, one for the notes, one for the top page table's page.
pub const VIEW_HEADERS: u32 = 4_194_306;

/// Opens a dump of at most `most` program headers in slot Dump, and reads its segments and notes.
///
/// # Errors
///
/// The first fault E1 to E10 of the file; a failed call of the store; no memory was left.
pub fn read_dump<S: Store>(
    alloc: Global,
    store: &mut S,
    most: u32,
    name: &str,
) -> Result<Core, Halt>
    requires may { S.may store.old Dump name.now }

    ensures told { IsOf (λ core. core) (λ files. dump_parts most (files Dump name.now)) (S.files store.old) result }
    ensures refused { RefusesIn Dump result }
    ensures content { OnOk result (content (S.files store.new) Dump (S.opened store.new Dump) ≡ named (S.files store.old) Dump name.now) }
    ensures inside { IfOk result (λ core. AreInside (S.sizes store.new Dump) core.segments) }
    ensures below { IfOk result (λ core. All (λ s. s.paddr + max s.filesz s.memsz ≤ 2 ^ 64) core.segments) }

    ensures others_opened { OthersStay Dump (S.opened store.old) (S.opened store.new) }
    ensures others_sizes { OthersStay Dump (S.sizes store.old) (S.sizes store.new) }
    ensures may { (s : Slot) (n : List ℕ) → S.may store.old s n → S.may store.new s n }
    ensures files { S.files store.new ≡ S.files store.old }
    ensures later { S.faults store.old ≤ S.faults store.new }
    ensures quiet { UnlessStore result (S.faults store.new ≡ S.faults store.old) }
    ensures cause { OnStore result (Rose (S.faults store.old) (S.faults store.new)) }
{
    let size = open(store, Slot::Dump, name)?;
    Ok(read_core_of(alloc, store, Slot::Dump, most, size)?)
}

/// What the notes of a dump tell of its kernel.
///
/// # Errors
///
/// The first fault V1 to V7 of the notes.
pub fn read_info(core: &Core) -> Result<Info, Refusal>
    ensures made { Tells (λ i. i) (checked Notes (info core.now.notes)) result }
    ensures refused { IsAbout (Some Dump) result }
    ensures table { IfOk result (λ i. IsTable i.table) }
{
    Ok(kernel_info(vmcoreinfo(core)?)?)
}

/// The page tables that the notes tell.
pub fn paging_by(info: Info) -> PageCfg
    ensures { result ≡ by_info info }
{
    PageCfg {
        table: info.table,
        five: info.five,
        sme: info.sme,
    }
}
