// What the files of a kernel hold: a dump with its notes, its types and its map.
ghost use Rattle.std.specs.Prelude.{◌≡◌, ◌+◌, ◌≤◌, ◌^◌, ℕ, List, max, IfOk};
ghost use Rattle.std.specs.List.{All};
ghost use Rattle.kc_outside.specs.declared.store.Slot.{Slot};
ghost use Rattle.kc_outside.specs.declared.store.Slot.TheVariants.{Dump, Map};
ghost use Rattle.kc_outside.specs.Counts.{Rose};
ghost use Rattle.kc_outside.specs.Files.{content, named, OthersStay};
ghost use Rattle.kc_phys.specs.Stored.{AreInside};
ghost use Rattle.kc_command.specs.Halts.{OnStore, UnlessStore};
ghost use Rattle.kc_command.specs.Kernels.{kernel_files, kernel_in, kernel_view, noted_in, noted_view};
ghost use Rattle.kc_command.specs.Made.{IsOf};
ghost use Rattle.kc_command.specs.Paging.{IsTable};
ghost use Rattle.kc_command.specs.Slots.{RefusesIn};
ghost use Rattle.kc_command.specs.Ends.Answers.{StayBehind};

use crate::dump::{read_dump, read_info};
use crate::halt::Halt;
use crate::map::read_map;
use crate::types::read_types;
use kc_btf::Btf;
use kc_elf::Core;
use kc_notes::Info;
use kc_outside::Store;
use std::alloc::Global;

/// A dump with what its notes tell. It stays in slot Dump.
#[derive(Drop)]
pub struct Noted {
    /// The segments and notes of the dump.
    pub core: Core,
    /// What its notes tell.
    pub info: Info,
}

/// Opens a dump of at most `most` program headers in slot Dump, and reads its segments, its notes and what
/// these tell.
///
/// # Errors
///
/// The first fault E1 to E10 of the file, or V1 to V7 of its notes; a failed call of the store; no memory was left.
pub fn read_noted<S: Store>(
    alloc: Global,
    store: &mut S,
    most: u32,
    name: &str,
) -> Result<Noted, Halt>
    requires may { S.may store.old Dump name.now }

    ensures told { IsOf noted_view (λ files. noted_in most (files Dump name.now)) (S.files store.old) result }
    ensures refused { RefusesIn Dump result }
    ensures content { IfOk result (λ n. content (S.files store.new) Dump (S.opened store.new Dump) ≡ named (S.files store.old) Dump name.now) }
    ensures table { IfOk result (λ n. IsTable n.info.table) }
    ensures inside { IfOk result (λ n. AreInside (S.sizes store.new Dump) n.core.segments) }
    ensures below { IfOk result (λ n. All (λ s. s.paddr + max s.filesz s.memsz ≤ 2 ^ 64) n.core.segments) }

    ensures others_opened { OthersStay Dump (S.opened store.old) (S.opened store.new) }
    ensures others_sizes { OthersStay Dump (S.sizes store.old) (S.sizes store.new) }
    ensures may { (s : Slot) (n : List ℕ) → S.may store.old s n → S.may store.new s n }
    ensures files { S.files store.new ≡ S.files store.old }
    ensures later { S.faults store.old ≤ S.faults store.new }
    ensures quiet { UnlessStore result (S.faults store.new ≡ S.faults store.old) }
    ensures cause { OnStore result (Rose (S.faults store.old) (S.faults store.new)) }
{
    let core = read_dump(alloc, store, most, name)?;
    let info = read_info(&core)?;
    Ok(Noted { core, info })
}

/// The names of the files of a kernel.
#[derive(Clone, Copy)]
pub struct KernelFiles<'w> {
    /// The name of the dump.
    pub dump: &'w str,
    /// The name of the file of types.
    pub btf: &'w str,
    /// The name of the map.
    pub map: &'w str,
}

/// What a dump, the types and the map of its kernel hold. The dump stays in slot Dump.
#[derive(Drop)]
pub struct Kernel {
    /// The segments and notes of the dump.
    pub core: Core,
    /// What its notes tell.
    pub info: Info,
    /// The kernel's types.
    pub types: Btf,
    /// The bytes of the map.
    pub map: Vec<u8>,
}

/// Reads the dump, of at most `most` program headers, the types and the map.
///
/// # Errors
///
/// The first fault of these files, in their order; a failed call of the store; no memory was left.
pub fn read_kernel<S: Store>(
    alloc: Global,
    store: &mut S,
    most: u32,
    files: &KernelFiles<'_>,
) -> Result<Kernel, Halt>
    requires dump { S.may store.old Dump files.now.dump.now }
    requires btf { S.may store.old Slot.Btf files.now.btf.now }
    requires map { S.may store.old Map files.now.map.now }

    ensures told { IsOf kernel_view
        (λ told. kernel_in most (told Dump files.now.dump.now) (told Slot.Btf files.now.btf.now)
        (told Map files.now.map.now)) (S.files store.old) result }
    ensures content { IfOk result (λ k. content (S.files store.new) Dump (S.opened store.new Dump) ≡ named (S.files store.old) Dump files.now.dump.now) }
    ensures unopened { StayBehind (kernel_files files.now) result (S.opened store.old) (S.opened store.new) }
    ensures table { IfOk result (λ k. IsTable k.info.table) }
    ensures inside { IfOk result (λ k. AreInside (S.sizes store.new Dump) k.core.segments) }
    ensures below { IfOk result (λ k. All (λ s. s.paddr + max s.filesz s.memsz ≤ 2 ^ 64) k.core.segments) }

    ensures plan_opened { S.opened store.new Slot.Plan ≡ S.opened store.old Slot.Plan }
    ensures report_opened { S.opened store.new Slot.Report ≡ S.opened store.old Slot.Report }
    ensures may { (s : Slot) (n : List ℕ) → S.may store.old s n → S.may store.new s n }
    ensures files { S.files store.new ≡ S.files store.old }
    ensures later { S.faults store.old ≤ S.faults store.new }
    ensures quiet { UnlessStore result (S.faults store.new ≡ S.faults store.old) }
    ensures cause { OnStore result (Rose (S.faults store.old) (S.faults store.new)) }
{
    let noted = read_noted(alloc, store, most, files.dump)?;
    let types = read_types(alloc, store, files.btf)?;
    let map = read_map(alloc, store, files.map)?;
    Ok(Kernel {
        core: noted.core,
        info: noted.info,
        types,
        map,
    })
}
