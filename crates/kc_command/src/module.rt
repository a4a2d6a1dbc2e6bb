// The types of a kernel with those of a module of it.
ghost use Rattle.std.specs.Prelude.{◌≡◌, ℕ, ◌≤◌, ◌^◌, List, length};
ghost use Rattle.kc_outside.specs.declared.store.Slot.{Slot};
ghost use Rattle.kc_outside.specs.Counts.{Rose};
ghost use Rattle.kc_outside.specs.Files.{OthersStay};
ghost use Rattle.kc_command.specs.Calls.{ReadsOnce, RefusesRead};
ghost use Rattle.kc_command.specs.Halts.{NotStore, OnStore, UnlessStore};
ghost use Rattle.kc_command.specs.Slots.{RefusesIn};
ghost use Rattle.kc_command.specs.Made.{Is, IsOf};
ghost use Rattle.kc_command.specs.Inputs.{AreShort, joined_in, module_in};

use crate::file::read_file;
use crate::halt::Halt;
use crate::refusal::Refusal;
use kc_btf::Btf;
use kc_outside::{Slot, Store};
use kc_split::{SplitStop, join};
use std::alloc::Global;

// The types of a kernel with those of a module, whose file has these bytes. Both files are too short for the types
// to be too long together.
fn take_module(alloc: Global, base: &Btf, bytes: &[u8]) -> Result<Btf, Halt>
    requires base { AreShort base.now }
    requires bytes { length bytes.now ≤ 2 ^ 26 }
    ensures made { Is (λ types. types) (joined_in base.now bytes.now) result }
    ensures refused { RefusesIn Slot.Module result }
    ensures no_call { NotStore result }
    ensures read { RefusesRead result }
{
    match join(alloc, base, bytes) {
        Ok(types) => Ok(types),
        Err(SplitStop::Fault(fault)) => Err(Halt::Refused(Refusal::Module(fault))),
        Err(SplitStop::NoMemory) => Err(Halt::Memory),
        Err(SplitStop::TooLong) => unreachable!(),
    }
}

/// Reads the types of a module of a kernel, the raw bytes of its section `.BTF`, into slot Module, and joins them to
/// the kernel's.
///
/// # Errors
///
/// The file is above 64 MiB; its first fault B1 to B8; a failed call of the store; no memory was left.
pub fn read_module<S: Store>(
    alloc: Global,
    store: &mut S,
    name: &str,
    base: &Btf,
) -> Result<Btf, Halt>
    requires may { S.may store.old Slot.Module name.now }
    requires short { AreShort base.now }

    ensures told { IsOf (λ types. types) (λ files. module_in base.now (files Slot.Module name.now)) (S.files store.old) result }
    ensures refused { RefusesIn Slot.Module result }

    ensures others_opened { OthersStay Slot.Module (S.opened store.old) (S.opened store.new) }
    ensures others_sizes { OthersStay Slot.Module (S.sizes store.old) (S.sizes store.new) }
    ensures may { (s : Slot) (n : List ℕ) → S.may store.old s n → S.may store.new s n }
    ensures files { S.files store.new ≡ S.files store.old }
    ensures later { S.faults store.old ≤ S.faults store.new }
    ensures calls { ReadsOnce S.faults S.asked result store.old store.new }
    ensures quiet { UnlessStore result (S.faults store.new ≡ S.faults store.old) }
    ensures cause { OnStore result (Rose (S.faults store.old) (S.faults store.new)) }
{
    let bytes = read_file(alloc, store, Slot::Module, name)?;
    take_module(alloc, base, &bytes)
}
