// The types of a kernel.
ghost use Rattle.std.specs.Prelude.{◌≡◌, ℕ, ◌≤◌, ◌^◌, List, length, IfOk};
ghost use Rattle.kc_btf.specs.Btf.{btf};
ghost use Rattle.kc_outside.specs.declared.store.Slot.{Slot};
ghost use Rattle.kc_outside.specs.Counts.{Rose};
ghost use Rattle.kc_outside.specs.Files.{OthersStay};
ghost use Rattle.kc_command.specs.declared.refusal.Refusal.TheVariants.{Types};
ghost use Rattle.kc_command.specs.Calls.{ReadsOnce, RefusesRead};
ghost use Rattle.kc_command.specs.Halts.{NotStore, OnStore, UnlessStore};
ghost use Rattle.kc_command.specs.Slots.{RefusesIn};
ghost use Rattle.kc_command.specs.Made.{checked, Is, IsOf};
ghost use Rattle.kc_command.specs.Inputs.{AreShort, types_in};

use crate::file::read_file;
use crate::halt::Halt;
use kc_btf::Btf;
use kc_outside::{Slot, Store};
use std::alloc::Global;

/// The types of a kernel, by the raw bytes of its section `.BTF`, of which there are at most 64 MiB.
///
/// # Errors
///
/// The first fault B1 to B8; no memory was left.
pub fn take_types(alloc: Global, bytes: Vec<u8>) -> Result<Btf, Halt>
    requires { length bytes.items ≤ 2 ^ 26 }
    ensures made { Is (λ types. types) (checked Types (btf bytes.items)) result }
    ensures short { IfOk result AreShort }
    ensures refused { RefusesIn Slot.Btf result }
    ensures no_call { NotStore result }
    ensures read { RefusesRead result }
{
    Ok(Btf::read(alloc, bytes)?)
}

/// Reads the types of a kernel, the raw bytes of its section `.BTF`, into slot Btf.
///
/// # Errors
///
/// The file is above 64 MiB; its first fault B1 to B8; a failed call of the store; no memory was left.
pub fn read_types<S: Store>(alloc: Global, store: &mut S, name: &str) -> Result<Btf, Halt>
    requires may { S.may store.old Slot.Btf name.now }

    ensures told { IsOf (λ types. types) (λ files. types_in (files Slot.Btf name.now)) (S.files store.old) result }
    ensures short { IfOk result AreShort }
    ensures refused { RefusesIn Slot.Btf result }

    ensures others_opened { OthersStay Slot.Btf (S.opened store.old) (S.opened store.new) }
    ensures others_sizes { OthersStay Slot.Btf (S.sizes store.old) (S.sizes store.new) }
    ensures may { (s : Slot) (n : List ℕ) → S.may store.old s n → S.may store.new s n }
    ensures files { S.files store.new ≡ S.files store.old }
    ensures later { S.faults store.old ≤ S.faults store.new }
    ensures calls { ReadsOnce S.faults S.asked result store.old store.new }
    ensures quiet { UnlessStore result (S.faults store.new ≡ S.faults store.old) }
    ensures cause { OnStore result (Rose (S.faults store.old) (S.faults store.new)) }
{
    let bytes = read_file(alloc, store, Slot::Btf, name)?;
    take_types(alloc, bytes)
}
