// The file of a certificate.
ghost use Rattle.std.specs.Prelude.{◌≡◌, ◌≤◌, ℕ, List};
ghost use Rattle.kc_outside.specs.declared.store.Slot.{Slot};
ghost use Rattle.kc_outside.specs.Counts.{Rose};
ghost use Rattle.kc_outside.specs.Files.{OthersStay};
ghost use Rattle.kc_command.specs.Calls.{ReadsOnce};
ghost use Rattle.kc_command.specs.Halts.{OnStore, UnlessStore};
ghost use Rattle.kc_command.specs.Inputs.{cert_bytes_in};
ghost use Rattle.kc_command.specs.Slots.{RefusesIn};
ghost use Rattle.kc_command.specs.Made.{IsOf};

use crate::file::read_file;
use crate::halt::Halt;
use kc_outside::{Slot, Store};
use std::alloc::Global;

/// Reads the bytes of a certificate whole, into slot Report.
///
/// # Errors
///
/// The file is above 256 MiB; a failed call of the store; no memory was left.
pub fn read_cert_file<S: Store>(alloc: Global, store: &mut S, name: &str) -> Result<Vec<u8>, Halt>
    requires may { S.may store.old Slot.Report name.now }

    ensures told { IsOf (λ cert. cert.items) (λ files. cert_bytes_in (files Slot.Report name.now)) (S.files store.old) result }
    ensures refused { RefusesIn Slot.Report result }

    ensures others_opened { OthersStay Slot.Report (S.opened store.old) (S.opened store.new) }
    ensures others_sizes { OthersStay Slot.Report (S.sizes store.old) (S.sizes store.new) }
    ensures may { (s : Slot) (n : List ℕ) → S.may store.old s n → S.may store.new s n }
    ensures files { S.files store.new ≡ S.files store.old }
    ensures later { S.faults store.old ≤ S.faults store.new }
    ensures calls { ReadsOnce S.faults S.asked result store.old store.new }
    ensures quiet { UnlessStore result (S.faults store.new ≡ S.faults store.old) }
    ensures cause { OnStore result (Rose (S.faults store.old) (S.faults store.new)) }
{
    read_file(alloc, store, Slot::Report, name)
}
