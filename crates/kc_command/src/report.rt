// The file of a report.
ghost use Rattle.std.specs.Prelude.{◌≡◌, ◌≤◌, ◌^◌, ℕ, List, length, IfOk};
ghost use Rattle.kc_outside.specs.declared.store.Slot.{Slot};
ghost use Rattle.kc_outside.specs.Counts.{Rose};
ghost use Rattle.kc_outside.specs.Files.{OthersStay};
ghost use Rattle.kc_command.specs.Calls.{ReadsOnce};
ghost use Rattle.kc_command.specs.Halts.{OnStore, UnlessStore};
ghost use Rattle.kc_command.specs.Inputs.{report_bytes_in};
ghost use Rattle.kc_command.specs.Slots.{RefusesIn};
ghost use Rattle.kc_command.specs.Made.{IsOf};

use crate::file::{open, read_opened};
use crate::halt::Halt;
use crate::refusal::{Refusal, ReportFault};
use kc_outside::{Slot, Store};
use std::alloc::Global;

// How long a report may be, in bytes.
const MOST: u64 = 1 << 20;

/// Reads the bytes of a report whole, into slot Report. One of more than 1 MiB is refused before a byte of it is read.
///
/// # Errors
///
/// The file is above 1 MiB; a failed call of the store; no memory was left.
pub fn read_report_file<S: Store>(alloc: Global, store: &mut S, name: &str) -> Result<Vec<u8>, Halt>
    requires may { S.may store.old Slot.Report name.now }

    ensures told { IsOf (λ report. report.items) (λ files. report_bytes_in (files Slot.Report name.now)) (S.files store.old) result }
    ensures short { IfOk result (λ report. length report.items ≤ 2 ^ 20) }
    ensures refused { RefusesIn Slot.Report result }

    ensures others_opened { OthersStay Slot.Report (S.opened store.old) (S.opened store.new) }
    ensures others_sizes { OthersStay Slot.Report (S.sizes store.old) (S.sizes store.new) }
    ensures may { (s : Slot) (n : List ℕ) → S.may store.old s n → S.may store.new s n }
    ensures files { S.files store.new ≡ S.files store.old }
    ensures later { S.faults store.old ≤ S.faults store.new }
    ensures calls { ReadsOnce S.faults S.asked result store.old store.new }
    ensures quiet { UnlessStore result (S.faults store.new ≡ S.faults store.old) }
    ensures cause { OnStore result (Rose (S.faults store.old) (S.faults store.new)) }
{
    let size = open(store, Slot::Report, name)?;
    if size > MOST {
        return Err(Halt::Refused(Refusal::Report(ReportFault::F1)));
    }
    read_opened(alloc, store, Slot::Report, size)
}
