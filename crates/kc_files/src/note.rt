// The text of a dump's VMCOREINFO note.
ghost use Rattle.std.specs.Prelude.{◌≡◌, ◌≤◌};
ghost use Rattle.kc_outside.specs.declared.store.Slot.TheVariants.{Dump};
ghost use Rattle.kc_outside.specs.Counts.{Rose};
ghost use Rattle.kc_outside.specs.Files.{content};
ghost use Rattle.kc_phys.specs.Stored.{AreInside};
ghost use Rattle.kc_command.specs.Halts.{OnStore, UnlessStore};
ghost use Rattle.kc_command.specs.Slots.{RefusesIn};
ghost use Rattle.kc_command.specs.Ends.Answers.{PrintsOf, PrintsOfBytes};
ghost use Rattle.kc_files.specs.Made.{files_written, kept_note, note_made, note_of};

use kc_command::{Answer, Halt, Refusal, VIEW_HEADERS, read_dump};
use kc_elf::Core;
use kc_found::ReadFailed;
use kc_memory_note::find_memory_note;
use kc_notes::{NoteFault, vmcoreinfo};
use kc_outside::Store;
use kc_word::Segment;
use std::alloc::Global;

// The text of the note, or the first fault on the way to it. The dump is opened for it.
pub(crate) fn note<S: Store>(alloc: Global, store: &mut S, dump: &str) -> Result<Answer, Halt>
    requires may { S.may store.old Dump dump.now }

    ensures output { PrintsOf files_written (λ files. note_made (files Dump dump.now)) (S.files store.old) result }
    ensures refused { RefusesIn Dump result }
    ensures files { S.files store.new ≡ S.files store.old }
    ensures later { S.faults store.old ≤ S.faults store.new }
    ensures quiet { UnlessStore result (S.faults store.new ≡ S.faults store.old) }
    ensures cause { OnStore result (Rose (S.faults store.old) (S.faults store.new)) }
{
    let core = read_dump(alloc, store, VIEW_HEADERS, dump)?;
    note_in(alloc, store, &core)
}

// The text of the note that the file has, and else the one that the memory has.
fn note_in<S: Store>(alloc: Global, store: &mut S, core: &Core) -> Result<Answer, Halt>
    requires inside { AreInside (S.sizes store.old Dump) core.now.segments }

    ensures output { PrintsOfBytes files_written (λ bytes. note_of bytes core.now)
        (content (S.files store.old) Dump (S.opened store.old Dump)) result }
    ensures refused { RefusesIn Dump result }
    ensures files { S.files store.new ≡ S.files store.old }
    ensures later { S.faults store.old ≤ S.faults store.new }
    ensures quiet { UnlessStore result (S.faults store.new ≡ S.faults store.old) }
    ensures cause { OnStore result (Rose (S.faults store.old) (S.faults store.new)) }
{
    match vmcoreinfo(core) {
        Ok(text) => Ok(Answer::Done(Vec::from_slice(alloc, text)?)),
        Err(NoteFault::V2) => kept_note(alloc, store, core.segments()),
        Err(fault) => Err(Halt::Refused(Refusal::Notes(fault))),
    }
}

// The text of the note that the memory has.
fn kept_note<S: Store>(alloc: Global, store: &mut S, segments: &[Segment]) -> Result<Answer, Halt>
    requires inside { AreInside (S.sizes store.old Dump) segments.now }

    ensures output { PrintsOfBytes files_written (λ bytes. kept_note bytes segments.now)
        (content (S.files store.old) Dump (S.opened store.old Dump)) result }
    ensures refused { RefusesIn Dump result }
    ensures files { S.files store.new ≡ S.files store.old }
    ensures later { S.faults store.old ≤ S.faults store.new }
    ensures quiet { UnlessStore result (S.faults store.new ≡ S.faults store.old) }
    ensures cause { OnStore result (Rose (S.faults store.old) (S.faults store.new)) }
{
    match find_memory_note(alloc, store, segments) {
        Ok(Some(text)) => Ok(Answer::Done(text)),
        Ok(None) => Err(Halt::Refused(Refusal::Notes(NoteFault::V2))),
        Err(ReadFailed::Fault) => Err(Halt::Store),
        Err(ReadFailed::NoMemory) => Err(Halt::Memory),
    }
}
