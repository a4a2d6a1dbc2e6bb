// The command `core`: the plain core file that stands for a dump.
ghost use Rattle.std.specs.Prelude.{◌≡◌, ◌≤◌, ◌⊎◌, Some, IsSome, IfSome, true};
ghost use Rattle.std.specs.Bool.{OnTrue};
ghost use Rattle.kc_outside.specs.declared.store.Slot.TheVariants.{Dump};
ghost use Rattle.kc_outside.specs.Counts.{Rose};
ghost use Rattle.kc_outside.specs.Files.{content};
ghost use Rattle.kc_outside.specs.Texts.{with_piece};
ghost use Rattle.kc_command.specs.declared.ends.status.Status.TheVariants.{Done, OutOfMemory, Refused, SinkFailed, StoreFailed};
ghost use Rattle.kc_command.specs.Ends.Failures.{memory_refused};
ghost use Rattle.kc_command.specs.Ends.Last.{StopsAtFailure};
ghost use Rattle.kc_command.specs.Ends.Status.{At, is_sink_quiet, number};
ghost use Rattle.kc_any_dump.specs.declared.cause.Cause.TheVariants.{Page};
ghost use Rattle.kc_any_dump.specs.Causes.{is_unread};
ghost use Rattle.kc_kplain.specs.declared.copy.CopyStop.TheVariants.{Sink, Store};
ghost use Rattle.kc_kplain.specs.Outcomes.{CausedBy, CoreEnds, DoneSays, StoreSays, is_copy, is_failed, is_unopened};

use crate::copy::{CopyStop, copy_file};
use kc_any_dump::{Cause, TellsCause, cause_line, end_by, end_with_line, put_all};
use kc_command::Status;
use kc_outside::{Failed, Sink, Slot, Store};
use kc_plain_store::BadPage;
use kc_word::NoMemory;
use std::alloc::Global;

const STORE_FAILED: &[u8] = b"store failed\n";

const SINK_FAILED: &[u8] = b"sink failed\n";

const INCOMPLETE: &[u8] = b"incomplete dump: the pages that it lacks are left out\n";

// Ends where the dump wasn't opened.
fn end_opening<D: TellsCause, E: Sink>(alloc: Global, dump: &D, err: &mut E) -> Status
    ensures status { OnTrue (is_sink_quiet result) (is_unread result ≡ true) }
    ensures refused { At result Refused (CausedBy (D.told dump.now) result (E.taken err.old) (E.taken err.new)) }
    ensures store { At result StoreFailed (StoreSays (D.told dump.now) (E.taken err.old) (E.taken err.new)) }
    ensures memory { At result OutOfMemory (E.taken err.new ≡ with_piece (E.taken err.old) memory_refused) }
    ensures sink_failed { At result SinkFailed (Rose (E.faults err.old) (E.faults err.new)) }
    ensures quiet { OnTrue (is_sink_quiet result) (E.faults err.new ≡ E.faults err.old) }
    ensures last { StopsAtFailure E.taken E.faults E.asked err.old err.new }
    ensures later { E.faults err.old ≤ E.faults err.new }
{
    match dump.cause() {
        Some(cause) => end_by(alloc, cause, err),
        None => end_with_line(err, Status::StoreFailed, STORE_FAILED),
    }
}

// The page that can't be had, where that is the cause.
fn bad_page(cause: Option<Cause>) -> Option<BadPage>
    ensures { IfSome result (λ bad. cause ≡ Some (Page bad)) }
{
    match cause? {
        Cause::Page(bad) => Some(bad),
        Cause::Flattened(_) | Cause::Compressed(_) | Cause::Memory => None,
    }
}

// Ends where a page can't be had.
fn end_page<E: Sink>(alloc: Global, bad: BadPage, err: &mut E) -> Status
    ensures failed { is_failed result ≡ true }
    ensures store { At result StoreFailed (StoreSays (Some (Page bad)) (E.taken err.old) (E.taken err.new)) }
    ensures sink_failed { At result SinkFailed (Rose (E.faults err.old) (E.faults err.new)) }
    ensures quiet { OnTrue (is_sink_quiet result) (E.faults err.new ≡ E.faults err.old) }
    ensures last { StopsAtFailure E.taken E.faults E.asked err.old err.new }
    ensures later { E.faults err.old ≤ E.faults err.new }
{
    match cause_line(alloc, Cause::Page(bad)) {
        Ok(line) => end_with_line(err, Status::StoreFailed, &line),
        Err(NoMemory) => end_with_line(err, Status::StoreFailed, STORE_FAILED),
    }
}

// Ends where the dump was opened, but not read to its end.
fn end_reading<D: TellsCause, E: Sink>(alloc: Global, dump: &D, err: &mut E) -> Status
    ensures failed { is_failed result ≡ true }
    ensures store { At result StoreFailed (StoreSays (D.told dump.now) (E.taken err.old) (E.taken err.new)) }
    ensures sink_failed { At result SinkFailed (Rose (E.faults err.old) (E.faults err.new)) }
    ensures quiet { OnTrue (is_sink_quiet result) (E.faults err.new ≡ E.faults err.old) }
    ensures last { StopsAtFailure E.taken E.faults E.asked err.old err.new }
    ensures later { E.faults err.old ≤ E.faults err.new }
{
    match bad_page(dump.cause()) {
        Some(bad) => end_page(alloc, bad, err),
        None => end_with_line(err, Status::StoreFailed, STORE_FAILED),
    }
}

// Ends where standard output failed: says so on standard error, as far as it takes it.
fn end_writing<E: Sink>(err: &mut E) -> Status
    ensures status { result ≡ SinkFailed }
    ensures last { StopsAtFailure E.taken E.faults E.asked err.old err.new }
    ensures later { E.faults err.old ≤ E.faults err.new }
{
    match put_all(err, SINK_FAILED) {
        Ok(()) => (),
        Err(Failed) => (),
    }
    Status::SinkFailed
}

// Ends where the dump wasn't copied whole.
fn end_copy<D: TellsCause, E: Sink>(alloc: Global, stop: CopyStop, dump: &D, err: &mut E) -> Status
    ensures failed { is_failed result ≡ true }
    ensures stop { At result StoreFailed (stop ≡ Store) }
    ensures store { At result StoreFailed (StoreSays (D.told dump.now) (E.taken err.old) (E.taken err.new)) }
    ensures sink_failed { At result SinkFailed ((stop ≡ Sink) ⊎ Rose (E.faults err.old) (E.faults err.new)) }
    ensures quiet { OnTrue (is_sink_quiet result) (E.faults err.new ≡ E.faults err.old) }
    ensures last { StopsAtFailure E.taken E.faults E.asked err.old err.new }
    ensures later { E.faults err.old ≤ E.faults err.new }
{
    match stop {
        CopyStop::Store => end_reading(alloc, dump, err),
        CopyStop::Sink => end_writing(err),
    }
}

// Ends where the dump was copied whole: says so where it lacks pages at its end.
fn end_done<D: TellsCause, E: Sink>(dump: &D, err: &mut E) -> Status
    requires { IsSome (D.opened dump.now Dump) }
    ensures status { OnTrue (is_sink_quiet result) (result ≡ Done) }
    ensures said { At result Done (DoneSays (D.held dump.now) (E.taken err.old) (E.taken err.new)) }
    ensures sink_failed { At result SinkFailed (Rose (E.faults err.old) (E.faults err.new)) }
    ensures quiet { OnTrue (is_sink_quiet result) (E.faults err.new ≡ E.faults err.old) }
    ensures last { StopsAtFailure E.taken E.faults E.asked err.old err.new }
    ensures later { E.faults err.old ≤ E.faults err.new }
{
    if dump.is_whole() {
        return Status::Done;
    }
    end_with_line(err, Status::Done, INCOMPLETE)
}

// Writes the file in slot Dump.
fn write_opened<D: TellsCause, O: Sink, E: Sink>(
    alloc: Global,
    dump: &mut D,
    out: &mut O,
    err: &mut E,
) -> Status
    requires { IsSome (D.opened dump.old Dump) }

    ensures status { is_copy result ≡ true }
    ensures whole { At result Done (IfSome (content (D.files dump.old) Dump (D.opened dump.old Dump)) (λ bytes. O.taken out.new ≡ with_piece (O.taken out.old) bytes)) }
    ensures said { At result Done (DoneSays (D.held dump.new) (E.taken err.old) (E.taken err.new)) }
    ensures store { At result StoreFailed (StoreSays (D.told dump.new) (E.taken err.old) (E.taken err.new)) }

    ensures store_failed { At result StoreFailed (Rose (D.faults dump.old) (D.faults dump.new)) }
    ensures sink_failed { At result SinkFailed
        (Rose (O.faults out.old) (O.faults out.new) ⊎ Rose (E.faults err.old) (E.faults err.new)) }
    ensures quiet_store { At result Done (D.faults dump.new ≡ D.faults dump.old) }
    ensures quiet_out { OnTrue (is_sink_quiet result) (O.faults out.new ≡ O.faults out.old) }
    ensures quiet_err { OnTrue (is_sink_quiet result) (E.faults err.new ≡ E.faults err.old) }
    ensures out_last { StopsAtFailure O.taken O.faults O.asked out.old out.new }
    ensures err_last { StopsAtFailure E.taken E.faults E.asked err.old err.new }

    ensures files { D.files dump.new ≡ D.files dump.old }
    ensures opened { D.opened dump.new ≡ D.opened dump.old }
    ensures store_later { D.faults dump.old ≤ D.faults dump.new }
    ensures out_later { O.faults out.old ≤ O.faults out.new }
    ensures err_later { E.faults err.old ≤ E.faults err.new }
{
    match copy_file(dump, out) {
        Ok(()) => end_done(dump, err),
        Err(stop) => end_copy(alloc, stop, dump, err),
    }
}

/// Writes the plain core file that stands for the dump of a name, or the dump itself where it isn't compressed.
pub fn write_plain<D: TellsCause, O: Sink, E: Sink>(
    alloc: Global,
    name: &str,
    dump: &mut D,
    out: &mut O,
    err: &mut E,
) -> Status
    requires { D.may dump.old Dump name.now }

    ensures ends { CoreEnds (D.files dump.old) name.now (D.file dump.new) (D.held dump.new) (D.told dump.new) result (O.taken out.old) (O.taken out.new)
        (E.taken err.old) (E.taken err.new) }

    // Each failure has its cause, and a dump that isn't opened puts nothing to standard output.
    ensures silent { OnTrue (is_unopened result) (O.asked out.new ≡ O.asked out.old) }
    ensures store_failed { OnTrue (is_unread result) (Rose (D.faults dump.old) (D.faults dump.new)) }
    ensures sink_failed { At result SinkFailed
        (Rose (O.faults out.old) (O.faults out.new) ⊎ Rose (E.faults err.old) (E.faults err.new)) }
    ensures quiet_store { At result Done (D.faults dump.new ≡ D.faults dump.old) }
    ensures quiet_out { OnTrue (is_sink_quiet result) (O.faults out.new ≡ O.faults out.old) }
    ensures quiet_err { OnTrue (is_sink_quiet result) (E.faults err.new ≡ E.faults err.old) }
    ensures out_last { StopsAtFailure O.taken O.faults O.asked out.old out.new }
    ensures err_last { StopsAtFailure E.taken E.faults E.asked err.old err.new }

    ensures files { D.files dump.new ≡ D.files dump.old }
    ensures store_later { D.faults dump.old ≤ D.faults dump.new }
    ensures out_later { O.faults out.old ≤ O.faults out.new }
    ensures err_later { E.faults err.old ≤ E.faults err.new }
{
    match dump.open_file(Slot::Dump, name) {
        Ok(()) => write_opened(alloc, dump, out, err),
        Err(Failed) => end_opening(alloc, dump, err),
    }
}
