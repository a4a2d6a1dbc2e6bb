// How a program ends whose dump can't be read.
ghost use Rattle.std.specs.Prelude.{◌≡◌, ◌≤◌, nat_eq, true};
ghost use Rattle.std.specs.Bool.{OnFalse, OnTrue};
ghost use Rattle.kc_outside.specs.Counts.{Rose};
ghost use Rattle.kc_outside.specs.Texts.{with_piece};
ghost use Rattle.kc_command.specs.declared.ends.status.Status.TheVariants.{SinkFailed, StoreFailed};
ghost use Rattle.kc_command.specs.Ends.Ends.{TookPrefix};
ghost use Rattle.kc_command.specs.Ends.Last.{StopsAtFailure};
ghost use Rattle.kc_command.specs.Ends.Status.{At, is_sink_quiet, number};
ghost use Rattle.kc_any_dump.specs.Causes.{IsTrueOf, SaysAny, SaysCause, TookAny, TookCause, is_unread};

use crate::cause::{Cause, TellsCause, status_of};
use crate::line::cause_line;
use crate::put::put_all;
use kc_command::Status;
use kc_outside::{Failed, Sink};
use kc_word::NoMemory;
use std::alloc::Global;

const MEMORY_REFUSED: &[u8] = b"memory refused\n";

/// Puts a line to standard error, and ends with the status, which isn't a sink's, or with that of a sink.
pub fn end_with_line<E: Sink>(err: &mut E, status: Status, line: &[u8]) -> Status
    requires { is_sink_quiet status ≡ true }
    ensures status { OnTrue (is_sink_quiet result) (result ≡ status) }
    ensures whole { OnTrue (is_sink_quiet result) (E.taken err.new ≡ with_piece (E.taken err.old) line.now) }
    ensures part { TookPrefix (E.taken err.old) (E.taken err.new) line.now }
    ensures sink_failed { At result SinkFailed (Rose (E.faults err.old) (E.faults err.new)) }
    ensures quiet { OnTrue (is_sink_quiet result) (E.faults err.new ≡ E.faults err.old) }
    ensures last { StopsAtFailure E.taken E.faults E.asked err.old err.new }
    ensures later { E.faults err.old ≤ E.faults err.new }
{
    match put_all(err, line) {
        Ok(()) => status,
        Err(Failed) => Status::SinkFailed,
    }
}

/// Ends a program whose dump can't be read: the line of the cause goes to standard error.
pub fn end_by<E: Sink>(alloc: Global, cause: Cause, err: &mut E) -> Status
    ensures told { OnTrue (is_sink_quiet result) (SaysCause cause result (E.taken err.old) (E.taken err.new)) }
    ensures unread { OnTrue (is_sink_quiet result) (is_unread result ≡ true) }
    ensures part { TookCause cause (E.taken err.old) (E.taken err.new) }
    ensures sink_failed { At result SinkFailed (Rose (E.faults err.old) (E.faults err.new)) }
    ensures quiet { OnTrue (is_sink_quiet result) (E.faults err.new ≡ E.faults err.old) }
    ensures last { StopsAtFailure E.taken E.faults E.asked err.old err.new }
    ensures later { E.faults err.old ≤ E.faults err.new }
{
    match cause_line(alloc, cause) {
        Ok(line) => end_with_line(err, status_of(cause), &line),
        Err(NoMemory) => end_with_line(err, Status::OutOfMemory, MEMORY_REFUSED),
    }
}

// The same by a cause, or by none where only a call of the store failed, which was said.
fn end_by_any<E: Sink>(alloc: Global, cause: Option<Cause>, err: &mut E) -> Status
    ensures told { OnTrue (is_sink_quiet result) (SaysAny cause result (E.taken err.old) (E.taken err.new)) }
    ensures unread { OnTrue (is_sink_quiet result) (is_unread result ≡ true) }
    ensures part { TookAny cause (E.taken err.old) (E.taken err.new) }
    ensures sink_failed { At result SinkFailed (Rose (E.faults err.old) (E.faults err.new)) }
    ensures quiet { OnTrue (is_sink_quiet result) (E.faults err.new ≡ E.faults err.old) }
    ensures last { StopsAtFailure E.taken E.faults E.asked err.old err.new }
    ensures later { E.faults err.old ≤ E.faults err.new }
{
    match cause {
        Some(cause) => end_by(alloc, cause, err),
        None => Status::StoreFailed,
    }
}

/// Ends a program over a dump of any form, whose own end is a status. Where a call of the store failed and the dump's form has to do
/// with it, the line of the cause goes to standard error after the program's own, and the status is by the cause.
pub fn end_with_cause<D: TellsCause, E: Sink>(
    alloc: Global,
    status: Status,
    dump: &D,
    err: &mut E,
) -> Status
    // Another end stays as it is.
    ensures same { OnFalse (nat_eq (number status) 3) (result ≡ status) }
    ensures untouched { OnFalse (nat_eq (number status) 3) (err.new ≡ err.old) }

    // The line is that of the cause that the store tells, and this is what the bytes say that it holds.
    ensures told { At status StoreFailed (OnTrue (is_sink_quiet result) (SaysAny (D.told dump.now) result (E.taken err.old) (E.taken err.new))) }
    ensures is_true { IsTrueOf (D.told dump.now) (D.file dump.now) (D.held dump.now) }
    ensures unread { At status StoreFailed (OnTrue (is_sink_quiet result) (is_unread result ≡ true)) }
    ensures part { At status StoreFailed (TookAny (D.told dump.now) (E.taken err.old) (E.taken err.new)) }
    ensures sink_failed { At status StoreFailed (At result SinkFailed (Rose (E.faults err.old) (E.faults err.new))) }
    ensures quiet { OnTrue (is_sink_quiet result) (E.faults err.new ≡ E.faults err.old) }
    ensures last { StopsAtFailure E.taken E.faults E.asked err.old err.new }
    ensures later { E.faults err.old ≤ E.faults err.new }
{
    match status {
        Status::StoreFailed => end_by_any(alloc, dump.cause(), err),
        Status::Done
        | Status::Broken
        | Status::Refused
        | Status::SinkFailed
        | Status::OutOfMemory
        | Status::NoCommand => status,
    }
}
