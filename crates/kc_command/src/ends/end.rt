// How a program ends: where its text goes, and its status.
ghost use Rattle.std.specs.Prelude.{◌≡◌, ◌-◌, ◌^◌, ◌<◌, ◌≤◌, ◌⊎◌, ◌||◌, nat_eq, None, Some, Err, IsTrue, OnOk, OnErr, []};
ghost use Rattle.std.specs.Bool.{OnTrue};
ghost use Rattle.kc_command.specs.declared.halt.Halt.TheVariants.{Store};
ghost use Rattle.kc_outside.specs.Counts.{Rose};
ghost use Rattle.kc_outside.specs.Texts.{with_piece};
ghost use Rattle.kc_command.specs.Ends.Answers.{NeedsMemory, OnNone, OnStoreIn, ending};
ghost use Rattle.kc_command.specs.Ends.Ends.{IsWritten, TookLine, TookOut, TookPrefix};
ghost use Rattle.kc_command.specs.Ends.Failures.{store_failed, memory_refused, sink_failed};
ghost use Rattle.kc_command.specs.Ends.Last.{FailedLast, StopsAtFailure};
ghost use Rattle.kc_command.specs.Ends.Status.{At, is_answer, is_silent, is_sink_quiet, is_store_quiet, number};
ghost use Rattle.kc_command.specs.declared.ends.status.Status.TheVariants.{NoCommand, OutOfMemory, SinkFailed, StoreFailed};

use crate::ends::answer::Answer;
use crate::ends::print::put_all;
use crate::ends::status::Status;
use crate::{Halt, refusal_line};
use kc_outside::{Failed, Sink};
use kc_word::NoMemory;
use std::alloc::Global;

const STORE_FAILED: &[u8] = b"store failed\n";

const SINK_FAILED: &[u8] = b"sink failed\n";

const MEMORY_REFUSED: &[u8] = b"memory refused\n";

// Says on standard error that standard output failed, as far as it takes it.
fn tell_failure<E: Sink>(err: &mut E)
    ensures part { TookPrefix (E.taken err.old) (E.taken err.new) sink_failed }
    ensures whole { E.faults err.old < 2 ^ 64 - 1 → E.faults err.new ≡ E.faults err.old → E.taken err.new ≡ with_piece
        (E.taken err.old) sink_failed }
    ensures later { E.faults err.old ≤ E.faults err.new }
    ensures last { StopsAtFailure E.taken E.faults E.asked err.old err.new }
{
    match put_all(err, SINK_FAILED) {
        Ok(()) => (),
        Err(Failed) => (),
    }
}

// Puts a whole text to standard output. Where that fails, it says so on standard error.
fn put_out<O: Sink, E: Sink>(out: &mut O, err: &mut E, text: &[u8]) -> Result<(), Failed>
    ensures whole { OnOk result (O.taken out.new ≡ with_piece (O.taken out.old) text.now) }
    ensures part { TookPrefix (O.taken out.old) (O.taken out.new) text.now }
    ensures later { O.faults out.old ≤ O.faults out.new }
    ensures quiet { OnOk result (O.faults out.new ≡ O.faults out.old) }
    ensures cause { OnErr result (Rose (O.faults out.old) (O.faults out.new)) }
    ensures last { OnErr result (FailedLast O.taken O.faults O.asked out.old out.new) }

    ensures err_nothing { OnOk result (E.taken err.new ≡ with_piece (E.taken err.old) []) }
    ensures err_part { OnErr result (TookPrefix (E.taken err.old) (E.taken err.new) sink_failed) }
    ensures err_whole { OnErr result
        (E.faults err.old < 2 ^ 64 - 1 → E.faults err.new ≡ E.faults err.old → E.taken err.new ≡ with_piece
        (E.taken err.old) sink_failed) }
    ensures err_later { E.faults err.old ≤ E.faults err.new }
    ensures err_quiet { OnOk result (E.faults err.new ≡ E.faults err.old) }
    ensures err_last { StopsAtFailure E.taken E.faults E.asked err.old err.new }
{
    match put_all(out, text) {
        Ok(()) => Ok(()),
        Err(Failed) => {
            tell_failure(err);
            Err(Failed)
        }
    }
}

/// Ends a program by what its words came to, `None` where they aren't a command, and tells its status. The text of an
/// answer goes to standard output; usage, or the line of why there is no answer, goes to standard error.
pub fn finish<O: Sink, E: Sink>(
    alloc: Global,
    outcome: Option<Result<Answer, Halt>>,
    usage: &[u8],
    out: &mut O,
    err: &mut E,
) -> Status
    // An answer is the one that the words came to, put whole.
    ensures told { OnTrue (is_answer result)
        (IsWritten (ending usage.now outcome) result (O.taken out.old) (O.taken out.new) (E.taken err.old)
        (E.taken err.new)) }

    // Each status has its cause.
    ensures store_failed { At result StoreFailed (outcome ≡ Some (Err Store)) }
    ensures store_text { At result StoreFailed (E.taken err.new ≡ with_piece (E.taken err.old) store_failed) }
    ensures memory { At result OutOfMemory (NeedsMemory outcome) }
    ensures memory_text { At result OutOfMemory (E.taken err.new ≡ with_piece (E.taken err.old) memory_refused) }
    ensures usage { At result NoCommand (outcome ≡ None) }
    ensures usage_text { At result NoCommand (E.taken err.new ≡ with_piece (E.taken err.old) usage.now) }
    ensures usage_only { OnNone outcome (IsTrue (nat_eq (number result) 6 || nat_eq (number result) 4)) }
    ensures sink_failed { At result SinkFailed
        (Rose (O.faults out.old) (O.faults out.new) ⊎ Rose (E.faults err.old) (E.faults err.new)) }

    // Standard output stays empty on a refusal. The store failed only at status 3, or where that couldn't be
    // told, and a sink only at status 4.
    ensures silent { OnTrue (is_silent result) (O.asked out.new ≡ O.asked out.old) }
    ensures silent_text { OnTrue (is_silent result) (O.taken out.new ≡ O.taken out.old) }
    ensures quiet_store { OnTrue (is_store_quiet result) (OnStoreIn outcome ⊥) }
    ensures quiet_out { OnTrue (is_sink_quiet result) (O.faults out.new ≡ O.faults out.old) }
    ensures quiet_err { OnTrue (is_sink_quiet result) (E.faults err.new ≡ E.faults err.old) }

    // What the sinks took where one failed.
    ensures out_part { At result SinkFailed (O.faults out.old < O.faults out.new
        → TookOut (ending usage.now outcome) (O.taken out.old) (O.taken out.new)) }
    ensures err_part { At result SinkFailed
        (O.faults out.old < O.faults out.new → TookPrefix (E.taken err.old) (E.taken err.new) sink_failed) }
    ensures err_whole { At result SinkFailed (E.faults err.old < 2 ^ 64 - 1 → E.faults err.new ≡ E.faults err.old
        → E.taken err.new ≡ with_piece (E.taken err.old) sink_failed) }
    ensures out_nothing { At result SinkFailed (O.faults out.old < 2 ^ 64 - 1 → O.faults out.new ≡ O.faults out.old
        → O.taken out.new ≡ O.taken out.old) }
    ensures err_failed { At result SinkFailed (O.faults out.old < 2 ^ 64 - 1 → O.faults out.new ≡ O.faults out.old
        → TookLine (ending usage.now outcome) (outcome ≡ Some (Err Store)) (E.taken err.old) (E.taken err.new)) }

    // A sink isn't called again after it failed.
    ensures out_last { StopsAtFailure O.taken O.faults O.asked out.old out.new }
    ensures err_last { StopsAtFailure E.taken E.faults E.asked err.old err.new }

    // Counts don't fall.
    ensures out_later { O.faults out.old ≤ O.faults out.new }
    ensures err_later { E.faults err.old ≤ E.faults err.new }
{
    let Some(outcome) = outcome else {
        return match put_all(err, usage) {
            Ok(()) => Status::NoCommand,
            Err(Failed) => Status::SinkFailed,
        };
    };
    match outcome {
        Ok(Answer::Done(text)) => match put_out(out, err, &text) {
            Ok(()) => Status::Done,
            Err(Failed) => Status::SinkFailed,
        },
        Ok(Answer::Broken(text)) => match put_out(out, err, &text) {
            Ok(()) => Status::Broken,
            Err(Failed) => Status::SinkFailed,
        },
        Err(Halt::Refused(refusal)) => match refusal_line(alloc, refusal) {
            Ok(line) => match put_all(err, &line) {
                Ok(()) => Status::Refused,
                Err(Failed) => Status::SinkFailed,
            },
            Err(NoMemory) => match put_all(err, MEMORY_REFUSED) {
                Ok(()) => Status::OutOfMemory,
                Err(Failed) => Status::SinkFailed,
            },
        },
        Err(Halt::Store) => match put_all(err, STORE_FAILED) {
            Ok(()) => Status::StoreFailed,
            Err(Failed) => Status::SinkFailed,
        },
        Err(Halt::Memory) => match put_all(err, MEMORY_REFUSED) {
            Ok(()) => Status::OutOfMemory,
            Err(Failed) => Status::SinkFailed,
        },
    }
}
