// The program: its words, its files, and where its text goes.
ghost use Rattle.std.specs.Prelude.{◌≡◌, ◌-◌, ◌^◌, ◌<◌, ◌≤◌, ◌⊎◌, ◌||◌, nat_eq, map, false, None, IfSome, IsTrue};
ghost use Rattle.std.specs.Bool.{OnTrue};
ghost use Rattle.std.specs.Option.{ForSome};
ghost use Rattle.std.specs.String.{string_bytes};
ghost use Rattle.kc_outside.specs.declared.store.Slot.{Slot};
ghost use Rattle.kc_outside.specs.Counts.{Rose};
ghost use Rattle.kc_outside.specs.Texts.{with_piece};
ghost use Rattle.kc_command.specs.declared.ends.status.Status.TheVariants.{NoCommand, OutOfMemory, Refused, SinkFailed, StoreFailed};
ghost use Rattle.kc_command.specs.Ends.Asked.{word_in};
ghost use Rattle.kc_command.specs.Ends.Ends.{ErrFailed, IsTold, TookPart, TookPrefix};
ghost use Rattle.kc_command.specs.Ends.Failures.{store_failed, memory_refused, sink_failed};
ghost use Rattle.kc_command.specs.Ends.Last.{StopsAtFailure};
ghost use Rattle.kc_command.specs.Ends.Status.{At, is_answer, is_silent, is_sink_quiet, is_store_quiet, number};
ghost use Rattle.kc_command.specs.Ends.Unopened.{AskedStay};
ghost use Rattle.kc_why.specs.Rest.{TookFront};
ghost use Rattle.kc_why.specs.Said.{AfterProgress};
ghost use Rattle.kc_why.specs.Taken.{TookTrue, out_of};
ghost use Rattle.kc_why.specs.Why.{finds, why_asks, usage_text, written_of};

use crate::files::{FailedSink, run};
use crate::laws::know_why;
use kc_command::{Status, finish};
use kc_outside::{Failed, Sink, Store};
use kc_refs::put_all;
use std::alloc::Global;

/// The lines that say how the program is called.
const USAGE: &[u8] =
    b"usage: kwhy DUMP BTF MAP ADDRESS\nusage: kwhy DUMP BTF MAP refs ADDRESS\nusage: kwhy DUMP BTF MAP refs ADDRESS progress\nusage: kwhy DUMP BTF MAP PLAN REPORT\n";

const SINK_FAILED: &[u8] = b"sink failed\n";

// Says on standard error that standard output failed, as far as it takes it.
fn tell_failure<E: Sink>(err: &mut E)
    ensures part { TookPrefix (E.taken err.old) (E.taken err.new) sink_failed }
    ensures whole { E.faults err.old < 2 ^ 64 - 1 → E.faults err.new ≡ E.faults err.old → E.taken err.new ≡ with_piece
        (E.taken err.old) sink_failed }
    ensures later { E.faults err.old ≤ E.faults err.new }
    ensures last { StopsAtFailure E.taken E.faults E.asked err.old err.new }
{
    match put_all(err, SINK_FAILED) {
        Ok(()) => (),
        Err(Failed) => (),
    }
}

/// The program. It answers the status that it ends with: done where what is seen of the address is shown, also where its word can't be
/// read, or where the words that hold it are, also where there is none, or where a report is explained. The words that hold an address are
/// put as they are found, after all that can be refused was read; another text is made whole before a byte of it is put. Where that is asked for,
/// standard error takes a line at each gigabyte of words that was searched.
pub fn kwhy<S: Store, O: Sink, E: Sink>(
    alloc: Global,
    words: &[String],
    store: &mut S,
    out: &mut O,
    err: &mut E,
) -> Status
    requires { (slot : Slot) → ForSome (word_in (why_asks (map string_bytes words.now)) slot) (S.may store.old slot) }

    // Where the files are told, an answer is the one that the output of the words and the files has.
    ensures told { OnTrue (is_answer result)
        (IsTold (written_of (map string_bytes words.now)) (S.files store.old) result (O.taken out.old) (O.taken out.new)
        (E.taken err.old) (E.taken err.new)) }

    // What standard output took is true of the dump: each word that it shows stands at the printed place. Under `repair` and `fits` the
    // dump has OLD at the printed place, and with NEW there the root audit that the part names stands; under `repair none of N`
    // it stands with none of N words that were tried.
    ensures shown { OnTrue (is_answer result) (IfSome (S.files store.old)
        (λ files. TookTrue (out_of (map string_bytes words.now) files) (O.taken out.old) (O.taken out.new))) }

    // Where nothing failed, there is an answer or want of memory.
    ensures complete { (Rose (S.faults store.old) (S.faults store.new) → ⊥)
        → (Rose (O.faults out.old) (O.faults out.new) → ⊥)
        → (Rose (E.faults err.old) (E.faults err.new) → ⊥) → IsTrue (is_answer result || nat_eq (number result) 5) }

    // Each status has its cause. Where a search is told of, its lines stand before why it came to no answer; else that stands alone.
    ensures store_failed { At result StoreFailed (Rose (S.faults store.old) (S.faults store.new)) }
    ensures store_text { At result StoreFailed (AfterProgress (map string_bytes words.now) (S.files store.old) (E.taken err.old)
        (λ mid. E.taken err.new ≡ with_piece mid store_failed)) }
    ensures memory_text { At result OutOfMemory (AfterProgress (map string_bytes words.now) (S.files store.old) (E.taken err.old)
        (λ mid. E.taken err.new ≡ with_piece mid memory_refused)) }
    ensures usage { At result NoCommand (why_asks (map string_bytes words.now) ≡ None) }
    ensures usage_text { At result NoCommand (E.taken err.new ≡ with_piece (E.taken err.old) usage_text) }
    ensures usage_only { why_asks (map string_bytes words.now) ≡ None → IsTrue
        (nat_eq (number result) 6 || nat_eq (number result) 4) }
    ensures usage_unasked { why_asks (map string_bytes words.now) ≡ None → S.asked store.new ≡ S.asked store.old }
    ensures sink_failed { At result SinkFailed
        (Rose (O.faults out.old) (O.faults out.new) ⊎ Rose (E.faults err.old) (E.faults err.new)) }

    // Standard output stays empty on a refusal, and wherever there is no answer if no words are looked for. Else it took nothing or a first
    // part of their text. The store failed only at status 3, or where that couldn't be told, and a sink only at status 4.
    ensures refused_silent { At result Refused (O.asked out.new ≡ O.asked out.old) }
    ensures refused_silent_text { At result Refused (O.taken out.new ≡ O.taken out.old) }
    ensures silent { OnTrue (is_silent result) (finds (map string_bytes words.now) ≡ false → O.asked out.new ≡ O.asked out.old) }
    ensures silent_text { OnTrue (is_silent result) (finds (map string_bytes words.now) ≡ false → O.taken out.new ≡ O.taken out.old) }
    ensures silent_part { OnTrue (is_silent result) (IfSome (S.files store.old)
        (λ files. TookFront (written_of (map string_bytes words.now) files) (O.taken out.old) (O.taken out.new))) }
    ensures quiet_store { OnTrue (is_store_quiet result) (S.faults store.new ≡ S.faults store.old) }
    ensures quiet_out { OnTrue (is_sink_quiet result) (O.faults out.new ≡ O.faults out.old) }
    ensures quiet_err { OnTrue (is_sink_quiet result) (E.faults err.new ≡ E.faults err.old) }

    // Where a file is refused, the files after it aren't opened: their slots are as before.
    ensures unopened { At result Refused
        (AskedStay (why_asks (map string_bytes words.now)) (S.files store.old) (S.opened store.old)
        (S.opened store.new)) }

    // What the sinks took where one failed: standard error the lines of how far the search was first, where these are wanted.
    ensures out_part { At result SinkFailed (O.faults out.old < O.faults out.new
        → TookPart (written_of (map string_bytes words.now)) (S.files store.old) (O.taken out.old) (O.taken out.new)) }
    ensures err_part { At result SinkFailed
        (O.faults out.old < O.faults out.new → AfterProgress (map string_bytes words.now) (S.files store.old) (E.taken err.old)
        (λ mid. TookPrefix mid (E.taken err.new) sink_failed)) }
    ensures err_whole { At result SinkFailed (E.faults err.old < 2 ^ 64 - 1 → E.faults err.new ≡ E.faults err.old
        → AfterProgress (map string_bytes words.now) (S.files store.old) (E.taken err.old)
        (λ mid. E.taken err.new ≡ with_piece mid sink_failed)) }
    ensures out_nothing { At result SinkFailed (O.faults out.old < 2 ^ 64 - 1 → O.faults out.new ≡ O.faults out.old
        → finds (map string_bytes words.now) ≡ false → O.taken out.new ≡ O.taken out.old) }
    ensures out_front { At result SinkFailed (O.faults out.old < 2 ^ 64 - 1 → O.faults out.new ≡ O.faults out.old
        → IfSome (S.files store.old) (λ files. TookFront (written_of (map string_bytes words.now) files) (O.taken out.old) (O.taken out.new))) }
    ensures err_failed { At result SinkFailed (O.faults out.old < 2 ^ 64 - 1 → O.faults out.new ≡ O.faults out.old
        → AfterProgress (map string_bytes words.now) (S.files store.old) (E.taken err.old)
        (λ mid. ErrFailed (written_of (map string_bytes words.now)) (S.files store.old) (Rose (S.faults store.old) (S.faults store.new)) mid (E.taken err.new))) }

    // A sink isn't called again after it failed.
    ensures out_last { StopsAtFailure O.taken O.faults O.asked out.old out.new }
    ensures err_last { StopsAtFailure E.taken E.faults E.asked err.old err.new }

    // Nothing changes a file, and counts don't fall.
    ensures files { S.files store.new ≡ S.files store.old }
    ensures store_later { S.faults store.old ≤ S.faults store.new }
    ensures out_later { O.faults out.old ≤ O.faults out.new }
    ensures err_later { E.faults err.old ≤ E.faults err.new }
{
    know_why();
    match run(alloc, store, words, out, err) {
        Ok(outcome) => finish(alloc, outcome, USAGE, out, err),
        Err(FailedSink::Shown) => {
            tell_failure(err);
            Status::SinkFailed
        }
        Err(FailedSink::Progress) => Status::SinkFailed,
    }
}
