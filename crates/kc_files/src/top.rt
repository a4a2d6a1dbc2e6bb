// The program: its words, its files, and where its text goes.
ghost use Rattle.std.specs.Prelude.{◌≡◌, ◌-◌, ◌^◌, ◌<◌, ◌≤◌, ◌⊎◌, ◌||◌, nat_eq, map, None, IsTrue};
ghost use Rattle.std.specs.Bool.{OnTrue};
ghost use Rattle.std.specs.Option.{ForSome};
ghost use Rattle.std.specs.String.{string_bytes};
ghost use Rattle.kc_outside.specs.declared.store.Slot.{Slot};
ghost use Rattle.kc_outside.specs.Counts.{Rose};
ghost use Rattle.kc_outside.specs.Texts.{with_piece};
ghost use Rattle.kc_command.specs.declared.ends.status.Status.TheVariants.{NoCommand, OutOfMemory, Refused, SinkFailed, StoreFailed};
ghost use Rattle.kc_command.specs.Ends.Asked.{word_in};
ghost use Rattle.kc_command.specs.Ends.Ends.{ErrFailed, IsTold, TookPart, TookPrefix};
ghost use Rattle.kc_command.specs.Ends.Failures.{store_failed, memory_refused, sink_failed};
ghost use Rattle.kc_command.specs.Ends.Last.{StopsAtFailure};
ghost use Rattle.kc_command.specs.Ends.Status.{At, is_answer, is_silent, is_sink_quiet, is_store_quiet, number};
ghost use Rattle.kc_command.specs.Ends.Unopened.{AskedStay};
ghost use Rattle.kc_files.specs.Made.{files_asks, usage_text, written_of};

use crate::files::run;
use kc_command::{Status, finish};
use kc_outside::{Sink, Store};
use std::alloc::Global;

/// The lines that say how the program is called.
const USAGE: &[u8] =
    b"usage: kfiles DUMP map\n       kfiles DUMP types\n       kfiles DUMP log\n       kfiles DUMP modules\n       kfiles DUMP module NAME\n       kfiles DUMP note\n";

/// The program. It answers the status that it ends with: done where the file is put that is wished, and broken where a word on the way to it
/// can't be read. What it puts is made whole before a byte of it is put.
pub fn kfiles<S: Store, O: Sink, E: Sink>(
    alloc: Global,
    words: &[String],
    store: &mut S,
    out: &mut O,
    err: &mut E,
) -> Status
    requires { (slot : Slot) → ForSome (word_in (files_asks (map string_bytes words.now)) slot) (S.may store.old slot) }

    // Where the files are told, an answer is the one that the output of the words and the files has.
    ensures told { OnTrue (is_answer result)
        (IsTold (written_of (map string_bytes words.now)) (S.files store.old) result (O.taken out.old) (O.taken out.new)
        (E.taken err.old) (E.taken err.new)) }

    // Where nothing failed, there is an answer or want of memory.
    ensures complete { (Rose (S.faults store.old) (S.faults store.new) → ⊥)
        → (Rose (O.faults out.old) (O.faults out.new) → ⊥)
        → (Rose (E.faults err.old) (E.faults err.new) → ⊥) → IsTrue (is_answer result || nat_eq (number result) 5) }

    // Each status has its cause.
    ensures store_failed { At result StoreFailed (Rose (S.faults store.old) (S.faults store.new)) }
    ensures store_text { At result StoreFailed (E.taken err.new ≡ with_piece (E.taken err.old) store_failed) }
    ensures memory_text { At result OutOfMemory (E.taken err.new ≡ with_piece (E.taken err.old) memory_refused) }
    ensures usage { At result NoCommand (files_asks (map string_bytes words.now) ≡ None) }
    ensures usage_text { At result NoCommand (E.taken err.new ≡ with_piece (E.taken err.old) usage_text) }
    ensures usage_only { files_asks (map string_bytes words.now) ≡ None → IsTrue
        (nat_eq (number result) 6 || nat_eq (number result) 4) }
    ensures usage_unasked { files_asks (map string_bytes words.now) ≡ None → S.asked store.new ≡ S.asked store.old }
    ensures sink_failed { At result SinkFailed
        (Rose (O.faults out.old) (O.faults out.new) ⊎ Rose (E.faults err.old) (E.faults err.new)) }

    // Standard output stays empty on a refusal. The store failed only at status 3, or where that couldn't be
    // told, and a sink only at status 4.
    ensures silent { OnTrue (is_silent result) (O.asked out.new ≡ O.asked out.old) }
    ensures silent_text { OnTrue (is_silent result) (O.taken out.new ≡ O.taken out.old) }
    ensures quiet_store { OnTrue (is_store_quiet result) (S.faults store.new ≡ S.faults store.old) }
    ensures quiet_out { OnTrue (is_sink_quiet result) (O.faults out.new ≡ O.faults out.old) }
    ensures quiet_err { OnTrue (is_sink_quiet result) (E.faults err.new ≡ E.faults err.old) }

    // Where a file is refused, the files after it aren't opened: their slots are as before.
    ensures unopened { At result Refused
        (AskedStay (files_asks (map string_bytes words.now)) (S.files store.old) (S.opened store.old)
        (S.opened store.new)) }

    // What the sinks took where one failed.
    ensures out_part { At result SinkFailed (O.faults out.old < O.faults out.new
        → TookPart (written_of (map string_bytes words.now)) (S.files store.old) (O.taken out.old) (O.taken out.new)) }
    ensures err_part { At result SinkFailed
        (O.faults out.old < O.faults out.new → TookPrefix (E.taken err.old) (E.taken err.new) sink_failed) }
    ensures err_whole { At result SinkFailed (E.faults err.old < 2 ^ 64 - 1 → E.faults err.new ≡ E.faults err.old
        → E.taken err.new ≡ with_piece (E.taken err.old) sink_failed) }
    ensures out_nothing { At result SinkFailed (O.faults out.old < 2 ^ 64 - 1 → O.faults out.new ≡ O.faults out.old
        → O.taken out.new ≡ O.taken out.old) }
    ensures err_failed { At result SinkFailed (O.faults out.old < 2 ^ 64 - 1 → O.faults out.new ≡ O.faults out.old
        → ErrFailed (written_of (map string_bytes words.now)) (S.files store.old)
        (Rose (S.faults store.old) (S.faults store.new)) (E.taken err.old) (E.taken err.new)) }

    // A sink isn't called again after it failed.
    ensures out_last { StopsAtFailure O.taken O.faults O.asked out.old out.new }
    ensures err_last { StopsAtFailure E.taken E.faults E.asked err.old err.new }

    // Nothing changes a file, and counts don't fall.
    ensures files { S.files store.new ≡ S.files store.old }
    ensures store_later { S.faults store.old ≤ S.faults store.new }
    ensures out_later { O.faults out.old ≤ O.faults out.new }
    ensures err_later { E.faults err.old ≤ E.faults err.new }
{
    let outcome = run(alloc, store, words);
    finish(alloc, outcome, USAGE, out, err)
}
