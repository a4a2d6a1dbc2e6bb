// The commands of kaudit over a dump of any form.
ghost use Rattle.std.specs.Prelude.{◌≡◌, ◌-◌, ◌^◌, ◌<◌, ◌≤◌, ◌⊎◌, ◌||◌, nat_eq, map, IsTrue};
ghost use Rattle.std.specs.Bool.{OnTrue};
ghost use Rattle.std.specs.Option.{ForSome};
ghost use Rattle.std.specs.String.{string_bytes};
ghost use Rattle.kc_outside.specs.declared.store.Slot.{Slot};
ghost use Rattle.kc_outside.specs.Counts.{Rose};
ghost use Rattle.kc_command.specs.declared.ends.status.Status.TheVariants.{SinkFailed, StoreFailed};
ghost use Rattle.kc_command.specs.Inputs.{view_headers};
ghost use Rattle.kc_command.specs.Ends.Asked.{word_in};
ghost use Rattle.kc_command.specs.Ends.Last.{StopsAtFailure};
ghost use Rattle.kc_command.specs.Ends.Status.{At, is_answer, is_silent, is_sink_quiet, number};
ghost use Rattle.kc_app.specs.Output.{TookPartBy};
ghost use Rattle.kc_app.specs.Program.{program};
ghost use Rattle.kc_kplain.specs.Outcomes.{AuditEnds, is_settled};

use kc_any_dump::{TellsCause, end_with_cause};
use kc_app::kaudit_within;
use kc_command::{Status, VIEW_HEADERS};
use kc_outside::{Sink, Store};
use std::alloc::Global;

/// Runs kaudit on its words, over dumps of up to 2^22 runs of pages. Where it ends since the store failed, and the dump's form has to do with that, the line of the cause
/// follows its own.
pub fn audit<D: TellsCause, O: Sink, E: Sink>(
    alloc: Global,
    words: &[String],
    dump: &mut D,
    out: &mut O,
    err: &mut E,
) -> Status
    requires { (slot : Slot) → ForSome (word_in (program view_headers (map string_bytes words.now)) slot) (D.may dump.old slot) }

    ensures ends { AuditEnds (map string_bytes words.now) (D.files dump.old) (D.file dump.new) (D.held dump.new) (D.told dump.new) (D.opened dump.old) (D.opened dump.new) result
        (O.taken out.old) (O.taken out.new) (E.taken err.old) (E.taken err.new) }

    // Where nothing failed, there is an answer or want of memory.
    ensures complete { (Rose (D.faults dump.old) (D.faults dump.new) → ⊥)
        → (Rose (O.faults out.old) (O.faults out.new) → ⊥)
        → (Rose (E.faults err.old) (E.faults err.new) → ⊥) → IsTrue (is_answer result || nat_eq (number result) 5) }

    // Each failure has its cause.
    ensures store_failed { At result StoreFailed (Rose (D.faults dump.old) (D.faults dump.new)) }
    ensures sink_failed { At result SinkFailed
        (Rose (O.faults out.old) (O.faults out.new) ⊎ Rose (E.faults err.old) (E.faults err.new)) }

    // Standard output isn't called where there is no answer.
    ensures silent { OnTrue (is_silent result) (O.asked out.new ≡ O.asked out.old) }
    ensures quiet_store { OnTrue (is_settled result) (D.faults dump.new ≡ D.faults dump.old) }
    ensures quiet_out { OnTrue (is_sink_quiet result) (O.faults out.new ≡ O.faults out.old) }
    ensures quiet_err { OnTrue (is_sink_quiet result) (E.faults err.new ≡ E.faults err.old) }

    // What standard output took where it failed.
    ensures out_part { At result SinkFailed (O.faults out.old < O.faults out.new
        → TookPartBy view_headers (map string_bytes words.now) (D.files dump.old) (O.taken out.old) (O.taken out.new)) }
    ensures out_nothing { At result SinkFailed (O.faults out.old < 2 ^ 64 - 1 → O.faults out.new ≡ O.faults out.old
        → O.taken out.new ≡ O.taken out.old) }

    // A sink isn't called again after it failed.
    ensures out_last { StopsAtFailure O.taken O.faults O.asked out.old out.new }
    ensures err_last { StopsAtFailure E.taken E.faults E.asked err.old err.new }

    // Nothing changes a file, and counts don't fall.
    ensures files { D.files dump.new ≡ D.files dump.old }
    ensures store_later { D.faults dump.old ≤ D.faults dump.new }
    ensures out_later { O.faults out.old ≤ O.faults out.new }
    ensures err_later { E.faults err.old ≤ E.faults err.new }
{
    let status = kaudit_within(alloc, VIEW_HEADERS, words, dump, out, err);
    end_with_cause(alloc, status, dump, err)
}
