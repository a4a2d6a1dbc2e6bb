// The program: its words, its files, and where its text goes.
ghost use Rattle.std.specs.Prelude.{◌≡◌, ◌≤◌, ◌⊎◌, ◌||◌, ℕ, List, nat_eq, map, IsTrue};
ghost use Rattle.std.specs.Bool.{OnTrue};
ghost use Rattle.std.specs.Option.{ForSome};
ghost use Rattle.std.specs.String.{string_bytes};
ghost use Rattle.kc_outside.specs.declared.store.Slot.{Slot};
ghost use Rattle.kc_outside.specs.declared.store.Slot.TheVariants.{Dump};
ghost use Rattle.kc_outside.specs.Counts.{Rose};
ghost use Rattle.kc_outside.specs.Texts.{with_piece};
ghost use Rattle.kc_command.specs.declared.ends.status.Status.TheVariants.{NoCommand, SinkFailed, StoreFailed};
ghost use Rattle.kc_command.specs.Inputs.{view_headers};
ghost use Rattle.kc_command.specs.Ends.Asked.{word_in};
ghost use Rattle.kc_command.specs.Ends.Last.{StopsAtFailure};
ghost use Rattle.kc_command.specs.Ends.Status.{At, is_answer, is_sink_quiet, number};
ghost use Rattle.kc_app.specs.Program.{program};
ghost use Rattle.kc_kplain.specs.Forms.{Audit, Core, Usage, form_of, usage_text};
ghost use Rattle.kc_kplain.specs.Outcomes.{AuditEnds, CoreEnds, is_settled, is_unopened};

use crate::audit::audit;
use crate::form::{PlainForm, form_of};
use crate::plain::write_plain;
use kc_any_dump::{TellsCause, end_with_line};
use kc_command::Status;
use kc_outside::{Sink, Store};
use std::alloc::Global;

/// A line for each way to write a command.
const USAGE: &[u8] =
    b"usage: kplain core DUMP\nusage: kplain word DUMP TABLE ADDRESS\nusage: kplain show DUMP BTF MAP SYMBOL TYPE PATH\nusage: kplain check DUMP BTF MAP PLAN\nusage: kplain check DUMP BTF MAP PLAN MODULE\nusage: kplain certify DUMP BTF MAP PLAN\nusage: kplain recheck DUMP BTF MAP PLAN CERT\n";

/// The program. It answers the status that it ends with. The store shows dumps of any form, and says why one can't be read.
pub fn kplain<D: TellsCause, O: Sink, E: Sink>(
    alloc: Global,
    words: &[String],
    dump: &mut D,
    out: &mut O,
    err: &mut E,
) -> Status
    requires core { (name : List ℕ) → form_of (map string_bytes words.now) ≡ Core name → D.may dump.old Dump name }
    requires audit { form_of (map string_bytes words.now) ≡ Audit
        → (slot : Slot) → ForSome (word_in (program view_headers (map string_bytes words.now)) slot) (D.may dump.old slot) }

    // `core` writes the file that is shown for the dump; kaudit's commands end as kaudit does over the files that are shown.
    ensures core { (name : List ℕ) → form_of (map string_bytes words.now) ≡ Core name
        → CoreEnds (D.files dump.old) name (D.file dump.new) (D.held dump.new) (D.told dump.new) result (O.taken out.old) (O.taken out.new) (E.taken err.old) (E.taken err.new) }
    ensures audit { form_of (map string_bytes words.now) ≡ Audit
        → AuditEnds (map string_bytes words.now) (D.files dump.old) (D.file dump.new) (D.held dump.new) (D.told dump.new) (D.opened dump.old)
        (D.opened dump.new) result (O.taken out.old) (O.taken out.new) (E.taken err.old) (E.taken err.new) }

    // Other words are told the usage, and no call is made of the store.
    ensures usage { form_of (map string_bytes words.now) ≡ Usage
        → At result NoCommand (E.taken err.new ≡ with_piece (E.taken err.old) usage_text) }
    ensures usage_only { form_of (map string_bytes words.now) ≡ Usage
        → IsTrue (nat_eq (number result) 6 || nat_eq (number result) 4) }
    ensures usage_unasked { form_of (map string_bytes words.now) ≡ Usage → D.asked dump.new ≡ D.asked dump.old }
    ensures usage_silent { form_of (map string_bytes words.now) ≡ Usage → O.asked out.new ≡ O.asked out.old }
    ensures usage_silent_text { form_of (map string_bytes words.now) ≡ Usage → O.taken out.new ≡ O.taken out.old }

    // Where nothing failed, there is an answer or want of memory.
    ensures complete { (Rose (D.faults dump.old) (D.faults dump.new) → ⊥)
        → (Rose (O.faults out.old) (O.faults out.new) → ⊥)
        → (Rose (E.faults err.old) (E.faults err.new) → ⊥) → IsTrue (is_answer result || nat_eq (number result) 5) }

    // Each failure has its cause. Where no memory was left, and where the dump or another file is refused, nothing is put to
    // standard output.
    ensures store_failed { At result StoreFailed (Rose (D.faults dump.old) (D.faults dump.new)) }
    ensures sink_failed { At result SinkFailed
        (Rose (O.faults out.old) (O.faults out.new) ⊎ Rose (E.faults err.old) (E.faults err.new)) }
    ensures silent { OnTrue (is_unopened result) (O.asked out.new ≡ O.asked out.old) }
    ensures quiet_store { OnTrue (is_settled result) (D.faults dump.new ≡ D.faults dump.old) }
    ensures quiet_out { OnTrue (is_sink_quiet result) (O.faults out.new ≡ O.faults out.old) }
    ensures quiet_err { OnTrue (is_sink_quiet result) (E.faults err.new ≡ E.faults err.old) }

    // A sink isn't called again after it failed.
    ensures out_last { StopsAtFailure O.taken O.faults O.asked out.old out.new }
    ensures err_last { StopsAtFailure E.taken E.faults E.asked err.old err.new }

    // Nothing changes a file, and counts don't fall.
    ensures files { D.files dump.new ≡ D.files dump.old }
    ensures store_later { D.faults dump.old ≤ D.faults dump.new }
    ensures out_later { O.faults out.old ≤ O.faults out.new }
    ensures err_later { E.faults err.old ≤ E.faults err.new }
{
    match form_of(words) {
        PlainForm::Core(name) => write_plain(alloc, name, dump, out, err),
        PlainForm::Audit => audit(alloc, words, dump, out, err),
        PlainForm::Usage => end_with_line(err, Status::NoCommand, USAGE),
    }
}
