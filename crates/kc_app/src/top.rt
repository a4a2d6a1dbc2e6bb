// The program: a command line, its files, and where its text goes.
ghost use Rattle.std.specs.Prelude.{◌≡◌, ◌-◌, ◌^◌, ◌<◌, ◌≤◌, ◌⊎◌, ◌||◌, nat_eq, map, None, IfSome, IsTrue};
ghost use Rattle.std.specs.Bool.{OnTrue};
ghost use Rattle.std.specs.Option.{ForSome};
ghost use Rattle.std.specs.String.{string_bytes};
ghost use Rattle.kc_outside.specs.declared.store.Slot.{Slot};
ghost use Rattle.kc_outside.specs.Counts.{Rose};
ghost use Rattle.kc_outside.specs.Texts.{with_piece};
ghost use Rattle.kc_command.specs.declared.ends.status.Status.TheVariants.{Done, NoCommand, OutOfMemory, Refused, SinkFailed, StoreFailed};
ghost use Rattle.kc_command.specs.Calls.{called};
ghost use Rattle.kc_command.specs.Ends.Asked.{word_in};
ghost use Rattle.kc_command.specs.Ends.Ends.{TookPrefix};
ghost use Rattle.kc_command.specs.Ends.Failures.{store_failed, memory_refused, sink_failed};
ghost use Rattle.kc_command.specs.Ends.Last.{StopsAtFailure};
ghost use Rattle.kc_command.specs.Ends.Status.{At, is_answer, is_silent, is_sink_quiet, is_store_quiet, number};
ghost use Rattle.kc_command.specs.Ends.Unopened.{AskedStay};
ghost use Rattle.kc_app.specs.Calls.{FewCalls, IsLayout};
ghost use Rattle.kc_app.specs.CertHeadline.{CertifyEnds, RecheckEnds};
ghost use Rattle.kc_app.specs.Headline.{CheckEnds, CheckPrints};
ghost use Rattle.kc_app.specs.ModuleHeadline.{ModuleCheckEnds, ModuleCheckPrints};
ghost use Rattle.kc_app.specs.Output.{ErrFailedBy, IsToldBy, TookPartBy, TookTrue, out_of};
ghost use Rattle.kc_app.specs.Program.{program, usage_text};
ghost use Rattle.kc_app.specs.Selftest.{IsSelftest};

use crate::laws::know_shown;
use crate::program::{USAGE, run_any};
use kc_command::{Status, finish};
use kc_outside::{Sink, Store};
use std::alloc::Global;

/// At most so many program headers has a dump of `kaudit`.
pub const MOST_HEADERS: u32 = 65_536;

/// The program over dumps of at most `most` program headers. It answers the status that it ends with. Its text is
/// made whole before a byte of it is put.
pub fn kaudit_within<S: Store, O: Sink, E: Sink>(
    alloc: Global,
    most: u32,
    words: &[String],
    store: &mut S,
    out: &mut O,
    err: &mut E,
) -> Status
    requires { (slot : Slot) → ForSome (word_in (program most (map string_bytes words.now)) slot) (S.may store.old slot) }

    // Where the files are told, an answer is the one that the output of the words and the files has. Of `certify` on a clean
    // dump it is the text of a certificate that fits; by `certified` there is only one.
    ensures told { OnTrue (is_answer result)
        (IsToldBy most (map string_bytes words.now) (S.files store.old) result (O.taken out.old) (O.taken out.new)
        (E.taken err.old) (E.taken err.new)) }

    // And `check` then ends with 0 exactly where every root audit stands in the dump, and with 1 exactly where one doesn't, by
    // what its files hold; or with 2, where one of them is refused. Of a plan of version 2 it prints of each root audit that it
    // is clean exactly where this one stands. The same holds of a check with a module, of five files. The words that are
    // printed stand in the dump, or in its zero tail, at their printed places.
    ensures stands { OnTrue (is_answer result)
        (IfSome (S.files store.old) (λ files. CheckEnds most (map string_bytes words.now) files result)) }
    ensures stands_with_module { OnTrue (is_answer result)
        (IfSome (S.files store.old) (λ files. ModuleCheckEnds most (map string_bytes words.now) files result)) }
    ensures roots { OnTrue (is_answer result) (IfSome (S.files store.old)
        (λ files. CheckPrints most (map string_bytes words.now) files (O.taken out.old) (O.taken out.new))) }
    ensures roots_with_module { OnTrue (is_answer result) (IfSome (S.files store.old)
        (λ files. ModuleCheckPrints most (map string_bytes words.now) files (O.taken out.old) (O.taken out.new))) }
    ensures shown { OnTrue (is_answer result) (IfSome (S.files store.old)
        (λ files. TookTrue (out_of most (map string_bytes words.now) files) (O.taken out.old) (O.taken out.new))) }

    // `certify` ends so too, and prints the dump's only certificate where it ends with 0: the walks of the
    // verdict, in its order. `recheck` tells of the certificate whose text
    // a file is whether it fits the dump, ends with 0 only where every root audit stands in the dump, and refuses a file above 256 MiB
    // or one that isn't a certificate's text.
    ensures certified { OnTrue (is_answer result) (IfSome (S.files store.old)
        (λ files. CertifyEnds most (map string_bytes words.now) files result (O.taken out.old) (O.taken out.new))) }
    ensures rechecked { OnTrue (is_answer result) (IfSome (S.files store.old)
        (λ files. RecheckEnds most (map string_bytes words.now) files result (O.taken out.old) (O.taken out.new)
        (E.taken err.old) (E.taken err.new))) }

    // Where nothing failed, there is an answer or want of memory.
    ensures complete { (Rose (S.faults store.old) (S.faults store.new) → ⊥)
        → (Rose (O.faults out.old) (O.faults out.new) → ⊥)
        → (Rose (E.faults err.old) (E.faults err.new) → ⊥) → IsTrue (is_answer result || nat_eq (number result) 5) }

    // `selftest` makes no call of the store, so nothing but a sink and memory can keep it from an answer.
    ensures selftest_unasked { IsSelftest (map string_bytes words.now) → S.asked store.new ≡ S.asked store.old }
    ensures selftest_complete { IsSelftest (map string_bytes words.now)
        → (Rose (O.faults out.old) (O.faults out.new) → ⊥) → (Rose (E.faults err.old) (E.faults err.new) → ⊥)
        → IsTrue (is_answer result || nat_eq (number result) 5) }

    // Each status has its cause.
    ensures store_failed { At result StoreFailed (Rose (S.faults store.old) (S.faults store.new)) }
    ensures store_text { At result StoreFailed (E.taken err.new ≡ with_piece (E.taken err.old) store_failed) }
    ensures memory_text { At result OutOfMemory (E.taken err.new ≡ with_piece (E.taken err.old) memory_refused) }
    ensures usage { At result NoCommand (program most (map string_bytes words.now) ≡ None) }
    ensures usage_text { At result NoCommand (E.taken err.new ≡ with_piece (E.taken err.old) usage_text) }
    ensures usage_only { program most (map string_bytes words.now) ≡ None → IsTrue
        (nat_eq (number result) 6 || nat_eq (number result) 4) }
    ensures usage_unasked { program most (map string_bytes words.now) ≡ None → S.asked store.new ≡ S.asked store.old }
    ensures sink_failed { At result SinkFailed
        (Rose (O.faults out.old) (O.faults out.new) ⊎ Rose (E.faults err.old) (E.faults err.new)) }

    // Standard output stays empty on a refusal. The store failed only at status 3, or where that couldn't be
    // told, and a sink only at status 4.
    ensures silent { OnTrue (is_silent result) (O.asked out.new ≡ O.asked out.old) }
    ensures silent_text { OnTrue (is_silent result) (O.taken out.new ≡ O.taken out.old) }
    ensures quiet_store { OnTrue (is_store_quiet result) (S.faults store.new ≡ S.faults store.old) }
    ensures quiet_out { OnTrue (is_sink_quiet result) (O.faults out.new ≡ O.faults out.old) }
    ensures quiet_err { OnTrue (is_sink_quiet result) (E.faults err.new ≡ E.faults err.old) }

    // Where a file is refused, the files after it aren't opened: their slots are as before.
    ensures unopened { At result Refused
        (AskedStay (program most (map string_bytes words.now)) (S.files store.old) (S.opened store.old)
        (S.opened store.new)) }

    // What the sinks took where one failed.
    ensures out_part { At result SinkFailed (O.faults out.old < O.faults out.new
        → TookPartBy most (map string_bytes words.now) (S.files store.old) (O.taken out.old) (O.taken out.new)) }
    ensures err_part { At result SinkFailed
        (O.faults out.old < O.faults out.new → TookPrefix (E.taken err.old) (E.taken err.new) sink_failed) }
    ensures err_whole { At result SinkFailed (E.faults err.old < 2 ^ 64 - 1 → E.faults err.new ≡ E.faults err.old
        → E.taken err.new ≡ with_piece (E.taken err.old) sink_failed) }
    ensures out_nothing { At result SinkFailed (O.faults out.old < 2 ^ 64 - 1 → O.faults out.new ≡ O.faults out.old
        → O.taken out.new ≡ O.taken out.old) }
    ensures err_failed { At result SinkFailed (O.faults out.old < 2 ^ 64 - 1 → O.faults out.new ≡ O.faults out.old
        → ErrFailedBy most (map string_bytes words.now) (S.files store.old)
        (Rose (S.faults store.old) (S.faults store.new)) (E.taken err.old) (E.taken err.new)) }

    // `layout` opens one file, asks its size and reads it once, and the store isn't called after it failed.
    ensures layout { IsLayout (map string_bytes words.now) → FewCalls S.faults S.asked store.old store.new }
    ensures layout_done { IsLayout (map string_bytes words.now)
        → At result Done (S.asked store.new ≡ called 3 (S.asked store.old)) }

    // A sink isn't called again after it failed.
    ensures out_last { StopsAtFailure O.taken O.faults O.asked out.old out.new }
    ensures err_last { StopsAtFailure E.taken E.faults E.asked err.old err.new }

    // Nothing changes a file, and counts don't fall.
    ensures files { S.files store.new ≡ S.files store.old }
    ensures store_later { S.faults store.old ≤ S.faults store.new }
    ensures out_later { O.faults out.old ≤ O.faults out.new }
    ensures err_later { E.faults err.old ≤ E.faults err.new }
{
    know_shown();
    let outcome = run_any(alloc, store, most, words);
    finish(alloc, outcome, USAGE, out, err)
}

/// The program. It answers the status that it ends with. Its text is made whole before a byte of it is put. A dump has
/// at most 65,536 program headers.
pub fn kaudit<S: Store, O: Sink, E: Sink>(
    alloc: Global,
    words: &[String],
    store: &mut S,
    out: &mut O,
    err: &mut E,
) -> Status
    requires { (slot : Slot) → ForSome (word_in (program 65536 (map string_bytes words.now)) slot) (S.may store.old slot) }

    // Where the files are told, an answer is the one that the output of the words and the files has. Of `certify` on a clean
    // dump it is the text of a certificate that fits; by `certified` there is only one.
    ensures told { OnTrue (is_answer result)
        (IsToldBy 65536 (map string_bytes words.now) (S.files store.old) result (O.taken out.old) (O.taken out.new)
        (E.taken err.old) (E.taken err.new)) }

    // And `check` then ends with 0 exactly where every root audit stands in the dump, and with 1 exactly where one doesn't, by
    // what its files hold; or with 2, where one of them is refused. Of a plan of version 2 it prints of each root audit that it
    // is clean exactly where this one stands. The same holds of a check with a module, of five files. The words that are
    // printed stand in the dump, or in its zero tail, at their printed places.
    ensures stands { OnTrue (is_answer result)
        (IfSome (S.files store.old) (λ files. CheckEnds 65536 (map string_bytes words.now) files result)) }
    ensures stands_with_module { OnTrue (is_answer result)
        (IfSome (S.files store.old) (λ files. ModuleCheckEnds 65536 (map string_bytes words.now) files result)) }
    ensures roots { OnTrue (is_answer result) (IfSome (S.files store.old)
        (λ files. CheckPrints 65536 (map string_bytes words.now) files (O.taken out.old) (O.taken out.new))) }
    ensures roots_with_module { OnTrue (is_answer result) (IfSome (S.files store.old)
        (λ files. ModuleCheckPrints 65536 (map string_bytes words.now) files (O.taken out.old) (O.taken out.new))) }
    ensures shown { OnTrue (is_answer result) (IfSome (S.files store.old)
        (λ files. TookTrue (out_of 65536 (map string_bytes words.now) files) (O.taken out.old) (O.taken out.new))) }

    // `certify` ends so too, and prints the dump's only certificate where it ends with 0: the walks of the
    // verdict, in its order. `recheck` tells of the certificate whose text
    // a file is whether it fits the dump, ends with 0 only where every root audit stands in the dump, and refuses a file above 256 MiB
    // or one that isn't a certificate's text.
    ensures certified { OnTrue (is_answer result) (IfSome (S.files store.old)
        (λ files. CertifyEnds 65536 (map string_bytes words.now) files result (O.taken out.old) (O.taken out.new))) }
    ensures rechecked { OnTrue (is_answer result) (IfSome (S.files store.old)
        (λ files. RecheckEnds 65536 (map string_bytes words.now) files result (O.taken out.old) (O.taken out.new)
        (E.taken err.old) (E.taken err.new))) }

    // Where nothing failed, there is an answer or want of memory.
    ensures complete { (Rose (S.faults store.old) (S.faults store.new) → ⊥)
        → (Rose (O.faults out.old) (O.faults out.new) → ⊥)
        → (Rose (E.faults err.old) (E.faults err.new) → ⊥) → IsTrue (is_answer result || nat_eq (number result) 5) }

    // `selftest` makes no call of the store, so nothing but a sink and memory can keep it from an answer.
    ensures selftest_unasked { IsSelftest (map string_bytes words.now) → S.asked store.new ≡ S.asked store.old }
    ensures selftest_complete { IsSelftest (map string_bytes words.now)
        → (Rose (O.faults out.old) (O.faults out.new) → ⊥) → (Rose (E.faults err.old) (E.faults err.new) → ⊥)
        → IsTrue (is_answer result || nat_eq (number result) 5) }

    // Each status has its cause.
    ensures store_failed { At result StoreFailed (Rose (S.faults store.old) (S.faults store.new)) }
    ensures store_text { At result StoreFailed (E.taken err.new ≡ with_piece (E.taken err.old) store_failed) }
    ensures memory_text { At result OutOfMemory (E.taken err.new ≡ with_piece (E.taken err.old) memory_refused) }
    ensures usage { At result NoCommand (program 65536 (map string_bytes words.now) ≡ None) }
    ensures usage_text { At result NoCommand (E.taken err.new ≡ with_piece (E.taken err.old) usage_text) }
    ensures usage_only { program 65536 (map string_bytes words.now) ≡ None → IsTrue
        (nat_eq (number result) 6 || nat_eq (number result) 4) }
    ensures usage_unasked { program 65536 (map string_bytes words.now) ≡ None → S.asked store.new ≡ S.asked store.old }
    ensures sink_failed { At result SinkFailed
        (Rose (O.faults out.old) (O.faults out.new) ⊎ Rose (E.faults err.old) (E.faults err.new)) }

    // Standard output stays empty on a refusal. The store failed only at status 3, or where that couldn't be
    // told, and a sink only at status 4.
    ensures silent { OnTrue (is_silent result) (O.asked out.new ≡ O.asked out.old) }
    ensures silent_text { OnTrue (is_silent result) (O.taken out.new ≡ O.taken out.old) }
    ensures quiet_store { OnTrue (is_store_quiet result) (S.faults store.new ≡ S.faults store.old) }
    ensures quiet_out { OnTrue (is_sink_quiet result) (O.faults out.new ≡ O.faults out.old) }
    ensures quiet_err { OnTrue (is_sink_quiet result) (E.faults err.new ≡ E.faults err.old) }

    // Where a file is refused, the files after it aren't opened: their slots are as before.
    ensures unopened { At result Refused
        (AskedStay (program 65536 (map string_bytes words.now)) (S.files store.old) (S.opened store.old)
        (S.opened store.new)) }

    // What the sinks took where one failed.
    ensures out_part { At result SinkFailed (O.faults out.old < O.faults out.new
        → TookPartBy 65536 (map string_bytes words.now) (S.files store.old) (O.taken out.old) (O.taken out.new)) }
    ensures err_part { At result SinkFailed
        (O.faults out.old < O.faults out.new → TookPrefix (E.taken err.old) (E.taken err.new) sink_failed) }
    ensures err_whole { At result SinkFailed (E.faults err.old < 2 ^ 64 - 1 → E.faults err.new ≡ E.faults err.old
        → E.taken err.new ≡ with_piece (E.taken err.old) sink_failed) }
    ensures out_nothing { At result SinkFailed (O.faults out.old < 2 ^ 64 - 1 → O.faults out.new ≡ O.faults out.old
        → O.taken out.new ≡ O.taken out.old) }
    ensures err_failed { At result SinkFailed (O.faults out.old < 2 ^ 64 - 1 → O.faults out.new ≡ O.faults out.old
        → ErrFailedBy 65536 (map string_bytes words.now) (S.files store.old)
        (Rose (S.faults store.old) (S.faults store.new)) (E.taken err.old) (E.taken err.new)) }

    // `layout` opens one file, asks its size and reads it once, and the store isn't called after it failed.
    ensures layout { IsLayout (map string_bytes words.now) → FewCalls S.faults S.asked store.old store.new }
    ensures layout_done { IsLayout (map string_bytes words.now)
        → At result Done (S.asked store.new ≡ called 3 (S.asked store.old)) }

    // A sink isn't called again after it failed.
    ensures out_last { StopsAtFailure O.taken O.faults O.asked out.old out.new }
    ensures err_last { StopsAtFailure E.taken E.faults E.asked err.old err.new }

    // Nothing changes a file, and counts don't fall.
    ensures files { S.files store.new ≡ S.files store.old }
    ensures store_later { S.faults store.old ≤ S.faults store.new }
    ensures out_later { O.faults out.old ≤ O.faults out.new }
    ensures err_later { E.faults err.old ≤ E.faults err.new }
{
    kaudit_within(alloc, MOST_HEADERS, words, store, out, err)
}
