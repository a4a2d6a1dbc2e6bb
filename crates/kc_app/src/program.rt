// Which command of the program the words of a command line are.
ghost use Rattle.std.specs.Prelude.{◌≡◌, map};
ghost use Rattle.std.specs.Option.{ForSome};
ghost use Rattle.std.specs.String.{string_bytes};
ghost use Rattle.kc_outside.specs.declared.store.Slot.{Slot};
ghost use Rattle.kc_command.specs.Ends.Answers.{OnNone, OnStoreIn};
ghost use Rattle.kc_command.specs.Ends.Asked.{word_in};
ghost use Rattle.kc_app.specs.Calls.{IsLayout, LayoutCalls};
ghost use Rattle.kc_app.specs.Fitted.{RunsAs};
ghost use Rattle.kc_app.specs.Program.{program};
ghost use Rattle.kc_app.specs.Selftest.{IsSelftest};
ghost use Rattle.kc_app.specs.Reads.{ReadsFilesIn};

use crate::command::run;
use kc_command::{Answer, Halt};
use kc_outside::Store;
use std::alloc::Global;

/// A line for each way to write a command.
pub const USAGE: &[u8] =
    b"usage: kaudit word DUMP TABLE ADDRESS\nusage: kaudit layout BTF TYPE\nusage: kaudit show DUMP BTF MAP SYMBOL TYPE PATH\nusage: kaudit check DUMP BTF MAP PLAN\nusage: kaudit check DUMP BTF MAP PLAN MODULE\nusage: kaudit selftest N\nusage: kaudit certify DUMP BTF MAP PLAN\nusage: kaudit recheck DUMP BTF MAP PLAN CERT\n";

/// Runs the command that the words behind the program's name are, over a dump of at most `most` program headers:
/// the first one names it. `None` exactly where
/// they aren't a command; the store isn't asked then.
pub fn run_any<S: Store>(
    alloc: Global,
    store: &mut S,
    most: u32,
    words: &[String],
) -> Option<Result<Answer, Halt>>
    requires { (slot : Slot) → ForSome (word_in (program most (map string_bytes words.now)) slot) (S.may store.old slot) }

    ensures output { RunsAs (program most (map string_bytes words.now)) (S.files store.old) result (S.opened store.old)
        (S.opened store.new) }
    ensures unasked { OnNone result (S.asked store.new ≡ S.asked store.old) }
    ensures selftest_unasked { IsSelftest (map string_bytes words.now) → S.asked store.new ≡ S.asked store.old }
    ensures selftest_sure { IsSelftest (map string_bytes words.now) → OnStoreIn result ⊥ }
    ensures layout { IsLayout (map string_bytes words.now) → LayoutCalls S.faults S.asked result store.old store.new }
    ensures reads { ReadsFilesIn S.files S.faults result store.old store.new }
{
    match crate::certs::read(most, words) {
        Some(asks) => Some(crate::certs::reply(alloc, store, &asks)),
        None => run(alloc, store, most, words),
    }
}
