// Which command that shows words of a dump the words of a command line are.
ghost use Rattle.std.specs.Prelude.{◌≡◌, map};
ghost use Rattle.std.specs.Option.{ForSome};
ghost use Rattle.std.specs.String.{string_bytes};
ghost use Rattle.kc_outside.specs.declared.store.Slot.{Slot};
ghost use Rattle.kc_command.specs.Ends.Answers.{OnNone, OnStoreIn, Runs};
ghost use Rattle.kc_command.specs.Ends.Asked.{word_in};
ghost use Rattle.kc_app.specs.Calls.{IsLayout, LayoutCalls};
ghost use Rattle.kc_app.specs.Commands.{command};
ghost use Rattle.kc_app.specs.Selftest.{IsSelftest};
ghost use Rattle.kc_app.specs.Shown.{shown_written};
ghost use Rattle.kc_app.specs.Reads.{ReadsFilesIn};

use kc_command::{Answer, Halt};
use kc_outside::Store;
use std::alloc::Global;

/// Runs the command that the words behind the program's name are: the first one names it. `None` exactly where
/// they aren't a command; the store isn't asked then.
pub fn run<S: Store>(
    alloc: Global,
    store: &mut S,
    most: u32,
    words: &[String],
) -> Option<Result<Answer, Halt>>
    requires { (slot : Slot) → ForSome (word_in (command most (map string_bytes words.now)) slot) (S.may store.old slot) }

    ensures output { Runs shown_written (command most (map string_bytes words.now)) (S.files store.old) result
        (S.opened store.old) (S.opened store.new) }
    ensures unasked { OnNone result (S.asked store.new ≡ S.asked store.old) }
    ensures selftest_unasked { IsSelftest (map string_bytes words.now) → S.asked store.new ≡ S.asked store.old }
    ensures selftest_sure { IsSelftest (map string_bytes words.now) → OnStoreIn result ⊥ }
    ensures layout { IsLayout (map string_bytes words.now) → LayoutCalls S.faults S.asked result store.old store.new }
    ensures reads { ReadsFilesIn S.files S.faults result store.old store.new }
{
    let [name, words @ ..] = words else {
        return None;
    };
    match name.as_str() {
        "word" => crate::word::run(alloc, store, most, words),
        "layout" => crate::layout::run(alloc, store, words),
        "show" => crate::show::run(alloc, store, most, words),
        "check" => crate::check_module::run(alloc, store, most, words),
        "selftest" => crate::selftest::run(alloc, store, words),
        _ => None,
    }
}
