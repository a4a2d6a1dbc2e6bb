// The command `selftest`: `check` over made files.
ghost use Rattle.std.specs.Prelude.{◌≡◌, ◌<◌, ◌≤◌, map, option_and_then, option_map, IfSome};
ghost use Rattle.std.specs.Option.{ForSome};
ghost use Rattle.std.specs.String.{string_bytes};
ghost use Rattle.kc_outside.specs.declared.store.Slot.{Slot};
ghost use Rattle.kc_command.specs.Halts.{NotStore};
ghost use Rattle.kc_command.specs.Ends.Answers.{OnStoreIn, Prints, Runs};
ghost use Rattle.kc_command.specs.Ends.Asked.{word_in};
ghost use Rattle.kc_app.specs.Selftest.{count_in, count_of, selftest_asked, selftest_asks, selftest_made};
ghost use Rattle.kc_app.specs.Shown.{shown_written};
ghost use Rattle.kc_app.specs.Reads.{ReadsFilesIn};

use crate::check::check;
use crate::plan_files::PlanFiles;
use crate::top::MOST_HEADERS;
use kc_command::{Answer, Halt, KernelFiles};
use kc_gen::make;
use kc_outside::{Store, SureStore};
use kc_word::read_dec;
use std::alloc::Global;

// A number of items, if there may be so many.
fn count_of(number: Option<i64>) -> Option<u32>
    ensures exact { result ≡ option_and_then count_of number }
    ensures some { IfSome result (λ n. 1 ≤ n) }
    ensures few { IfSome result (λ n. n ≤ 100000) }
{
    match number {
        Some(number) => match number {
            1..=100_000 => Some(number as u32),
            _ => None,
        },
        None => None,
    }
}

// The number of items that a text writes in 1 to 6 digits.
fn read_count(text: &[u8]) -> Option<u32>
    ensures exact { result ≡ count_in text.now }
    ensures some { IfSome result (λ n. 1 ≤ n) }
    ensures few { IfSome result (λ n. n ≤ 100000) }
{
    if text.len() > 6 {
        return None;
    }
    count_of(read_dec(text))
}

// What the words ask: a number of items.
fn read(words: &[String]) -> Option<u32>
    ensures asked { option_map selftest_asked result ≡ selftest_asks (map string_bytes words.now) }
    ensures some { IfSome result (λ n. 1 ≤ n) }
    ensures few { IfSome result (λ n. n ≤ 100000) }
{
    let [count] = words else {
        return None;
    };
    read_count(count.as_str().as_bytes())
}

/// Runs `selftest` on its words: what `check` answers on the made files. `None` where these aren't its words. The store isn't
/// asked in either case.
pub fn run<S: Store>(alloc: Global, store: &mut S, words: &[String]) -> Option<Result<Answer, Halt>>
    requires { (slot : Slot) → ForSome (word_in (selftest_asks (map string_bytes words.now)) slot)
        (S.may store.old slot) }

    ensures output { Runs shown_written (selftest_asks (map string_bytes words.now)) (S.files store.old) result
        (S.opened store.old) (S.opened store.new) }
    ensures unasked { S.asked store.new ≡ S.asked store.old }
    ensures sure { OnStoreIn result ⊥ }
    ensures reads { ReadsFilesIn S.files S.faults result store.old store.new }
{
    let _ = store;
    let count = read(words)?;
    Some(selftest(alloc, count))
}

// The answer on the files of so many items. They are in memory, so no call of their store fails.
fn selftest(alloc: Global, count: u32) -> Result<Answer, Halt>
    requires some { 1 ≤ count }
    requires few { count ≤ 100000 }
    ensures output { Prints shown_written (selftest_made count) result }
    ensures sure { NotStore result }
{
    let files = make(alloc, count, None)?;
    let mut store = SureStore::new(files);
    let kernel = KernelFiles {
        dump: "dump",
        btf: "btf",
        map: "map",
    };
    let asks = PlanFiles {
        kernel,
        plan: "plan",
        most: MOST_HEADERS,
    };
    check(alloc, &mut store, &asks)
}
