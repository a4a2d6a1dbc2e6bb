// The files of kfiles, and what is made of them.
ghost use Rattle.std.specs.Prelude.{◌≡◌, ◌≤◌, Some, map, option_map};
ghost use Rattle.std.specs.Option.{ForSome};
ghost use Rattle.std.specs.String.{string_bytes};
ghost use Rattle.kc_outside.specs.declared.store.Slot.{Slot};
ghost use Rattle.kc_outside.specs.declared.store.Slot.TheVariants.{Dump};
ghost use Rattle.kc_outside.specs.Counts.{Rose};
ghost use Rattle.kc_outside.specs.Files.{content};
ghost use Rattle.kc_phys.specs.Stored.{AreInside};
ghost use Rattle.kc_question.specs.Memory.{bare_image};
ghost use Rattle.kc_command.specs.Halts.{OnStore, UnlessStore};
ghost use Rattle.kc_command.specs.Paging.{IsTable, by_info};
ghost use Rattle.kc_command.specs.Slots.{RefusesIn};
ghost use Rattle.kc_command.specs.Ends.Answers.{OnNone, OnStoreIn, PrintsOf, PrintsOfBytes, Runs, StayBehind, UnlessStoreIn};
ghost use Rattle.kc_command.specs.Ends.Asked.{word_in};
ghost use Rattle.kc_files.specs.Answered.{IsAnswer, IsStopped};
ghost use Rattle.kc_files.specs.Made.{files_asks, files_made, files_view, files_written, memory_made, shown_by};
ghost use Rattle.kc_files.specs.Sought.{sought_view};
ghost use Rattle.kc_files.specs.Wished.{wished};
ghost use Rattle.kc_files.specs.Wishes.{request_view, wish_view};

use crate::memory::read_file;
use crate::note::note;
use crate::sought::{SoughtFile, sought_by};
use crate::unread::Unread;
use crate::wish::{Request, Wish, request_of, request_of_two};
use kc_command::{Answer, Halt, Noted, Refusal, VIEW_HEADERS, read_noted};
use kc_outside::Store;
use kc_report::broken_text;
use std::alloc::Global;

/// What is asked: a file of a dump's kernel.
#[derive(Clone, Copy)]
pub struct Asks<'w> {
    /// The name of the dump.
    pub dump: &'w str,
    /// What is asked of it.
    pub request: Request<'w>,
}

// What the words ask.
fn read(words: &[String]) -> Option<Asks<'_>>
    ensures asked { option_map files_view result ≡ files_asks (map string_bytes words.now) }
{
    match words {
        [dump, word] => Some(Asks {
            dump: dump.as_str(),
            request: request_of(word.as_str())?,
        }),
        [dump, word, name] => Some(Asks {
            dump: dump.as_str(),
            request: request_of_two(word.as_str(), name.as_str())?,
        }),
        _ => None,
    }
}

/// Runs kfiles on the words after its name: the first fault of the dump, of its symbols' tables or of its log, the first word that can't be
/// read, or the bytes of the file that is wished. `None` where these aren't its words; the store isn't asked then.
pub fn run<S: Store>(alloc: Global, store: &mut S, words: &[String]) -> Option<Result<Answer, Halt>>
    requires { (slot : Slot) → ForSome (word_in (files_asks (map string_bytes words.now)) slot) (S.may store.old slot) }

    ensures output { Runs files_written (files_asks (map string_bytes words.now)) (S.files store.old) result
        (S.opened store.old) (S.opened store.new) }
    ensures unasked { OnNone result (S.asked store.new ≡ S.asked store.old) }
    ensures files { S.files store.new ≡ S.files store.old }
    ensures later { S.faults store.old ≤ S.faults store.new }
    ensures quiet { UnlessStoreIn result (S.faults store.new ≡ S.faults store.old) }
    ensures cause { OnStoreIn result (Rose (S.faults store.old) (S.faults store.new)) }
{
    let asks = read(words)?;
    Some(file(alloc, store, asks))
}

// The answer to what is asked.
fn file<S: Store>(alloc: Global, store: &mut S, asks: Asks<'_>) -> Result<Answer, Halt>
    requires may { S.may store.old Dump asks.dump.now }

    ensures output { PrintsOf files_written
        (λ files. files_made (request_view asks.entry.request) (files Dump asks.entry.dump.now)) (S.files store.old) result }
    ensures unopened { StayBehind (files_view asks.entry).named result (S.opened store.old) (S.opened store.new) }
    ensures files { S.files store.new ≡ S.files store.old }
    ensures later { S.faults store.old ≤ S.faults store.new }
    ensures quiet { UnlessStore result (S.faults store.new ≡ S.faults store.old) }
    ensures cause { OnStore result (Rose (S.faults store.old) (S.faults store.new)) }
{
    match asks.request {
        Request::Note => note(alloc, store, asks.dump),
        Request::Wish(wish) => memory_file(alloc, store, asks.dump, wish),
    }
}

// The answer to what is wished of a kernel's memory.
fn memory_file<S: Store>(
    alloc: Global,
    store: &mut S,
    dump: &str,
    wish: Wish<'_>,
) -> Result<Answer, Halt>
    requires may { S.may store.old Dump dump.now }

    ensures output { PrintsOf files_written
        (λ files. memory_made (wish_view wish.entry) (files Dump dump.now)) (S.files store.old) result }
    ensures refused { RefusesIn Dump result }
    ensures files { S.files store.new ≡ S.files store.old }
    ensures later { S.faults store.old ≤ S.faults store.new }
    ensures quiet { UnlessStore result (S.faults store.new ≡ S.faults store.old) }
    ensures cause { OnStore result (Rose (S.faults store.old) (S.faults store.new)) }
{
    let noted = read_noted(alloc, store, VIEW_HEADERS, dump)?;
    let sought = sought_by(&noted.core, wish)?;
    make(alloc, store, &noted, &sought)
}

// The answer on a dump that was read.
fn make<S: Store>(
    alloc: Global,
    store: &mut S,
    noted: &Noted,
    sought: &SoughtFile<'_>,
) -> Result<Answer, Halt>
    requires table { IsTable noted.now.info.table }
    requires inside { AreInside (S.sizes store.old Dump) noted.now.core.segments }

    ensures output { PrintsOfBytes files_written
        (λ bytes. shown_by (wished (sought_view sought.now) (bare_image bytes noted.now.core.segments (by_info noted.now.info)) noted.now.info.kaslr))
        (content (S.files store.old) Dump (S.opened store.old Dump)) result }
    ensures refused { RefusesIn Dump result }
    ensures files { S.files store.new ≡ S.files store.old }
    ensures later { S.faults store.old ≤ S.faults store.new }
    ensures quiet { UnlessStore result (S.faults store.new ≡ S.faults store.old) }
    ensures cause { OnStore result (Rose (S.faults store.old) (S.faults store.new)) }
{
    let bytes = read_file(alloc, store, noted, sought);
    answer(alloc, bytes)
}

// The answer by what reading memory gave.
fn answer(alloc: Global, bytes: Result<Vec<u8>, Unread>) -> Result<Answer, Halt>
    ensures { IsAnswer bytes result }
{
    match bytes {
        Ok(bytes) => Ok(Answer::Done(bytes)),
        Err(stop) => stopped(alloc, stop),
    }
}

// The answer where it stopped.
fn stopped(alloc: Global, stop: Unread) -> Result<Answer, Halt>
    ensures { IsStopped stop result }
{
    match stop {
        Unread::Miss(miss) => Ok(Answer::Broken(broken_text(alloc, miss)?)),
        Unread::Fault => Err(Halt::Store),
        Unread::Table(fault) => Err(Halt::Refused(Refusal::Tables(fault))),
        Unread::Log(fault) => Err(Halt::Refused(Refusal::Log(fault))),
        Unread::NoMemory => Err(Halt::Memory),
    }
}
