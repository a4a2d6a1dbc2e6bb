// The files of kwhy, and what is shown of an address.
ghost use Rattle.std.specs.Prelude.{◌≡◌, ◌++◌, ◌+◌, ◌≤◌, ◌^◌, ℕ, List, [], map, max, false, true, None, Some, Err, option_map, IfOk, IfSome, OnErr, OnOk};
ghost use Rattle.std.specs.Bool.{OnTrue};
ghost use Rattle.std.specs.List.{All};
ghost use Rattle.std.specs.Option.{ForSome};
ghost use Rattle.std.specs.String.{string_bytes};
ghost use Rattle.kc_outside.specs.declared.store.Slot.{Slot};
ghost use Rattle.kc_outside.specs.declared.store.Slot.TheVariants.{Dump, Map};
ghost use Rattle.kc_outside.specs.Counts.{Rose};
ghost use Rattle.kc_outside.specs.Files.{content};
ghost use Rattle.kc_notes.specs.Notes.{text_in};
ghost use Rattle.kc_phys.specs.Stored.{AreInside};
ghost use Rattle.kc_command.specs.declared.halt.Halt.TheVariants.{Memory};
ghost use Rattle.kc_command.specs.Halts.{NotRefused, OnStore, UnlessStore};
ghost use Rattle.kc_command.specs.Kernels.{kernel_view};
ghost use Rattle.kc_command.specs.Paging.{IsTable};
ghost use Rattle.kc_command.specs.Slots.{RefusesIn};
ghost use Rattle.kc_command.specs.declared.ends.status.Status.TheVariants.{Done};
ghost use Rattle.kc_command.specs.Ends.Answers.{OnNone, OnStoreIn, PrintsOf, PrintsOfBytes, StayBehind, UnlessStoreIn, written_by};
ghost use Rattle.kc_command.specs.Ends.Asked.{asked_files, word_in};
ghost use Rattle.kc_command.specs.Ends.Ends.{TookErr, TookPart, TookPrefix};
ghost use Rattle.kc_command.specs.Ends.Output.{ended};
ghost use Rattle.kc_command.specs.Ends.Last.{FailedLast};
ghost use Rattle.kc_text.specs.Compose.{texts};
ghost use Rattle.kc_sight.specs.Refs.Holding.{in_segments};
ghost use Rattle.kc_sight.specs.Refs.Stops.{Told};
ghost use Rattle.kc_refs.specs.Lines.{found_lines};
ghost use Rattle.kc_refs.specs.Progress.{goal_of, words_in};
ghost use Rattle.kc_why.specs.Memory.{memory_of};
ghost use Rattle.kc_why.specs.Rest.{Comes, LeavesOf, LeavesOfBytes, OnRefused, PartOf, PartOfBytes, Searches};
ghost use Rattle.kc_why.specs.Ready.{IsReady};
ghost use Rattle.kc_why.specs.Said.{OnProgress, OnShown, SearchSays, TookLines, TookProgress, UnlessProgress, UnlessShown};
ghost use Rattle.kc_why.specs.Searching.{keys_in};
ghost use Rattle.kc_why.specs.WordText.{rest_text};
ghost use Rattle.kc_why.specs.Why.{IsFollowed, IsSearch, Sight, Words, finds, finds_asked, follows, form_view, found_in, is_followed, is_search, note_text, question_asked, question_of, sees_asked, seen_in, whole_view, why_asks, why_made, why_written, words_of, written_of};

use crate::failures::halted;
use crate::looking::look_at;
use crate::searching::{Hunt, begin, put_found};
use crate::written::rest_text;
use kc_cause::{Asks as CauseAsks, explain};
use kc_command::{Answer, Halt, Kernel, KernelFiles, VIEW_HEADERS, read_kernel, read_symbols};
use kc_notes::vmcoreinfo;
use kc_outside::{Sink, Store};
use kc_refs::RefsStop;
use kc_sight::Rules;
use kc_told::{seen_text, shapes_in};
use kc_word::read_hex;
use std::alloc::Global;

/// A question about a number, with the files of a dump's kernel.
#[derive(Clone, Copy)]
pub struct Asks<'w> {
    /// The files.
    pub files: KernelFiles<'w>,
    /// The number.
    pub number: u64,
}

/// What words are looked for, and what is told on the way.
#[derive(Clone, Copy)]
pub struct Aim {
    /// The number that they hold.
    pub value: u64,
    /// Whether it is told how far the search is.
    pub progress: bool,
}

/// A search for words, with the files of a dump's kernel.
#[derive(Clone, Copy)]
pub struct FindAsks<'w> {
    /// The files.
    pub files: KernelFiles<'w>,
    /// What is looked for.
    pub aim: Aim,
}

/// Which sink failed.
#[derive(Clone, Copy, Debug, PartialEq, Eq)]
pub enum FailedSink {
    /// The one for the text that is shown.
    Shown,
    /// The one that is told how far a search is.
    Progress,
}

/// What is shown whole.
#[derive(Clone, Copy)]
pub enum Whole<'w> {
    /// What lies at a virtual address.
    Sees(Asks<'w>),
    /// What explains a report.
    Explains(CauseAsks<'w>),
}

/// What the words of a command line ask for.
#[derive(Clone, Copy)]
pub enum Form<'w> {
    /// Which words hold a value: they are written as they are found.
    Finds(FindAsks<'w>),
    /// What is shown whole.
    Shows(Whole<'w>),
}

// What is asked of words that hold a number.
fn find_asks<'w>(files: KernelFiles<'w>, address: &String, progress: bool) -> Option<Form<'w>>
    ensures asked { option_map form_view result ≡ question_asked files.entry.dump.now files.entry.btf.now files.entry.map.now
        (words_of (string_bytes address.now) progress) }
    ensures search { IsSearch result true }
    ensures followed { IsFollowed result progress }
{
    let value = read_hex(address.as_str().as_bytes())?;
    Some(Form::Finds(FindAsks {
        files,
        aim: Aim { value, progress },
    }))
}

// What the words after the names of three files ask for, where they ask for no report.
fn about<'w>(files: KernelFiles<'w>, words: &[String]) -> Option<Form<'w>>
    ensures asked { option_map form_view result ≡ question_asked files.entry.dump.now files.entry.btf.now files.entry.map.now (question_of (map string_bytes words.now)) }
    ensures search { IsSearch result (is_search (map string_bytes words.now)) }
    ensures followed { IsFollowed result (is_followed (map string_bytes words.now)) }
{
    match words {
        [address] => Some(Form::Shows(Whole::Sees(Asks {
            files,
            number: read_hex(address.as_str().as_bytes())?,
        }))),
        [form, address] if form.as_str() == "refs" => find_asks(files, address, false),
        [form, address, last] if form.as_str() == "refs" && last.as_str() == "progress" => {
            find_asks(files, address, true)
        }
        _ => None,
    }
}

// What the words ask.
fn read(words: &[String]) -> Option<Form<'_>>
    ensures asked { option_map form_view result ≡ why_asks (map string_bytes words.now) }
    ensures search { IsSearch result (finds (map string_bytes words.now)) }
    ensures followed { IsFollowed result (follows (map string_bytes words.now)) }
{
    let [dump, btf, map, words @ ..] = words else {
        return None;
    };
    let files = KernelFiles {
        dump: dump.as_str(),
        btf: btf.as_str(),
        map: map.as_str(),
    };
    match words {
        [plan, report] if plan.as_str() != "refs" => {
            Some(Form::Shows(Whole::Explains(CauseAsks {
                files,
                plan: plan.as_str(),
                report: report.as_str(),
            })))
        }
        _ => about(files, words),
    }
}

/// Runs kwhy on the words after its name: the first fault of the dump, the types or the map, else what is seen of the address; or, where the
/// words that hold a value are looked for, what follows their lines, which `out` took, as `err` took how far the search is, where that is asked
/// for; or also the first fault of the plan or the report, else what explains the report. `None` where these aren't its words; the store isn't
/// asked then.
///
/// # Errors
///
/// A sink failed: it took a first part of those lines, or of how far the search is.
pub fn run<S: Store, O: Sink, E: Sink>(
    alloc: Global,
    store: &mut S,
    words: &[String],
    out: &mut O,
    err: &mut E,
) -> Result<Option<Result<Answer, Halt>>, FailedSink>
    requires { (slot : Slot) → ForSome (word_in (why_asks (map string_bytes words.now)) slot) (S.may store.old slot) }

    ensures output { IfOk result (λ outcome. Comes why_written (why_asks (map string_bytes words.now)) (S.files store.old) outcome
        (S.opened store.old) (S.opened store.new) (O.taken out.old) (O.taken out.new) (E.taken err.old) (E.taken err.new)) }
    ensures asked { OnErr result (why_asks (map string_bytes words.now) ≡ None → ⊥) }
    ensures part { OnErr result (TookPart (written_of (map string_bytes words.now)) (S.files store.old) (O.taken out.old) (O.taken out.new)) }
    ensures lines { UnlessProgress result (TookProgress (map string_bytes words.now) (S.files store.old) (E.taken err.old) (E.taken err.new)) }
    ensures cut { OnProgress result (IfSome (S.files store.old) (λ files.
        TookErr (written_of (map string_bytes words.now) files) (E.taken err.old) (E.taken err.new))) }
    ensures whole { finds (map string_bytes words.now) ≡ false → out.new ≡ out.old }
    ensures untold { follows (map string_bytes words.now) ≡ false → err.new ≡ err.old }
    ensures refused { IfOk result (λ outcome. OnRefused outcome (out.new ≡ out.old)) }
    ensures refused_err { IfOk result (λ outcome. OnRefused outcome (err.new ≡ err.old)) }
    ensures unasked { IfOk result (λ outcome. OnNone outcome (S.asked store.new ≡ S.asked store.old)) }
    ensures out_quiet { UnlessShown result (O.faults out.new ≡ O.faults out.old) }
    ensures out_later { O.faults out.old ≤ O.faults out.new }
    ensures out_last { OnShown result (FailedLast O.taken O.faults O.asked out.old out.new) }
    ensures err_quiet { UnlessProgress result (E.faults err.new ≡ E.faults err.old) }
    ensures err_later { E.faults err.old ≤ E.faults err.new }
    ensures err_last { OnProgress result (FailedLast E.taken E.faults E.asked err.old err.new) }
    ensures files { S.files store.new ≡ S.files store.old }
    ensures later { S.faults store.old ≤ S.faults store.new }
    ensures quiet { IfOk result (λ outcome. UnlessStoreIn outcome (S.faults store.new ≡ S.faults store.old)) }
    ensures quiet_sink { OnErr result (S.faults store.new ≡ S.faults store.old) }
    ensures cause { IfOk result (λ outcome. OnStoreIn outcome (Rose (S.faults store.old) (S.faults store.new))) }
{
    match read(words) {
        None => Ok(None),
        Some(Form::Finds(asks)) => Ok(Some(find(alloc, store, &asks, out, err)?)),
        Some(Form::Shows(whole)) => Ok(Some(show(alloc, store, &whole))),
    }
}

// The answer to what is shown whole.
fn show<S: Store>(alloc: Global, store: &mut S, whole: &Whole<'_>) -> Result<Answer, Halt>
    requires { (slot : Slot) → ForSome (word_in (Some (whole_view whole.now)) slot) (S.may store.old slot) }

    ensures output { PrintsOf why_written (λ files. (whole_view whole.now).made (asked_files (whole_view whole.now) files)) (S.files store.old) result }
    ensures unopened { StayBehind (whole_view whole.now).named result (S.opened store.old) (S.opened store.new) }
    ensures files { S.files store.new ≡ S.files store.old }
    ensures later { S.faults store.old ≤ S.faults store.new }
    ensures quiet { UnlessStore result (S.faults store.new ≡ S.faults store.old) }
    ensures cause { OnStore result (Rose (S.faults store.old) (S.faults store.new)) }
{
    match whole {
        Whole::Sees(asks) => why(alloc, store, asks),
        Whole::Explains(asks) => explain(alloc, store, asks),
    }
}

// What is seen of an address.
fn why<S: Store>(alloc: Global, store: &mut S, asks: &Asks<'_>) -> Result<Answer, Halt>
    requires dump { S.may store.old Dump asks.now.files.dump.now }
    requires btf { S.may store.old Slot.Btf asks.now.files.btf.now }
    requires map { S.may store.old Map asks.now.files.map.now }

    ensures output { PrintsOf why_written
        (λ told. why_made (Sight asks.now.number) (told Dump asks.now.files.dump.now) (told Slot.Btf asks.now.files.btf.now)
        (told Map asks.now.files.map.now)) (S.files store.old) result }
    ensures unopened { StayBehind (sees_asked asks.now).named result (S.opened store.old)
        (S.opened store.new) }
    ensures files { S.files store.new ≡ S.files store.old }
    ensures later { S.faults store.old ≤ S.faults store.new }
    ensures quiet { UnlessStore result (S.faults store.new ≡ S.faults store.old) }
    ensures cause { OnStore result (Rose (S.faults store.old) (S.faults store.new)) }
{
    let kernel = read_kernel(alloc, store, VIEW_HEADERS, &asks.files)?;
    see(alloc, store, &kernel, asks.number)
}

// The words that hold a value: they are written, and the answer is what follows them.
fn find<S: Store, O: Sink, E: Sink>(
    alloc: Global,
    store: &mut S,
    asks: &FindAsks<'_>,
    out: &mut O,
    err: &mut E,
) -> Result<Result<Answer, Halt>, FailedSink>
    requires dump { S.may store.old Dump asks.now.files.dump.now }
    requires btf { S.may store.old Slot.Btf asks.now.files.btf.now }
    requires map { S.may store.old Map asks.now.files.map.now }

    ensures output { IfOk result (λ r. LeavesOf why_written
        (λ told. why_made (Words asks.now.aim) (told Dump asks.now.files.dump.now) (told Slot.Btf asks.now.files.btf.now)
        (told Map asks.now.files.map.now)) (S.files store.old) r (O.taken out.old) (O.taken out.new) (E.taken err.old) (E.taken err.new)) }
    ensures part { OnErr result (PartOf why_written
        (λ told. why_made (Words asks.now.aim) (told Dump asks.now.files.dump.now) (told Slot.Btf asks.now.files.btf.now)
        (told Map asks.now.files.map.now)) (S.files store.old) (O.taken out.old) (O.taken out.new)) }
    ensures lines { UnlessProgress result (TookLines asks.now.aim.progress (option_map (λ told. option_map (ended why_written)
        (why_made (Words asks.now.aim) (told Dump asks.now.files.dump.now) (told Slot.Btf asks.now.files.btf.now) (told Map asks.now.files.map.now)))
        (S.files store.old)) (E.taken err.old) (E.taken err.new)) }
    ensures cut { OnProgress result (IfSome (S.files store.old) (λ told. TookErr (option_map (ended why_written)
        (why_made (Words asks.now.aim) (told Dump asks.now.files.dump.now) (told Slot.Btf asks.now.files.btf.now) (told Map asks.now.files.map.now)))
        (E.taken err.old) (E.taken err.new))) }
    ensures untold { asks.now.aim.progress ≡ false → err.new ≡ err.old }
    ensures unopened { IfOk result (λ r. StayBehind (finds_asked asks.now).named r (S.opened store.old) (S.opened store.new)) }
    ensures refused { IfOk result (λ r. OnRefused (Some r) (out.new ≡ out.old)) }
    ensures refused_err { IfOk result (λ r. OnRefused (Some r) (err.new ≡ err.old)) }
    ensures out_quiet { UnlessShown result (O.faults out.new ≡ O.faults out.old) }
    ensures out_later { O.faults out.old ≤ O.faults out.new }
    ensures out_last { OnShown result (FailedLast O.taken O.faults O.asked out.old out.new) }
    ensures err_quiet { UnlessProgress result (E.faults err.new ≡ E.faults err.old) }
    ensures err_later { E.faults err.old ≤ E.faults err.new }
    ensures err_last { OnProgress result (FailedLast E.taken E.faults E.asked err.old err.new) }
    ensures files { S.files store.new ≡ S.files store.old }
    ensures later { S.faults store.old ≤ S.faults store.new }
    ensures quiet { IfOk result (λ r. UnlessStore r (S.faults store.new ≡ S.faults store.old)) }
    ensures quiet_sink { OnErr result (S.faults store.new ≡ S.faults store.old) }
    ensures cause { IfOk result (λ r. OnStore r (Rose (S.faults store.old) (S.faults store.new))) }
{
    match read_kernel(alloc, store, VIEW_HEADERS, &asks.files) {
        Ok(kernel) => find_in(alloc, store, &kernel, asks.aim, out, err),
        Err(halt) => Ok(Err(halt)),
    }
}

// The same in the dump of a kernel whose files were read.
fn find_in<S: Store, O: Sink, E: Sink>(
    alloc: Global,
    store: &mut S,
    kernel: &Kernel,
    aim: Aim,
    out: &mut O,
    err: &mut E,
) -> Result<Result<Answer, Halt>, FailedSink>
    requires table { IsTable kernel.now.info.table }
    requires inside { AreInside (S.sizes store.old Dump) kernel.now.core.segments }
    requires below { All (λ s. s.paddr + max s.filesz s.memsz ≤ 2 ^ 64) kernel.now.core.segments }

    ensures output { IfOk result (λ r. LeavesOfBytes why_written (λ bytes. found_in bytes aim (kernel_view kernel.now))
        (content (S.files store.old) Dump (S.opened store.old Dump)) r (O.taken out.old) (O.taken out.new) (E.taken err.old) (E.taken err.new)) }
    ensures part { OnErr result (PartOfBytes why_written (λ bytes. found_in bytes aim (kernel_view kernel.now))
        (content (S.files store.old) Dump (S.opened store.old Dump)) (O.taken out.old) (O.taken out.new)) }
    ensures lines { UnlessProgress result (TookLines aim.progress
        (option_map (λ bytes. option_map (ended why_written) (found_in bytes aim (kernel_view kernel.now)))
        (content (S.files store.old) Dump (S.opened store.old Dump))) (E.taken err.old) (E.taken err.new)) }
    ensures cut { OnProgress result (IfSome (content (S.files store.old) Dump (S.opened store.old Dump)) (λ bytes.
        TookErr (option_map (ended why_written) (found_in bytes aim (kernel_view kernel.now))) (E.taken err.old) (E.taken err.new))) }
    ensures untold { aim.progress ≡ false → err.new ≡ err.old }
    ensures refused_map { IfOk result (λ r. RefusesIn Map r) }
    ensures refused { IfOk result (λ r. OnRefused (Some r) (out.new ≡ out.old)) }
    ensures refused_err { IfOk result (λ r. OnRefused (Some r) (err.new ≡ err.old)) }
    ensures out_quiet { UnlessShown result (O.faults out.new ≡ O.faults out.old) }
    ensures out_later { O.faults out.old ≤ O.faults out.new }
    ensures out_last { OnShown result (FailedLast O.taken O.faults O.asked out.old out.new) }
    ensures err_quiet { UnlessProgress result (E.faults err.new ≡ E.faults err.old) }
    ensures err_later { E.faults err.old ≤ E.faults err.new }
    ensures err_last { OnProgress result (FailedLast E.taken E.faults E.asked err.old err.new) }
    ensures files { S.files store.new ≡ S.files store.old }
    ensures later { S.faults store.old ≤ S.faults store.new }
    ensures quiet { IfOk result (λ r. UnlessStore r (S.faults store.new ≡ S.faults store.old)) }
    ensures quiet_sink { OnErr result (S.faults store.new ≡ S.faults store.old) }
    ensures cause { IfOk result (λ r. OnStore r (Rose (S.faults store.old) (S.faults store.new))) }
{
    match prepare(alloc, store, kernel, aim) {
        Ok(hunt) => put_hunted(alloc, store, kernel, &hunt, aim.progress, out, err),
        Err(halt) => Ok(Err(halt)),
    }
}

// What is asked of a dump's memory before the search.
fn prepare<S: Store>(alloc: Global, store: &mut S, kernel: &Kernel, aim: Aim) -> Result<Hunt, Halt>
    requires table { IsTable kernel.now.info.table }
    requires inside { AreInside (S.sizes store.old Dump) kernel.now.core.segments }

    ensures ready { IsReady aim (kernel_view kernel.now) (content (S.files store.old) Dump (S.opened store.old Dump))
        (content (S.files store.new) Dump (S.opened store.new Dump)) result }
    ensures inside { IfOk result (λ h. OnTrue h.same (AreInside (S.sizes store.new Dump) kernel.now.core.segments)) }
    ensures refused { RefusesIn Map result }
    ensures files { S.files store.new ≡ S.files store.old }
    ensures later { S.faults store.old ≤ S.faults store.new }
    ensures quiet { UnlessStore result (S.faults store.new ≡ S.faults store.old) }
    ensures cause { OnStore result (Rose (S.faults store.old) (S.faults store.new)) }
{
    let map = kernel.map.as_slice();
    let symbols = read_symbols(alloc, map)?;
    let note = note_of(kernel);
    let shapes = shapes_in(alloc, &kernel.types, &symbols, kernel.info, note, map)?;
    let shape = shapes.words.object_shape();
    match begin(alloc, store, kernel, &shape, aim.value) {
        Ok(hunt) => Ok(hunt),
        Err(stop) => Err(halted(stop)),
    }
}

// What follows the words, which are so many.
fn rest(alloc: Global, hunt: &Hunt, count: u64) -> Result<Answer, Halt>
    ensures text { IfOk result (λ answer. written_by answer ≡ record { out = rest_text hunt.now.told count; err = []; status = Done }) }
    ensures err { OnErr result (result ≡ Err Memory) }
{
    Ok(Answer::Done(rest_text(alloc, &hunt.told, count)?))
}

// Writes the words that are looked for; the answer is what follows them.
fn put_hunted<S: Store, O: Sink, E: Sink>(
    alloc: Global,
    store: &mut S,
    kernel: &Kernel,
    hunt: &Hunt,
    progress: bool,
    out: &mut O,
    err: &mut E,
) -> Result<Result<Answer, Halt>, FailedSink>
    requires inside { OnTrue hunt.now.same (AreInside (S.sizes store.old Dump) kernel.now.core.segments) }
    requires below { All (λ s. s.paddr + max s.filesz s.memsz ≤ 2 ^ 64) kernel.now.core.segments }

    ensures wrote { OnTrue hunt.now.same (IfOk result (λ r. Told (content (S.files store.old) Dump (S.opened store.old Dump)) (λ bytes.
        Searches hunt.now.told (in_segments hunt.now.sought bytes kernel.now.core.segments) r (O.taken out.old) (O.taken out.new)))) }
    ensures part { OnTrue hunt.now.same (OnErr result (Told (content (S.files store.old) Dump (S.opened store.old Dump)) (λ bytes.
        TookPrefix (O.taken out.old) (O.taken out.new) (texts (found_lines (keys_in hunt.now.told)) (in_segments hunt.now.sought bytes kernel.now.core.segments))))) }
    ensures says { OnTrue hunt.now.same (SearchSays (goal_of progress kernel.now.core.segments) (words_in kernel.now.core.segments) result
        (E.taken err.old) (E.taken err.new)) }
    ensures unsaid { hunt.now.same ≡ false → err.new ≡ err.old }
    ensures untold { progress ≡ false → err.new ≡ err.old }
    ensures not_refused { IfOk result (λ r. NotRefused r) }
    ensures out_quiet { UnlessShown result (O.faults out.new ≡ O.faults out.old) }
    ensures out_later { O.faults out.old ≤ O.faults out.new }
    ensures out_last { OnShown result (FailedLast O.taken O.faults O.asked out.old out.new) }
    ensures err_quiet { UnlessProgress result (E.faults err.new ≡ E.faults err.old) }
    ensures err_later { E.faults err.old ≤ E.faults err.new }
    ensures err_last { OnProgress result (FailedLast E.taken E.faults E.asked err.old err.new) }
    ensures files { S.files store.new ≡ S.files store.old }
    ensures later { S.faults store.old ≤ S.faults store.new }
    ensures quiet { IfOk result (λ r. UnlessStore r (S.faults store.new ≡ S.faults store.old)) }
    ensures quiet_sink { OnErr result (S.faults store.new ≡ S.faults store.old) }
    ensures cause { IfOk result (λ r. OnStore r (Rose (S.faults store.old) (S.faults store.new))) }
{
    let segments = kernel.core.segments();
    match put_found(alloc, store, segments, hunt, progress, out, err) {
        Ok(count) => Ok(rest(alloc, hunt, count)),
        Err(RefsStop::Store) => Ok(Err(Halt::Store)),
        Err(RefsStop::Memory) => Ok(Err(Halt::Memory)),
        Err(RefsStop::Sink) => Err(FailedSink::Shown),
        Err(RefsStop::Progress) => Err(FailedSink::Progress),
    }
}

// The text of a dump's VMCOREINFO.
fn note_of(kernel: &Kernel) -> &[u8]
    ensures { result.now ≡ note_text (text_in kernel.now.core.notes) }
{
    vmcoreinfo(&kernel.core).unwrap_or(&[])
}

// What is seen of an address of a dump, and what holds it.
fn see<S: Store>(
    alloc: Global,
    store: &mut S,
    kernel: &Kernel,
    address: u64,
) -> Result<Answer, Halt>
    requires table { IsTable kernel.now.info.table }
    requires inside { AreInside (S.sizes store.old Dump) kernel.now.core.segments }

    ensures output { PrintsOfBytes why_written
        (λ bytes. seen_in (memory_of (kernel_view kernel.now) bytes) address (kernel_view kernel.now))
        (content (S.files store.old) Dump (S.opened store.old Dump)) result }
    ensures refused { RefusesIn Map result }
    ensures files { S.files store.new ≡ S.files store.old }
    ensures later { S.faults store.old ≤ S.faults store.new }
    ensures quiet { UnlessStore result (S.faults store.new ≡ S.faults store.old) }
    ensures cause { OnStore result (Rose (S.faults store.old) (S.faults store.new)) }
{
    let map = kernel.map.as_slice();
    let symbols = read_symbols(alloc, map)?;
    let rules = Rules {
        direct: symbols.address(b"page_offset_base", kernel.info.kaslr),
        phys_base: kernel.info.phys_base,
        five: kernel.info.five,
    };
    let note = note_of(kernel);
    let shapes = shapes_in(alloc, &kernel.types, &symbols, kernel.info, note, map)?;
    let seen = look_at(alloc, store, kernel, &rules, &shapes, address)?;
    match seen_text(alloc, &shapes.map, &seen) {
        Ok(text) => Ok(Answer::Done(text)),
        Err(_) => Err(Halt::Memory),
    }
}
