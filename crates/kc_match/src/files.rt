// The files of kmatch, and what is found of them.
ghost use Rattle.std.specs.Prelude.{◌≡◌, ◌≤◌, ◌^◌, ℕ, List, length, map, None, Some, option_map, IfOk};
ghost use Rattle.std.specs.Option.{ForSome};
ghost use Rattle.std.specs.String.{string_bytes};
ghost use Rattle.kc_outside.specs.declared.store.Slot.{Slot};
ghost use Rattle.kc_outside.specs.declared.store.Slot.TheVariants.{Dump, Map};
ghost use Rattle.kc_outside.specs.Counts.{Rose};
ghost use Rattle.kc_btf.specs.Btf.{btf};
ghost use Rattle.kc_notes.specs.Notes.{text_in};
ghost use Rattle.kc_notes.specs.Values.{lines_of};
ghost use Rattle.kc_command.specs.declared.refusal.Refusal.TheVariants.{Notes, Types};
ghost use Rattle.kc_command.specs.Halts.{NotRefused, NotStore, OnStore, UnlessStore};
ghost use Rattle.kc_command.specs.Made.{Is, Tells, checked};
ghost use Rattle.kc_command.specs.Slots.{IsAbout, RefusesIn};
ghost use Rattle.kc_command.specs.Ends.Answers.{OnNone, OnStoreIn, Prints, PrintsOf, Runs, StayBehind, UnlessStoreIn, written_by};
ghost use Rattle.kc_command.specs.Ends.Asked.{word_in};
ghost use Rattle.kc_match.specs.Checked.{AreTypes, ChecksTypes};
ghost use Rattle.kc_match.specs.Match.{files_view, match_asked, match_asks, match_made, match_view, match_written, matched, matched_in};
ghost use Rattle.kc_match.specs.Views.{kernel_view};

use crate::beside::{TypesBeside, read_beside};
use crate::finding::findings;
use crate::kernel::Compared;
use crate::text::{agree, match_text};
use kc_btf::Btf;
use kc_command::{
    Answer, Halt, KernelFiles, Refusal, VIEW_HEADERS, read_file, read_map, read_noted,
    read_symbols, take_types,
};
use kc_elf::Core;
use kc_notes::vmcoreinfo;
use kc_outside::{Slot, Store};
use kc_word::NoMemory;
use std::alloc::Global;

// What the words ask.
fn read(words: &[String]) -> Option<KernelFiles<'_>>
    ensures asked { option_map match_view result ≡ match_asks (map string_bytes words.now) }
{
    let [dump, btf, map] = words else {
        return None;
    };
    Some(KernelFiles {
        dump: dump.as_str(),
        btf: btf.as_str(),
        map: map.as_str(),
    })
}

/// Runs kmatch on the words after its name: the first fault of the dump, the types or the map, else what is found of
/// the note's lines. `None` where these aren't its words; the store isn't asked then.
pub fn run<S: Store>(alloc: Global, store: &mut S, words: &[String]) -> Option<Result<Answer, Halt>>
    requires { (slot : Slot) → ForSome (word_in (match_asks (map string_bytes words.now)) slot) (S.may store.old slot) }

    ensures output { Runs match_written (match_asks (map string_bytes words.now)) (S.files store.old) result
        (S.opened store.old) (S.opened store.new) }
    ensures unasked { OnNone result (S.asked store.new ≡ S.asked store.old) }
    ensures files { S.files store.new ≡ S.files store.old }
    ensures later { S.faults store.old ≤ S.faults store.new }
    ensures quiet { UnlessStoreIn result (S.faults store.new ≡ S.faults store.old) }
    ensures cause { OnStoreIn result (Rose (S.faults store.old) (S.faults store.new)) }
{
    let files = read(words)?;
    Some(compare(alloc, store, &files))
}

// The answer to what is asked.
fn compare<S: Store>(alloc: Global, store: &mut S, files: &KernelFiles<'_>) -> Result<Answer, Halt>
    requires dump { S.may store.old Dump files.now.dump.now }
    requires btf { S.may store.old Slot.Btf files.now.btf.now }
    requires map { S.may store.old Map files.now.map.now }

    ensures output { PrintsOf match_written
        (λ told. match_made (told Dump files.now.dump.now) (told Slot.Btf files.now.btf.now)
        (told Map files.now.map.now)) (S.files store.old) result }
    ensures unopened { StayBehind (match_asked (files_view files.now)).named result (S.opened store.old)
        (S.opened store.new) }
    ensures files { S.files store.new ≡ S.files store.old }
    ensures later { S.faults store.old ≤ S.faults store.new }
    ensures quiet { UnlessStore result (S.faults store.new ≡ S.faults store.old) }
    ensures cause { OnStore result (Rose (S.faults store.old) (S.faults store.new)) }
{
    let noted = read_noted(alloc, store, VIEW_HEADERS, files.dump)?;
    let note = read_note(&noted.core)?;
    let file = read_file(alloc, store, Slot::Btf, files.btf)?;
    check_types(alloc, &file)?;
    let map = read_map(alloc, store, files.map)?;
    let told = read_beside(alloc, store, &noted, note, &file)?;
    let types = types_again(alloc, file)?;
    match_map(alloc, note, &types, noted.info.kaslr, told, &map)
}

// The text of a dump's VMCOREINFO.
fn read_note(core: &Core) -> Result<&[u8], Refusal>
    ensures made { Tells (λ note. note.now) (checked Notes (text_in core.now.notes)) result }
    ensures refused { IsAbout (Some Dump) result }
{
    Ok(vmcoreinfo(core)?)
}

// Whether bytes are types, whose first fault comes before another file is opened. The types aren't kept: the bytes are compared with
// those of the dump first, and so all three aren't in memory at one time.
#[tactic(auto, using(crate::proofs::CheckedLemmas::are_types))]
fn check_types(alloc: Global, bytes: &[u8]) -> Result<(), Halt>
    requires { length bytes.now ≤ 2 ^ 26 }
    ensures made { ChecksTypes bytes.now result }
    ensures refused { RefusesIn Slot.Btf result }
    ensures no_call { NotStore result }
{
    take_types(alloc, bytes.to_vec(alloc)?)?;
    Ok(())
}

// The types of bytes that were found to be types.
#[tactic(auto, using(crate::proofs::CheckedLemmas::not_refused_again))]
fn types_again(alloc: Global, bytes: Vec<u8>) -> Result<Btf, Halt>
    requires short { length bytes.items ≤ 2 ^ 26 }
    requires types { AreTypes bytes.items }
    ensures made { Is (λ types. types) (checked Types (btf bytes.items)) result }
    ensures not_refused { NotRefused result }
    ensures no_call { NotStore result }
{
    take_types(alloc, bytes)
}

// The answer on a note, over types and the bytes of a map.
fn match_map(
    alloc: Global,
    note: &[u8],
    types: &Btf,
    kaslr: u64,
    told: TypesBeside,
    map: &[u8],
) -> Result<Answer, Halt>
    ensures output { Prints match_written (matched_in note.now types.now kaslr told map.now) result }
    ensures refused { RefusesIn Map result }
    ensures no_call { NotStore result }
{
    let symbols = read_symbols(alloc, map)?;
    let kernel = Compared {
        types,
        symbols: &symbols,
        kaslr,
    };
    Ok(answer(alloc, note, kernel, told)?)
}

// The answer on a note and a kernel.
fn answer(
    alloc: Global,
    note: &[u8],
    kernel: Compared<'_, '_>,
    told: TypesBeside,
) -> Result<Answer, NoMemory>
    ensures { IfOk result (λ answer. written_by answer ≡ match_written (matched note.now (kernel_view kernel.entry) told)) }
{
    let found = findings(alloc, kernel, note)?;
    let text = match_text(alloc, note, &found, told)?;
    if agree(&found, told) {
        Ok(Answer::Done(text))
    } else {
        Ok(Answer::Broken(text))
    }
}
