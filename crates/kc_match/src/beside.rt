// The file of types beside the types that the dump holds.
ghost use Rattle.std.specs.Prelude.{◌≡◌, ◌≤◌, ⊤, Some, option_map};
ghost use Rattle.kc_outside.specs.declared.store.Slot.TheVariants.{Dump};
ghost use Rattle.kc_outside.specs.Counts.{Rose};
ghost use Rattle.kc_outside.specs.Files.{content};
ghost use Rattle.kc_phys.specs.Stored.{AreInside};
ghost use Rattle.kc_question.specs.Memory.{bare_image};
ghost use Rattle.kc_kallsyms.specs.Reading.{CountsReadFaults, ReadsAs};
ghost use Rattle.kc_kallsyms.specs.Types.{types_at};
ghost use Rattle.kc_command.specs.Halts.{NotRefused, OnStore, UnlessStore};
ghost use Rattle.kc_command.specs.Kernels.{noted_view};
ghost use Rattle.kc_command.specs.Paging.{IsTable, by_info};
ghost use Rattle.kc_match.specs.Beside.{beside, first_difference};
ghost use Rattle.kc_match.specs.Own.{FindsOwn, IsLack, IsOwn, TellsBeside, own_view};

use kc_command::{Halt, Noted, paging_by};
use kc_kallsyms::{Places, TableStop, places_in, read_types};
use kc_memory::Space;
use kc_outside::Store;
use kc_question::{Question, ask_dump};
use kc_word::{Steps, Tail};
use std::alloc::Global;
use std::sync::ledger::Ledger;

/// What the bytes of the file of types are beside those that the dump holds.
#[derive(Clone, Copy, Debug, PartialEq, Eq)]
pub enum TypesBeside {
    /// The same.
    Same,
    /// They differ first at this byte. Where one begins the other, it is the one at which it ends.
    Differs(u64),
    /// The dump's can't be found.
    Unknown,
}

// The first byte at which two files differ.
fn first_difference(file: &[u8], own: &[u8]) -> Option<usize>
    ensures { result ≡ first_difference file.now own.now }
{
    let both = file.len().min(own.len());
    for at in 0..both {
        if file[at] != own[at] {
            return Some(at);
        }
    }
    if file.len() == own.len() {
        None
    } else {
        Some(both)
    }
}

// The file of types beside those that the dump holds, where they are found.
fn beside(file: &[u8], own: &Option<Vec<u8>>) -> TypesBeside
    ensures { result ≡ beside file.now (own_view own.now) }
{
    match own {
        None => TypesBeside::Unknown,
        Some(own) => match first_difference(file, own) {
            None => TypesBeside::Same,
            Some(at) => TypesBeside::Differs(at as u64),
        },
    }
}

// Why none are found, or a failure.
fn lack(stop: TableStop) -> Result<Option<Vec<u8>>, Halt>
    ensures { IsLack stop result }
{
    match stop {
        TableStop::Fault => Err(Halt::Store),
        TableStop::NoMemory => Err(Halt::Memory),
        TableStop::Miss(_) => Ok(None),
        TableStop::Table(_) => Ok(None),
    }
}

// By what reading them gave.
fn own_of(read: Result<Vec<u8>, TableStop>) -> Result<Option<Vec<u8>>, Halt>
    ensures { IsOwn read result }
{
    match read {
        Ok(bytes) => Ok(Some(bytes)),
        Err(stop) => lack(stop),
    }
}

// The types that a kernel's memory holds.
#[derive(Drop)]
struct OwnTypes {
    alloc: Global,
    // Where the tables of its symbols lie.
    places: Places,
    // How far KASLR moved its image, in bytes.
    kaslr: u64,
}

impl Question for OwnTypes {
    type Answer = Result<Vec<u8>, TableStop>;

    ghost may = { λ _. ⊤ };

    ghost says = { λ of image answer. ReadsAs (λ v. v.items) (λ i. types_at i of.kaslr of.places) (Some image) answer };

    ghost leaves = { λ _ answer before after. CountsReadFaults answer before after };

    fn ask<M: Space, L: Ledger>(
        &self,
        memory: &mut M,
        steps: &mut Steps<L>,
    ) -> Result<Vec<u8>, TableStop> {
        read_types(self.alloc, memory, &self.places, self.kaslr, steps)
    }
}

// The types in the memory of the dump in slot Dump, by where the tables of its kernel's symbols lie.
fn ask_types<S: Store>(
    alloc: Global,
    store: &mut S,
    noted: &Noted,
    places: Places,
) -> Result<Vec<u8>, TableStop>
    requires table { IsTable noted.now.info.table }
    requires inside { AreInside (S.sizes store.old Dump) noted.now.core.segments }

    ensures types { ReadsAs (λ v. v.items) (λ image. types_at image noted.now.info.kaslr places)
        (option_map (λ bytes. bare_image bytes noted.now.core.segments (by_info noted.now.info)) (content (S.files store.old) Dump (S.opened store.old Dump))) result }
    ensures files { S.files store.new ≡ S.files store.old }
    ensures cause { CountsReadFaults result (S.faults store.old) (S.faults store.new) }
{
    let question = OwnTypes {
        alloc,
        places,
        kaslr: noted.info.kaslr,
    };
    ask_dump(
        alloc,
        store,
        noted.core.segments(),
        Tail::Absent,
        paging_by(noted.info),
        &question,
    )?
}

// The types that the dump in slot Dump holds, where the text of its VMCOREINFO leads to them.
fn read_own<S: Store>(
    alloc: Global,
    store: &mut S,
    noted: &Noted,
    note: &[u8],
) -> Result<Option<Vec<u8>>, Halt>
    requires table { IsTable noted.now.info.table }
    requires inside { AreInside (S.sizes store.old Dump) noted.now.core.segments }

    ensures own { FindsOwn (noted_view noted.now) note.now (content (S.files store.old) Dump (S.opened store.old Dump)) result }
    ensures not_refused { NotRefused result }
    ensures files { S.files store.new ≡ S.files store.old }
    ensures later { S.faults store.old ≤ S.faults store.new }
    ensures quiet { UnlessStore result (S.faults store.new ≡ S.faults store.old) }
    ensures cause { OnStore result (Rose (S.faults store.old) (S.faults store.new)) }
{
    match places_in(note) {
        Ok(places) => own_of(ask_types(alloc, store, noted, places)),
        Err(_) => Ok(None),
    }
}

/// A file of types beside those that the dump in slot Dump holds, where the text of its VMCOREINFO leads to them. The dump's are let go
/// again.
///
/// # Errors
///
/// A failed call of the store; no memory was left.
pub(crate) fn read_beside<S: Store>(
    alloc: Global,
    store: &mut S,
    noted: &Noted,
    note: &[u8],
    file: &[u8],
) -> Result<TypesBeside, Halt>
    requires table { IsTable noted.now.info.table }
    requires inside { AreInside (S.sizes store.old Dump) noted.now.core.segments }

    ensures beside { TellsBeside (noted_view noted.now) note.now file.now (content (S.files store.old) Dump (S.opened store.old Dump)) result }
    ensures not_refused { NotRefused result }
    ensures files { S.files store.new ≡ S.files store.old }
    ensures later { S.faults store.old ≤ S.faults store.new }
    ensures quiet { UnlessStore result (S.faults store.new ≡ S.faults store.old) }
    ensures cause { OnStore result (Rose (S.faults store.old) (S.faults store.new)) }
{
    let own = read_own(alloc, store, noted, note)?;
    Ok(beside(file, &own))
}
