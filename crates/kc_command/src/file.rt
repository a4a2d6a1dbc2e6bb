// The files of a command.
ghost use Rattle.std.specs.Prelude.{◌≡◌, ℕ, ◌≤◌, ◌^◌, List, length, Some, IfOk, IfSome, OnOk, OnErr, IsSome};
ghost use Rattle.kc_outside.specs.Counts.{Rose, next_count};
ghost use Rattle.kc_outside.specs.Files.{content, named, HasLength, HasPart, OthersStay};
ghost use Rattle.kc_command.specs.Calls.{Opens, ReadsOnce};
ghost use Rattle.kc_command.specs.Halts.{OnMemory, OnStore, NotRefused, UnlessStore};
ghost use Rattle.kc_command.specs.Slots.{RefusesIn};
ghost use Rattle.kc_command.specs.Made.{IsOf, limit, short_file};

use crate::halt::Halt;
use crate::refusal::Refusal;
use kc_outside::{Failed, Slot, Store};
use std::alloc::Global;

// How long a file may be that is read whole, in bytes: a plan 1 MiB, a certificate 256 MiB, another one 64 MiB.
fn limit(slot: Slot) -> u64
    ensures value { result ≡ limit slot }
    ensures most { result ≤ 2 ^ 28 }
{
    match slot {
        Slot::Plan => 1 << 20,
        Slot::Report => 1 << 28,
        _ => 1 << 26,
    }
}

/// Opens a file in a slot, and asks its size in bytes.
pub fn open<S: Store>(store: &mut S, slot: Slot, name: &str) -> Result<u64, Failed>
    requires may { S.may store.old slot name.now }

    ensures learnt { IfOk result (λ size. S.sizes store.new slot ≡ Some size) }
    ensures length { IfOk result (HasLength (named (S.files store.old) slot name.now)) }
    ensures content { OnOk result (content (S.files store.new) slot (S.opened store.new slot) ≡ named (S.files store.old) slot name.now) }
    ensures there { OnOk result (IfSome (S.files store.old) (λ files. IsSome (files slot name.now))) }

    ensures others_opened { OthersStay slot (S.opened store.old) (S.opened store.new) }
    ensures others_sizes { OthersStay slot (S.sizes store.old) (S.sizes store.new) }
    ensures may { (s : Slot) (n : List ℕ) → S.may store.old s n → S.may store.new s n }
    ensures files { S.files store.new ≡ S.files store.old }
    ensures later { S.faults store.old ≤ S.faults store.new }
    ensures calls { Opens S.faults S.asked result store.old store.new }
    ensures quiet { OnOk result (S.faults store.new ≡ S.faults store.old) }
    ensures cause { OnErr result (Rose (S.faults store.old) (S.faults store.new)) }
{
    store.open_file(slot, name)?;
    store.size(slot)
}

/// Reads an opened file whole, of at most 256 MiB.
pub fn read_opened<S: Store>(
    alloc: Global,
    store: &mut S,
    slot: Slot,
    size: u64,
) -> Result<Vec<u8>, Halt>
    requires learnt { S.sizes store.old slot ≡ Some size }
    requires short { size ≤ 2 ^ 28 }

    ensures part { IfOk result (λ bytes. HasPart (content (S.files store.old) slot (S.opened store.old slot)) 0 size bytes.items) }
    ensures length { IfOk result (λ bytes. length bytes.items ≡ size) }
    ensures not_refused { NotRefused result }

    ensures opened { S.opened store.new ≡ S.opened store.old }
    ensures sizes { S.sizes store.new ≡ S.sizes store.old }
    ensures may { (s : Slot) (n : List ℕ) → S.may store.old s n → S.may store.new s n }
    ensures files { S.files store.new ≡ S.files store.old }
    ensures later { S.faults store.old ≤ S.faults store.new }
    ensures calls { IfOk result (λ _. S.asked store.new ≡ next_count (S.asked store.old)) }
    ensures uncalled { OnMemory result (S.asked store.new ≡ S.asked store.old) }
    ensures failed { OnStore result (S.asked store.new ≡ next_count (S.asked store.old)) }
    ensures quiet { UnlessStore result (S.faults store.new ≡ S.faults store.old) }
    ensures cause { OnStore result (Rose (S.faults store.old) (S.faults store.new)) }
{
    let mut bytes = vec![in alloc; 0; size as usize]?;
    store.read_at(slot, 0, &mut bytes)?;
    Ok(bytes)
}

/// Reads a file whole. A plan of more than 1 MiB, a certificate of more than 256 MiB, or another file of more than 64 MiB, is
/// refused before a byte of it is read.
pub fn read_file<S: Store>(
    alloc: Global,
    store: &mut S,
    slot: Slot,
    name: &str,
) -> Result<Vec<u8>, Halt>
    requires may { S.may store.old slot name.now }

    ensures told { IsOf (λ bytes. bytes.items) (λ files. short_file slot (files slot name.now)) (S.files store.old) result }
    ensures short { IfOk result (λ bytes. length bytes.items ≤ limit slot) }
    ensures refused { RefusesIn slot result }

    ensures others_opened { OthersStay slot (S.opened store.old) (S.opened store.new) }
    ensures others_sizes { OthersStay slot (S.sizes store.old) (S.sizes store.new) }
    ensures may { (s : Slot) (n : List ℕ) → S.may store.old s n → S.may store.new s n }
    ensures files { S.files store.new ≡ S.files store.old }
    ensures later { S.faults store.old ≤ S.faults store.new }
    ensures calls { ReadsOnce S.faults S.asked result store.old store.new }
    ensures quiet { UnlessStore result (S.faults store.new ≡ S.faults store.old) }
    ensures cause { OnStore result (Rose (S.faults store.old) (S.faults store.new)) }
{
    let size = open(store, slot, name)?;
    if size > limit(slot) {
        return Err(Halt::Refused(Refusal::TooLong(slot)));
    }
    read_opened(alloc, store, slot, size)
}
