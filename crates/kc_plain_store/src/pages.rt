// Reading the pages of a dump, through those that are kept.
ghost use Rattle.std.specs.Prelude.{◌≡◌, ℕ, ◌+◌, ◌-◌, ◌*◌, ◌<◌, ◌≤◌, Ok, Err, min, length, take, drop, vec_len, All, IfSome, IfOk, IfErr, OnOk, Some, None};
ghost use Rattle.kc_outside.specs.declared.store.Slot.TheVariants.{Dump};
ghost use Rattle.kc_outside.specs.Files.{content};
ghost use Rattle.kc_kdump.specs.Dump.{descriptor_at};
ghost use Rattle.kc_kdump.specs.Stays.{StoreStays};
ghost use Rattle.kc_kdump.specs.Bytes.{part};
ghost use Rattle.kc_plain.specs.Unpack.Plain.{page_at};
ghost use Rattle.kc_plain.specs.Unpack.Unpacked.{unpacked};
ghost use Rattle.kc_plain_store.specs.declared.stop.ViewFault.TheVariants as as_fault;
ghost use Rattle.kc_plain_store.specs.Counts.{CountsOpening};
ghost use Rattle.kc_plain_store.specs.Faults.{IfBad, IsBadIn, core_container};
ghost use Rattle.kc_plain_store.specs.Kept.{IsKept};
ghost use Rattle.kc_plain_store.specs.Shapes.{core_bytes, core_size};

use crate::place::{KeptPages, PagePlace, PageRoom};
use crate::plain_core::PlainCore;
use crate::stop::{BadPage, ViewFault};
use kc_kdump::{DESCRIPTOR_BYTES, Descriptor};
use kc_outside::{Failed, Slot, Store, know_size};
use kc_plain::{PAGE_BYTES, Unpacker, descriptor_fault, know_head, know_page, know_pages, unpack};

// How many pages are kept.
const PLACES: u64 = 256;

// The descriptor of a page.
fn read_descriptor<S: Store>(
    store: &mut S,
    core: &PlainCore,
    index: u64,
) -> Result<Descriptor, ViewFault>
    requires learnt { S.sizes store.old Dump ≡ Some core.now.file_size }
    requires there { index < core.now.pages }
    ensures told { IfOk result (λ descriptor. IfSome (content (S.files store.old) Dump (S.opened store.old Dump)) (λ bytes. descriptor ≡ descriptor_at core.now.layout bytes index)) }
    ensures store { IfErr result (λ fault. fault ≡ as_fault.Store) }
    ensures stays { StoreStays S.opened S.sizes S.files S.may S.asked store.old store.new }
    ensures counts { CountsOpening result (S.faults store.old) (S.faults store.new) }
{
    let mut bytes = [0; DESCRIPTOR_BYTES];
    let at = core.layout.table() + DESCRIPTOR_BYTES as u64 * index;
    match store.read_at(Slot::Dump, at, &mut bytes) {
        Ok(()) => Ok(Descriptor::read(&bytes)),
        Err(Failed) => Err(ViewFault::Store),
    }
}

// Reads the bytes that a page is packed in, and unpacks it.
fn fetch<S: Store>(
    store: &mut S,
    size: u64,
    index: u64,
    descriptor: Descriptor,
    unpacker: &mut Unpacker,
    packed: &mut [u8],
    page: &mut [u8],
) -> Result<(), ViewFault>
    requires learnt { S.sizes store.old Dump ≡ Some size }
    requires within { descriptor.offset + descriptor.size ≤ size }
    requires packed { length packed.old ≡ descriptor.size }
    requires page { length page.old ≡ 4096 }
    ensures told { OnOk result (IfSome (content (S.files store.old) Dump (S.opened store.old Dump)) (λ bytes. unpacked descriptor.flags (part descriptor.offset descriptor.size bytes) ≡ Ok page.new)) }
    ensures bad { IfBad result (λ bad. (bad.number ≡ index) × IfSome (content (S.files store.old) Dump (S.opened store.old Dump)) (λ bytes. unpacked descriptor.flags (part descriptor.offset descriptor.size bytes) ≡ Err bad.fault)) }
    ensures stays { StoreStays S.opened S.sizes S.files S.may S.asked store.old store.new }
    ensures counts { CountsOpening result (S.faults store.old) (S.faults store.new) }
{
    match store.read_at(Slot::Dump, descriptor.offset, packed) {
        Ok(()) => (),
        Err(Failed) => return Err(ViewFault::Store),
    }
    match unpack(unpacker, descriptor.flags, packed, page) {
        Ok(()) => Ok(()),
        Err(fault) => Err(ViewFault::Page(BadPage {
            number: index,
            fault,
        })),
    }
}

// Unpacks a page.
fn load<S: Store>(
    store: &mut S,
    core: &PlainCore,
    index: u64,
    room: &mut PageRoom,
    page: &mut [u8],
) -> Result<(), ViewFault>
    requires learnt { S.sizes store.old Dump ≡ Some core.now.file_size }
    requires there { index < core.now.pages }
    requires page { length page.old ≡ 4096 }
    ensures told { OnOk result (IfSome (content (S.files store.old) Dump (S.opened store.old Dump)) (λ bytes. page_at core.now.layout bytes index ≡ page.new)) }
    ensures bad { IfBad result (λ bad. IfSome (content (S.files store.old) Dump (S.opened store.old Dump)) (λ bytes. IsBadIn (Some (core_container core.now)) bytes bad)) }
    ensures stays { StoreStays S.opened S.sizes S.files S.may S.asked store.old store.new }
    ensures counts { CountsOpening result (S.faults store.old) (S.faults store.new) }
{
    know_size(store, Slot::Dump, core.file_size);
    let descriptor = read_descriptor(store, core, index)?;
    if let Some(fault) = descriptor_fault(descriptor, core.file_size) {
        return Err(ViewFault::Page(BadPage {
            number: index,
            fault,
        }));
    }
    let size = descriptor.size as usize;
    let packed = &mut room.packed[..];
    fetch(
        store,
        core.file_size,
        index,
        descriptor,
        &mut room.unpacker,
        &mut packed[..size],
        page,
    )
}

// Unpacks a page into a place. After a failure the place is empty.
fn fill<S: Store>(
    store: &mut S,
    core: &PlainCore,
    index: u64,
    room: &mut PageRoom,
    place: &mut PagePlace,
) -> Result<(), ViewFault>
    requires learnt { S.sizes store.old Dump ≡ Some core.now.file_size }
    requires there { index < core.now.pages }
    ensures kept { IsKept (content (S.files store.old) Dump (S.opened store.old Dump)) core.now.layout place.new }
    ensures full { OnOk result (place.new.number ≡ Some index) }
    ensures bad { IfBad result (λ bad. IfSome (content (S.files store.old) Dump (S.opened store.old Dump)) (λ bytes. IsBadIn (Some (core_container core.now)) bytes bad)) }
    ensures stays { StoreStays S.opened S.sizes S.files S.may S.asked store.old store.new }
    ensures counts { CountsOpening result (S.faults store.old) (S.faults store.new) }
{
    place.number = None;
    load(store, core, index, room, &mut place.bytes)?;
    place.number = Some(index);
    Ok(())
}

// Unpacks a page into its place, unless it is kept there.
fn keep<S: Store>(
    store: &mut S,
    core: &PlainCore,
    index: u64,
    room: &mut PageRoom,
    place: &mut PagePlace,
) -> Result<(), ViewFault>
    requires learnt { S.sizes store.old Dump ≡ Some core.now.file_size }
    requires there { index < core.now.pages }
    requires kept { IsKept (content (S.files store.old) Dump (S.opened store.old Dump)) core.now.layout place.old }
    ensures kept { IsKept (content (S.files store.old) Dump (S.opened store.old Dump)) core.now.layout place.new }
    ensures full { OnOk result (place.new.number ≡ Some index) }
    ensures bad { IfBad result (λ bad. IfSome (content (S.files store.old) Dump (S.opened store.old Dump)) (λ bytes. IsBadIn (Some (core_container core.now)) bytes bad)) }
    ensures stays { StoreStays S.opened S.sizes S.files S.may S.asked store.old store.new }
    ensures counts { CountsOpening result (S.faults store.old) (S.faults store.new) }
{
    if place.number == Some(index) {
        return Ok(());
    }
    fill(store, core, index, room, place)
}

// Copies bytes from a place on, as many as there are and fit.
fn copy_part(from: &[u8], at: usize, piece: &mut [u8]) -> usize
    requires { at < length from.now }
    ensures count { result ≡ min (length from.now - at) (length piece.old) }
    ensures part { take result piece.new ≡ take result (drop at from.now) }
{
    let count = (from.len() - at).min(piece.len());
    piece[..count].copy_from_slice(&from[at..at + count]);
    count
}

// Copies bytes of a page, by its place.
fn page_piece<S: Store>(
    store: &mut S,
    core: &PlainCore,
    index: u64,
    inside: usize,
    room: &mut PageRoom,
    place: &mut PagePlace,
    piece: &mut [u8],
) -> Result<usize, ViewFault>
    requires learnt { S.sizes store.old Dump ≡ Some core.now.file_size }
    requires there { index < core.now.pages }
    requires inside { inside < 4096 }
    requires kept { IsKept (content (S.files store.old) Dump (S.opened store.old Dump)) core.now.layout place.old }
    ensures count { IfOk result (λ n. n ≡ min (4096 - inside) (length piece.old)) }
    ensures part { IfOk result (λ n. IfSome (content (S.files store.old) Dump (S.opened store.old Dump)) (λ bytes. take n piece.new ≡ take n (drop inside (page_at core.now.layout bytes index)))) }
    ensures kept { IsKept (content (S.files store.old) Dump (S.opened store.old Dump)) core.now.layout place.new }
    ensures bad { IfBad result (λ bad. IfSome (content (S.files store.old) Dump (S.opened store.old Dump)) (λ bytes. IsBadIn (Some (core_container core.now)) bytes bad)) }
    ensures stays { StoreStays S.opened S.sizes S.files S.may S.asked store.old store.new }
    ensures counts { CountsOpening result (S.faults store.old) (S.faults store.new) }
{
    keep(store, core, index, room, place)?;
    Ok(copy_part(&place.bytes, inside, piece))
}

// Copies bytes of the plain core file from a place on: some, but not always as many as there is room for.
fn read_piece<S: Store>(
    store: &mut S,
    core: &PlainCore,
    kept: &mut KeptPages,
    at: u64,
    piece: &mut [u8],
) -> Result<usize, ViewFault>
    requires learnt { S.sizes store.old Dump ≡ Some core.now.file_size }
    requires kept { All (IsKept (content (S.files store.old) Dump (S.opened store.old Dump)) core.now.layout) kept.old.places.items }
    requires within { at + length piece.old ≤ core_size core.now }
    requires some { 0 < length piece.old }
    ensures some { IfOk result (λ n. 0 < n) }
    ensures fits { IfOk result (λ n. n ≤ length piece.old) }
    ensures part { IfOk result (λ n. IfSome (content (S.files store.old) Dump (S.opened store.old Dump)) (λ bytes. take n piece.new ≡ take n (drop at (core_bytes core.now bytes)))) }
    ensures kept { All (IsKept (content (S.files store.old) Dump (S.opened store.old Dump)) core.now.layout) kept.new.places.items }
    ensures bad { IfBad result (λ bad. IfSome (content (S.files store.old) Dump (S.opened store.old Dump)) (λ bytes. IsBadIn (Some (core_container core.now)) bytes bad)) }
    ensures stays { StoreStays S.opened S.sizes S.files S.may S.asked store.old store.new }
    ensures counts { CountsOpening result (S.faults store.old) (S.faults store.new) }
{
    know_head();
    know_pages();
    know_page();
    let head = core.head.len() as u64;
    if at < head {
        return Ok(copy_part(&core.head, at as usize, piece));
    }
    let index = (at - head) / PAGE_BYTES as u64;
    let inside = ((at - head) % PAGE_BYTES as u64) as usize;
    let place = (index % PLACES) as usize;
    page_piece(
        store,
        core,
        index,
        inside,
        &mut kept.room,
        &mut kept.places[place],
        piece,
    )
}

/// Fills the buffer with the bytes of the plain core file from a place on.
pub(crate) fn read_core<S: Store>(
    store: &mut S,
    core: &PlainCore,
    kept: &mut KeptPages,
    off: u64,
    buf: &mut [u8],
) -> Result<(), ViewFault>
    requires learnt { S.sizes store.old Dump ≡ Some core.now.file_size }
    requires kept { All (IsKept (content (S.files store.old) Dump (S.opened store.old Dump)) core.now.layout) kept.old.places.items }
    requires within { off + length buf.old ≤ core_size core.now }
    ensures part { OnOk result (IfSome (content (S.files store.old) Dump (S.opened store.old Dump)) (λ bytes. buf.new ≡ take (length buf.old) (drop off (core_bytes core.now bytes)))) }
    ensures kept { All (IsKept (content (S.files store.old) Dump (S.opened store.old Dump)) core.now.layout) kept.new.places.items }
    ensures bad { IfBad result (λ bad. IfSome (content (S.files store.old) Dump (S.opened store.old Dump)) (λ bytes. IsBadIn (Some (core_container core.now)) bytes bad)) }
    ensures stays { StoreStays S.opened S.sizes S.files S.may S.asked store.old store.new }
    ensures counts { CountsOpening result (S.faults store.old) (S.faults store.new) }
{
    let mut done = 0;
    while done < buf.len() {
        let at = off + done as u64;
        done += read_piece(store, core, kept, at, &mut buf[done..])?;
    }
    Ok(())
}
