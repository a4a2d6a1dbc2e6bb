// Opening a dump.
ghost use Rattle.std.specs.Prelude.{◌≡◌, ℕ, ◌+◌, ◌<◌, ◌^◌, List, Ok, Some, IsSome, IfSome, IfOk, IfErr, OnOk};
ghost use Rattle.std.specs.Result.{result_err};
ghost use Rattle.kc_outside.specs.declared.store.Slot.{Slot};
ghost use Rattle.kc_outside.specs.declared.store.Slot.TheVariants.{Dump};
ghost use Rattle.kc_outside.specs.Files.{content, named, OthersStay};
ghost use Rattle.kc_kdump.specs.Header.{is_kdump};
ghost use Rattle.kc_kdump.specs.Stays.{StoreStays};
ghost use Rattle.kc_kdump.specs.Dump.{dump_of};
ghost use Rattle.kc_plain_store.specs.declared.stop.ViewFault.TheVariants as as_fault;
ghost use Rattle.kc_plain_store.specs.Counts.{CountsOpening};
ghost use Rattle.kc_plain_store.specs.Faults.{IfRefused, container_in, container_of, core_container, refusal, shape_container};
ghost use Rattle.kc_plain_store.specs.Seen.{seen_bytes};
ghost use Rattle.kc_plain.specs.Unpack.Plain.{plain};
ghost use Rattle.kc_plain_store.specs.Shapes.{core_bytes, file_size, shape_bytes, shape_size};

use crate::plain_core::PlainCore;
use crate::shape::PlainShape;
use crate::stop::ViewFault;
use kc_kdump::{KdumpStop, SIGNATURE_BYTES, is_kdump, read_kdump};
use kc_outside::{Failed, Slot, Store, know_size};
use kc_plain::head_of;
use std::alloc::Global;

// Whether the file is a compressed dump.
fn begins_kdump<S: Store>(store: &mut S, size: u64) -> Result<bool, ViewFault>
    requires { S.sizes store.old Dump ≡ Some size }
    ensures told { IfOk result (λ is. IfSome (content (S.files store.old) Dump (S.opened store.old Dump)) (λ bytes. is ≡ is_kdump bytes)) }
    ensures store { IfErr result (λ fault. fault ≡ as_fault.Store) }
    ensures stays { StoreStays S.opened S.sizes S.files S.may S.asked store.old store.new }
    ensures counts { CountsOpening result (S.faults store.old) (S.faults store.new) }
{
    know_size(store, Slot::Dump, size);
    if size < SIGNATURE_BYTES as u64 {
        return Ok(false);
    }
    let mut bytes = [0; SIGNATURE_BYTES];
    match store.read_at(Slot::Dump, 0, &mut bytes) {
        Ok(()) => Ok(is_kdump(&bytes)),
        Err(Failed) => Err(ViewFault::Store),
    }
}

// The plain core file of a compressed dump.
fn core_of<S: Store>(alloc: Global, store: &mut S, size: u64) -> Result<PlainCore, ViewFault>
    requires learnt { S.sizes store.old Dump ≡ Some size }
    ensures told { IfOk result (λ core. IfSome (content (S.files store.old) Dump (S.opened store.old Dump)) (λ bytes. plain bytes ≡ Ok (core_bytes core bytes))) }
    ensures container { IfOk result (λ core. IfSome (content (S.files store.old) Dump (S.opened store.old Dump)) (λ bytes. container_in (dump_of bytes) ≡ Some (core_container core))) }
    ensures refused { IfRefused result (λ fault. IfSome (content (S.files store.old) Dump (S.opened store.old Dump)) (λ bytes. result_err (dump_of bytes) ≡ Some fault)) }
    ensures size { IfOk result (λ core. core.file_size ≡ size) }
    ensures stays { StoreStays S.opened S.sizes S.files S.may S.asked store.old store.new }
    ensures counts { CountsOpening result (S.faults store.old) (S.faults store.new) }
{
    know_size(store, Slot::Dump, size);
    let dump = match read_kdump(alloc, store, size) {
        Ok(dump) => dump,
        Err(KdumpStop::Fault(fault)) => return Err(ViewFault::Refused(fault)),
        Err(KdumpStop::ReadFault) => return Err(ViewFault::Store),
        Err(KdumpStop::NoMemory) => return Err(ViewFault::NoMemory),
    };
    match head_of(alloc, &dump) {
        Ok(head) => Ok(PlainCore {
            head,
            layout: dump.layout,
            pages: dump.pages,
            is_whole: dump.is_whole,
            file_size: size,
        }),
        Err(_) => Err(ViewFault::NoMemory),
    }
}

// What is shown of the file.
#[tactic(auto, unfolding(crate::specs::Faults::container_of, crate::specs::Faults::refusal, crate::specs::Seen::seen_bytes))]
fn shape_of<S: Store>(alloc: Global, store: &mut S, size: u64) -> Result<PlainShape, ViewFault>
    requires learnt { S.sizes store.old Dump ≡ Some size }
    ensures told { IfOk result (λ shape. IfSome (content (S.files store.old) Dump (S.opened store.old Dump)) (λ bytes. seen_bytes bytes ≡ Some (shape_bytes shape bytes))) }
    ensures container { IfOk result (λ shape. IfSome (content (S.files store.old) Dump (S.opened store.old Dump)) (λ bytes. container_of bytes ≡ shape_container shape)) }
    ensures refused { IfRefused result (λ fault. IfSome (content (S.files store.old) Dump (S.opened store.old Dump)) (λ bytes. refusal bytes ≡ Some fault)) }
    ensures size { IfOk result (λ shape. file_size shape ≡ size) }
    ensures fits { IfOk result (λ shape. shape_size shape < 2 ^ 64) }
    ensures stays { StoreStays S.opened S.sizes S.files S.may S.asked store.old store.new }
    ensures counts { CountsOpening result (S.faults store.old) (S.faults store.new) }
{
    if !begins_kdump(store, size)? {
        return Ok(PlainShape::Whole(size));
    }
    let core = core_of(alloc, store, size)?;
    Ok(PlainShape::Plain(core))
}

/// Puts the file of a name into slot Dump, and learns what is to be shown of it.
pub(crate) fn open_shape<S: Store>(
    alloc: Global,
    store: &mut S,
    name: &str,
) -> Result<PlainShape, ViewFault>
    requires { S.may store.old Dump name.now }
    ensures known { IfOk result (λ shape. S.sizes store.new Dump ≡ Some (file_size shape)) }
    ensures fits { IfOk result (λ shape. shape_size shape < 2 ^ 64) }
    ensures opened { OnOk result (IsSome (S.opened store.new Dump)) }
    ensures content { OnOk result (content (S.files store.new) Dump (S.opened store.new Dump) ≡ named (S.files store.old) Dump name.now) }
    ensures there { OnOk result (IfSome (S.files store.old) (λ files. IsSome (files Dump name.now))) }
    ensures told { IfOk result (λ shape. IfSome (content (S.files store.new) Dump (S.opened store.new Dump)) (λ bytes. seen_bytes bytes ≡ Some (shape_bytes shape bytes))) }
    ensures container { IfOk result (λ shape. IfSome (content (S.files store.new) Dump (S.opened store.new Dump)) (λ bytes. container_of bytes ≡ shape_container shape)) }
    ensures refused { IfRefused result (λ fault. IfSome (content (S.files store.new) Dump (S.opened store.new Dump)) (λ bytes. refusal bytes ≡ Some fault)) }
    ensures others_opened { OthersStay Dump (S.opened store.old) (S.opened store.new) }
    ensures others_sizes { OthersStay Dump (S.sizes store.old) (S.sizes store.new) }
    ensures may { (s : Slot) (n : List ℕ) → S.may store.old s n → S.may store.new s n }
    ensures may_no_more { (s : Slot) (n : List ℕ) → S.may store.new s n → S.may store.old s n }
    ensures files { S.files store.new ≡ S.files store.old }
    ensures counts { CountsOpening result (S.faults store.old) (S.faults store.new) }
{
    match store.open_file(Slot::Dump, name) {
        Ok(()) => (),
        Err(Failed) => return Err(ViewFault::Store),
    }
    let size = match store.size(Slot::Dump) {
        Ok(size) => size,
        Err(Failed) => return Err(ViewFault::Store),
    };
    shape_of(alloc, store, size)
}
