// Opening a file.
ghost use Rattle.std.specs.Prelude.{◌≡◌, ℕ, ◌<◌, ◌^◌, List, Some, IsSome, IfSome, IfOk, OnOk};
ghost use Rattle.kc_outside.specs.declared.store.Slot.{Slot};
ghost use Rattle.kc_outside.specs.declared.store.Slot.TheVariants.{Dump};
ghost use Rattle.kc_outside.specs.Files.{content, named, OthersStay};
ghost use Rattle.kc_flattened.specs.Stays.{StoreStays};
ghost use Rattle.kc_flattened_store.specs.Counts.{CountsOpening, fault_of};
ghost use Rattle.kc_flattened_store.specs.Faults.{IfRefused, refusal};
ghost use Rattle.kc_flattened_store.specs.Seen.{seen_bytes};
ghost use Rattle.kc_flattened_store.specs.Shapes.{file_size, shape_bytes, shape_size};

use crate::flat_file::FlatFile;
use crate::shape::FlatShape;
use crate::stop::FlattenedFault;
use kc_flattened::{FlatStop, read_flat, size_of};
use kc_outside::{Failed, Slot, Store, know_size};
use std::alloc::Global;

// What is seen of the file.
fn shape_of<S: Store>(alloc: Global, store: &mut S, size: u64) -> Result<FlatShape, FlattenedFault>
    requires learnt { S.sizes store.old Dump ≡ Some size }
    ensures told { IfOk result (λ shape. IfSome (content (S.files store.old) Dump (S.opened store.old Dump)) (λ bytes. seen_bytes bytes ≡ Some (shape_bytes shape bytes))) }
    ensures refused { IfRefused result (λ fault. IfSome (content (S.files store.old) Dump (S.opened store.old Dump)) (λ bytes. refusal bytes ≡ Some fault)) }
    ensures size { IfOk result (λ shape. file_size shape ≡ size) }
    ensures fits { IfOk result (λ shape. shape_size shape < 2 ^ 64) }
    ensures stays { StoreStays S.opened S.sizes S.files S.may S.asked store.old store.new }
    ensures counts { CountsOpening result (S.faults store.old) (S.faults store.new) }
{
    know_size(store, Slot::Dump, size);
    let found = match read_flat(alloc, store, Slot::Dump, size) {
        Ok(found) => found,
        Err(stop) => return Err(fault_of(stop)),
    };
    match found {
        Some(records) => {
            let meant = size_of(size, &records);
            Ok(FlatShape::Flat(FlatFile {
                records,
                size: meant,
                file_size: size,
            }))
        }
        None => Ok(FlatShape::Whole(size)),
    }
}

// Why the records weren't read.
fn fault_of(stop: FlatStop) -> FlattenedFault
    ensures { result ≡ fault_of stop }
{
    match stop {
        FlatStop::Fault(fault) => FlattenedFault::Refused(fault),
        FlatStop::ReadFault => FlattenedFault::Store,
        FlatStop::NoMemory => FlattenedFault::NoMemory,
    }
}

/// Puts the file of a name into slot Dump, and learns what is to be seen of it.
pub(crate) fn open_shape<S: Store>(
    alloc: Global,
    store: &mut S,
    name: &str,
) -> Result<FlatShape, FlattenedFault>
    requires { S.may store.old Dump name.now }
    ensures known { IfOk result (λ shape. S.sizes store.new Dump ≡ Some (file_size shape)) }
    ensures fits { IfOk result (λ shape. shape_size shape < 2 ^ 64) }
    ensures opened { OnOk result (IsSome (S.opened store.new Dump)) }
    ensures content { OnOk result (content (S.files store.new) Dump (S.opened store.new Dump) ≡ named (S.files store.old) Dump name.now) }
    ensures there { OnOk result (IfSome (S.files store.old) (λ files. IsSome (files Dump name.now))) }
    ensures told { IfOk result (λ shape. IfSome (content (S.files store.new) Dump (S.opened store.new Dump)) (λ bytes. seen_bytes bytes ≡ Some (shape_bytes shape bytes))) }
    ensures refused { IfRefused result (λ fault. IfSome (content (S.files store.new) Dump (S.opened store.new Dump)) (λ bytes. refusal bytes ≡ Some fault)) }
    ensures others_opened { OthersStay Dump (S.opened store.old) (S.opened store.new) }
    ensures others_sizes { OthersStay Dump (S.sizes store.old) (S.sizes store.new) }
    ensures may { (s : Slot) (n : List ℕ) → S.may store.old s n → S.may store.new s n }
    ensures may_no_more { (s : Slot) (n : List ℕ) → S.may store.new s n → S.may store.old s n }
    ensures files { S.files store.new ≡ S.files store.old }
    ensures counts { CountsOpening result (S.faults store.old) (S.faults store.new) }
{
    match store.open_file(Slot::Dump, name) {
        Ok(()) => (),
        Err(Failed) => return Err(FlattenedFault::Store),
    }
    let size = match store.size(Slot::Dump) {
        Ok(size) => size,
        Err(Failed) => return Err(FlattenedFault::Store),
    };
    shape_of(alloc, store, size)
}
