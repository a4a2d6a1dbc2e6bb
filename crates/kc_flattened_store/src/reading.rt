// Reading what is seen in slot Dump.
ghost use Rattle.std.specs.Prelude.{◌≡◌, ◌+◌, ◌≤◌, length, take, drop, Some, IsSome, IfSome, OnOk, OnErr, option_map};
ghost use Rattle.kc_outside.specs.declared.store.Slot.TheVariants.{Dump};
ghost use Rattle.kc_outside.specs.Counts.{Rose};
ghost use Rattle.kc_outside.specs.Files.{HasLength, content};
ghost use Rattle.kc_flattened.specs.Flat.{pasted};
ghost use Rattle.kc_flattened.specs.Stays.{StoreStays};
ghost use Rattle.kc_flattened_store.specs.declared.shape.FlatShape.{FlatShape};
ghost use Rattle.kc_flattened_store.specs.Shapes.{file_size, shape_bytes, shape_size};

use crate::flat_file::FlatFile;
use crate::shape::FlatShape;
use kc_flattened::read_part;
use kc_outside::{Failed, Slot, Store, know_size};

// How many bytes a shape has.
fn shape_len<S: Store>(store: &S, shape: &FlatShape) -> u64
    requires known { S.sizes store.now Dump ≡ Some (file_size shape.now) }
    ensures size { result ≡ shape_size shape.now }
    ensures long { HasLength (content (S.files store.now) Dump (S.opened store.now Dump)) (file_size shape.now) }
{
    match shape {
        FlatShape::Whole(size) => {
            know_size(store, Slot::Dump, *size);
            *size
        }
        FlatShape::Flat(file) => {
            know_size(store, Slot::Dump, file.file_size);
            file.size
        }
    }
}

// How many bytes are seen.
pub(crate) fn seen_size<S: Store>(store: &S, shape: &Option<FlatShape>) -> u64
    requires there { IsSome shape.now }
    requires known { (s : FlatShape) → shape.now ≡ Some s → S.sizes store.now Dump ≡ Some (file_size s) }
    ensures size { option_map shape_size shape.now ≡ Some result }
    ensures long { (s : FlatShape) → shape.now ≡ Some s → HasLength (content (S.files store.now) Dump (S.opened store.now Dump)) (file_size s) }
{
    match shape {
        Some(shape) => shape_len(store, shape),
        None => unreachable!(),
    }
}

// Fills the buffer with the bytes that a flattened file means from a place on.
fn read_flat_file<S: Store>(
    store: &mut S,
    file: &FlatFile,
    off: u64,
    buf: &mut [u8],
) -> Result<(), Failed>
    requires learnt { S.sizes store.old Dump ≡ Some file.now.file_size }
    requires within { off + length buf.old ≤ file.now.size }
    ensures part { OnOk result (IfSome (content (S.files store.old) Dump (S.opened store.old Dump)) (λ bytes. buf.new ≡ take (length buf.old) (drop off (pasted bytes file.now.records.items)))) }
    ensures stays { StoreStays S.opened S.sizes S.files S.may S.asked store.old store.new }
    ensures later { S.faults store.old ≤ S.faults store.new }
    ensures cause { OnErr result (Rose (S.faults store.old) (S.faults store.new)) }
{
    match read_part(store, Slot::Dump, file.file_size, &file.records, off, buf) {
        Ok(()) => Ok(()),
        Err(Failed) => Err(Failed),
    }
}

// Fills the buffer with the bytes of a shape from a place on.
fn read_shape<S: Store>(
    store: &mut S,
    shape: &FlatShape,
    off: u64,
    buf: &mut [u8],
) -> Result<(), Failed>
    requires known { S.sizes store.old Dump ≡ Some (file_size shape.now) }
    requires within { off + length buf.old ≤ shape_size shape.now }
    ensures part { OnOk result (IfSome (content (S.files store.old) Dump (S.opened store.old Dump)) (λ bytes. buf.new ≡ take (length buf.old) (drop off (shape_bytes shape.now bytes)))) }
    ensures stays { StoreStays S.opened S.sizes S.files S.may S.asked store.old store.new }
    ensures later { S.faults store.old ≤ S.faults store.new }
    ensures cause { OnErr result (Rose (S.faults store.old) (S.faults store.new)) }
{
    match shape {
        FlatShape::Whole(_) => store.read_at(Slot::Dump, off, buf),
        FlatShape::Flat(file) => read_flat_file(store, file, off, buf),
    }
}

// Fills the buffer with the bytes that are seen from a place on.
pub(crate) fn read_seen<S: Store>(
    store: &mut S,
    shape: &Option<FlatShape>,
    off: u64,
    buf: &mut [u8],
) -> Result<(), Failed>
    requires there { IsSome shape.now }
    requires known { (s : FlatShape) → shape.now ≡ Some s → S.sizes store.old Dump ≡ Some (file_size s) }
    requires within { (s : FlatShape) → shape.now ≡ Some s → off + length buf.old ≤ shape_size s }
    ensures part { OnOk result ((s : FlatShape) → shape.now ≡ Some s → IfSome (content (S.files store.old) Dump (S.opened store.old Dump)) (λ bytes. buf.new ≡ take (length buf.old) (drop off (shape_bytes s bytes)))) }
    ensures stays { StoreStays S.opened S.sizes S.files S.may S.asked store.old store.new }
    ensures later { S.faults store.old ≤ S.faults store.new }
    ensures cause { OnErr result (Rose (S.faults store.old) (S.faults store.new)) }
{
    match shape {
        Some(shape) => match read_shape(store, shape, off, buf) {
            Ok(()) => Ok(()),
            Err(Failed) => Err(Failed),
        },
        None => unreachable!(),
    }
}
