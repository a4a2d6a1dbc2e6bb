// Reading what slot Dump shows.
ghost use Rattle.std.specs.Prelude.{◌≡◌, ◌+◌, ◌≤◌, ◌<◌, ◌^◌, length, take, drop, All, Some, IsSome, IfSome, OnOk, option_map};
ghost use Rattle.std.specs.Option.{ForSome};
ghost use Rattle.kc_outside.specs.declared.store.Slot.TheVariants.{Dump};
ghost use Rattle.kc_outside.specs.Files.{content};
ghost use Rattle.kc_kdump.specs.Stays.{StoreStays};
ghost use Rattle.kc_plain_store.specs.declared.plain_core.PlainCore.{PlainCore};
ghost use Rattle.kc_plain_store.specs.declared.shape.PlainShape.{PlainShape};
ghost use Rattle.kc_plain_store.specs.declared.shape.PlainShape.TheVariants.{Plain};
ghost use Rattle.kc_plain_store.specs.Counts.{CountsOpening};
ghost use Rattle.kc_plain_store.specs.Faults.{IfBad, IsBadIn, shape_container};
ghost use Rattle.kc_plain_store.specs.Kept.{IsKept};
ghost use Rattle.kc_plain_store.specs.Shapes.{core_size, file_size, shape_bytes, shape_size};

use crate::pages::read_core;
use crate::place::KeptPages;
use crate::shape::PlainShape;
use crate::stop::ViewFault;
use kc_outside::{Failed, Slot, Store};

// How many bytes a shape has.
pub(crate) fn shown_size(shape: &Option<PlainShape>) -> u64
    requires fits { (s : PlainShape) → shape.now ≡ Some s → shape_size s < 2 ^ 64 }
    requires there { IsSome shape.now }
    ensures { option_map shape_size shape.now ≡ Some result }
{
    match shape {
        Some(PlainShape::Whole(size)) => *size,
        Some(PlainShape::Plain(core)) => core.head.len() as u64 + 4096 * core.pages,
        None => unreachable!(),
    }
}

// Fills the buffer with the bytes of a shape from a place on.
fn read_shape<S: Store>(
    store: &mut S,
    shape: &PlainShape,
    kept: &mut KeptPages,
    off: u64,
    buf: &mut [u8],
) -> Result<(), ViewFault>
    requires known { S.sizes store.old Dump ≡ Some (file_size shape.now) }
    requires kept { (core : PlainCore) → shape.now ≡ Plain core → All (IsKept (content (S.files store.old) Dump (S.opened store.old Dump)) core.layout) kept.old.places.items }
    requires within { off + length buf.old ≤ shape_size shape.now }
    ensures part { OnOk result (IfSome (content (S.files store.old) Dump (S.opened store.old Dump)) (λ bytes. buf.new ≡ take (length buf.old) (drop off (shape_bytes shape.now bytes)))) }
    ensures kept { (core : PlainCore) → shape.now ≡ Plain core → All (IsKept (content (S.files store.old) Dump (S.opened store.old Dump)) core.layout) kept.new.places.items }
    ensures bad { IfBad result (λ bad. IfSome (content (S.files store.old) Dump (S.opened store.old Dump)) (λ bytes. IsBadIn (shape_container shape.now) bytes bad)) }
    ensures stays { StoreStays S.opened S.sizes S.files S.may S.asked store.old store.new }
    ensures counts { CountsOpening result (S.faults store.old) (S.faults store.new) }
{
    match shape {
        PlainShape::Whole(_) => match store.read_at(Slot::Dump, off, buf) {
            Ok(()) => Ok(()),
            Err(Failed) => Err(ViewFault::Store),
        },
        PlainShape::Plain(core) => read_core(store, core, kept, off, buf),
    }
}

// Fills the buffer with the bytes that are shown from a place on.
pub(crate) fn read_shown<S: Store>(
    store: &mut S,
    shape: &Option<PlainShape>,
    kept: &mut KeptPages,
    off: u64,
    buf: &mut [u8],
) -> Result<(), ViewFault>
    requires there { IsSome shape.now }
    requires known { (s : PlainShape) → shape.now ≡ Some s → S.sizes store.old Dump ≡ Some (file_size s) }
    requires kept { (core : PlainCore) → shape.now ≡ Some (Plain core) → All (IsKept (content (S.files store.old) Dump (S.opened store.old Dump)) core.layout) kept.old.places.items }
    requires within { (s : PlainShape) → shape.now ≡ Some s → off + length buf.old ≤ shape_size s }
    ensures part { OnOk result ((s : PlainShape) → shape.now ≡ Some s → IfSome (content (S.files store.old) Dump (S.opened store.old Dump)) (λ bytes. buf.new ≡ take (length buf.old) (drop off (shape_bytes s bytes)))) }
    ensures kept { (core : PlainCore) → shape.now ≡ Some (Plain core) → All (IsKept (content (S.files store.old) Dump (S.opened store.old Dump)) core.layout) kept.new.places.items }
    ensures bad { (s : PlainShape) → shape.now ≡ Some s → IfBad result (λ bad. IfSome (content (S.files store.old) Dump (S.opened store.old Dump)) (λ bytes. IsBadIn (shape_container s) bytes bad)) }
    ensures stays { StoreStays S.opened S.sizes S.files S.may S.asked store.old store.new }
    ensures counts { CountsOpening result (S.faults store.old) (S.faults store.new) }
{
    match shape {
        Some(shape) => read_shape(store, shape, kept, off, buf),
        None => unreachable!(),
    }
}
