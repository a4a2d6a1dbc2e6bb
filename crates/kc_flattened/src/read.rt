// Reading the records of a flattened file.
ghost use Rattle.std.specs.Prelude.{◌≡◌, ◌+◌, ◌<◌, ◌≤◌, ◌^◌, length, All, Some, IfOk, IfSome, option_map};
ghost use Rattle.kc_word.specs.Answers.{Gives};
ghost use Rattle.kc_outside.specs.Files.{content};
ghost use Rattle.kc_flattened.specs.Answers.{Answers, IsFaultless};
ghost use Rattle.kc_flattened.specs.Flat.{is_last, record_by, record_of, record_at, records_from, records_of, is_head, is_flat_by, flat_of, IsInside};
ghost use Rattle.kc_flattened.specs.Stays.{CountsFaults, StoreStays};

use crate::fault::{FlatFault, FlatStop};
use crate::record::Record;
use byteorder::{BigEndian, ByteOrder};
use kc_outside::{Slot, Store};
use std::alloc::Global;

// Fewer records than this are read.
const MOST_RECORDS: u32 = 4_194_304;

// `makedumpfile`, and zeros up to 16 bytes.
const SIGNATURE: [u8; 16] = *b"makedumpfile\0\0\0\0";

// Records begin at this file offset.
const HEADER_BYTES: u64 = 4096;

// What a record says.
fn record_by(size: u64, at: u64, to: u64, count: u64) -> Result<Option<Record>, FlatFault>
    requires { at + 16 ≤ size }
    ensures exact { Gives (λ r. r) result (record_by size at to count) }
    ensures inside { IfOk result (λ r. IfSome r (IsInside size)) }
    ensures after { IfOk result (λ r. IfSome r (λ r. at < r.from + r.count)) }
{
    if to == u64::MAX && count == u64::MAX {
        return Ok(None);
    }
    if to >= 1 << 63 || count >= (1 << 63) - to {
        return Err(FlatFault::Bounds);
    }
    let from = at + 16;
    if count > size - from {
        return Err(FlatFault::PastEnd);
    }
    Ok(Some(Record { to, count, from }))
}

// The record at a file offset, or `None` for the last.
fn read_record<S: Store>(
    store: &mut S,
    slot: Slot,
    size: u64,
    at: u64,
) -> Result<Option<Record>, FlatStop>
    requires learnt { S.sizes store.old slot ≡ Some size }
    requires within { at ≤ size }

    ensures told { Answers (λ r. r) (content (S.files store.old) slot (S.opened store.old slot)) result (record_at size at) }
    ensures inside { IfOk result (λ r. IfSome r (IsInside size)) }

    ensures stays { StoreStays S.opened S.sizes S.files S.may S.asked store.old store.new }
    ensures counts { CountsFaults result (S.faults store.old) (S.faults store.new) }
{
    if size - at < 16 {
        return Err(FlatStop::Fault(FlatFault::NoEnd));
    }
    let mut head = [0; 16];
    store.read_at(slot, at, &mut head)?;
    let to = BigEndian::read_u64(&head);
    let count = BigEndian::read_u64(&head[8..]);
    Ok(record_by(size, at, to, count)?)
}

// The records from the end of the header on.
fn read_all<S: Store>(
    alloc: Global,
    store: &mut S,
    slot: Slot,
    size: u64,
) -> Result<Vec<Record>, FlatStop>
    requires learnt { S.sizes store.old slot ≡ Some size }
    requires within { 4096 ≤ size }

    ensures told { Answers (λ rs. rs.items) (content (S.files store.old) slot (S.opened store.old slot)) result (records_from 4194304 size 4096) }
    ensures inside { IfOk result (λ rs. All (IsInside size) rs.items) }

    ensures stays { StoreStays S.opened S.sizes S.files S.may S.asked store.old store.new }
    ensures counts { CountsFaults result (S.faults store.old) (S.faults store.new) }
{
    let mut records = Vec::new(alloc);
    let mut at = HEADER_BYTES;
    for _i in 0..MOST_RECORDS {
        let next = match read_record(store, slot, size, at) {
            Ok(next) => next,
            Err(stop) => return Err(stop),
        };
        let record = match next {
            Some(record) => record,
            None => return Ok(records),
        };
        records.push(record)?;
        at = record.from + record.count;
    }
    Err(FlatStop::Fault(FlatFault::TooMany))
}

// Whether the type and the version of a header are 1.
fn is_head(head: &[u8]) -> bool
    requires { 32 ≤ length head.now }
    ensures { result ≡ is_head head.now }
{
    BigEndian::read_u64(&head[16..]) == 1 && BigEndian::read_u64(&head[24..]) == 1
}

// The records of a flattened file.
#[tactic(auto, unfolding(crate::specs::Flat::records_of))]
fn read_records<S: Store>(
    alloc: Global,
    store: &mut S,
    slot: Slot,
    size: u64,
) -> Result<Vec<Record>, FlatStop>
    requires { S.sizes store.old slot ≡ Some size }

    ensures told { Answers (λ rs. rs.items) (content (S.files store.old) slot (S.opened store.old slot)) result (records_of size) }
    ensures inside { IfOk result (λ rs. All (IsInside size) rs.items) }

    ensures stays { StoreStays S.opened S.sizes S.files S.may S.asked store.old store.new }
    ensures counts { CountsFaults result (S.faults store.old) (S.faults store.new) }
{
    if size < HEADER_BYTES {
        return Err(FlatStop::Fault(FlatFault::Header));
    }
    let mut head = [0; 32];
    store.read_at(slot, 0, &mut head)?;
    if !is_head(&head) {
        return Err(FlatStop::Fault(FlatFault::Header));
    }
    read_all(alloc, store, slot, size)
}

// Whether the file begins as flattened files do.
fn read_is_flat<S: Store>(store: &mut S, slot: Slot, size: u64) -> Result<bool, FlatStop>
    requires { S.sizes store.old slot ≡ Some size }

    ensures told { IfOk result (λ flat. IfSome (content (S.files store.old) slot (S.opened store.old slot)) (λ bytes. flat ≡ is_flat_by size bytes)) }
    ensures faultless { IsFaultless result }

    ensures stays { StoreStays S.opened S.sizes S.files S.may S.asked store.old store.new }
    ensures counts { CountsFaults result (S.faults store.old) (S.faults store.new) }
{
    if size < 16 {
        return Ok(false);
    }
    let mut head = [0; 16];
    store.read_at(slot, 0, &mut head)?;
    Ok(head.starts_with(&SIGNATURE))
}

/// Reads the records of a file of this size, in bytes, in the order in which they stand, or `None` where it isn't
/// flattened.
///
/// # Errors
///
/// The file's first fault; `ReadFault` where a call of the store failed, which ends the reading; or want
/// of memory.
pub fn read_flat<S: Store>(
    alloc: Global,
    store: &mut S,
    slot: Slot,
    size: u64,
) -> Result<Option<Vec<Record>>, FlatStop>
    requires { S.sizes store.old slot ≡ Some size }

    ensures told { Answers (λ found. option_map (λ rs. rs.items) found) (content (S.files store.old) slot (S.opened store.old slot)) result (flat_of size) }
    ensures inside { IfOk result (λ found. IfSome found (λ rs. All (IsInside size) rs.items)) }

    ensures stays { StoreStays S.opened S.sizes S.files S.may S.asked store.old store.new }
    ensures counts { CountsFaults result (S.faults store.old) (S.faults store.new) }
{
    if !read_is_flat(store, slot, size)? {
        return Ok(None);
    }
    Ok(Some(read_records(alloc, store, slot, size)?))
}
