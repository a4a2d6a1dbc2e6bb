// Reading a part of the file that is meant.
ghost use Rattle.std.specs.Prelude.{◌≡◌, ℕ, ◌+◌, ◌-◌, ◌<◌, ◌≤◌, ◌^◌, false, length, take, drop, slice_index, All, Some, IfNone, IfSome, OnOk, OnErr};
ghost use Rattle.kc_outside.specs.Counts.{Rose};
ghost use Rattle.kc_outside.specs.Files.{content};
ghost use Rattle.kc_flattened.specs.Flat.{is_over, written, values, byte_of, pasted, size_of, reach, IsInside, IsOver, IsPut};
ghost use Rattle.kc_flattened.specs.Stays.{StoreStays};

use crate::record::Record;
use kc_outside::{Failed, Slot, Store};

// Where a buffer for so many bytes from a place on takes bytes of a record.
#[derive(Clone, Copy)]
struct Over {
    first: usize,
    last: usize,
    from: u64,
}

// The part of a buffer of `count` bytes from the place `off` on that a record is over.
fn over_of(record: &Record, size: u64, off: u64, count: u64) -> Option<Over>
    requires inside { IsInside size record.now }
    requires within { off + count < 2 ^ 64 }
    ensures none { IfNone result ((k : ℕ) → k < count → is_over record.now (off + k) ≡ false) }
    ensures some { IfSome result (λ o. IsOver record.now off count o.first o.last o.from) }
    ensures inside { IfSome result (λ o. o.from + (o.last - o.first) ≤ size) }
{
    let end = off + count;
    let low = record.to.max(off);
    let high = (record.to + record.count).min(end);
    if low >= high {
        return None;
    }
    Some(Over {
        first: (low - off) as usize,
        last: (high - off) as usize,
        from: record.from + (low - record.to),
    })
}

// Reads bytes of the file into a part of a buffer.
fn read_into<S: Store>(
    store: &mut S,
    slot: Slot,
    size: u64,
    over: Over,
    buf: &mut [u8],
) -> Result<(), Failed>
    requires learnt { S.sizes store.old slot ≡ Some size }
    requires order { over.first ≤ over.last }
    requires room { over.last ≤ length buf.old }
    requires inside { over.from + (over.last - over.first) ≤ size }

    ensures told { OnOk result (IfSome (content (S.files store.old) slot (S.opened store.old slot)) (λ bytes.
        IsPut buf.old over.first over.last (take (over.last - over.first) (drop over.from bytes)) buf.new)) }

    ensures stays { StoreStays S.opened S.sizes S.files S.may S.asked store.old store.new }
    ensures quiet { OnOk result (S.faults store.new ≡ S.faults store.old) }
    ensures later { S.faults store.old ≤ S.faults store.new }
    ensures cause { OnErr result (Rose (S.faults store.old) (S.faults store.new)) }
{
    let part = &mut buf[over.first..over.last];
    store.read_at(slot, over.from, part)?;
    Ok(())
}

// Reads a record's bytes into a buffer for the bytes from a place on.
fn read_over<S: Store>(
    store: &mut S,
    slot: Slot,
    size: u64,
    record: &Record,
    off: u64,
    buf: &mut [u8],
) -> Result<(), Failed>
    requires learnt { S.sizes store.old slot ≡ Some size }
    requires inside { IsInside size record.now }
    requires within { off + length buf.old < 2 ^ 64 }

    ensures told { OnOk result (IfSome (content (S.files store.old) slot (S.opened store.old slot)) (λ bytes.
        (k : ℕ) → k < length buf.old → slice_index buf.new k ≡ byte_of bytes record.now (off + k) (slice_index buf.old k))) }

    ensures stays { StoreStays S.opened S.sizes S.files S.may S.asked store.old store.new }
    ensures quiet { OnOk result (S.faults store.new ≡ S.faults store.old) }
    ensures later { S.faults store.old ≤ S.faults store.new }
    ensures cause { OnErr result (Rose (S.faults store.old) (S.faults store.new)) }
{
    match over_of(record, size, off, buf.len() as u64) {
        Some(over) => read_into(store, slot, size, over, buf),
        None => Ok(()),
    }
}

// Writes zeros.
fn clear(buf: &mut [u8])
    ensures { (k : ℕ) → k < length buf.old → slice_index buf.new k ≡ 0 }
{
    for byte in buf.iter_mut() {
        *byte = 0;
    }
}

/// Fills the buffer with what the records write from a place on, and with zeros where none does.
///
/// # Errors
///
/// A call of the store failed. The buffer then holds any bytes.
pub fn read_part<S: Store>(
    store: &mut S,
    slot: Slot,
    size: u64,
    records: &[Record],
    off: u64,
    buf: &mut [u8],
) -> Result<(), Failed>
    requires learnt { S.sizes store.old slot ≡ Some size }
    requires inside { All (IsInside size) records.now }
    requires within { off + length buf.old < 2 ^ 64 }

    ensures told { OnOk result (IfSome (content (S.files store.old) slot (S.opened store.old slot)) (λ bytes.
        buf.new ≡ values (λ i. written bytes records.now i 0) off (length buf.old))) }
    // Up to the end of the file that is meant, they are a part of it.
    ensures part { OnOk result (IfSome (content (S.files store.old) slot (S.opened store.old slot)) (λ bytes.
        off + length buf.old ≤ size_of records.now → buf.new ≡ take (length buf.old) (drop off (pasted bytes records.now)))) }

    ensures stays { StoreStays S.opened S.sizes S.files S.may S.asked store.old store.new }
    ensures quiet { OnOk result (S.faults store.new ≡ S.faults store.old) }
    ensures later { S.faults store.old ≤ S.faults store.new }
    ensures cause { OnErr result (Rose (S.faults store.old) (S.faults store.new)) }
{
    clear(buf);
    for record in records {
        read_over(store, slot, size, record, off, buf)?;
    }
    Ok(())
}

// How far a record reaches.
fn reach(record: &Record) -> u64
    requires { record.now.to + record.now.count < 2 ^ 64 }
    ensures { result ≡ reach record.now }
{
    if record.count == 0 {
        0
    } else {
        record.to + record.count
    }
}

/// How many bytes the file has that the records mean.
pub fn size_of(size: u64, records: &[Record]) -> u64
    requires { All (IsInside size) records.now }
    ensures { result ≡ size_of records.now }
{
    let mut end = 0;
    for record in records {
        end = reach(record).max(end);
    }
    end
}
