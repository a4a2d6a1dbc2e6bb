// The log.
ghost use Rattle.std.specs.Prelude.{◌≡◌, ◌++◌, ◌<◌, IfErr, IfSome, OnOk};
ghost use Rattle.kc_memory.specs.Stays.{SpaceStays};
ghost use Rattle.kc_printk.specs.Answers.{CountsLogFaults, IsStopLine, IsWanting, LooksAs, ReadsAs};
ghost use Rattle.kc_printk.specs.Log.{line_at, lines, log_of, next_id};

use crate::layout::layout_of;
use crate::record::{Log, LogEntry, LogRule, index_of, read_entry, room_after};
use crate::ring::{read_ring, ring_of};
use crate::stop::LogStop;
use crate::text::{push_record, push_unknown};
use kc_bytes::{BytesStop, onward, read_bytes};
use kc_memory::Space;
use kc_word::Steps;
use std::alloc::Global;
use std::sync::ledger::Ledger;

// The id after an id.
fn next_id(id: u64) -> u64
    ensures { result ≡ next_id id }
{
    onward(id, 1) % (1 << 62)
}

// Adds the line of a record whose text can't be read.
fn push_stop(text: &mut Vec<u8>, index: u64, stop: BytesStop) -> Result<(), LogStop>
    ensures { IsStopLine index stop text.old.items text.new.items result }
{
    match stop {
        BytesStop::Miss(miss) => {
            push_unknown(text, index, LogRule::Memory(miss.rule), miss.va)?;
            Ok(())
        }
        BytesStop::Fault => Err(LogStop::Fault),
        BytesStop::NoMemory => Err(LogStop::NoMemory),
    }
}

// Adds the lines of an entry.
fn push_entry<S: Space, L: Ledger>(
    alloc: Global,
    text: &mut Vec<u8>,
    space: &mut S,
    index: u64,
    entry: &LogEntry,
    steps: &mut Steps<L>,
) -> Result<(), LogStop>
    ensures line { OnOk result (IfSome (S.image space.old) (λ image. text.new.items ≡ text.old.items ++ line_at image index entry.now)) }
    ensures wanting { IfErr result (λ stop. IsWanting stop) }
    ensures stays { SpaceStays S.image S.files S.through S.most space.old space.new }
    ensures cause { CountsLogFaults result (S.faults space.old) (S.faults space.new) }
{
    match *entry {
        LogEntry::Nothing => Ok(()),
        LogEntry::Unknown { rule, at } => {
            push_unknown(text, index, rule, at)?;
            Ok(())
        }
        LogEntry::Record { time, at, length } => {
            match read_bytes(alloc, space, at, usize::from(length), steps) {
                Ok(bytes) => {
                    push_record(text, time, &bytes)?;
                    Ok(())
                }
                Err(stop) => push_stop(text, index, stop),
            }
        }
    }
}

// The lines of the records.
fn read_records<S: Space, L: Ledger>(
    alloc: Global,
    space: &mut S,
    log: &Log,
    steps: &mut Steps<L>,
) -> Result<Vec<u8>, LogStop>
    requires count { 0 < log.now.ring.count }
    requires size { 0 < log.now.ring.size }
    ensures lines { LooksAs (λ text. text.items) (λ image. lines image log.now log.now.ring.ids log.now.ring.first log.now.ring.size) (S.image space.old) result }
    ensures wanting { IfErr result (λ stop. IsWanting stop) }
    ensures stays { SpaceStays S.image S.files S.through S.most space.old space.new }
    ensures cause { CountsLogFaults result (S.faults space.old) (S.faults space.new) }
{
    let mut text = Vec::new(alloc);
    let mut id = log.ring.first;
    let mut room = log.ring.size;
    let ids = log.ring.ids;
    for i in 0..ids {
        let entry = read_entry(space, log, id, room, steps)?;
        push_entry(alloc, &mut text, space, index_of(log, id), &entry, steps)?;
        room = room_after(room, &entry);
        id = next_id(id);
    }
    Ok(text)
}

/// The kernel's log, as the text of VMCOREINFO leads to it: each record that is committed or finalized, from the first to the last one,
/// as `makedumpfile --dump-dmesg` prints it. A record that can't be read is the line `record INDEX unknown RULE ADDRESS`, with the number of
/// its descriptor in the ring.
///
/// It keeps the whole log in memory: at most 2^22 records, whose texts have together no more bytes than the ring. A byte of a text becomes
/// at most 10 bytes, and a newline one and as many spaces as its record's time takes.
///
/// # Errors
///
/// A word of the ring itself that can't be read; the first of `P1` to `P4`; no memory was left.
#[tactic(auto, unfolding(crate::specs::Log::log_of))]
pub fn read_log<S: Space, L: Ledger>(
    alloc: Global,
    space: &mut S,
    note: &[u8],
    steps: &mut Steps<L>,
) -> Result<Vec<u8>, LogStop>
    ensures log { ReadsAs (λ text. text.items) (λ image. log_of image note.now) (S.image space.old) result }
    ensures stays { SpaceStays S.image S.files S.through S.most space.old space.new }
    ensures cause { CountsLogFaults result (S.faults space.old) (S.faults space.new) }
{
    let layout = layout_of(note)?;
    let words = read_ring(space, &layout.ring, steps)?;
    let ring = ring_of(&words)?;
    let log = Log {
        ring,
        desc: layout.desc,
        info: layout.info,
    };
    read_records(alloc, space, &log, steps)
}
