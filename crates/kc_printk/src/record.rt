// A record of the log.
ghost use Rattle.std.specs.Prelude.{◌≡◌, ◌<◌, IfErr};
ghost use Rattle.kc_memory.specs.Space.{AnswersAs};
ghost use Rattle.kc_memory.specs.Stays.{CountsFaults, SpaceStays};
ghost use Rattle.kc_printk.specs.Answers.{CountsLogFaults, IsEntry, IsWanting, LooksAs};
ghost use Rattle.kc_printk.specs.Records.{begin_at, bounds_at, code_of, desc_at, element, entry_at, filled_at, index_of, info_at, is_kept, length_at, next_at, record_at, room_after, rule_code, state_at, time_at};

use crate::block::{Block, TextSpan, block_in};
use crate::layout::{DescLayout, InfoLayout};
use crate::ring::Ring;
use crate::stop::LogStop;
use kc_bytes::{onward, read_eight, read_two};
use kc_memory::{Rule, Space, Stop};
use kc_word::Steps;
use std::sync::ledger::Ledger;

/// A ring, and where the parts of its records stand.
#[derive(Clone, Copy, Debug, PartialEq, Eq)]
pub struct Log {
    pub ring: Ring,
    pub desc: DescLayout,
    pub info: InfoLayout,
}

/// Why a record can't be read.
#[derive(Clone, Copy, Debug, PartialEq, Eq)]
pub enum LogRule {
    /// A word of it can't be read, by this rule.
    Memory(Rule),
    /// P5: the positions of its text block are none.
    Positions,
    /// P6: its text block has the id of another descriptor.
    Owner,
    /// P7: its text is longer than its block.
    Length,
    /// P8: the texts from the first record on are together longer than the ring.
    Room,
}

/// What stands at an id.
#[derive(Clone, Copy, Debug, PartialEq, Eq)]
pub enum LogEntry {
    /// No record, or one without a text.
    Nothing,
    /// A record with its time in nanoseconds since the start, the virtual address of its text, and its length in bytes.
    Record { time: u64, at: u64, length: u16 },
    /// A record that can't be read, and the virtual address that shows it.
    Unknown { rule: LogRule, at: u64 },
}

// The code of a rule of memory.
fn rule_code(rule: Rule) -> &'static [u8]
    ensures { result.now ≡ rule_code rule }
{
    match rule {
        Rule::M1 => b"M1",
        Rule::M2 => b"M2",
        Rule::M3 => b"M3",
        Rule::M4 => b"M4",
        Rule::M5 => b"M5",
        _ => b"M6",
    }
}

/// The code of a rule: its name.
pub fn code_of(rule: LogRule) -> &'static [u8]
    ensures { result.now ≡ code_of rule }
{
    match rule {
        LogRule::Memory(rule) => rule_code(rule),
        LogRule::Positions => b"P5",
        LogRule::Owner => b"P6",
        LogRule::Length => b"P7",
        LogRule::Room => b"P8",
    }
}

// The address of an element of an array.
fn element(base: u64, size: u64, index: u64) -> u64
    ensures { result ≡ element base size index }
{
    onward(base, index.wrapping_mul(size))
}

// The number of an id's descriptor in the ring.
pub(crate) fn index_of(log: &Log, id: u64) -> u64
    requires { 0 < log.now.ring.count }
    ensures { result ≡ index_of log.now id }
{
    id % log.ring.count
}

// The address of an id's descriptor.
fn desc_at(log: &Log, id: u64) -> u64
    requires { 0 < log.now.ring.count }
    ensures { result ≡ desc_at log.now id }
{
    element(log.ring.descs, log.desc.size, index_of(log, id))
}

// The address of an id's info.
fn info_at(log: &Log, id: u64) -> u64
    requires { 0 < log.now.ring.count }
    ensures { result ≡ info_at log.now id }
{
    element(log.ring.infos, log.info.size, index_of(log, id))
}

fn state_at(log: &Log, id: u64) -> u64
    requires { 0 < log.now.ring.count }
    ensures { result ≡ state_at log.now id }
{
    onward(
        onward(desc_at(log, id), log.desc.state_var),
        log.desc.counter,
    )
}

fn begin_at(log: &Log, id: u64) -> u64
    requires { 0 < log.now.ring.count }
    ensures { result ≡ begin_at log.now id }
{
    onward(
        onward(desc_at(log, id), log.desc.text_block),
        log.desc.begin,
    )
}

fn next_at(log: &Log, id: u64) -> u64
    requires { 0 < log.now.ring.count }
    ensures { result ≡ next_at log.now id }
{
    onward(onward(desc_at(log, id), log.desc.text_block), log.desc.next)
}

fn time_at(log: &Log, id: u64) -> u64
    requires { 0 < log.now.ring.count }
    ensures { result ≡ time_at log.now id }
{
    onward(info_at(log, id), log.info.time)
}

fn length_at(log: &Log, id: u64) -> u64
    requires { 0 < log.now.ring.count }
    ensures { result ≡ length_at log.now id }
{
    onward(info_at(log, id), log.info.text_length)
}

// Whether the descriptor with this state still has the record of an id: it is committed or finalized.
fn is_kept(id: u64, state: u64) -> bool
    ensures { result ≡ is_kept id state }
{
    state % (1 << 62) == id && (state / (1 << 62) == 1 || state / (1 << 62) == 2)
}

// The record whose text stands in a block.
#[tactic(auto, unfolding(crate::specs::Records::filled_at))]
fn read_filled<S: Space, L: Ledger>(
    space: &mut S,
    log: &Log,
    id: u64,
    room: u64,
    span: &TextSpan,
    steps: &mut Steps<L>,
) -> Result<LogEntry, Stop>
    requires { 0 < log.now.ring.count }
    ensures entry { AnswersAs (λ image. filled_at image log.now id room span.now) (S.image space.old) result }
    ensures stays { SpaceStays S.image S.files S.through S.most space.old space.new }
    ensures cause { CountsFaults result (S.faults space.old) (S.faults space.new) }
{
    let at = onward(log.ring.text_data, span.at);
    let owner = read_eight(space, at, steps)?;
    let length = read_two(space, length_at(log, id), steps)?;
    let time = read_eight(space, time_at(log, id), steps)?;
    if owner != id {
        return Ok(LogEntry::Unknown {
            rule: LogRule::Owner,
            at,
        });
    }
    if span.text < u64::from(length) {
        return Ok(LogEntry::Unknown {
            rule: LogRule::Length,
            at: length_at(log, id),
        });
    }
    if room < u64::from(length) {
        return Ok(LogEntry::Unknown {
            rule: LogRule::Room,
            at: length_at(log, id),
        });
    }
    Ok(LogEntry::Record {
        time,
        at: onward(at, 8),
        length,
    })
}

// The record of a descriptor.
#[tactic(auto, unfolding(crate::specs::Records::bounds_at))]
fn read_bounds<S: Space, L: Ledger>(
    space: &mut S,
    log: &Log,
    id: u64,
    room: u64,
    steps: &mut Steps<L>,
) -> Result<LogEntry, Stop>
    requires count { 0 < log.now.ring.count }
    requires size { 0 < log.now.ring.size }
    ensures entry { AnswersAs (λ image. bounds_at image log.now id room) (S.image space.old) result }
    ensures stays { SpaceStays S.image S.files S.through S.most space.old space.new }
    ensures cause { CountsFaults result (S.faults space.old) (S.faults space.new) }
{
    let begin = read_eight(space, begin_at(log, id), steps)?;
    let next = read_eight(space, next_at(log, id), steps)?;
    match block_in(log.ring.size, begin, next) {
        Block::Empty => Ok(LogEntry::Nothing),
        Block::Filled(span) => read_filled(space, log, id, room, &span, steps),
        Block::Wrong => Ok(LogEntry::Unknown {
            rule: LogRule::Positions,
            at: begin_at(log, id),
        }),
    }
}

// What stands at an id, unless a word of it can't be read.
#[tactic(auto, unfolding(crate::specs::Records::record_at))]
fn read_record<S: Space, L: Ledger>(
    space: &mut S,
    log: &Log,
    id: u64,
    room: u64,
    steps: &mut Steps<L>,
) -> Result<LogEntry, Stop>
    requires count { 0 < log.now.ring.count }
    requires size { 0 < log.now.ring.size }
    ensures entry { AnswersAs (λ image. record_at image log.now id room) (S.image space.old) result }
    ensures stays { SpaceStays S.image S.files S.through S.most space.old space.new }
    ensures cause { CountsFaults result (S.faults space.old) (S.faults space.new) }
{
    let state = read_eight(space, state_at(log, id), steps)?;
    if is_kept(id, state) {
        read_bounds(space, log, id, room, steps)
    } else {
        Ok(LogEntry::Nothing)
    }
}

// What a stop says of a record.
fn entry_of(stop: Stop) -> Result<LogEntry, LogStop>
    ensures { IsEntry stop result }
{
    match stop {
        Stop::Miss(miss) => Ok(LogEntry::Unknown {
            rule: LogRule::Memory(miss.rule),
            at: miss.va,
        }),
        Stop::Fault => Err(LogStop::Fault),
    }
}

/// What stands at an id, where so many bytes of texts are left. It takes no memory.
///
/// # Errors
///
/// A failure to read the dump.
pub fn read_entry<S: Space, L: Ledger>(
    space: &mut S,
    log: &Log,
    id: u64,
    room: u64,
    steps: &mut Steps<L>,
) -> Result<LogEntry, LogStop>
    requires count { 0 < log.now.ring.count }
    requires size { 0 < log.now.ring.size }
    ensures entry { LooksAs (λ e. e) (λ image. entry_at image log.now id room) (S.image space.old) result }
    ensures wanting { IfErr result (λ stop. IsWanting stop) }
    ensures stays { SpaceStays S.image S.files S.through S.most space.old space.new }
    ensures cause { CountsLogFaults result (S.faults space.old) (S.faults space.new) }
{
    match read_record(space, log, id, room, steps) {
        Ok(entry) => Ok(entry),
        Err(stop) => entry_of(stop),
    }
}

// How many bytes of texts are left after an entry.
pub(crate) fn room_after(room: u64, entry: &LogEntry) -> u64
    ensures { result ≡ room_after room entry.now }
{
    match entry {
        LogEntry::Record { length, .. } => room.saturating_sub(u64::from(*length)),
        _ => room,
    }
}
