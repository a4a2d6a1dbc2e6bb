// How far a search is.
ghost use Rattle.std.specs.Prelude.{◌≡◌, ◌++◌, ◌+◌, ◌/◌, ◌≤◌, ◌<◌, ◌^◌, Err, None, Some, IfOk, OnErr, OnOk};
ghost use Rattle.std.specs.Option.{ForSome};
ghost use Rattle.kc_refs.specs.Progress.{gigabyte, gigabytes, goal_of, read_line, words_in};
ghost use Rattle.kc_refs.specs.Says.{CountsProgress, IsOwn, Says, SaysLine};
ghost use Rattle.kc_refs.specs.declared.stop.RefsStop.TheVariants.{Memory};

use crate::part::word_count;
use crate::sink::put_all;
use crate::stop::RefsStop;
use kc_outside::{Failed, Sink};
use kc_text::{push, push_numbered};
use kc_word::{NoMemory, Segment};
use std::alloc::Global;

const GIGABYTE_WORDS: u64 = 125_000_000;

/// How far a search is.
#[derive(Clone, Copy)]
pub(crate) struct Course {
    /// How many gigabytes it reads in all, where that is told.
    pub goal: Option<u64>,
    /// How many words it has read.
    pub read: u64,
}

impl Course {
    /// So many words further, which are counted only where that is told.
    pub(crate) fn after(self, words: u64) -> Course
        requires counted { ForSome self.goal (λ _. self.read + words < 2 ^ 64) }

        ensures goal { result.goal ≡ self.goal }
        ensures read { ForSome self.goal (λ _. result.read ≡ self.read + words) }
    {
        match self.goal {
            None => self,
            Some(_) => Course {
                goal: self.goal,
                read: self.read + words,
            },
        }
    }
}

/// So many words more. More than 64 bits count are taken for want of memory.
pub(crate) fn add(count: u64, more: u64) -> Result<u64, RefsStop>
    ensures ok { IfOk result (λ sum. sum ≡ count + more) }
    ensures err { OnErr result (result ≡ Err Memory) }
{
    match count.checked_add(more) {
        Some(sum) => Ok(sum),
        None => Err(RefsStop::Memory),
    }
}

// How many words of the segments are searched.
fn words_in(segments: &[Segment]) -> Result<u64, RefsStop>
    ensures ok { IfOk result (λ words. words ≡ words_in segments.now) }
    ensures err { OnErr result (result ≡ Err Memory) }
{
    let mut words = 0;
    for segment in segments {
        words = add(words, word_count(segment))?;
    }
    Ok(words)
}

// So many words in gigabytes, rounded up.
fn gigabytes(words: u64) -> u64
    ensures { result ≡ gigabytes words }
{
    let rest = if words % GIGABYTE_WORDS == 0 { 0 } else { 1 };
    words / GIGABYTE_WORDS + rest
}

/// How many gigabytes a search of the segments reads in all, where that is told.
pub(crate) fn goal_of(segments: &[Segment], progress: bool) -> Result<Option<u64>, RefsStop>
    ensures goal { IfOk result (λ goal. goal ≡ goal_of progress segments.now) }
    ensures counted { IfOk result (λ goal. ForSome goal (λ _. words_in segments.now < 2 ^ 64)) }
    ensures err { OnErr result (result ≡ Err Memory) }
{
    if !progress {
        return Ok(None);
    }
    let words = words_in(segments)?;
    Ok(Some(gigabytes(words)))
}

// The line of so many gigabytes that were read.
fn read_line(alloc: Global, all: u64, read: u64) -> Result<Vec<u8>, NoMemory>
    ensures { IfOk result (λ text. text.items ≡ read_line all read) }
{
    let mut text = Vec::new(alloc);
    push_numbered(&mut text, b"read ", read)?;
    push_numbered(&mut text, b" of ", all)?;
    push(&mut text, b" GB\n")?;
    Ok(text)
}

// Puts that line.
fn put_line<E: Sink>(alloc: Global, all: u64, read: u64, err: &mut E) -> Result<(), RefsStop>
    ensures says { SaysLine (read_line all read) result (E.taken err.old) (E.taken err.new) }
    ensures own { IsOwn result }
    ensures counts { CountsProgress E.taken E.faults E.asked result err.old err.new }
{
    let line = read_line(alloc, all, read)?;
    match put_all(err, &line) {
        Ok(()) => Ok(()),
        Err(Failed) => Err(RefsStop::Progress),
    }
}

/// Says how far a search is after so many words more, where that is told and one more gigabyte is full.
pub(crate) fn put_progress<E: Sink>(
    alloc: Global,
    course: Course,
    words: u64,
    err: &mut E,
) -> Result<(), RefsStop>
    requires few { words ≤ 32768 }
    requires counted { ForSome course.goal (λ _. course.read + words < 2 ^ 64) }

    ensures says { Says course.goal course.read (course.read + words) result (E.taken err.old) (E.taken err.new) }
    ensures own { IsOwn result }
    ensures untold { course.goal ≡ None → err.new ≡ err.old }
    ensures counts { CountsProgress E.taken E.faults E.asked result err.old err.new }
{
    let Some(all) = course.goal else {
        return Ok(());
    };
    let full = (course.read + words) / GIGABYTE_WORDS;
    if full == course.read / GIGABYTE_WORDS {
        return Ok(());
    }
    put_line(alloc, all, full, err)
}
