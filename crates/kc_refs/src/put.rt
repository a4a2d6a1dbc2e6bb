// The search, and the writing of what it finds.
ghost use Rattle.std.specs.Prelude.{◌≡◌, ◌+◌, ◌≤◌, ◌<◌, ◌^◌, false, None, IsSome, IfOk, OnErr};
ghost use Rattle.std.specs.List.{All};
ghost use Rattle.std.specs.Option.{ForSome};
ghost use Rattle.kc_outside.specs.declared.store.Slot.TheVariants.{Dump};
ghost use Rattle.kc_outside.specs.Files.{content};
ghost use Rattle.kc_elf.specs.Stays.{StoreStays};
ghost use Rattle.kc_text.specs.Compose.{texts};
ghost use Rattle.kc_sight.specs.Refs.Holding.{IsAddressed, IsInside, in_segment, in_segments, word_count};
ghost use Rattle.kc_sight.specs.Refs.Stops.{Told};
ghost use Rattle.kc_command.specs.Ends.Ends.{TookPrefix};
ghost use Rattle.kc_refs.specs.Lines.{found_lines};
ghost use Rattle.kc_refs.specs.Pace.{InPace, found_until};
ghost use Rattle.kc_refs.specs.Parts.{words_from};
ghost use Rattle.kc_refs.specs.Progress.{goal_of, lines_to, words_in};
ghost use Rattle.kc_refs.specs.Put.{Wrote};
ghost use Rattle.kc_refs.specs.Says.{CountsProgress, IsOther, Says};
ghost use Rattle.kc_refs.specs.Stops.{CountsSink, CountsStore};

use crate::lines::found_text;
use crate::part::{part, word_count};
use crate::progress::{Course, add, goal_of, put_progress};
use crate::search::Search;
use crate::sink::put_all;
use crate::stop::RefsStop;
use kc_outside::{Sink, Store};
use kc_sight::find_words;
use kc_word::Segment;
use std::alloc::Global;

// How many words of a segment are searched at once, at most.
const PART_WORDS: u64 = 32_768;

// Writes the words of a segment that hold what is looked for, all of them at once, and tells how many they are.
fn put_found<S: Store, O: Sink>(
    alloc: Global,
    store: &mut S,
    segment: &Segment,
    search: &Search<'_>,
    out: &mut O,
) -> Result<u64, RefsStop>
    requires addressed { IsAddressed segment.now }
    requires learnt { IsSome (S.sizes store.old Dump) }
    requires within { ForSome (S.sizes store.old Dump) (λ size. IsInside size segment.now) }

    ensures wrote { IfOk result (λ count. Told (content (S.files store.old) Dump (S.opened store.old Dump)) (λ bytes.
        Wrote search.now.keys.now (in_segment search.now.sought.now bytes segment.now) (O.taken out.old) (O.taken out.new) count)) }
    ensures part { OnErr result (Told (content (S.files store.old) Dump (S.opened store.old Dump)) (λ bytes.
        TookPrefix (O.taken out.old) (O.taken out.new) (texts (found_lines search.now.keys.now) (in_segment search.now.sought.now bytes segment.now)))) }
    ensures other { IsOther result }
    ensures stays { StoreStays S.opened S.sizes S.files S.may S.asked store.old store.new }
    ensures store_counts { CountsStore result (S.faults store.old) (S.faults store.new) }
    ensures sink_counts { CountsSink O.taken O.faults O.asked result out.old out.new }
{
    let found = find_words(alloc, store, &[*segment], search.sought)?;
    let text = found_text(alloc, search.keys, &found)?;
    put_all(out, &text)?;
    Ok(found.len() as u64)
}

// Writes those of a part of a search, and says how far it is then.
fn put_part<S: Store, O: Sink, E: Sink>(
    alloc: Global,
    store: &mut S,
    segment: &Segment,
    search: &Search<'_>,
    course: Course,
    out: &mut O,
    err: &mut E,
) -> Result<u64, RefsStop>
    requires addressed { IsAddressed segment.now }
    requires learnt { IsSome (S.sizes store.old Dump) }
    requires within { ForSome (S.sizes store.old Dump) (λ size. IsInside size segment.now) }
    requires few { word_count segment.now ≤ 32768 }
    requires counted { ForSome course.goal (λ _. course.read + word_count segment.now < 2 ^ 64) }

    ensures wrote { IfOk result (λ count. Told (content (S.files store.old) Dump (S.opened store.old Dump)) (λ bytes.
        Wrote search.now.keys.now (in_segment search.now.sought.now bytes segment.now) (O.taken out.old) (O.taken out.new) count)) }
    ensures part { OnErr result (Told (content (S.files store.old) Dump (S.opened store.old Dump)) (λ bytes.
        TookPrefix (O.taken out.old) (O.taken out.new) (texts (found_lines search.now.keys.now) (in_segment search.now.sought.now bytes segment.now)))) }
    ensures says { Says course.goal course.read (course.read + word_count segment.now) result (E.taken err.old) (E.taken err.new) }
    ensures untold { course.goal ≡ None → err.new ≡ err.old }
    ensures stays { StoreStays S.opened S.sizes S.files S.may S.asked store.old store.new }
    ensures store_counts { CountsStore result (S.faults store.old) (S.faults store.new) }
    ensures sink_counts { CountsSink O.taken O.faults O.asked result out.old out.new }
    ensures progress_counts { CountsProgress E.taken E.faults E.asked result err.old err.new }
{
    let more = put_found(alloc, store, segment, search, out)?;
    put_progress(alloc, course, word_count(segment), err)?;
    Ok(more)
}

// Writes those of a segment, part by part.
fn put_segment<S: Store, O: Sink, E: Sink>(
    alloc: Global,
    store: &mut S,
    segment: &Segment,
    search: &Search<'_>,
    course: Course,
    out: &mut O,
    err: &mut E,
) -> Result<u64, RefsStop>
    requires addressed { IsAddressed segment.now }
    requires learnt { IsSome (S.sizes store.old Dump) }
    requires within { ForSome (S.sizes store.old Dump) (λ size. IsInside size segment.now) }
    requires counted { ForSome course.goal (λ _. course.read + word_count segment.now < 2 ^ 64) }

    ensures wrote { IfOk result (λ count. Told (content (S.files store.old) Dump (S.opened store.old Dump)) (λ bytes.
        Wrote search.now.keys.now (in_segment search.now.sought.now bytes segment.now) (O.taken out.old) (O.taken out.new) count)) }
    ensures part { OnErr result (Told (content (S.files store.old) Dump (S.opened store.old Dump)) (λ bytes.
        TookPrefix (O.taken out.old) (O.taken out.new) (texts (found_lines search.now.keys.now) (in_segment search.now.sought.now bytes segment.now)))) }
    ensures says { Says course.goal course.read (course.read + word_count segment.now) result (E.taken err.old) (E.taken err.new) }
    ensures pace { OnErr result (Told (content (S.files store.old) Dump (S.opened store.old Dump)) (λ bytes.
        InPace (λ n. texts (found_lines search.now.keys.now) (words_from search.now.sought.now bytes segment.now 0 n))
        (λ n. lines_to course.goal course.read (course.read + n)) (word_count segment.now)
        (O.taken out.old) (O.taken out.new) (E.taken err.old) (E.taken err.new))) }
    ensures untold { course.goal ≡ None → err.new ≡ err.old }
    ensures stays { StoreStays S.opened S.sizes S.files S.may S.asked store.old store.new }
    ensures store_counts { CountsStore result (S.faults store.old) (S.faults store.new) }
    ensures sink_counts { CountsSink O.taken O.faults O.asked result out.old out.new }
    ensures progress_counts { CountsProgress E.taken E.faults E.asked result err.old err.new }
{
    let words = word_count(segment);
    let mut found = 0;
    let mut first = 0;
    while first < words {
        let count = PART_WORDS.min(words - first);
        let part = part(segment, first, count);
        let course = course.after(first);
        let more = put_part(alloc, store, &part, search, course, out, err)?;
        found = add(found, more)?;
        first += count;
    }
    Ok(found)
}

/// Writes the words of the segments' file bytes that hold what is looked for, and tells how many they are: those at physical addresses that
/// are multiples of 8, one segment after the other in the order of the table, each by rising place, with the cache of the first of these keys
/// that encodes it. The file in slot Dump is read once, and no more is kept of what is found than the words of 256 KiB. Where progress is to
/// be told, `err` takes a line at each gigabyte of words that was read.
///
/// # Errors
///
/// A failure of the store or of a sink, whose count of failures then rose; or out of memory, and so are more words than 64 bits count, of
/// those found or of those whose progress is told. The sinks then took a first part of their text.
pub fn put_words<S: Store, O: Sink, E: Sink>(
    alloc: Global,
    store: &mut S,
    segments: &[Segment],
    search: &Search<'_>,
    out: &mut O,
    err: &mut E,
) -> Result<u64, RefsStop>
    requires addressed { All IsAddressed segments.now }
    requires learnt { IsSome (S.sizes store.old Dump) }
    requires within { ForSome (S.sizes store.old Dump) (λ size. All (IsInside size) segments.now) }

    ensures wrote { IfOk result (λ count. Told (content (S.files store.old) Dump (S.opened store.old Dump)) (λ bytes.
        Wrote search.now.keys.now (in_segments search.now.sought.now bytes segments.now) (O.taken out.old) (O.taken out.new) count)) }
    ensures part { OnErr result (Told (content (S.files store.old) Dump (S.opened store.old Dump)) (λ bytes.
        TookPrefix (O.taken out.old) (O.taken out.new) (texts (found_lines search.now.keys.now) (in_segments search.now.sought.now bytes segments.now)))) }
    ensures says { Says (goal_of search.now.progress segments.now) 0 (words_in segments.now) result (E.taken err.old) (E.taken err.new) }
    ensures pace { OnErr result (Told (content (S.files store.old) Dump (S.opened store.old Dump)) (λ bytes.
        InPace (λ n. texts (found_lines search.now.keys.now) (found_until search.now.sought.now bytes segments.now n))
        (λ n. lines_to (goal_of search.now.progress segments.now) 0 n) (words_in segments.now)
        (O.taken out.old) (O.taken out.new) (E.taken err.old) (E.taken err.new))) }
    ensures untold { search.now.progress ≡ false → err.new ≡ err.old }
    ensures stays { StoreStays S.opened S.sizes S.files S.may S.asked store.old store.new }
    ensures store_counts { CountsStore result (S.faults store.old) (S.faults store.new) }
    ensures sink_counts { CountsSink O.taken O.faults O.asked result out.old out.new }
    ensures progress_counts { CountsProgress E.taken E.faults E.asked result err.old err.new }
{
    let goal = goal_of(segments, search.progress)?;
    let mut found = 0;
    let mut course = Course { goal, read: 0 };
    for segment in segments {
        let more = put_segment(alloc, store, segment, search, course, out, err)?;
        found = add(found, more)?;
        course = course.after(word_count(segment));
    }
    Ok(found)
}
