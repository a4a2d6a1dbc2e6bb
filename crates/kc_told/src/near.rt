// What the words beside an address lead to.
ghost use Rattle.std.specs.Prelude.{◌≡◌};
ghost use Rattle.kc_memory.specs.Stays.{SpaceStays};
ghost use Rattle.kc_sight.specs.Looks.{LooksAs};
ghost use Rattle.kc_told.specs.Near.{described_by, lead_at, lead_of, near_word, near_words, nothing};
ghost use Rattle.kc_found.specs.Failures.{CountsFailures};

use crate::told::{Kept, PageWords, Words, sought, tell_held, tell_kept};
use kc_btf::Btf;
use kc_found::{Found, ReadFailed, Space, WalkStop};
use kc_memory::VWord;
use kc_owner::{Described, Held, find_described};
use kc_sight::{Meaning, Seen, meaning_of, read_word, word_start};
use kc_word::Steps;
use std::alloc::Global;
use std::sync::ledger::Ledger;

/// What a number leads to, taken as a virtual address.
#[derive(Drop)]
pub struct Lead {
    /// What holds that address, or why its page can't be told; `None` where its word can't be read, or the kernel lacks what that asks for.
    pub held: Option<Result<Held, Found>>,
    /// Where a processor's own free list has the object.
    pub kept: Kept,
    /// The page whose descriptor has it, where its word can be read.
    pub described: Option<Described>,
}

/// A word beside an address, and what its number leads to.
#[derive(Drop)]
pub struct NearWord {
    /// The word, or why it can't be read.
    pub seen: Seen,
    /// What it leads to; of a word that isn't there, or that says something else than a number, nothing is asked.
    pub lead: Lead,
}

// Nothing is led to.
pub(crate) fn nothing() -> Lead
    ensures { result ≡ nothing }
{
    Lead {
        held: None,
        kept: None,
        described: None,
    }
}

// The page whose descriptor has an address, by the address's word.
fn tell_described<S: Space, L: Ledger>(
    alloc: Global,
    space: &mut S,
    words: &Option<PageWords>,
    address: u64,
    word: &Seen,
    steps: &mut Steps<L>,
) -> Result<Option<Described>, ReadFailed>
    ensures told { LooksAs (λ d. d) (λ image. described_by image words.now address word.now) (S.image space.old) result }
    ensures stays { SpaceStays S.image S.files S.through S.most space.old space.new }
    ensures cause { CountsFailures result (S.faults space.old) (S.faults space.new) }
{
    let Some(words) = words else {
        return Ok(None);
    };
    let Ok(_) = word else {
        return Ok(None);
    };
    match find_described(alloc, space, &words.objects, address, steps) {
        Ok(page) => Ok(page),
        Err(WalkStop::Broken(_)) => Ok(None),
        Err(WalkStop::Fault) => Err(ReadFailed::Fault),
        Err(WalkStop::NoMemory) => Err(ReadFailed::NoMemory),
    }
}

// What an address leads to; where the kernel lacks what that asks for, its word isn't read.
pub(crate) fn lead_at<S: Space, L: Ledger>(
    alloc: Global,
    space: &mut S,
    types: &Btf,
    words: &Words,
    address: u64,
    steps: &mut Steps<L>,
) -> Result<Lead, ReadFailed>
    ensures told { LooksAs (λ l. l) (λ image. lead_at image words.now.objects words.now.cpus address) (S.image space.old) result }
    ensures stays { SpaceStays S.image S.files S.through S.most space.old space.new }
    ensures cause { CountsFailures result (S.faults space.old) (S.faults space.new) }
{
    if words.objects.is_none() {
        return Ok(nothing());
    }
    let word = read_word(space, word_start(address), steps)?;
    let held = tell_held(alloc, space, types, &words.objects, address, &word, steps)?;
    let kept = tell_kept(alloc, space, types, &words.cpus, sought(&held), steps)?;
    let described = tell_described(alloc, space, &words.objects, address, &word, steps)?;
    Ok(Lead {
        held,
        kept,
        described,
    })
}

// What a word leads to.
fn lead_of<S: Space, L: Ledger>(
    alloc: Global,
    space: &mut S,
    types: &Btf,
    words: &Words,
    word: &VWord,
    steps: &mut Steps<L>,
) -> Result<Lead, ReadFailed>
    ensures told { LooksAs (λ l. l) (λ image. lead_of image words.now.objects words.now.cpus word.now) (S.image space.old) result }
    ensures stays { SpaceStays S.image S.files S.through S.most space.old space.new }
    ensures cause { CountsFailures result (S.faults space.old) (S.faults space.new) }
{
    match meaning_of(word.va, word.value) {
        Meaning::Number => lead_at(alloc, space, types, words, word.value, steps),
        _ => Ok(nothing()),
    }
}

// A word with what it leads to.
fn near_word<S: Space, L: Ledger>(
    alloc: Global,
    space: &mut S,
    types: &Btf,
    words: &Words,
    seen: &Seen,
    steps: &mut Steps<L>,
) -> Result<NearWord, ReadFailed>
    ensures told { LooksAs (λ w. w) (λ image. near_word image words.now.objects words.now.cpus seen.now) (S.image space.old) result }
    ensures stays { SpaceStays S.image S.files S.through S.most space.old space.new }
    ensures cause { CountsFailures result (S.faults space.old) (S.faults space.new) }
{
    let lead = match seen {
        Ok(word) => lead_of(alloc, space, types, words, word, steps)?,
        Err(_) => nothing(),
    };
    Ok(NearWord { seen: *seen, lead })
}

// Some words with what they lead to.
pub(crate) fn near_words<S: Space, L: Ledger>(
    alloc: Global,
    space: &mut S,
    types: &Btf,
    words: &Words,
    near: &[Seen],
    steps: &mut Steps<L>,
) -> Result<Vec<NearWord>, ReadFailed>
    ensures told { LooksAs (λ found. found.items) (λ image. near_words image words.now.objects words.now.cpus near.now) (S.image space.old) result }
    ensures stays { SpaceStays S.image S.files S.through S.most space.old space.new }
    ensures cause { CountsFailures result (S.faults space.old) (S.faults space.new) }
{
    let mut found = Vec::new(alloc);
    for seen in near {
        let word = near_word(alloc, space, types, words, seen, steps)?;
        found.push(word)?;
    }
    Ok(found)
}
