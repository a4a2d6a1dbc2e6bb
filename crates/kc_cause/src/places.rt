// The list in which a violation lies, and the words that show it, with what is told of their addresses.
ghost use Rattle.std.specs.Prelude.{◌≡◌, ◌<◌, ◌++◌, length, IfOk, IfSome, OnOk, Some};
ghost use Rattle.kc_mem.specs.Paged.{with_paging};
ghost use Rattle.kc_text.specs.Compose.{texts};
ghost use Rattle.kc_plan.specs.Inside.{AreInside};
ghost use Rattle.kc_repair.specs.Suspect.Answers.{OnlyReads, OnlyReadsFrames};
ghost use Rattle.kc_sight.specs.Sights.{page_start};
ghost use Rattle.kc_cause.specs.Explained.{listed_lines, place_told, says_at, shown_lines, slot_lines, slot_told, with_signs, with_slabs};
ghost use Rattle.kc_cause.specs.Judged.{FitsTogether, TasksAreInside, over_plan};
ghost use Rattle.kc_found.specs.Failures.{CountsFailures};

use crate::judged::PlanOf;
use crate::rings::push_ring;
use crate::signs::push_signs;
use crate::slabs::push_slabs;
use crate::written::{push_slot_line, slot_of};
use kc_found::{Found, Places, ReadFailed, Space};
use kc_memory::{Frames, Place, VWord};
use kc_question::{Question, Returned, ask_over};
use kc_report::push_place;
use kc_sight::read_words;
use kc_text::push;
use kc_told::{push_says, push_told, read_told};
use kc_word::{NoMemory, Steps};
use std::sync::ledger::Ledger;

// Where the 4096 bytes begin that have an address.
fn page_start(address: u64) -> u64
    ensures { result ≡ page_start address }
{
    address / 4096 * 4096
}

/// Adds what the word at a virtual address says by itself, and how far that goes on.
///
/// # Errors
///
/// A failed call of the store; no memory was left.
pub(crate) fn push_says_at<M: Space, L: Ledger>(
    text: &mut Vec<u8>,
    over: &PlanOf<'_>,
    memory: &mut M,
    address: u64,
    value: u64,
    steps: &mut Steps<L>,
) -> Result<(), ReadFailed>
    ensures added { OnOk result (IfSome (M.image memory.old) (λ image. text.new.items ≡ text.old.items ++ says_at (over_plan over.now image) value (Some address))) }
    ensures reads { OnlyReads M.image M.files M.through M.most M.faults result memory.old memory.new }
{
    let page = read_words(over.alloc, memory, page_start(address), 512, steps)?;
    Ok(push_says(text, &over.shapes.map, address, value, &page)?)
}

// Adds a place, with what is told of its address.
fn push_place_told<M: Space, L: Ledger>(
    text: &mut Vec<u8>,
    over: &PlanOf<'_>,
    memory: &mut M,
    place: &Place,
    steps: &mut Steps<L>,
) -> Result<(), ReadFailed>
    requires { TasksAreInside over.now }
    ensures added { OnOk result (IfSome (M.image memory.old) (λ image. text.new.items ≡ text.old.items ++ place_told (over_plan over.now image) place.now)) }
    ensures reads { OnlyReads M.image M.files M.through M.most M.faults result memory.old memory.new }
{
    push_place(text, *place)?;
    let Some(address) = place.va else {
        return Ok(());
    };
    let page = read_words(over.alloc, memory, page_start(address), 512, steps)?;
    push_says(text, &over.shapes.map, address, place.value, &page)?;
    let told = read_told(over.alloc, memory, over.types, &over.shapes, address, steps)?;
    Ok(push_told(text, &over.shapes.map, address, &told)?)
}

// Adds each of some places so.
fn push_places_told<M: Space, L: Ledger>(
    text: &mut Vec<u8>,
    over: &PlanOf<'_>,
    memory: &mut M,
    places: &Places,
    steps: &mut Steps<L>,
) -> Result<(), ReadFailed>
    requires { TasksAreInside over.now }
    ensures added { OnOk result (IfSome (M.image memory.old) (λ image. text.new.items ≡ text.old.items ++ texts (place_told (over_plan over.now image)) places.now)) }
    ensures reads { OnlyReads M.image M.files M.through M.most M.faults result memory.old memory.new }
{
    for i in 0..places.len() {
        push_place_told(text, over, memory, places.get(i), steps)?;
    }
    Ok(())
}

// Adds the list in which a violation lies, and the words that show it, each with what is told of its address.
fn push_listed<M: Space, L: Ledger>(
    text: &mut Vec<u8>,
    over: &PlanOf<'_>,
    memory: &mut M,
    found: &Found,
    steps: &mut Steps<L>,
) -> Result<(), ReadFailed>
    requires tasks { TasksAreInside over.now }
    requires types { AreInside (length over.now.types.now.records) over.now.plan.now.audits }
    requires found { found.now.audit < length over.now.plan.now.audits }
    ensures added { OnOk result (IfSome (M.image memory.old) (λ image. text.new.items ≡ text.old.items ++ listed_lines (over_plan over.now image) found.now)) }
    ensures reads { OnlyReads M.image M.files M.through M.most M.faults result memory.old memory.new }
{
    let audit = over.plan.audit(found.audit);
    push_ring(text, over, memory, &audit.kind, found, steps)?;
    push_places_told(text, over, memory, &found.places, steps)
}

// The same, and what kslab finds in the slabs of the cache in which it lies.
fn push_with_slabs<M: Space, L: Ledger>(
    text: &mut Vec<u8>,
    over: &PlanOf<'_>,
    memory: &mut M,
    found: &Found,
    steps: &mut Steps<L>,
) -> Result<(), ReadFailed>
    requires tasks { TasksAreInside over.now }
    requires types { AreInside (length over.now.types.now.records) over.now.plan.now.audits }
    requires found { found.now.audit < length over.now.plan.now.audits }
    ensures added { OnOk result (IfSome (M.image memory.old) (λ image. text.new.items ≡ text.old.items ++ with_slabs (over_plan over.now image) found.now)) }
    ensures reads { OnlyReads M.image M.files M.through M.most M.faults result memory.old memory.new }
{
    push_listed(text, over, memory, found, steps)?;
    let audit = over.plan.audit(found.audit);
    push_slabs(text, over, memory, &audit.kind, found, steps)
}

// All that, and what the words beside it show.
fn push_with_signs<M: Space, L: Ledger>(
    text: &mut Vec<u8>,
    over: &PlanOf<'_>,
    memory: &mut M,
    found: &Found,
    steps: &mut Steps<L>,
) -> Result<(), ReadFailed>
    requires tasks { TasksAreInside over.now }
    requires types { AreInside (length over.now.types.now.records) over.now.plan.now.audits }
    requires found { found.now.audit < length over.now.plan.now.audits }
    ensures added { OnOk result (IfSome (M.image memory.old) (λ image. text.new.items ≡ text.old.items ++ with_signs (over_plan over.now image) found.now)) }
    ensures reads { OnlyReads M.image M.files M.through M.most M.faults result memory.old memory.new }
{
    push_with_slabs(text, over, memory, found, steps)?;
    push_signs(text, memory, found, steps)
}

// Adds a slot over which something was written, with what it says.
fn push_slot_told<M: Space, L: Ledger>(
    text: &mut Vec<u8>,
    over: &PlanOf<'_>,
    memory: &mut M,
    word: VWord,
    steps: &mut Steps<L>,
) -> Result<(), ReadFailed>
    ensures added { OnOk result (IfSome (M.image memory.old) (λ image. text.new.items ≡ text.old.items ++ slot_told (over_plan over.now image) word)) }
    ensures reads { OnlyReads M.image M.files M.through M.most M.faults result memory.old memory.new }
{
    push_slot_line(text, word)?;
    push_says_at(text, over, memory, word.va, word.value, steps)
}

// The first such slot of the node that a violation is about.
fn push_slot<M: Space, L: Ledger>(
    text: &mut Vec<u8>,
    over: &PlanOf<'_>,
    memory: &mut M,
    found: &Found,
    steps: &mut Steps<L>,
) -> Result<(), ReadFailed>
    ensures added { OnOk result (IfSome (M.image memory.old) (λ image. text.new.items ≡ text.old.items ++ slot_lines (over_plan over.now image) found.now)) }
    ensures reads { OnlyReads M.image M.files M.through M.most M.faults result memory.old memory.new }
{
    match slot_of(memory, found, steps)? {
        Some(word) => push_slot_told(text, over, memory, word, steps),
        None => Ok(()),
    }
}

// All that.
fn push_shown<M: Space, L: Ledger>(
    text: &mut Vec<u8>,
    over: &PlanOf<'_>,
    memory: &mut M,
    found: &Found,
    steps: &mut Steps<L>,
) -> Result<(), ReadFailed>
    requires tasks { TasksAreInside over.now }
    requires types { AreInside (length over.now.types.now.records) over.now.plan.now.audits }
    requires found { found.now.audit < length over.now.plan.now.audits }
    ensures added { OnOk result (IfSome (M.image memory.old) (λ image. text.new.items ≡ text.old.items ++ shown_lines (over_plan over.now image) found.now)) }
    ensures reads { OnlyReads M.image M.files M.through M.most M.faults result memory.old memory.new }
{
    push_with_signs(text, over, memory, found, steps)?;
    push_slot(text, over, memory, found, steps)
}

// The question which lines show a violation.
#[derive(Clone, Copy)]
struct Showing<'q> {
    over: &'q PlanOf<'q>,
    found: &'q Found,
}

impl<'q> Question for Showing<'q> {
    type Answer = Result<Vec<u8>, ReadFailed>;

    ghost may = { λ of. TasksAreInside of.over.now
        × AreInside (length of.over.now.types.now.records) of.over.now.plan.now.audits
        × (of.found.now.audit < length of.over.now.plan.now.audits) };

    ghost says = { λ of image answer. IfOk answer (λ text. text.items ≡ shown_lines (over_plan of.over.now image) of.found.now) };

    ghost leaves = { λ _ answer before after. CountsFailures answer before after };

    fn ask<M: Space, L: Ledger>(
        &self,
        memory: &mut M,
        steps: &mut Steps<L>,
    ) -> Result<Vec<u8>, ReadFailed> {
        let mut text = Vec::new(self.over.alloc);
        push_shown(&mut text, self.over, memory, self.found, steps)?;
        Ok(text)
    }
}

/// Adds the list in which a violation lies, where that is told, and the words that show it, each with what is told of its address.
pub(crate) fn push_shown_over<F: Frames>(
    memory: F,
    text: &mut Vec<u8>,
    over: &PlanOf<'_>,
    found: &Found,
) -> Returned<F, Result<(), ReadFailed>>
    requires over { FitsTogether over.now }
    requires found { found.now.audit < length over.now.plan.now.audits }

    ensures added { OnOk result.answer (IfSome (with_paging over.now.paging (F.image memory)) (λ image.
        text.new.items ≡ text.old.items ++ shown_lines (over_plan over.now image) found.now)) }
    ensures reads { OnlyReadsFrames F.image F.files F.through F.faults result.answer memory result.memory }
{
    let question = Showing { over, found };
    let Returned { memory, answer } = ask_over(over.alloc, memory, over.paging, &question);
    let answer = match answer.unwrap_or(Err(ReadFailed::NoMemory)) {
        Ok(lines) => match push(text, &lines) {
            Ok(()) => Ok(()),
            Err(NoMemory) => Err(ReadFailed::NoMemory),
        },
        Err(stop) => Err(stop),
    };
    Returned { memory, answer }
}
