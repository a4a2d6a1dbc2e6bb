// What repairs a violation, and its lines.
ghost use Rattle.std.specs.Prelude.{◌≡◌, ◌∷◌, [], ◌++◌, ◌<◌, ⊤, length, OnOk, IfOk, IfSome};
ghost use Rattle.kc_outside.specs.declared.store.Slot.TheVariants.{Dump};
ghost use Rattle.kc_outside.specs.Files.{content};
ghost use Rattle.kc_phys.specs.Stored.{stored};
ghost use Rattle.kc_memory.specs.Stays.{FramesStay};
ghost use Rattle.kc_mem.specs.Paged.{with_paging};
ghost use Rattle.kc_plan.specs.Views.{plan_seen};
ghost use Rattle.kc_repair.specs.Repairs.{repair_of};
ghost use Rattle.kc_repair.specs.Suspect.Answers.{OnlyReads, OnlyReadsFrames};
ghost use Rattle.kc_text.specs.Compose.{texts};
ghost use Rattle.kc_cause.specs.Explained.{changed_words, elements_told, leads_over, leads_to, mended_by, mended_of, repairs_as, repairs_found, stand_told, written_over};
ghost use Rattle.kc_cause.specs.Judged.{FitsTogether, over_plan};
ghost use Rattle.kc_cause.specs.Lines.{after_lines, chain_lines, count_line, counted_lines, elements_lines, ending_lines, led_lines, mended_lines, next_line, next_lines, none_line, number_of, one_lines, only_fits, repair_label, stand_lines, suspect_part, tried_part, word_line, worth_lines};
ghost use Rattle.kc_found.specs.Failures.{CountsFailures};

use crate::chain::chain;
use crate::judged::PlanOf;
use crate::places::push_says_at;
use crate::signs::{push_sign, sign_of};
use crate::suspected::as_ring_over;
use crate::written::is_written;
use kc_found::{Asked, Found, Items, ReadFailed, Rule, Space};
use kc_kinds::Kind;
use kc_memory::Frames;
use kc_outside::Store;
use kc_phys::Phys;
use kc_question::{Question, Returned, ask_over};
use kc_repair::{
    Next, Repair, Repaired, RootAudit, Stand, Suspect, Suspects, elements_over, repair_over,
    stand_over,
};
use kc_report::rule_code;
use kc_run::root_at;
use kc_sight::meaning_of;
use kc_text::{push, push_decimal, push_hex, push_numbered};
use kc_told::{Shapes, push_leads, read_lead};
use kc_word::{NoMemory, Steps};
use std::alloc::Global;
use std::sync::ledger::Ledger;

// Adds a word that is suspected: the four columns of a place, and the number that it may have held.
fn push_suspect(text: &mut Vec<u8>, suspect: Suspect) -> Result<(), NoMemory>
    ensures { OnOk result (text.new.items ≡ text.old.items ++ suspect_part suspect) }
{
    push_hex(text, suspect.va)?;
    push(text, b" ")?;
    push_hex(text, suspect.pa)?;
    push(text, b" ")?;
    push_hex(text, suspect.off)?;
    push(text, b" ")?;
    push_hex(text, suspect.now)?;
    push(text, b" ")?;
    push_hex(text, suspect.value)
}

// The line of what comes after one of those that don't repair.
fn push_next(text: &mut Vec<u8>, next: &Next) -> Result<(), NoMemory>
    ensures { OnOk result (text.new.items ≡ text.old.items ++ next_line next.now) }
{
    push(text, b"then ")?;
    push_suspect(text, next.suspect)?;
    push(text, b" ")?;
    push(text, rule_code(next.rule))?;
    push(text, b" ")?;
    push_hex(text, next.at)?;
    push(text, b"\n")
}

fn push_if_next(text: &mut Vec<u8>, next: &Option<Next>) -> Result<(), NoMemory>
    ensures { OnOk result (text.new.items ≡ text.old.items ++ next_lines next.now) }
{
    match next {
        Some(next) => push_next(text, next),
        None => Ok(()),
    }
}

// How many were tried, and whether there were more.
fn push_tried(text: &mut Vec<u8>, tried: u32, more: bool) -> Result<(), NoMemory>
    ensures { OnOk result (text.new.items ≡ text.old.items ++ tried_part tried more) }
{
    if more {
        push(text, b"the first ")?;
    }
    push_decimal(text, u64::from(tried))
}

// Whether a word that repairs has a number that only fits.
fn only_fits(rule: Rule, at: u64, suspect: Suspect) -> bool
    ensures { result ≡ only_fits rule at suspect }
{
    match rule {
        Rule::C | Rule::U3 | Rule::U6 | Rule::T2 | Rule::X6 => true,
        Rule::X5 => suspect.va == at / 8 * 8 || suspect.now % 2 == 1,
        Rule::M1 | Rule::M2 | Rule::M3 | Rule::M4 | Rule::M5 | Rule::M6 => suspect.value == 0,
        Rule::N | Rule::K | Rule::A | Rule::X7 | Rule::X8 | Rule::X9 => suspect.value == 0,
        _ => false,
    }
}

// The first word of such a line.
fn push_label(text: &mut Vec<u8>, fits: bool) -> Result<(), NoMemory>
    ensures { OnOk result (text.new.items ≡ text.old.items ++ repair_label fits) }
{
    if fits {
        return push(text, b"fits ");
    }
    push(text, b"repair ")
}

// Adds the number of elements, where it is told.
fn push_elements(text: &mut Vec<u8>, elements: Option<u64>) -> Result<(), NoMemory>
    ensures { OnOk result (text.new.items ≡ text.old.items ++ elements_lines elements) }
{
    let Some(elements) = elements else {
        return Ok(());
    };
    push_numbered(text, b"elements ", elements)?;
    push(text, b"\n")
}

// Whether other words would do as well, where that is told.
fn push_stand(text: &mut Vec<u8>, stand: Option<Stand>) -> Result<(), NoMemory>
    ensures { OnOk result (text.new.items ≡ text.old.items ++ stand_lines stand) }
{
    let Some(stand) = stand else {
        return Ok(());
    };
    push_numbered(text, b"stand ", number_of(stand.also))?;
    push_numbered(text, b" of ", stand.tried as u64)?;
    push(text, b" tried\n")
}

// How many words repair, of those that were tried.
fn number_of(also: bool) -> u64
    ensures { result ≡ number_of also }
{
    if also { 2 } else { 1 }
}

// Adds what was written over the word of a suspect, where its number shows that, and how far that goes on.
fn push_written<M: Space, L: Ledger>(
    text: &mut Vec<u8>,
    over: &PlanOf<'_>,
    memory: &mut M,
    word: Suspect,
    steps: &mut Steps<L>,
) -> Result<(), ReadFailed>
    ensures added { OnOk result (IfSome (M.image memory.old) (λ image. text.new.items ≡ text.old.items ++ written_over (over_plan over.now image) word)) }
    ensures reads { OnlyReads M.image M.files M.through M.most M.faults result memory.old memory.new }
{
    if !is_written(meaning_of(word.va, word.now)) {
        return Ok(());
    }
    push_says_at(text, over, memory, word.va, word.now, steps)
}

// Adds what its other number leads to.
fn push_lead<M: Space, L: Ledger>(
    text: &mut Vec<u8>,
    over: &PlanOf<'_>,
    memory: &mut M,
    word: Suspect,
    steps: &mut Steps<L>,
) -> Result<(), ReadFailed>
    ensures added { OnOk result (IfSome (M.image memory.old) (λ image. text.new.items ≡ text.old.items ++ leads_over (over_plan over.now image) word)) }
    ensures reads { OnlyReads M.image M.files M.through M.most M.faults result memory.old memory.new }
{
    let Shapes { words, map } = &over.shapes;
    let lead = read_lead(
        over.alloc, memory, over.types, words, word.va, word.value, steps,
    )?;
    Ok(push_leads(text, map, &lead, word.va, word.value)?)
}

// Adds both.
fn push_meant<M: Space, L: Ledger>(
    text: &mut Vec<u8>,
    over: &PlanOf<'_>,
    memory: &mut M,
    word: Suspect,
    steps: &mut Steps<L>,
) -> Result<(), ReadFailed>
    ensures added { OnOk result (IfSome (M.image memory.old) (λ image. text.new.items ≡ text.old.items ++ leads_to (over_plan over.now image) word)) }
    ensures reads { OnlyReads M.image M.files M.through M.most M.faults result memory.old memory.new }
{
    push_written(text, over, memory, word, steps)?;
    push_lead(text, over, memory, word, steps)
}

// Adds a word that is suspected, what was written over it, and what its other number leads to.
fn push_led<M: Space, L: Ledger>(
    text: &mut Vec<u8>,
    over: &PlanOf<'_>,
    memory: &mut M,
    word: Suspect,
    steps: &mut Steps<L>,
) -> Result<(), ReadFailed>
    ensures added { OnOk result (IfSome (M.image memory.old) (λ image. text.new.items ≡ text.old.items ++ led_lines (leads_to (over_plan over.now image)) word)) }
    ensures reads { OnlyReads M.image M.files M.through M.most M.faults result memory.old memory.new }
{
    push_suspect(text, word)?;
    push(text, b"\n")?;
    push_meant(text, over, memory, word, steps)
}

// One of the words that repair together.
fn push_word<M: Space, L: Ledger>(
    text: &mut Vec<u8>,
    over: &PlanOf<'_>,
    memory: &mut M,
    word: Suspect,
    steps: &mut Steps<L>,
) -> Result<(), ReadFailed>
    ensures added { OnOk result (IfSome (M.image memory.old) (λ image. text.new.items ≡ text.old.items ++ word_line (leads_to (over_plan over.now image)) word)) }
    ensures reads { OnlyReads M.image M.files M.through M.most M.faults result memory.old memory.new }
{
    push(text, b"word ")?;
    push_led(text, over, memory, word, steps)
}

// Those words, one after the other.
fn push_words<M: Space, L: Ledger>(
    text: &mut Vec<u8>,
    over: &PlanOf<'_>,
    memory: &mut M,
    words: &Suspects,
    steps: &mut Steps<L>,
) -> Result<(), ReadFailed>
    ensures added { OnOk result (IfSome (M.image memory.old) (λ image. text.new.items ≡ text.old.items ++ texts (word_line (leads_to (over_plan over.now image))) words.now)) }
    ensures reads { OnlyReads M.image M.files M.through M.most M.faults result memory.old memory.new }
{
    for i in 0..words.len() {
        push_word(text, over, memory, *words.get(i), steps)?;
    }
    Ok(())
}

// How many they are.
fn push_count(text: &mut Vec<u8>, words: &Suspects) -> Result<(), NoMemory>
    ensures { OnOk result (text.new.items ≡ text.old.items ++ count_line words.now) }
{
    push(text, b"chain ")?;
    push_decimal(text, words.len() as u64)?;
    push(text, b"\n")
}

// The same, and each of them.
fn push_counted<M: Space, L: Ledger>(
    text: &mut Vec<u8>,
    over: &PlanOf<'_>,
    memory: &mut M,
    words: &Suspects,
    steps: &mut Steps<L>,
) -> Result<(), ReadFailed>
    ensures added { OnOk result (IfSome (M.image memory.old) (λ image. text.new.items ≡ text.old.items ++ counted_lines (leads_to (over_plan over.now image)) words.now)) }
    ensures reads { OnlyReads M.image M.files M.through M.most M.faults result memory.old memory.new }
{
    push_count(text, words)?;
    push_words(text, over, memory, words, steps)
}

// What they show, and how many elements there are with them.
fn push_ending(text: &mut Vec<u8>, words: &Suspects, elements: Option<u64>) -> Result<(), NoMemory>
    ensures { OnOk result (text.new.items ≡ text.old.items ++ ending_lines words.now elements) }
{
    push_sign(text, sign_of(words.as_slice()))?;
    push_elements(text, elements)
}

// All that.
fn push_chain<M: Space, L: Ledger>(
    text: &mut Vec<u8>,
    over: &PlanOf<'_>,
    memory: &mut M,
    words: &Suspects,
    elements: Option<u64>,
    steps: &mut Steps<L>,
) -> Result<(), ReadFailed>
    ensures added { OnOk result (IfSome (M.image memory.old) (λ image. text.new.items ≡ text.old.items ++ chain_lines (leads_to (over_plan over.now image)) words.now elements)) }
    ensures reads { OnlyReads M.image M.files M.through M.most M.faults result memory.old memory.new }
{
    push_counted(text, over, memory, words, steps)?;
    Ok(push_ending(text, words, elements)?)
}

// What a word that repairs is worth.
fn push_worth(text: &mut Vec<u8>, mended: &Mended) -> Result<(), NoMemory>
    ensures { OnOk result (text.new.items ≡ text.old.items ++ worth_lines mended.now) }
{
    push_stand(text, mended.stand)?;
    push_elements(text, mended.elements)
}

// The lines of one word that repairs.
fn push_one<M: Space, L: Ledger>(
    text: &mut Vec<u8>,
    over: &PlanOf<'_>,
    memory: &mut M,
    found: &Found,
    mended: &Mended,
    word: Suspect,
    steps: &mut Steps<L>,
) -> Result<(), ReadFailed>
    ensures added { OnOk result (IfSome (M.image memory.old) (λ image.
        text.new.items ≡ text.old.items ++ one_lines (leads_to (over_plan over.now image)) found.now mended.now word)) }
    ensures reads { OnlyReads M.image M.files M.through M.most M.faults result memory.old memory.new }
{
    push_label(text, only_fits(found.rule, found.at, word))?;
    push_led(text, over, memory, word, steps)?;
    Ok(push_worth(text, mended)?)
}

// The line that none of those tried repairs.
fn push_none(text: &mut Vec<u8>, tried: u32, more: bool) -> Result<(), NoMemory>
    ensures { OnOk result (text.new.items ≡ text.old.items ++ none_line tried more) }
{
    push(text, b"repair none of ")?;
    push_tried(text, tried, more)?;
    push(text, b" tried\n")
}

// The lines after it: those that repair together, or what one of those tried leads to.
fn push_after<M: Space, L: Ledger>(
    text: &mut Vec<u8>,
    over: &PlanOf<'_>,
    memory: &mut M,
    mended: &Mended,
    then: &Option<Next>,
    steps: &mut Steps<L>,
) -> Result<(), ReadFailed>
    ensures added { OnOk result (IfSome (M.image memory.old) (λ image.
        text.new.items ≡ text.old.items ++ after_lines (leads_to (over_plan over.now image)) mended.now.words mended.now.elements then.now)) }
    ensures reads { OnlyReads M.image M.files M.through M.most M.faults result memory.old memory.new }
{
    match &mended.words {
        Some(words) => push_chain(text, over, memory, words, mended.elements, steps),
        None => Ok(push_if_next(text, then)?),
    }
}

// The lines of what repairs a violation.
fn push_repair<M: Space, L: Ledger>(
    text: &mut Vec<u8>,
    over: &PlanOf<'_>,
    memory: &mut M,
    found: &Found,
    mended: &Mended,
    steps: &mut Steps<L>,
) -> Result<(), ReadFailed>
    ensures added { OnOk result (IfSome (M.image memory.old) (λ image.
        text.new.items ≡ text.old.items ++ mended_lines (leads_to (over_plan over.now image)) found.now mended.now)) }
    ensures reads { OnlyReads M.image M.files M.through M.most M.faults result memory.old memory.new }
{
    match &mended.repair {
        Repair::Stands(word) => push_one(text, over, memory, found, mended, *word, steps),
        Repair::Nothing { tried, more, then } => {
            push_none(text, *tried, *more)?;
            push_after(text, over, memory, mended, then, steps)
        }
    }
}

// The question which lines tell what repairs a violation.
#[derive(Clone, Copy)]
struct Telling<'q> {
    over: &'q PlanOf<'q>,
    found: &'q Found,
    mended: &'q Mended,
}

impl<'q> Question for Telling<'q> {
    type Answer = Result<Vec<u8>, ReadFailed>;

    ghost may = { λ _. ⊤ };

    ghost says = { λ of image answer. IfOk answer (λ text. text.items ≡ mended_lines (leads_to (over_plan of.over.now image)) of.found.now of.mended.now) };

    ghost leaves = { λ _ answer before after. CountsFailures answer before after };

    fn ask<M: Space, L: Ledger>(
        &self,
        memory: &mut M,
        steps: &mut Steps<L>,
    ) -> Result<Vec<u8>, ReadFailed> {
        let mut text = Vec::new(self.over.alloc);
        push_repair(&mut text, self.over, memory, self.found, self.mended, steps)?;
        Ok(text)
    }
}

// Adds the lines of what repairs a violation.
fn push_repair_over<F: Frames>(
    memory: F,
    text: &mut Vec<u8>,
    over: &PlanOf<'_>,
    found: &Found,
    mended: &Mended,
) -> Returned<F, Result<(), ReadFailed>>
    requires over { FitsTogether over.now }

    ensures added { OnOk result.answer (IfSome (with_paging over.now.paging (F.image memory)) (λ image.
        text.new.items ≡ text.old.items ++ mended_lines (leads_to (over_plan over.now image)) found.now mended.now)) }
    ensures reads { OnlyReadsFrames F.image F.files F.through F.faults result.answer memory result.memory }
{
    let question = Telling {
        over,
        found,
        mended,
    };
    let Returned { memory, answer } = ask_over(over.alloc, memory, over.paging, &question);
    let answer = match answer.unwrap_or(Err(ReadFailed::NoMemory)) {
        Ok(lines) => match push(text, &lines) {
            Ok(()) => Ok(()),
            Err(NoMemory) => Err(ReadFailed::NoMemory),
        },
        Err(stop) => Err(stop),
    };
    Returned { memory, answer }
}

/// What repairs a violation.
#[derive(Drop)]
pub(crate) struct Mended {
    /// One word, or none.
    pub repair: Repair,
    /// Words that repair together, where there are such.
    pub words: Option<Suspects>,
    /// Where one word repairs, whether others would do as well.
    pub stand: Option<Stand>,
    /// How many elements the audit that found the violation meets with the word, or with the words; where that is told.
    pub elements: Option<u64>,
}

// Whether others would do as well as the word that repairs, where one does.
fn stand_after<'s, S: Store>(
    memory: Phys<'s, S>,
    over: &PlanOf<'_>,
    root: Asked,
    kind: &Kind,
    found: &Found,
    repair: Repair,
) -> Returned<Phys<'s, S>, Result<Option<Stand>, ReadFailed>>
    requires over { FitsTogether over.now }
    requires root { root.audit < length over.now.plan.now.audits }

    ensures exact { IfOk result.answer (λ stand. IfSome (with_paging over.now.paging (stored memory.entry.segments.items memory.entry.tail (content (S.files memory.entry.store.now) Dump (S.opened memory.entry.store.now Dump))))
        (λ image. repair_of image (plan_seen over.now.plan.now) (root.audit, root.start) kind.now found.now ≡ repair
        → stand ≡ stand_told image (plan_seen over.now.plan.now) (root.audit, root.start) kind.now found.now repair)) }
    ensures reads { OnlyReadsFrames (λ p. stored p.segments.items p.tail (content (S.files p.store.now) Dump (S.opened p.store.now Dump))) (λ p. S.files p.store.now) (λ p. p.store.ghost_name ∷ []) (λ p. S.faults p.store.now) result.answer memory.entry result.memory }
{
    let PlanOf { plan, types, .. } = *over;
    let audit = RootAudit { plan, types, root };
    let Repair::Stands(first) = repair else {
        return Returned {
            memory,
            answer: Ok(None),
        };
    };
    let Returned { memory, answer } = stand_over(
        over.alloc,
        memory,
        over.paging,
        &audit,
        kind,
        found,
        first,
    );
    match answer {
        Ok(stand) => Returned {
            memory,
            answer: Ok(Some(stand)),
        },
        Err(stop) => Returned {
            memory,
            answer: Err(stop),
        },
    }
}

// The words that are changed for a repair: the one, or those that repair together.
fn changed_words(
    alloc: Global,
    repair: Repair,
    words: &Option<Suspects>,
) -> Result<Option<Suspects>, NoMemory>
    ensures { IfOk result (λ changed. changed ≡ changed_words repair words.now) }
{
    match (repair, words) {
        (Repair::Stands(word), _) => {
            let mut changed = Items::new(alloc);
            changed.push(word)?;
            Ok(Some(changed))
        }
        (Repair::Nothing { .. }, Some(words)) => {
            let changed = Items::of_slice(alloc, words.as_slice())?;
            Ok(Some(changed))
        }
        (Repair::Nothing { .. }, None) => Ok(None),
    }
}

// How many elements the audit with a number meets with some words, where there are such.
fn elements_after<'s, S: Store>(
    memory: Phys<'s, S>,
    over: &PlanOf<'_>,
    root: Asked,
    number: u32,
    changed: Option<Suspects>,
) -> Returned<Phys<'s, S>, Result<Option<u64>, ReadFailed>>
    requires over { FitsTogether over.now }
    requires root { root.audit < length over.now.plan.now.audits }

    ensures exact { IfOk result.answer (λ elements. IfSome (with_paging over.now.paging (stored memory.entry.segments.items memory.entry.tail (content (S.files memory.entry.store.now) Dump (S.opened memory.entry.store.now Dump))))
        (λ image. elements ≡ elements_told image (plan_seen over.now.plan.now) (root.audit, root.start) number changed)) }
    ensures reads { OnlyReadsFrames (λ p. stored p.segments.items p.tail (content (S.files p.store.now) Dump (S.opened p.store.now Dump))) (λ p. S.files p.store.now) (λ p. p.store.ghost_name ∷ []) (λ p. S.faults p.store.now) result.answer memory.entry result.memory }
{
    let PlanOf { plan, types, .. } = *over;
    let audit = RootAudit { plan, types, root };
    match changed {
        Some(words) => elements_over(
            over.alloc,
            memory,
            over.paging,
            &audit,
            words.as_slice(),
            number,
        ),
        None => Returned {
            memory,
            answer: Ok(None),
        },
    }
}

// The same with what a violation is answered by.
fn elements_with<'s, S: Store>(
    memory: Phys<'s, S>,
    over: &PlanOf<'_>,
    root: Asked,
    number: u32,
    repair: Repair,
    words: &Option<Suspects>,
) -> Returned<Phys<'s, S>, Result<Option<u64>, ReadFailed>>
    requires over { FitsTogether over.now }
    requires root { root.audit < length over.now.plan.now.audits }

    ensures exact { IfOk result.answer (λ elements. IfSome (with_paging over.now.paging (stored memory.entry.segments.items memory.entry.tail (content (S.files memory.entry.store.now) Dump (S.opened memory.entry.store.now Dump))))
        (λ image. elements ≡ elements_told image (plan_seen over.now.plan.now) (root.audit, root.start) number (changed_words repair words.now))) }
    ensures reads { OnlyReadsFrames (λ p. stored p.segments.items p.tail (content (S.files p.store.now) Dump (S.opened p.store.now Dump))) (λ p. S.files p.store.now) (λ p. p.store.ghost_name ∷ []) (λ p. S.faults p.store.now) result.answer memory.entry result.memory }
{
    match changed_words(over.alloc, repair, words) {
        Ok(changed) => elements_after(memory, over, root, number, changed),
        Err(NoMemory) => Returned {
            memory,
            answer: Err(ReadFailed::NoMemory),
        },
    }
}

// What is said of an answer, and the words that repair together after it, by whether others would do as well.
fn with_words<'s, S: Store>(
    memory: Phys<'s, S>,
    over: &PlanOf<'_>,
    root: Asked,
    number: u32,
    repair: Repair,
    stand: Option<Stand>,
) -> Returned<Phys<'s, S>, Result<Mended, ReadFailed>>
    requires over { FitsTogether over.now }
    requires root { root.audit < length over.now.plan.now.audits }

    ensures exact { IfOk result.answer (λ mended. IfSome (with_paging over.now.paging (stored memory.entry.segments.items memory.entry.tail (content (S.files memory.entry.store.now) Dump (S.opened memory.entry.store.now Dump))))
        (λ image. mended ≡ mended_by image (plan_seen over.now.plan.now) (root.audit, root.start) number repair stand)) }
    ensures reads { OnlyReadsFrames (λ p. stored p.segments.items p.tail (content (S.files p.store.now) Dump (S.opened p.store.now Dump))) (λ p. S.files p.store.now) (λ p. p.store.ghost_name ∷ []) (λ p. S.faults p.store.now) result.answer memory.entry result.memory }
{
    let Returned { memory, answer } = chain(memory, over, root, repair);
    let words = match answer {
        Ok(words) => words,
        Err(stop) => {
            return Returned {
                memory,
                answer: Err(stop),
            };
        }
    };
    let Returned { memory, answer } = elements_with(memory, over, root, number, repair, &words);
    match answer {
        Ok(elements) => Returned {
            memory,
            answer: Ok(Mended {
                repair,
                words,
                stand,
                elements,
            }),
        },
        Err(stop) => Returned {
            memory,
            answer: Err(stop),
        },
    }
}

// All that is said of an answer.
fn with_all<'s, S: Store>(
    memory: Phys<'s, S>,
    over: &PlanOf<'_>,
    root: Asked,
    kind: &Kind,
    found: &Found,
    number: u32,
    repair: Repair,
) -> Returned<Phys<'s, S>, Result<Mended, ReadFailed>>
    requires over { FitsTogether over.now }
    requires root { root.audit < length over.now.plan.now.audits }

    ensures exact { IfOk result.answer (λ mended. IfSome (with_paging over.now.paging (stored memory.entry.segments.items memory.entry.tail (content (S.files memory.entry.store.now) Dump (S.opened memory.entry.store.now Dump))))
        (λ image. repair_of image (plan_seen over.now.plan.now) (root.audit, root.start) kind.now found.now ≡ repair
        → mended ≡ mended_of image (plan_seen over.now.plan.now) (root.audit, root.start) kind.now found.now number)) }
    ensures reads { OnlyReadsFrames (λ p. stored p.segments.items p.tail (content (S.files p.store.now) Dump (S.opened p.store.now Dump))) (λ p. S.files p.store.now) (λ p. p.store.ghost_name ∷ []) (λ p. S.faults p.store.now) result.answer memory.entry result.memory }
{
    let Returned { memory, answer } = stand_after(memory, over, root, kind, found, repair);
    match answer {
        Ok(stand) => with_words(memory, over, root, number, repair, stand),
        Err(stop) => Returned {
            memory,
            answer: Err(stop),
        },
    }
}

/// A physical memory over which repairs are tried.
pub(crate) trait Repairable: Frames {
    /// What repairs a violation that a root audit found, in an audit of this kind, and the memory; the elements are those of the audit with this
    /// number. It fails where reading the dump does, whose count of faults then rose, or where no memory was left.
    fn repair(
        self,
        over: &PlanOf<'_>,
        root: Asked,
        kind: &Kind,
        found: &Found,
        number: u32,
    ) -> Returned<Self, Result<Mended, ReadFailed>>
    where
        Self: Sized,
        requires over { FitsTogether over.now }
        requires root { root.audit < length over.now.plan.now.audits }

        ensures exact { IfOk result.answer (λ mended. IfSome (with_paging over.now.paging (Self.image self))
            (λ image. mended ≡ mended_of image (plan_seen over.now.plan.now) (root.audit, root.start) kind.now found.now number)) }
        ensures stays { FramesStay Self.image Self.files Self.through self result.memory }
        ensures cause { CountsFailures result.answer (Self.faults self) (Self.faults result.memory) };
}

impl<'s, S: Store> Repairable for Phys<'s, S> {
    fn repair(
        self,
        over: &PlanOf<'_>,
        root: Asked,
        kind: &Kind,
        found: &Found,
        number: u32,
    ) -> Returned<Self, Result<Mended, ReadFailed>> {
        let PlanOf { plan, types, .. } = *over;
        let audit = RootAudit { plan, types, root };
        let Repaired { memory, repair } = repair_over(
            over.alloc,
            self,
            over.paging,
            &audit,
            kind,
            found,
        );
        match repair {
            Ok(repair) => with_all(memory, over, root, kind, found, number, repair),
            Err(stop) => Returned {
                memory,
                answer: Err(stop),
            },
        }
    }
}

// Adds the lines of what repairs a violation of a kind of structure under the root audit with a number, which the audit with another one found.
fn push_repairs_as<F: Repairable>(
    memory: F,
    text: &mut Vec<u8>,
    over: &PlanOf<'_>,
    root: u32,
    number: u32,
    kind: &Kind,
    found: &Found,
) -> Returned<F, Result<(), ReadFailed>>
    requires over { FitsTogether over.now }

    ensures added { OnOk result.answer (IfSome (with_paging over.now.paging (F.image memory)) (λ image.
        text.new.items ≡ text.old.items ++ repairs_as (over_plan over.now image) root number kind.now found.now)) }
    ensures reads { OnlyReadsFrames F.image F.files F.through F.faults result.answer memory result.memory }
{
    let Some(root) = root_at(over.plan, root) else {
        return Returned {
            memory,
            answer: Ok(()),
        };
    };
    let Returned { memory, answer } = memory.repair(over, root, kind, found, number);
    match answer {
        Ok(mended) => push_repair_over(memory, text, over, found, &mended),
        Err(stop) => Returned {
            memory,
            answer: Err(stop),
        },
    }
}

/// Adds the lines of what repairs a violation under the root audit with a number, as it is suspected.
pub(crate) fn push_repairs<F: Repairable>(
    memory: F,
    text: &mut Vec<u8>,
    over: &PlanOf<'_>,
    root: u32,
    found: &Found,
) -> Returned<F, Result<(), ReadFailed>>
    requires over { FitsTogether over.now }
    requires found { found.now.audit < length over.now.plan.now.audits }

    ensures added { OnOk result.answer (IfSome (with_paging over.now.paging (F.image memory)) (λ image.
        text.new.items ≡ text.old.items ++ repairs_found (over_plan over.now image) root found.now)) }
    ensures reads { OnlyReadsFrames F.image F.files F.through F.faults result.answer memory result.memory }
{
    let number = found.audit;
    let kind = &over.plan.audit(number).kind;
    let Returned { memory, answer } = as_ring_over(memory, over, kind, found);
    match answer {
        Ok(Some(ring)) => push_repairs_as(
            memory,
            text,
            over,
            root,
            number,
            &ring.kind,
            &ring.found,
        ),
        Ok(None) => push_repairs_as(memory, text, over, root, number, kind, found),
        Err(stop) => Returned {
            memory,
            answer: Err(stop),
        },
    }
}
