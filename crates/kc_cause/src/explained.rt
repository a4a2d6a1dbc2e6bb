// The text that explains verdicts on root audits.
ghost use Rattle.std.specs.Prelude.{◌≡◌, ◌++◌, ◌<◌, find, length, IfOk, IfSome, OnOk};
ghost use Rattle.kc_mem.specs.Paged.{with_paging};
ghost use Rattle.kc_text.specs.Compose.{texts};
ghost use Rattle.kc_plan.specs.Roots.{FitEach, FitsRoot};
ghost use Rattle.kc_plan.specs.Views.{plan_seen};
ghost use Rattle.kc_repair.specs.Suspect.Answers.{OnlyReadsFrames};
ghost use Rattle.kc_cause.specs.Explained.{broken_lines, cause_lines, causes_text, first_lines, found_named, found_number, is_broken, or_clean, root_line};
ghost use Rattle.kc_cause.specs.Judged.{FitsTogether, over_plan};

use crate::judged::PlanOf;
use crate::lines::{push_line, push_named, push_number};
use crate::places::push_shown_over;
use crate::repairs::{Repairable, push_repairs};
use kc_found::{Found, ReadFailed, RootVerdict, Verdict, Verdicts};
use kc_question::Returned;
use kc_text::push;
use kc_word::NoMemory;

// Whether the verdict on a root audit is broken.
fn is_broken(root: &RootVerdict) -> bool
    ensures { result ≡ is_broken root.now }
{
    matches!(root.verdict, Verdict::Broken(_))
}

// Adds the name of a root audit, and the lines of its violation up to its words.
fn push_named_root(
    text: &mut Vec<u8>,
    over: &PlanOf<'_>,
    root: u32,
    found: &Found,
) -> Result<(), NoMemory>
    requires over { FitsTogether over.now }
    requires root { root < length over.now.plan.now.audits }
    requires found { found.now.audit < length over.now.plan.now.audits }
    ensures { OnOk result (text.new.items ≡ text.old.items
        ++ root_line (plan_seen over.now.plan.now) root ++ found_named over.now.types.now (plan_seen over.now.plan.now) found.now) }
{
    push_line(text, b"root ", &over.plan.audit(root).name)?;
    push_named(
        over.alloc,
        text,
        over.types,
        over.plan.audit(found.audit),
        found,
    )
}

// Adds the number that its violation expects.
fn push_found_number(text: &mut Vec<u8>, over: &PlanOf<'_>, found: &Found) -> Result<(), NoMemory>
    requires { found.now.audit < length over.now.plan.now.audits }
    ensures { OnOk result (text.new.items ≡ text.old.items ++ found_number (plan_seen over.now.plan.now) found.now) }
{
    push_number(text, &over.plan.audit(found.audit).kind, found)
}

// Adds the lines of a violation of a root audit: what it is about, the words that show it, the number that it expects, and what repairs it.
fn push_broken<F: Repairable>(
    memory: F,
    text: &mut Vec<u8>,
    over: &PlanOf<'_>,
    root: u32,
    found: &Found,
) -> Returned<F, Result<(), ReadFailed>>
    requires over { FitsTogether over.now }
    requires root { root < length over.now.plan.now.audits }
    requires found { found.now.audit < length over.now.plan.now.audits }

    ensures added { OnOk result.answer (IfSome (with_paging over.now.paging (F.image memory)) (λ image.
        text.new.items ≡ text.old.items ++ broken_lines (over_plan over.now image) root found.now)) }
    ensures reads { OnlyReadsFrames F.image F.files F.through F.faults result.answer memory result.memory }
{
    if let Err(NoMemory) = push_named_root(text, over, root, found) {
        return Returned {
            memory,
            answer: Err(ReadFailed::NoMemory),
        };
    }
    let Returned { memory, answer } = push_shown_over(memory, text, over, found);
    if let Err(stop) = answer {
        return Returned {
            memory,
            answer: Err(stop),
        };
    }
    match push_found_number(text, over, found) {
        Ok(()) => push_repairs(memory, text, over, root, found),
        Err(NoMemory) => Returned {
            memory,
            answer: Err(ReadFailed::NoMemory),
        },
    }
}

// Adds the lines of a root audit, where its verdict is broken.
fn push_cause<F: Repairable>(
    memory: F,
    text: &mut Vec<u8>,
    over: &PlanOf<'_>,
    root: &RootVerdict,
) -> Returned<F, Result<(), ReadFailed>>
    requires over { FitsTogether over.now }
    requires fits { FitsRoot (length over.now.plan.now.audits) (plan_seen over.now.plan.now) root.now }

    ensures added { OnOk result.answer (IfSome (with_paging over.now.paging (F.image memory)) (λ image.
        text.new.items ≡ text.old.items ++ cause_lines (over_plan over.now image) root.now)) }
    ensures reads { OnlyReadsFrames F.image F.files F.through F.faults result.answer memory result.memory }
{
    match &root.verdict {
        Verdict::Broken(found) => push_broken(memory, text, over, root.root, found),
        Verdict::Clean(_) => Returned {
            memory,
            answer: Ok(()),
        },
    }
}

// Adds those of each root audit.
fn push_causes<F: Repairable>(
    memory: F,
    text: &mut Vec<u8>,
    over: &PlanOf<'_>,
    verdicts: &Verdicts,
) -> Returned<F, Result<(), ReadFailed>>
    requires over { FitsTogether over.now }
    requires fits { FitEach (length over.now.plan.now.audits) (plan_seen over.now.plan.now) verdicts.now }

    ensures added { OnOk result.answer (IfSome (with_paging over.now.paging (F.image memory)) (λ image.
        text.new.items ≡ text.old.items ++ texts (cause_lines (over_plan over.now image)) verdicts.now)) }
    ensures reads { OnlyReadsFrames F.image F.files F.through F.faults result.answer memory result.memory }
{
    let mut memory = memory;
    for i in 0..verdicts.len() {
        let wrote = push_cause(memory, text, over, verdicts.get(i));
        memory = wrote.memory;
        match wrote.answer {
            Ok(()) => {}
            Err(stop) => {
                return Returned {
                    memory,
                    answer: Err(stop),
                };
            }
        }
    }
    Returned {
        memory,
        answer: Ok(()),
    }
}

// Adds those of the first that is broken.
fn push_first<F: Repairable>(
    memory: F,
    text: &mut Vec<u8>,
    over: &PlanOf<'_>,
    verdicts: &Verdicts,
) -> Returned<F, Result<(), ReadFailed>>
    requires over { FitsTogether over.now }
    requires fits { FitEach (length over.now.plan.now.audits) (plan_seen over.now.plan.now) verdicts.now }

    ensures added { OnOk result.answer (IfSome (with_paging over.now.paging (F.image memory)) (λ image.
        text.new.items ≡ text.old.items ++ first_lines (over_plan over.now image) (find is_broken verdicts.now))) }
    ensures reads { OnlyReadsFrames F.image F.files F.through F.faults result.answer memory result.memory }
{
    for i in 0..verdicts.len() {
        let root = verdicts.get(i);
        if is_broken(root) {
            return push_cause(memory, text, over, root);
        }
    }
    Returned {
        memory,
        answer: Ok(()),
    }
}

// Adds those by the plan's version.
fn push_some<F: Repairable>(
    memory: F,
    text: &mut Vec<u8>,
    over: &PlanOf<'_>,
    verdicts: &Verdicts,
) -> Returned<F, Result<(), ReadFailed>>
    requires over { FitsTogether over.now }
    requires fits { FitEach (length over.now.plan.now.audits) (plan_seen over.now.plan.now) verdicts.now }

    ensures added { OnOk result.answer (IfSome (with_paging over.now.paging (F.image memory)) (λ image.
        text.new.items ≡ text.old.items ++ causes_text (over_plan over.now image) verdicts.now)) }
    ensures reads { OnlyReadsFrames F.image F.files F.through F.faults result.answer memory result.memory }
{
    if over.plan.version == 2 {
        push_causes(memory, text, over, verdicts)
    } else {
        push_first(memory, text, over, verdicts)
    }
}

/// The text that explains the verdicts on the root audits of a plan: of version 2 those that are broken, and of version 1 the first of
/// these.
///
/// # Errors
///
/// A failed call of the store; no memory was left.
pub(crate) fn explained_text<F: Repairable>(
    memory: F,
    over: &PlanOf<'_>,
    verdicts: &Verdicts,
) -> Returned<F, Result<Vec<u8>, ReadFailed>>
    requires over { FitsTogether over.now }
    requires fits { FitEach (length over.now.plan.now.audits) (plan_seen over.now.plan.now) verdicts.now }

    ensures says { IfOk result.answer (λ text. IfSome (with_paging over.now.paging (F.image memory)) (λ image.
        text.items ≡ or_clean (causes_text (over_plan over.now image) verdicts.now))) }
    ensures reads { OnlyReadsFrames F.image F.files F.through F.faults result.answer memory result.memory }
{
    let mut text = Vec::new(over.alloc);
    let Returned { memory, answer } = push_some(memory, &mut text, over, verdicts);
    let answer = match answer {
        Ok(()) => match or_clean(text) {
            Ok(text) => Ok(text),
            Err(NoMemory) => Err(ReadFailed::NoMemory),
        },
        Err(stop) => Err(stop),
    };
    Returned { memory, answer }
}

// The text, or that there is nothing to explain.
fn or_clean(text: Vec<u8>) -> Result<Vec<u8>, NoMemory>
    ensures { IfOk result (λ new. new.items ≡ or_clean text.items) }
{
    let mut text = text;
    if text.is_empty() {
        push(&mut text, b"clean\n")?;
    }
    Ok(text)
}
