// The word of a task by which the walk of the task list came to where a violation lies.
ghost use Rattle.std.specs.Prelude.{◌≡◌, ◌≤◌, ◌++◌, true, length, IfOk, IfSome, OnOk};
ghost use Rattle.kc_owner.specs.Area.Areas.{areas};
ghost use Rattle.kc_repair.specs.Suspect.Answers.{OnlyReads};
ghost use Rattle.kc_cause.specs.Came.{by_line, by_lines, by_word, came_by, member_of, to_ring, to_stack, to_start, word_part};
ghost use Rattle.kc_cause.specs.Judged.{TasksAreInside};

use crate::judged::PlanOf;
use crate::lines::push_path;
use kc_found::{Found, ReadFailed, Space, WalkStop};
use kc_layout::Field;
use kc_memory::VWord;
use kc_owner::{InStack, read_areas};
use kc_report::push_origin;
use kc_sight::{Seen, read_word};
use kc_text::{push, push_hex};
use kc_view::TaskShape;
use kc_which::TaskRing;
use kc_word::{NoMemory, Steps};
use std::sync::ledger::Ledger;

// A member of a task.
#[derive(Clone, Copy, Debug, PartialEq, Eq)]
struct Member {
    // The virtual address of the task.
    task: u64,
    // The first byte of the member in it.
    byte: u64,
}

fn member_of(task: u64, field: &Field) -> Member
    ensures { result ≡ member_of task field.now }
{
    Member {
        task,
        byte: field.bits.bit / 8,
    }
}

// The one that leads to a ring.
fn to_ring(shape: &TaskShape, ring: TaskRing) -> Option<Member>
    ensures { result ≡ to_ring shape.now ring }
{
    match ring {
        TaskRing::Threads { leader, .. } => Some(member_of(leader, &shape.signal)),
        TaskRing::Tasks | TaskRing::Children { .. } => None,
    }
}

// The one that leads to an address at which the stack of a task begins.
fn to_start(shape: &TaskShape, stack: &InStack) -> Option<Member>
    ensures { result ≡ to_start shape.now stack.now }
{
    if stack.byte == 0 {
        Some(member_of(stack.task, &shape.stack))
    } else {
        None
    }
}

fn to_stack(shape: &TaskShape, stack: &Result<Option<InStack>, Found>) -> Option<Member>
    ensures { result ≡ to_stack shape.now stack.now }
{
    match stack {
        Ok(Some(stack)) => to_start(shape, stack),
        Ok(None) => None,
        Err(_) => None,
    }
}

// The one that leads to the address of a violation.
fn find_stack<M: Space, L: Ledger>(
    over: &PlanOf<'_>,
    memory: &mut M,
    shape: &TaskShape,
    found: &Found,
    steps: &mut Steps<L>,
) -> Result<Option<Member>, ReadFailed>
    requires { TasksAreInside over.now }
    ensures exact { IfSome (M.image memory.old) (λ image. IfOk result (λ m. m ≡ to_stack shape.now (areas image over.now.shapes.words.areas true found.now.at).stack_found)) }
    ensures reads { OnlyReads M.image M.files M.through M.most M.faults result memory.old memory.new }
{
    let areas = &over.shapes.words.areas;
    match read_areas(over.alloc, memory, over.types, areas, true, found.at, steps) {
        Ok(areas) => Ok(to_stack(shape, &areas.stack_found)),
        Err(WalkStop::NoMemory) => Err(ReadFailed::NoMemory),
        Err(WalkStop::Fault | WalkStop::Broken(_)) => Err(ReadFailed::Fault),
    }
}

// The one that leads to where a violation lies.
fn find_member<M: Space, L: Ledger>(
    over: &PlanOf<'_>,
    memory: &mut M,
    shape: &TaskShape,
    found: &Found,
    ring: Option<TaskRing>,
    steps: &mut Steps<L>,
) -> Result<Option<Member>, ReadFailed>
    requires { TasksAreInside over.now }
    ensures exact { IfSome (M.image memory.old) (λ image. IfOk result (λ m. m ≡ came_by image over.now.shapes.words.areas shape.now found.now ring)) }
    ensures reads { OnlyReads M.image M.files M.through M.most M.faults result memory.old memory.new }
{
    match ring {
        Some(ring) => Ok(to_ring(shape, ring)),
        None => find_stack(over, memory, shape, found, steps),
    }
}

/// Adds the four columns of a place.
///
/// # Errors
///
/// No memory was left.
pub(crate) fn push_word(text: &mut Vec<u8>, word: &VWord) -> Result<(), NoMemory>
    ensures { OnOk result (text.new.items ≡ text.old.items ++ word_part word.now) }
{
    push_hex(text, word.va)?;
    push(text, b" ")?;
    push_hex(text, word.pa)?;
    push(text, b" ")?;
    push_origin(text, word.off)?;
    push(text, b" ")?;
    push_hex(text, word.value)
}

// The line of a member's word.
fn push_by(
    text: &mut Vec<u8>,
    over: &PlanOf<'_>,
    shape: &TaskShape,
    member: Member,
    word: &VWord,
) -> Result<(), NoMemory>
    requires { shape.now.task ≤ length over.now.types.now.records }
    ensures { OnOk result (text.new.items ≡ text.old.items ++ by_line over.now.types.now shape.now member word.now) }
{
    push(text, b"by ")?;
    push_word(text, word)?;
    push_path(over.alloc, text, over.types, shape.task, member.byte)?;
    push(text, b"\n")
}

fn push_if_read(
    text: &mut Vec<u8>,
    over: &PlanOf<'_>,
    shape: &TaskShape,
    member: Member,
    word: &Seen,
) -> Result<(), NoMemory>
    requires { shape.now.task ≤ length over.now.types.now.records }
    ensures { OnOk result (text.new.items ≡ text.old.items ++ by_word over.now.types.now shape.now member word.now) }
{
    match word {
        Ok(word) => push_by(text, over, shape, member, word),
        Err(_) => Ok(()),
    }
}

// The line of a member, where there is one.
fn push_member<M: Space, L: Ledger>(
    text: &mut Vec<u8>,
    over: &PlanOf<'_>,
    memory: &mut M,
    shape: &TaskShape,
    member: Option<Member>,
    steps: &mut Steps<L>,
) -> Result<(), ReadFailed>
    requires { shape.now.task ≤ length over.now.types.now.records }
    ensures added { OnOk result (IfSome (M.image memory.old) (λ image. text.new.items ≡ text.old.items ++ by_lines over.now.types.now image shape.now member)) }
    ensures reads { OnlyReads M.image M.files M.through M.most M.faults result memory.old memory.new }
{
    let Some(member) = member else {
        return Ok(());
    };
    let word = read_word(memory, member.task.wrapping_add(member.byte), steps)?;
    Ok(push_if_read(text, over, shape, member, &word)?)
}

/// Adds the word of a task by which the walk came to where a violation lies, in this ring or in none, where that is told.
///
/// # Errors
///
/// A failed call of the store; no memory was left.
pub(crate) fn push_came<M: Space, L: Ledger>(
    text: &mut Vec<u8>,
    over: &PlanOf<'_>,
    memory: &mut M,
    shape: &TaskShape,
    found: &Found,
    ring: Option<TaskRing>,
    steps: &mut Steps<L>,
) -> Result<(), ReadFailed>
    requires tasks { TasksAreInside over.now }
    requires task { shape.now.task ≤ length over.now.types.now.records }
    ensures added { OnOk result (IfSome (M.image memory.old) (λ image.
        text.new.items ≡ text.old.items ++ by_lines over.now.types.now image shape.now (came_by image over.now.shapes.words.areas shape.now found.now ring))) }
    ensures reads { OnlyReads M.image M.files M.through M.most M.faults result memory.old memory.new }
{
    let member = find_member(over, memory, shape, found, ring, steps)?;
    push_member(text, over, memory, shape, member, steps)
}
