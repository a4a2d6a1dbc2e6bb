// In which list of tasks or of a slab cache a violation lies, and what of it has the pointer.
ghost use Rattle.std.specs.Prelude.{◌≡◌, ◌≤◌, ◌++◌, [], codes, length, max, option_map, option_and_then, IfOk, IfSome, OnOk};
ghost use Rattle.std.specs.Option.{option_map_or};
ghost use Rattle.kc_text.specs.Text.{hex};
ghost use Rattle.kc_kinds.specs.Inside.{KindInside};
ghost use Rattle.kc_view.specs.TaskLists.{IsInside};
ghost use Rattle.kc_which.specs.CacheRings.{cache_ring, slab_in};
ghost use Rattle.kc_which.specs.TaskRings.{task_in, task_ring};
ghost use Rattle.kc_repair.specs.Suspect.Answers.{OnlyReads};
ghost use Rattle.kc_cause.specs.Judged.{TasksAreInside};
ghost use Rattle.kc_cause.specs.Rings.{cache_lines, found_ring, led_tasks, ring_lines, task_lines, task_list_line, typed_slab, typed_task};

use crate::came::push_came;
use crate::judged::PlanOf;
use crate::lines::push_element;
use kc_btf::Btf;
use kc_element::{Element, leads_back};
use kc_found::{Found, ReadFailed, Space, WalkStop};
use kc_kinds::Kind;
use kc_layout::find_type;
use kc_text::{push, push_hex, push_numbered};
use kc_view::{SlubShape, TaskShape};
use kc_which::{
    CacheRing, SlabElement, TaskElement, TaskRing, find_cache_ring, find_task_ring, slab_in,
    task_in,
};
use kc_word::{NoMemory, Steps};
use std::sync::ledger::Ledger;

// The ring of tasks in which a violation lies.
pub(crate) fn task_ring<M: Space, L: Ledger>(
    over: &PlanOf<'_>,
    memory: &mut M,
    shape: &TaskShape,
    found: &Found,
    steps: &mut Steps<L>,
) -> Result<Option<TaskRing>, ReadFailed>
    requires { IsInside shape.now over.now.types.now }
    ensures exact { IfSome (M.image memory.old) (λ image. IfOk result (λ r. r ≡ task_ring image shape.now found.now)) }
    ensures reads { OnlyReads M.image M.files M.through M.most M.faults result memory.old memory.new }
{
    match find_task_ring(over.alloc, memory, over.types, shape, found, steps) {
        Ok(ring) => Ok(ring),
        Err(WalkStop::NoMemory) => Err(ReadFailed::NoMemory),
        Err(WalkStop::Fault | WalkStop::Broken(_)) => Err(ReadFailed::Fault),
    }
}

// The partial list in which one lies.
pub(crate) fn cache_ring<M: Space, L: Ledger>(
    over: &PlanOf<'_>,
    memory: &mut M,
    shape: &SlubShape,
    found: &Found,
    steps: &mut Steps<L>,
) -> Result<Option<CacheRing>, ReadFailed>
    ensures exact { IfSome (M.image memory.old) (λ image. IfOk result (λ r. r ≡ cache_ring image shape.now found.now)) }
    ensures reads { OnlyReads M.image M.files M.through M.most M.faults result memory.old memory.new }
{
    match find_cache_ring(over.alloc, memory, shape, found, steps) {
        Ok(list) => Ok(list),
        Err(WalkStop::NoMemory) => Err(ReadFailed::NoMemory),
        Err(WalkStop::Fault | WalkStop::Broken(_)) => Err(ReadFailed::Fault),
    }
}

// A label, a number of 16 digits, and the line's end.
fn push_listed(text: &mut Vec<u8>, label: &[u8], at: u64) -> Result<(), NoMemory>
    ensures { OnOk result (text.new.items ≡ text.old.items ++ (label.now ++ hex at ++ codes "\n")) }
{
    push(text, label)?;
    push_hex(text, at)?;
    push(text, b"\n")
}

fn push_task_list(text: &mut Vec<u8>, ring: TaskRing) -> Result<(), NoMemory>
    ensures { OnOk result (text.new.items ≡ text.old.items ++ task_list_line ring) }
{
    match ring {
        TaskRing::Tasks => push(text, b"list tasks\n"),
        TaskRing::Threads { leader, .. } => push_listed(text, b"list threads of ", leader),
        TaskRing::Children { parent } => push_listed(text, b"list children of ", parent),
    }
}

// What has a pointer of a ring of tasks, with its type.
fn typed_task(btf: &Btf, shape: &TaskShape, element: TaskElement) -> Option<Element>
    requires { shape.now.task ≤ length btf.now.records }
    ensures value { result ≡ typed_task btf.now shape.now element }
    ensures inside { IfSome result (λ e. e.ty ≤ length btf.now.records) }
{
    match element {
        TaskElement::Task(at) => Some(Element { ty: shape.task, at }),
        TaskElement::Signal(at) => Some(Element {
            ty: find_type(btf, b"signal_struct")?,
            at,
        }),
    }
}

// What has the pointer that a violation of a ring of tasks is about.
fn task_element(btf: &Btf, shape: &TaskShape, found: &Found, ring: TaskRing) -> Option<Element>
    requires { shape.now.task ≤ length btf.now.records }
    ensures value { result ≡ option_and_then (typed_task btf.now shape.now) (task_in shape.now found.now ring) }
    ensures inside { IfSome result (λ e. e.ty ≤ length btf.now.records) }
{
    typed_task(btf, shape, task_in(shape, found, ring)?)
}

// The lines of a ring of tasks.
fn push_tasks(
    text: &mut Vec<u8>,
    over: &PlanOf<'_>,
    shape: &TaskShape,
    found: &Found,
    ring: TaskRing,
) -> Result<(), NoMemory>
    requires { shape.now.task ≤ length over.now.types.now.records }
    ensures { OnOk result (text.new.items ≡ text.old.items ++ task_lines over.now.types.now shape.now found.now ring) }
{
    push_task_list(text, ring)?;
    let element = task_element(over.types, shape, found, ring);
    let confirmed = leads_back(found.rule);
    push_element(over.alloc, text, over.types, element, confirmed, found)
}

fn push_found_ring(
    text: &mut Vec<u8>,
    over: &PlanOf<'_>,
    shape: &TaskShape,
    found: &Found,
    ring: Option<TaskRing>,
) -> Result<(), NoMemory>
    requires { shape.now.task ≤ length over.now.types.now.records }
    ensures { OnOk result (text.new.items ≡ text.old.items ++ found_ring over.now.types.now shape.now found.now ring) }
{
    match ring {
        Some(ring) => push_tasks(text, over, shape, found, ring),
        None => Ok(()),
    }
}

// The same of the ring in which a violation lies, and the word of a task by which the walk came there.
fn push_task_ring<M: Space, L: Ledger>(
    text: &mut Vec<u8>,
    over: &PlanOf<'_>,
    memory: &mut M,
    shape: &TaskShape,
    found: &Found,
    steps: &mut Steps<L>,
) -> Result<(), ReadFailed>
    requires task { shape.now.task ≤ length over.now.types.now.records }
    requires tasks { TasksAreInside over.now }
    ensures added { OnOk result (IfSome (M.image memory.old) (λ image.
        text.new.items ≡ text.old.items ++ led_tasks over.now.types.now over.now.shapes.words.areas image shape.now found.now (task_ring image shape.now found.now))) }
    ensures reads { OnlyReads M.image M.files M.through M.most M.faults result memory.old memory.new }
{
    let ring = task_ring(over, memory, shape, found, steps)?;
    push_found_ring(text, over, shape, found, ring)?;
    push_came(text, over, memory, shape, found, ring, steps)
}

// What has a pointer of a partial list, with its type.
fn typed_slab(shape: &SlubShape, element: SlabElement) -> Element
    ensures value { result ≡ typed_slab shape.now element }
    ensures inside { result.ty ≤ max shape.now.slab shape.now.knode }
{
    match element {
        SlabElement::Slab(at) => Element { ty: shape.slab, at },
        SlabElement::Node(at) => Element {
            ty: shape.knode,
            at,
        },
    }
}

fn slab_element(shape: &SlubShape, found: &Found, list: CacheRing) -> Option<Element>
    ensures value { result ≡ option_map (typed_slab shape.now) (slab_in shape.now found.now list) }
    ensures inside { IfSome result (λ e. e.ty ≤ max shape.now.slab shape.now.knode) }
{
    Some(typed_slab(shape, slab_in(shape, found, list)?))
}

// The lines of a partial list.
fn push_partial(
    text: &mut Vec<u8>,
    over: &PlanOf<'_>,
    shape: &SlubShape,
    found: &Found,
    list: CacheRing,
) -> Result<(), NoMemory>
    requires slab { shape.now.slab ≤ length over.now.types.now.records }
    requires knode { shape.now.knode ≤ length over.now.types.now.records }
    ensures { OnOk result (text.new.items ≡ text.old.items ++ cache_lines over.now.types.now shape.now found.now list) }
{
    push_numbered(text, b"list partial of node ", list.number)?;
    push(text, b"\n")?;
    let element = slab_element(shape, found, list);
    let confirmed = leads_back(found.rule);
    push_element(over.alloc, text, over.types, element, confirmed, found)
}

fn push_cache_ring<M: Space, L: Ledger>(
    text: &mut Vec<u8>,
    over: &PlanOf<'_>,
    memory: &mut M,
    shape: &SlubShape,
    found: &Found,
    steps: &mut Steps<L>,
) -> Result<(), ReadFailed>
    requires slab { shape.now.slab ≤ length over.now.types.now.records }
    requires knode { shape.now.knode ≤ length over.now.types.now.records }
    ensures added { OnOk result (IfSome (M.image memory.old) (λ image. text.new.items ≡ text.old.items ++ option_map_or (cache_lines over.now.types.now shape.now found.now) (cache_ring image shape.now found.now) [])) }
    ensures reads { OnlyReads M.image M.files M.through M.most M.faults result memory.old memory.new }
{
    let Some(list) = cache_ring(over, memory, shape, found, steps)? else {
        return Ok(());
    };
    Ok(push_partial(text, over, shape, found, list)?)
}

/// Adds the lines of the list of tasks or of a slab cache in which a violation lies, where it lies in one, and of the word of a task by which the walk came
/// there.
///
/// # Errors
///
/// A failed call of the store; no memory was left.
pub(crate) fn push_ring<M: Space, L: Ledger>(
    text: &mut Vec<u8>,
    over: &PlanOf<'_>,
    memory: &mut M,
    kind: &Kind,
    found: &Found,
    steps: &mut Steps<L>,
) -> Result<(), ReadFailed>
    requires kind { KindInside (length over.now.types.now.records) kind.now }
    requires tasks { TasksAreInside over.now }
    ensures added { OnOk result (IfSome (M.image memory.old) (λ image.
        text.new.items ≡ text.old.items ++ ring_lines over.now.types.now over.now.shapes.words.areas image found.now kind.now)) }
    ensures reads { OnlyReads M.image M.files M.through M.most M.faults result memory.old memory.new }
{
    match kind {
        Kind::Tasks(shape) => push_task_ring(text, over, memory, shape, found, steps),
        Kind::Slub(shape) => push_cache_ring(text, over, memory, shape, found, steps),
        _ => Ok(()),
    }
}
