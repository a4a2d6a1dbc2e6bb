// Fields that may have held another number.
ghost use Rattle.std.specs.Prelude.{◌≡◌, ◌++◌, ◌<◌, ◌≤◌, option_to_list, OnOk, IfOk, IfSome};
ghost use Rattle.kc_repair.specs.Suspect.Answers.{OnlyReads};
ghost use Rattle.kc_repair.specs.Suspect.Fields.{bit_changes, field_changes, field_in, member_changes, number_at, own_changes, pid_field, slab_field, task_field};

use crate::suspect::change::{Change, Changes};
use crate::suspect::links::node_of;
use crate::suspect::words::{field_to, unread};
use kc_found::{Found, ReadFailed, Rule, Space, low_word, read_bits};
use kc_kinds::Kind;
use kc_layout::Field;
use kc_view::{PidShape, SlubShape, TaskShape};
use kc_word::{NoMemory, Steps};
use std::sync::ledger::Ledger;

// Adds what may have happened, where it is told.
pub(crate) fn push_some(changes: &mut Changes, change: Option<Change>) -> Result<(), NoMemory>
    ensures { OnOk result (changes.new ≡ changes.old ++ option_to_list change) }
{
    match change {
        Some(change) => changes.push(change),
        None => Ok(()),
    }
}

// Adds so many bits, from a bit of the byte at an address on, as those of a number that may be told.
pub(crate) fn push_bits<S: Space, L: Ledger>(
    changes: &mut Changes,
    at: u64,
    bit: u32,
    width: u8,
    number: Option<u64>,
    space: &mut S,
    steps: &mut Steps<L>,
) -> Result<(), ReadFailed>
    requires bit { bit < 8 }
    requires width { width ≤ 64 }
    ensures added { OnOk result (IfSome (S.image space.old) (λ image. changes.new ≡ changes.old ++ bit_changes image at bit width number)) }
    ensures reads { OnlyReads S.image S.files S.through S.most S.faults result space.old space.new }
{
    if let Some(number) = number {
        let change = field_to(space, at, bit, width, number, steps)?;
        push_some(changes, change)?;
    }
    Ok(())
}

// The field of a slab cache that a rule is about.
fn slab_field(shape: &SlubShape, rule: Rule) -> Option<Field>
    ensures { result ≡ slab_field shape.now rule }
{
    match rule {
        Rule::U1 => Some(shape.slab_cache),
        Rule::U2 => Some(shape.frozen),
        Rule::U7 => Some(shape.nr_partial),
        _ => None,
    }
}

// The field of a task.
fn task_field(shape: &TaskShape, rule: Rule) -> Option<Field>
    ensures { result ≡ task_field shape.now rule }
{
    match rule {
        Rule::T1 => Some(shape.group_leader),
        Rule::T3 => Some(shape.signal),
        Rule::T4 => Some(shape.tgid),
        Rule::T5 => Some(shape.real_parent),
        _ => None,
    }
}

// The field of a process id.
fn pid_field(shape: &PidShape, rule: Rule) -> Option<Field>
    ensures { result ≡ pid_field shape.now rule }
{
    match rule {
        Rule::G1 => Some(shape.nr),
        Rule::G2 => Some(shape.thread_pid),
        _ => None,
    }
}

// The field that a rule is about.
fn field_in(kind: &Kind, rule: Rule) -> Option<Field>
    ensures { result ≡ field_in kind.now rule }
{
    match kind {
        Kind::Slub(shape) => slab_field(shape, rule),
        Kind::Tasks(shape) => task_field(shape, rule),
        Kind::Pids(shape) => pid_field(shape, rule),
        _ => None,
    }
}

// Adds a field, whose first byte stands at an address, as a number that may be told.
fn push_field<S: Space, L: Ledger>(
    changes: &mut Changes,
    at: u64,
    number: Option<u64>,
    field: &Field,
    space: &mut S,
    steps: &mut Steps<L>,
) -> Result<(), ReadFailed>
    ensures added { OnOk result (IfSome (S.image space.old) (λ image. changes.new ≡ changes.old ++ field_changes image at number field.now)) }
    ensures reads { OnlyReads S.image S.files S.through S.most S.faults result space.old space.new }
{
    let bit = (field.bits.bit % 8) as u32;
    push_bits(changes, at, bit, field.bits.width, number, space, steps)
}

// Adds the field that the violation's rule is about, as it is expected.
pub(crate) fn push_member<S: Space, L: Ledger>(
    changes: &mut Changes,
    kind: &Kind,
    found: &Found,
    space: &mut S,
    steps: &mut Steps<L>,
) -> Result<(), ReadFailed>
    ensures added { OnOk result (IfSome (S.image space.old) (λ image. changes.new ≡ changes.old ++ member_changes image kind.now found.now)) }
    ensures reads { OnlyReads S.image S.files S.through S.most S.faults result space.old space.new }
{
    match field_in(kind, found.rule) {
        Some(field) => push_field(changes, found.at, found.expected, &field, space, steps),
        None => Ok(()),
    }
}

// The number of a field of a struct at an address modulo 2^64, where it can be read.
pub(crate) fn number_at<S: Space, L: Ledger>(
    space: &mut S,
    field: &Field,
    at: u64,
    steps: &mut Steps<L>,
) -> Result<Option<u64>, ReadFailed>
    ensures number { IfOk result (λ number. IfSome (S.image space.old) (λ image. number ≡ number_at image field.now at)) }
    ensures reads { OnlyReads S.image S.files S.through S.most S.faults result space.old space.new }
{
    match read_bits(space, at, field.bits, steps) {
        Ok(number) => Ok(Some(low_word(&number))),
        Err(stop) => unread(stop),
    }
}

// Adds the two numbers of a thread group's leader: first its `tgid`, as its `pid`, and then its `pid`, as its `tgid`.
pub(crate) fn push_own<S: Space, L: Ledger>(
    changes: &mut Changes,
    kind: &Kind,
    found: &Found,
    space: &mut S,
    steps: &mut Steps<L>,
) -> Result<(), ReadFailed>
    ensures added { OnOk result (IfSome (S.image space.old) (λ image. changes.new ≡ changes.old ++ own_changes image kind.now found.now)) }
    ensures reads { OnlyReads S.image S.files S.through S.most S.faults result space.old space.new }
{
    let Kind::Tasks(shape) = kind else {
        return Ok(());
    };
    let task = node_of(found.at, shape.pid.bits.bit / 8);
    let tgid = task.wrapping_add(shape.tgid.bits.bit / 8);
    let pid = number_at(space, &shape.pid, task, steps)?;
    push_field(changes, tgid, pid, &shape.tgid, space, steps)?;
    push_field(changes, found.at, found.expected, &shape.pid, space, steps)
}
