// What words show of how they came to be wrong.
ghost use Rattle.std.specs.Prelude.{◌≡◌, ◌++◌, ◌==◌, if◌then◌else◌, codes, false, Some, None, IfOk, IfSome, OnOk};
ghost use Rattle.std.specs.Option.{option_map_or};
ghost use Rattle.kc_text.specs.Text.{hex};
ghost use Rattle.kc_repair.specs.Suspect.Answers.{OnlyReads};
ghost use Rattle.kc_cause.specs.Copies.{shown_signs};
ghost use Rattle.kc_cause.specs.Signs.{around_lines, before_lines, behind_lines, beside_line, beside_lines, is_copied, is_deleted, is_of_links, is_of_list, is_of_parent, is_of_pointer, is_of_process, is_shared, is_shifted, is_some_of, is_twice, led_sign, list_sign, null_lines, number_at, pointer_lines, pointer_of, prev_sign, same_at, sign_by, sign_line, sign_lines, sign_of};

use crate::copies::found_sign;
use kc_found::{Found, ReadFailed, Rule, Space};
use kc_repair::Suspect;
use kc_sight::read_word;
use kc_text::{push, push_hex};
use kc_word::{NoMemory, Steps};
use std::sync::ledger::Ledger;

// What `list_del` leaves in a node's `next` and in its `prev`.
const POISON_NEXT: u64 = 0xdead_0000_0000_0100;

const POISON_PREV: u64 = 0xdead_0000_0000_0122;

// How a node or an object came to be wrong.
#[derive(Clone, Copy, Debug, PartialEq, Eq)]
pub(crate) enum Sign {
    // The node at this virtual address was added once more, and was left where it stood.
    Twice(u64),
    // The node at this virtual address was taken out, and others still lead to it.
    Deleted(u64),
    // Its bytes are those of the node, or of the list's head, at this virtual address.
    Copied(u64),
}

fn push_named(text: &mut Vec<u8>, label: &[u8], node: u64) -> Result<(), NoMemory>
    ensures { OnOk result (text.new.items ≡ text.old.items ++ (label.now ++ hex node ++ codes "\n")) }
{
    push(text, label)?;
    push_hex(text, node)?;
    push(text, b"\n")
}

fn push_sign_line(text: &mut Vec<u8>, sign: Sign) -> Result<(), NoMemory>
    ensures { OnOk result (text.new.items ≡ text.old.items ++ sign_line sign) }
{
    match sign {
        Sign::Twice(node) => push_named(text, b"twice ", node),
        Sign::Deleted(node) => push_named(text, b"deleted ", node),
        Sign::Copied(node) => push_named(text, b"copy of ", node),
    }
}

/// Adds the line of a sign, where there is one.
///
/// # Errors
///
/// No memory was left.
pub(crate) fn push_sign(text: &mut Vec<u8>, sign: Option<Sign>) -> Result<(), NoMemory>
    ensures { OnOk result (text.new.items ≡ text.old.items ++ sign_lines sign) }
{
    match sign {
        Some(sign) => push_sign_line(text, sign),
        None => Ok(()),
    }
}

// Whether two links hold a node that was added once more.
fn is_twice(a: Suspect, b: Suspect) -> bool
    ensures { result ≡ is_twice a b }
{
    a.now == b.now && a.value.wrapping_add(8) == b.va && b.value == a.va
}

// Whether they are those of a node that was taken out.
fn is_deleted(a: Suspect, b: Suspect) -> bool
    ensures { result ≡ is_deleted a b }
{
    a.now == POISON_NEXT && b.now == POISON_PREV && a.va.wrapping_add(8) == b.va
}

fn sign_by(a: Suspect, b: Suspect) -> Option<Sign>
    ensures { result ≡ sign_by a b }
{
    if is_twice(a, b) {
        Some(Sign::Twice(a.now))
    } else if is_deleted(a, b) {
        Some(Sign::Deleted(a.va))
    } else if is_deleted(b, a) {
        Some(Sign::Deleted(b.va))
    } else {
        None
    }
}

/// What two words show that repair a structure together.
pub(crate) fn sign_of(words: &[Suspect]) -> Option<Sign>
    ensures { result ≡ sign_of words.now }
{
    if words.len() != 2 {
        return None;
    }
    sign_by(words[0], words[1])
}

// The number at a virtual address, where it can be read.
pub(crate) fn read_number<M: Space, L: Ledger>(
    memory: &mut M,
    at: u64,
    steps: &mut Steps<L>,
) -> Result<Option<u64>, ReadFailed>
    ensures number { IfOk result (λ number. IfSome (M.image memory.old) (λ image. number ≡ number_at image at)) }
    ensures reads { OnlyReads M.image M.files M.through M.most M.faults result memory.old memory.new }
{
    match read_word(memory, at, steps)? {
        Ok(word) => Ok(Some(word.value)),
        Err(_) => Ok(None),
    }
}

fn is_some_of(value: u64, found: Option<u64>) -> bool
    ensures { result ≡ is_some_of value found }
{
    match found {
        Some(number) => number == value,
        None => false,
    }
}

// Whether a virtual address holds a number.
pub(crate) fn holds<M: Space, L: Ledger>(
    memory: &mut M,
    at: u64,
    value: u64,
    steps: &mut Steps<L>,
) -> Result<bool, ReadFailed>
    ensures holds { IfOk result (λ is. IfSome (M.image memory.old) (λ image. is ≡ is_some_of value (number_at image at))) }
    ensures reads { OnlyReads M.image M.files M.through M.most M.faults result memory.old memory.new }
{
    let found = read_number(memory, at, steps)?;
    Ok(is_some_of(value, found))
}

// A sign, where it is shown.
pub(crate) fn sign_if(shown: bool, sign: Sign) -> Option<Sign>
    ensures { result ≡ if shown then Some sign else None }
{
    if shown { Some(sign) } else { None }
}

fn is_shared(found: Option<u64>, number: u64) -> bool
    ensures { result ≡ is_shared found number }
{
    number != 0 && is_some_of(number, found)
}

// Whether two virtual addresses hold the same number, which isn't 0.
pub(crate) fn same_at<M: Space, L: Ledger>(
    memory: &mut M,
    one: u64,
    other: u64,
    steps: &mut Steps<L>,
) -> Result<bool, ReadFailed>
    ensures same { IfOk result (λ is. IfSome (M.image memory.old) (λ image. is ≡ same_at image one other)) }
    ensures reads { OnlyReads M.image M.files M.through M.most M.faults result memory.old memory.new }
{
    match read_number(memory, other, steps)? {
        Some(number) => Ok(is_shared(read_number(memory, one, steps)?, number)),
        None => Ok(false),
    }
}

// Whether a node has the pointers of another node, which leads back to this one's `prev`.
fn is_copied<M: Space, L: Ledger>(
    memory: &mut M,
    node: u64,
    prev: u64,
    other: u64,
    steps: &mut Steps<L>,
) -> Result<bool, ReadFailed>
    ensures copied { IfOk result (λ is. IfSome (M.image memory.old) (λ image. is ≡ is_copied image node prev other)) }
    ensures reads { OnlyReads M.image M.files M.through M.most M.faults result memory.old memory.new }
{
    if other == node {
        return Ok(false);
    }
    if !holds(memory, other.wrapping_add(8), prev, steps)? {
        return Ok(false);
    }
    same_at(memory, node, other, steps)
}

// What a node shows whose `prev` leads to a pointer that leads on to another one.
fn led_sign<M: Space, L: Ledger>(
    memory: &mut M,
    node: u64,
    prev: u64,
    other: u64,
    steps: &mut Steps<L>,
) -> Result<Option<Sign>, ReadFailed>
    ensures sign { IfOk result (λ sign. IfSome (M.image memory.old) (λ image. sign ≡ led_sign image node prev other)) }
    ensures reads { OnlyReads M.image M.files M.through M.most M.faults result memory.old memory.new }
{
    let copied = is_copied(memory, node, prev, other, steps)?;
    Ok(sign_if(copied, Sign::Copied(other)))
}

fn prev_sign<M: Space, L: Ledger>(
    memory: &mut M,
    node: u64,
    prev: u64,
    steps: &mut Steps<L>,
) -> Result<Option<Sign>, ReadFailed>
    ensures sign { IfOk result (λ sign. IfSome (M.image memory.old) (λ image. sign ≡ prev_sign image node prev)) }
    ensures reads { OnlyReads M.image M.files M.through M.most M.faults result memory.old memory.new }
{
    match read_number(memory, prev, steps)? {
        Some(other) => led_sign(memory, node, prev, other, steps),
        None => Ok(None),
    }
}

// What the words of a ring's or a hash chain's node show.
pub(crate) fn list_sign<M: Space, L: Ledger>(
    memory: &mut M,
    found: &Found,
    steps: &mut Steps<L>,
) -> Result<Option<Sign>, ReadFailed>
    ensures sign { IfOk result (λ sign. IfSome (M.image memory.old) (λ image. sign ≡ list_sign image found.now)) }
    ensures reads { OnlyReads M.image M.files M.through M.most M.faults result memory.old memory.new }
{
    match read_number(memory, found.at, steps)? {
        Some(prev) => prev_sign(memory, found.at.wrapping_sub(8), prev, steps),
        None => Ok(None),
    }
}

// Whether a rule is about the pointer of a ring's or a hash chain's node that leads back.
pub(crate) fn is_of_links(rule: Rule) -> bool
    ensures { result ≡ is_of_links rule }
{
    matches!(rule, Rule::L1 | Rule::H1)
}

// Whether it is about the `prev` of a list's node.
pub(crate) fn is_of_list(rule: Rule) -> bool
    ensures { result ≡ is_of_list rule }
{
    matches!(rule, Rule::L1)
}

// Whether a rule expects a number that stands beside its place where an object was moved: a pointer in a whole word, or a process id's number.
fn is_of_pointer(rule: Rule) -> bool
    ensures { result ≡ is_of_pointer rule }
{
    match rule {
        Rule::L1 | Rule::H1 | Rule::R1 | Rule::X3 | Rule::X4 => true,
        Rule::T1 | Rule::T3 | Rule::U1 | Rule::G1 | Rule::G2 => true,
        _ => false,
    }
}

// Whether it is about the parent of a tree's node.
pub(crate) fn is_of_parent(rule: Rule) -> bool
    ensures { result ≡ is_of_parent rule }
{
    matches!(rule, Rule::R1)
}

// Whether it is about the number of a process id.
fn is_of_process(rule: Rule) -> bool
    ensures { result ≡ is_of_process rule }
{
    matches!(rule, Rule::G1)
}

// The number in a word: a pointer to a parent has a colour in its lowest bits, and of a process id's there are 32 bits.
fn pointer_of(rule: Rule, value: u64) -> u64
    ensures { result ≡ pointer_of rule value }
{
    if is_of_parent(rule) {
        return value / 4 * 4;
    }
    if is_of_process(rule) {
        return value % (1 << 32);
    }
    value
}

fn is_pointer(rule: Rule, number: u64, value: Option<u64>) -> bool
    ensures { result ≡ option_map_or (λ n. pointer_of rule n == number) value false }
{
    match value {
        Some(value) => pointer_of(rule, value) == number,
        None => false,
    }
}

// Adds an address beside the word that a violation is about, where it holds what is expected there.
#[tactic(auto, unfolding(crate::specs::Signs::beside_line))]
fn push_beside<M: Space, L: Ledger>(
    text: &mut Vec<u8>,
    memory: &mut M,
    rule: Rule,
    number: u64,
    at: u64,
    steps: &mut Steps<L>,
) -> Result<(), ReadFailed>
    ensures added { OnOk result (IfSome (M.image memory.old) (λ image. text.new.items ≡ text.old.items ++ beside_line image rule number at)) }
    ensures reads { OnlyReads M.image M.files M.through M.most M.faults result memory.old memory.new }
{
    let value = read_number(memory, at, steps)?;
    if is_pointer(rule, number, value) {
        push_named(text, b"beside ", at)?;
    }
    Ok(())
}

fn push_behind<M: Space, L: Ledger>(
    text: &mut Vec<u8>,
    memory: &mut M,
    rule: Rule,
    number: u64,
    at: u64,
    steps: &mut Steps<L>,
) -> Result<(), ReadFailed>
    ensures added { OnOk result (IfSome (M.image memory.old) (λ image. text.new.items ≡ text.old.items ++ behind_lines image rule number at)) }
    ensures reads { OnlyReads M.image M.files M.through M.most M.faults result memory.old memory.new }
{
    push_beside(text, memory, rule, number, at.wrapping_sub(8), steps)?;
    push_beside(text, memory, rule, number, at.wrapping_sub(16), steps)
}

fn push_before<M: Space, L: Ledger>(
    text: &mut Vec<u8>,
    memory: &mut M,
    rule: Rule,
    number: u64,
    at: u64,
    steps: &mut Steps<L>,
) -> Result<(), ReadFailed>
    ensures added { OnOk result (IfSome (M.image memory.old) (λ image. text.new.items ≡ text.old.items ++ before_lines image rule number at)) }
    ensures reads { OnlyReads M.image M.files M.through M.most M.faults result memory.old memory.new }
{
    if is_of_list(rule) {
        Ok(())
    } else {
        push_behind(text, memory, rule, number, at, steps)
    }
}

fn push_around<M: Space, L: Ledger>(
    text: &mut Vec<u8>,
    memory: &mut M,
    rule: Rule,
    at: u64,
    number: u64,
    steps: &mut Steps<L>,
) -> Result<(), ReadFailed>
    ensures added { OnOk result (IfSome (M.image memory.old) (λ image. text.new.items ≡ text.old.items ++ around_lines image rule at number)) }
    ensures reads { OnlyReads M.image M.files M.through M.most M.faults result memory.old memory.new }
{
    push_beside(text, memory, rule, number, at.wrapping_add(8), steps)?;
    push_beside(text, memory, rule, number, at.wrapping_add(16), steps)?;
    push_before(text, memory, rule, number, at, steps)
}

// Whether the words from the one before an address on were moved by 8 bytes, and a null pointer stands 8 bytes on.
fn is_shifted<M: Space, L: Ledger>(
    memory: &mut M,
    at: u64,
    steps: &mut Steps<L>,
) -> Result<bool, ReadFailed>
    ensures shifted { IfOk result (λ is. IfSome (M.image memory.old) (λ image. is ≡ is_shifted image at)) }
    ensures reads { OnlyReads M.image M.files M.through M.most M.faults result memory.old memory.new }
{
    if !same_at(memory, at.wrapping_sub(8), at, steps)? {
        return Ok(false);
    }
    holds(memory, at.wrapping_add(8), 0, steps)
}

fn push_null<M: Space, L: Ledger>(
    text: &mut Vec<u8>,
    memory: &mut M,
    at: u64,
    steps: &mut Steps<L>,
) -> Result<(), ReadFailed>
    ensures added { OnOk result (IfSome (M.image memory.old) (λ image. text.new.items ≡ text.old.items ++ null_lines image at)) }
    ensures reads { OnlyReads M.image M.files M.through M.most M.faults result memory.old memory.new }
{
    if is_shifted(memory, at, steps)? {
        push_named(text, b"beside ", at.wrapping_add(8))?;
    }
    Ok(())
}

fn push_pointer<M: Space, L: Ledger>(
    text: &mut Vec<u8>,
    memory: &mut M,
    rule: Rule,
    at: u64,
    number: u64,
    steps: &mut Steps<L>,
) -> Result<(), ReadFailed>
    ensures added { OnOk result (IfSome (M.image memory.old) (λ image. text.new.items ≡ text.old.items ++ pointer_lines image rule at number)) }
    ensures reads { OnlyReads M.image M.files M.through M.most M.faults result memory.old memory.new }
{
    if number == 0 {
        push_null(text, memory, at, steps)
    } else {
        push_around(text, memory, rule, at, number, steps)
    }
}

fn push_besides<M: Space, L: Ledger>(
    text: &mut Vec<u8>,
    memory: &mut M,
    found: &Found,
    steps: &mut Steps<L>,
) -> Result<(), ReadFailed>
    ensures added { OnOk result (IfSome (M.image memory.old) (λ image. text.new.items ≡ text.old.items ++ beside_lines image found.now)) }
    ensures reads { OnlyReads M.image M.files M.through M.most M.faults result memory.old memory.new }
{
    if !is_of_pointer(found.rule) {
        return Ok(());
    }
    match found.expected {
        Some(number) => push_pointer(text, memory, found.rule, found.at, number, steps),
        None => Ok(()),
    }
}

/// Adds what the words beside a violation show of how it came about: where its number stands, and what a ring's node is.
///
/// # Errors
///
/// A failed call of the store; no memory was left.
pub(crate) fn push_signs<M: Space, L: Ledger>(
    text: &mut Vec<u8>,
    memory: &mut M,
    found: &Found,
    steps: &mut Steps<L>,
) -> Result<(), ReadFailed>
    ensures added { OnOk result (IfSome (M.image memory.old) (λ image. text.new.items ≡ text.old.items ++ shown_signs image found.now)) }
    ensures reads { OnlyReads M.image M.files M.through M.most M.faults result memory.old memory.new }
{
    push_besides(text, memory, found, steps)?;
    let sign = found_sign(memory, found, steps)?;
    Ok(push_sign(text, sign)?)
}
