// Nodes that point back to the link which should lead to them.
ghost use Rattle.std.specs.Prelude.{◌≡◌, ◌++◌, ◌<◌, OnOk, IfOk, IfSome};
ghost use Rattle.kc_repair.specs.Suspect.Answers.{OnlyReads};
ghost use Rattle.kc_repair.specs.Suspect.Backs.{back_by, back_changes, backs_at, backs_near, chain_backs, child_backs, entry_backs, hash_backs, head_backs, named_by, near_number, of_array, of_chain, of_tree, points_back, tree_backs};

use crate::suspect::change::Changes;
use crate::suspect::links::node_of;
use crate::suspect::made::flipped;
use crate::suspect::rules::to;
use crate::suspect::words::read_word;
use kc_found::{Found, HShape, RbShape, ReadFailed, Space, XaShape};
use kc_kinds::Kind;
use kc_word::Steps;
use std::sync::ledger::Ledger;

// How many addresses near a number are looked at.
const NEAR: u32 = 576;

// By which word a node points back, and to what.
#[derive(Clone, Copy, Debug, PartialEq, Eq)]
pub(crate) struct Back {
    // The word's byte in the node.
    pub offset: u64,
    // Whether its lowest bits have a colour.
    pub coloured: bool,
    // What it points to.
    pub wanted: u64,
    // What a link to the node adds to the node's address.
    pub tag: u64,
}

// What a word points back to.
fn named_by(coloured: bool, value: u64) -> u64
    ensures { result ≡ named_by coloured value }
{
    if coloured {
        return value / 4 * 4;
    }
    value
}

// Whether a node points back.
fn points_back<S: Space, L: Ledger>(
    space: &mut S,
    back: Back,
    node: u64,
    steps: &mut Steps<L>,
) -> Result<bool, ReadFailed>
    ensures back { IfOk result (λ is. IfSome (S.image space.old) (λ image. is ≡ points_back image back node)) }
    ensures reads { OnlyReads S.image S.files S.through S.most S.faults result space.old space.new }
{
    match read_word(space, node.wrapping_add(back.offset), steps)? {
        Some(word) => Ok(named_by(back.coloured, word.value) == back.wanted),
        None => Ok(false),
    }
}

// Adds a link as one to a node, where the node points back.
fn push_back<S: Space, L: Ledger>(
    changes: &mut Changes,
    back: Back,
    link: u64,
    node: u64,
    space: &mut S,
    steps: &mut Steps<L>,
) -> Result<(), ReadFailed>
    ensures added { OnOk result (IfSome (S.image space.old) (λ image. changes.new ≡ changes.old ++ back_by image back link node)) }
    ensures reads { OnlyReads S.image S.files S.through S.most S.faults result space.old space.new }
{
    if points_back(space, back, node, steps)? {
        changes.push(to(link, node.wrapping_add(back.tag)))?;
    }
    Ok(())
}

// An address that is near a number.
fn near_number(value: u64, i: u32) -> u64
    requires { i < 576 }
    ensures { result ≡ near_number value i }
{
    if i < 64 {
        return flipped(value, i);
    }
    value / 4096 * 4096 + 8 * u64::from(i - 64)
}

// Adds a link as one to each node near a number that points back.
fn push_near<S: Space, L: Ledger>(
    changes: &mut Changes,
    back: Back,
    link: u64,
    value: u64,
    space: &mut S,
    steps: &mut Steps<L>,
) -> Result<(), ReadFailed>
    ensures added { OnOk result (IfSome (S.image space.old) (λ image. changes.new ≡ changes.old ++ backs_near image back link value 576)) }
    ensures reads { OnlyReads S.image S.files S.through S.most S.faults result space.old space.new }
{
    for i in 0..NEAR {
        push_back(changes, back, link, near_number(value, i), space, steps)?;
    }
    Ok(())
}

// Adds those near where the link at an address leads.
fn push_backs_at<S: Space, L: Ledger>(
    changes: &mut Changes,
    back: Back,
    link: u64,
    space: &mut S,
    steps: &mut Steps<L>,
) -> Result<(), ReadFailed>
    ensures added { OnOk result (IfSome (S.image space.old) (λ image. changes.new ≡ changes.old ++ backs_at image back link)) }
    ensures reads { OnlyReads S.image S.files S.through S.most S.faults result space.old space.new }
{
    match read_word(space, link, steps)? {
        Some(word) => {
            let node = node_of(word.value, back.tag);
            push_near(changes, back, word.va, node, space, steps)
        }
        None => Ok(()),
    }
}

// By which word a hash chain's node points back.
fn of_chain(shape: &HShape, link: u64) -> Back
    ensures { result ≡ of_chain shape.now link }
{
    Back {
        offset: shape.pprev,
        coloured: false,
        wanted: link,
        tag: 0,
    }
}

// Adds those of a link of a hash chain.
fn push_chain_backs<S: Space, L: Ledger>(
    changes: &mut Changes,
    shape: &HShape,
    link: u64,
    space: &mut S,
    steps: &mut Steps<L>,
) -> Result<(), ReadFailed>
    ensures added { OnOk result (IfSome (S.image space.old) (λ image. changes.new ≡ changes.old ++ chain_backs image shape.now link)) }
    ensures reads { OnlyReads S.image S.files S.through S.most S.faults result space.old space.new }
{
    push_backs_at(changes, of_chain(shape, link), link, space, steps)
}

// By which word a tree's node points back.
fn of_tree(shape: &RbShape, parent: u64) -> Back
    ensures { result ≡ of_tree shape.now parent }
{
    Back {
        offset: shape.parent_color,
        coloured: true,
        wanted: parent,
        tag: 0,
    }
}

// Adds those of a link of a tree's node.
pub(crate) fn push_tree_backs<S: Space, L: Ledger>(
    changes: &mut Changes,
    shape: &RbShape,
    link: u64,
    space: &mut S,
    steps: &mut Steps<L>,
) -> Result<(), ReadFailed>
    ensures added { OnOk result (IfSome (S.image space.old) (λ image. changes.new ≡ changes.old ++ tree_backs image shape.now link)) }
    ensures reads { OnlyReads S.image S.files S.through S.most S.faults result space.old space.new }
{
    let left = of_tree(shape, node_of(link, shape.left));
    let right = of_tree(shape, node_of(link, shape.right));
    push_backs_at(changes, left, link, space, steps)?;
    push_backs_at(changes, right, link, space, steps)
}

// Adds those of both links of a tree's node.
pub(crate) fn push_child_backs<S: Space, L: Ledger>(
    changes: &mut Changes,
    shape: &RbShape,
    parent: u64,
    space: &mut S,
    steps: &mut Steps<L>,
) -> Result<(), ReadFailed>
    ensures added { OnOk result (IfSome (S.image space.old) (λ image. changes.new ≡ changes.old ++ child_backs image shape.now parent)) }
    ensures reads { OnlyReads S.image S.files S.through S.most S.faults result space.old space.new }
{
    if parent == 0 {
        return Ok(());
    }
    let back = of_tree(shape, parent);
    let left = parent.wrapping_add(shape.left);
    let right = parent.wrapping_add(shape.right);
    push_backs_at(changes, back, left, space, steps)?;
    push_backs_at(changes, back, right, space, steps)
}

// By which word an xarray's node points back.
fn of_array(shape: &XaShape, array: u64) -> Back
    ensures { result ≡ of_array shape.now array }
{
    Back {
        offset: shape.array,
        coloured: false,
        wanted: array,
        tag: 2,
    }
}

// Adds those of an entry of an xarray.
pub(crate) fn push_entry_backs<S: Space, L: Ledger>(
    changes: &mut Changes,
    kind: &Kind,
    found: &Found,
    entry: u64,
    space: &mut S,
    steps: &mut Steps<L>,
) -> Result<(), ReadFailed>
    ensures added { OnOk result (IfSome (S.image space.old) (λ image. changes.new ≡ changes.old ++ entry_backs image kind.now found.now entry)) }
    ensures reads { OnlyReads S.image S.files S.through S.most S.faults result space.old space.new }
{
    match kind {
        Kind::Xarray(shape) => {
            let back = of_array(shape, found.start);
            push_backs_at(changes, back, entry, space, steps)
        }
        Kind::Pids(pids) => {
            let back = of_array(&pids.xa, found.start.wrapping_add(pids.idr_rt));
            push_backs_at(changes, back, entry, space, steps)
        }
        _ => Ok(()),
    }
}

// Adds those of the entry in an xarray's head.
pub(crate) fn push_head_backs<S: Space, L: Ledger>(
    changes: &mut Changes,
    kind: &Kind,
    found: &Found,
    space: &mut S,
    steps: &mut Steps<L>,
) -> Result<(), ReadFailed>
    ensures added { OnOk result (IfSome (S.image space.old) (λ image. changes.new ≡ changes.old ++ head_backs image kind.now found.now)) }
    ensures reads { OnlyReads S.image S.files S.through S.most S.faults result space.old space.new }
{
    match kind {
        Kind::Xarray(shape) => {
            let entry = found.start.wrapping_add(shape.head);
            push_entry_backs(changes, kind, found, entry, space, steps)
        }
        Kind::Pids(pids) => {
            let array = found.start.wrapping_add(pids.idr_rt);
            let entry = array.wrapping_add(pids.xa.head);
            push_entry_backs(changes, kind, found, entry, space, steps)
        }
        _ => Ok(()),
    }
}

// Adds those of a hash chain's link.
pub(crate) fn push_hash_backs<S: Space, L: Ledger>(
    changes: &mut Changes,
    kind: &Kind,
    link: u64,
    space: &mut S,
    steps: &mut Steps<L>,
) -> Result<(), ReadFailed>
    ensures added { OnOk result (IfSome (S.image space.old) (λ image. changes.new ≡ changes.old ++ hash_backs image kind.now link)) }
    ensures reads { OnlyReads S.image S.files S.through S.most S.faults result space.old space.new }
{
    match kind {
        Kind::Hlist(shape) => push_chain_backs(changes, shape, link, space, steps),
        Kind::Pids(pids) => push_chain_backs(changes, &pids.chain, link, space, steps),
        _ => Ok(()),
    }
}

// Adds those of the link that is expected to have led to a hash chain's node.
pub(crate) fn push_backs<S: Space, L: Ledger>(
    changes: &mut Changes,
    kind: &Kind,
    found: &Found,
    space: &mut S,
    steps: &mut Steps<L>,
) -> Result<(), ReadFailed>
    ensures added { OnOk result (IfSome (S.image space.old) (λ image. changes.new ≡ changes.old ++ back_changes image kind.now found.now)) }
    ensures reads { OnlyReads S.image S.files S.through S.most S.faults result space.old space.new }
{
    match found.expected {
        Some(link) => push_hash_backs(changes, kind, link, space, steps),
        None => Ok(()),
    }
}
