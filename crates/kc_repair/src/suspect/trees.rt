// Nodes of red-black trees whose parent or colour may be wrong.
ghost use Rattle.std.specs.Prelude.{◌≡◌, ◌++◌, Some, OnOk, IfOk, IfSome};
ghost use Rattle.kc_repair.specs.Suspect.Answers.{OnlyReads};
ghost use Rattle.kc_repair.specs.Suspect.Trees.{bits_if, colour_of, colours, colours_of, hangs_there, has_child, leads_to, link_bits, parent_by, parent_changes, parent_words, top_bits, upper_bits};

use crate::suspect::backs::push_child_backs;
use crate::suspect::change::{Change, Changes, How};
use crate::suspect::links::{node_of, tree_links};
use crate::suspect::rules::{each, to};
use crate::suspect::words::read_word;
use kc_found::{Found, Items, RbShape, ReadFailed, Space, VWord};
use kc_kinds::Kind;
use kc_word::{NoMemory, Steps};
use std::alloc::Global;
use std::sync::ledger::Ledger;

// Adds a link with any bit changed, where it leads to a node.
fn push_if(changes: &mut Changes, node: u64, link: Option<VWord>) -> Result<(), NoMemory>
    ensures { OnOk result (changes.new ≡ changes.old ++ bits_if node link) }
{
    match link {
        Some(link) if link.value == node => changes.push(each(link.va)),
        _ => Ok(()),
    }
}

// Adds the link at an address with any bit changed, where it leads to a node.
fn push_link<S: Space, L: Ledger>(
    changes: &mut Changes,
    node: u64,
    at: u64,
    space: &mut S,
    steps: &mut Steps<L>,
) -> Result<(), ReadFailed>
    ensures added { OnOk result (IfSome (S.image space.old) (λ image. changes.new ≡ changes.old ++ link_bits image node at)) }
    ensures reads { OnlyReads S.image S.files S.through S.most S.faults result space.old space.new }
{
    let link = read_word(space, at, steps)?;
    push_if(changes, node, link)?;
    Ok(())
}

// Adds the links to a node from this parent, or from the tree's head.
fn push_upper<S: Space, L: Ledger>(
    changes: &mut Changes,
    shape: &RbShape,
    head: u64,
    node: u64,
    parent: u64,
    space: &mut S,
    steps: &mut Steps<L>,
) -> Result<(), ReadFailed>
    ensures added { OnOk result (IfSome (S.image space.old) (λ image. changes.new ≡ changes.old ++ upper_bits image shape.now head node parent)) }
    ensures reads { OnlyReads S.image S.files S.through S.most S.faults result space.old space.new }
{
    if parent == 0 {
        return push_link(changes, node, head.wrapping_add(shape.root), space, steps);
    }
    push_link(changes, node, parent.wrapping_add(shape.left), space, steps)?;
    push_link(
        changes,
        node,
        parent.wrapping_add(shape.right),
        space,
        steps,
    )
}

// Whether the link at an address leads to a node.
fn leads_to<S: Space, L: Ledger>(
    node: u64,
    at: u64,
    space: &mut S,
    steps: &mut Steps<L>,
) -> Result<bool, ReadFailed>
    ensures leads { IfOk result (λ leads. IfSome (S.image space.old) (λ image. leads ≡ leads_to image node at)) }
    ensures reads { OnlyReads S.image S.files S.through S.most S.faults result space.old space.new }
{
    match read_word(space, at, steps)? {
        Some(link) => Ok(link.value == node),
        None => Ok(false),
    }
}

// Whether the parent that a word names has a node as its child.
fn has_child<S: Space, L: Ledger>(
    shape: &RbShape,
    node: u64,
    word: &VWord,
    space: &mut S,
    steps: &mut Steps<L>,
) -> Result<bool, ReadFailed>
    ensures child { IfOk result (λ child. IfSome (S.image space.old) (λ image. child ≡ has_child image shape.now node word.now)) }
    ensures reads { OnlyReads S.image S.files S.through S.most S.faults result space.old space.new }
{
    let parent = word.value / 4 * 4;
    let left = leads_to(node, parent.wrapping_add(shape.left), space, steps)?;
    let right = leads_to(node, parent.wrapping_add(shape.right), space, steps)?;
    Ok(left || right)
}

// Whether a node hangs where its own parent word says.
fn hangs_there<S: Space, L: Ledger>(
    shape: &RbShape,
    found: &Found,
    space: &mut S,
    steps: &mut Steps<L>,
) -> Result<bool, ReadFailed>
    ensures there { IfOk result (λ there. IfSome (S.image space.old) (λ image. there ≡ hangs_there image shape.now found.now)) }
    ensures reads { OnlyReads S.image S.files S.through S.most S.faults result space.old space.new }
{
    let node = node_of(found.at, shape.parent_color);
    match read_word(space, found.at, steps)? {
        Some(word) => has_child(shape, node, &word, space, steps),
        None => Ok(false),
    }
}

// Adds the parent word of a node, red and black.
fn push_parent_words(changes: &mut Changes, found: &Found, parent: u64) -> Result<(), NoMemory>
    ensures { OnOk result (changes.new ≡ changes.old ++ parent_words found.now parent) }
{
    changes.push(to(found.at, parent))?;
    changes.push(to(found.at, parent.wrapping_add(1)))
}

// Adds the parent word of a node and the link that led to it, first the one that is likelier.
fn push_by_parent<S: Space, L: Ledger>(
    changes: &mut Changes,
    shape: &RbShape,
    found: &Found,
    parent: u64,
    space: &mut S,
    steps: &mut Steps<L>,
) -> Result<(), ReadFailed>
    ensures added { OnOk result (IfSome (S.image space.old) (λ image. changes.new ≡ changes.old ++ parent_by image shape.now found.now parent)) }
    ensures reads { OnlyReads S.image S.files S.through S.most S.faults result space.old space.new }
{
    let node = node_of(found.at, shape.parent_color);
    push_child_backs(changes, shape, parent, space, steps)?;
    if hangs_there(shape, found, space, steps)? {
        push_upper(changes, shape, found.start, node, parent, space, steps)?;
        return Ok(push_parent_words(changes, found, parent)?);
    }
    push_parent_words(changes, found, parent)?;
    push_upper(changes, shape, found.start, node, parent, space, steps)
}

// The same of a tree's node whose parent may be told.
pub(crate) fn push_parent<S: Space, L: Ledger>(
    changes: &mut Changes,
    kind: &Kind,
    found: &Found,
    space: &mut S,
    steps: &mut Steps<L>,
) -> Result<(), ReadFailed>
    ensures added { OnOk result (IfSome (S.image space.old) (λ image. changes.new ≡ changes.old ++ parent_changes image kind.now found.now)) }
    ensures reads { OnlyReads S.image S.files S.through S.most S.faults result space.old space.new }
{
    let Kind::Rbtree(shape) = kind else {
        return Ok(());
    };
    match found.expected {
        Some(parent) => push_by_parent(changes, shape, found, parent, space, steps),
        None => Ok(()),
    }
}

// Adds the link in a tree's head that leads to its top node.
pub(crate) fn push_top<S: Space, L: Ledger>(
    changes: &mut Changes,
    kind: &Kind,
    found: &Found,
    space: &mut S,
    steps: &mut Steps<L>,
) -> Result<(), ReadFailed>
    ensures added { OnOk result (IfSome (S.image space.old) (λ image. changes.new ≡ changes.old ++ top_bits image kind.now found.now)) }
    ensures reads { OnlyReads S.image S.files S.through S.most S.faults result space.old space.new }
{
    let Kind::Rbtree(shape) = kind else {
        return Ok(());
    };
    let node = node_of(found.at, shape.parent_color);
    let top = found.start.wrapping_add(shape.root);
    push_link(changes, node, top, space, steps)
}

// Adds the colour of the node that a link leads to.
fn push_colour(changes: &mut Changes, shape: &RbShape, link: &VWord) -> Result<(), NoMemory>
    ensures { OnOk result (changes.new ≡ changes.old ++ colour_of shape.now link.now) }
{
    if link.value == 0 {
        return Ok(());
    }
    changes.push(Change {
        at: link.value.wrapping_add(shape.parent_color),
        how: How::Lowest,
    })
}

// Adds those of all nodes.
fn push_all_colours(
    changes: &mut Changes,
    shape: &RbShape,
    links: &Items<VWord>,
) -> Result<(), NoMemory>
    ensures { OnOk result (changes.new ≡ changes.old ++ colours_of shape.now links.now) }
{
    for link in links.as_slice() {
        push_colour(changes, shape, link)?;
    }
    Ok(())
}

// Adds each single colour of a tree's nodes, in preorder.
pub(crate) fn push_colours<S: Space, L: Ledger>(
    alloc: Global,
    changes: &mut Changes,
    kind: &Kind,
    found: &Found,
    space: &mut S,
    steps: &mut Steps<L>,
) -> Result<(), ReadFailed>
    ensures added { OnOk result (IfSome (S.image space.old) (λ image. changes.new ≡ changes.old ++ colours image kind.now found.now)) }
    ensures reads { OnlyReads S.image S.files S.through S.most S.faults result space.old space.new }
{
    if let Kind::Rbtree(shape) = kind {
        let links = tree_links(alloc, space, shape, found.start, steps)?;
        push_all_colours(changes, shape, &links)?;
    }
    Ok(())
}
