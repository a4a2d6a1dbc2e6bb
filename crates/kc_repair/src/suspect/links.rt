// The words that hold the links of chains and trees.
ghost use Rattle.std.specs.Prelude.{◌≡◌, ◌++◌, reverse, option_to_list, OnOk, IfOk, IfSome};
ghost use Rattle.kc_repair.specs.Suspect.Answers.{OnlyReads};
ghost use Rattle.kc_repair.specs.Suspect.Links.{below_link, chain_link, leading_to, links_below, node_behind, node_of, tree_links};

use crate::suspect::words::read_word;
use kc_found::{Items, ListShape, RbShape, ReadFailed, Space, VWord};
use kc_word::{NoMemory, Steps};
use std::alloc::Global;
use std::sync::ledger::Ledger;

// How many links of a chain are looked at.
const CHAIN_LINKS: u32 = 65_536;

// How many links of a tree are looked at.
const TREE_LINKS: u32 = 8_192;

// The address of the node that has a word so far from its start.
pub(crate) fn node_of(at: u64, offset: u64) -> u64
    ensures { result ≡ node_of at offset }
{
    at.wrapping_sub(offset)
}

// The address of the link that leads to a node after so many others, in a chain whose first link stands here.
pub(crate) fn chain_link<S: Space, L: Ledger>(
    space: &mut S,
    offset: u64,
    first: u64,
    node: u64,
    others: u32,
    steps: &mut Steps<L>,
) -> Result<Option<u64>, ReadFailed>
    ensures link { IfOk result (λ link. IfSome (S.image space.old) (λ image. link ≡ chain_link image offset first node others)) }
    ensures reads { OnlyReads S.image S.files S.through S.most S.faults result space.old space.new }
{
    let mut at = first;
    let mut others = others;
    let mut left = CHAIN_LINKS;
    while left > 0 {
        let Some(link) = read_word(space, at, steps)? else {
            return Ok(None);
        };
        if link.value == node {
            if others == 0 {
                return Ok(Some(link.va));
            }
            others -= 1;
        }
        at = link.value.wrapping_add(offset);
        left -= 1;
    }
    Ok(None)
}

// The node of a ring that is met first, backwards from the head, whose `prev` leads to a node.
pub(crate) fn node_behind<S: Space, L: Ledger>(
    space: &mut S,
    shape: &ListShape,
    head: u64,
    node: u64,
    steps: &mut Steps<L>,
) -> Result<Option<u64>, ReadFailed>
    ensures node { IfOk result (λ behind. IfSome (S.image space.old) (λ image. behind ≡ node_behind image shape.now head node)) }
    ensures reads { OnlyReads S.image S.files S.through S.most S.faults result space.old space.new }
{
    let first = head.wrapping_add(shape.prev);
    match chain_link(space, shape.prev, first, node, 0, steps)? {
        Some(at) => Ok(Some(node_of(at, shape.prev))),
        None => Ok(None),
    }
}

// Puts the addresses of the links in a node ahead, the left one in front.
fn push_below(ahead: &mut Vec<u64>, shape: &RbShape, node: u64) -> Result<(), NoMemory>
    ensures { OnOk result (reverse ahead.new.items ≡ links_below shape.now node ++ reverse ahead.old.items) }
{
    if node != 0 {
        ahead.push(node.wrapping_add(shape.right))?;
        ahead.push(node.wrapping_add(shape.left))?;
    }
    Ok(())
}

// Adds a link, and puts those in its node ahead.
fn push_link(
    links: &mut Items<VWord>,
    ahead: &mut Vec<u64>,
    shape: &RbShape,
    link: Option<VWord>,
) -> Result<(), NoMemory>
    ensures links { OnOk result (links.new ≡ links.old ++ option_to_list link) }
    ensures ahead { OnOk result (reverse ahead.new.items ≡ below_link shape.now link ++ reverse ahead.old.items) }
{
    if let Some(link) = link {
        links.push(link)?;
        push_below(ahead, shape, link.value)?;
    }
    Ok(())
}

// The links of a tree in preorder.
pub(crate) fn tree_links<S: Space, L: Ledger>(
    alloc: Global,
    space: &mut S,
    shape: &RbShape,
    head: u64,
    steps: &mut Steps<L>,
) -> Result<Items<VWord>, ReadFailed>
    ensures links { IfOk result (λ links. IfSome (S.image space.old) (λ image. links ≡ tree_links image shape.now head)) }
    ensures reads { OnlyReads S.image S.files S.through S.most S.faults result space.old space.new }
{
    let mut links = Items::new(alloc);
    let mut ahead = Vec::new(alloc);
    ahead.push(head.wrapping_add(shape.root))?;
    let mut left = TREE_LINKS;
    while left > 0 {
        let Some(at) = ahead.pop() else {
            return Ok(links);
        };
        let link = read_word(space, at, steps)?;
        push_link(&mut links, &mut ahead, shape, link)?;
        left -= 1;
    }
    Ok(links)
}

// The address of the second of some links that lead to a node.
pub(crate) fn second_to(links: &Items<VWord>, node: u64) -> Option<u64>
    ensures { result ≡ leading_to node 1 links.now }
{
    let mut others: u32 = 1;
    for link in links.as_slice() {
        if link.value == node {
            if others == 0 {
                return Some(link.va);
            }
            others -= 1;
        }
    }
    None
}
