// Whose bytes a node or an object has.
ghost use Rattle.std.specs.Prelude.{◌≡◌, IfOk, IfSome};
ghost use Rattle.kc_repair.specs.Suspect.Answers.{OnlyReads};
ghost use Rattle.kc_cause.specs.Copies.{above_sign, again_of, again_sign, agree_at, below_sign, child_sign, comes_back, found_sign, has_before, has_child, has_more, has_words, heads_sign, is_again, is_copied_link, is_copied_node, leads_here, link_sign, links_sign, near_sign, next_sign, node_sign, own_sign, parent_sign, ring_sign, shares_word, tree_sign, word_sign};

use crate::signs::{
    Sign, holds, is_of_links, is_of_list, is_of_parent, list_sign, read_number, same_at, sign_if,
};
use kc_found::{Found, ReadFailed, Space};
use kc_word::Steps;
use std::sync::ledger::Ledger;

// The words near a violation that are looked at, from 512 bytes before its own one on.
const NEAR_WORDS: u64 = 128;

// How many pointers of a way back are looked at.
const BACK_LINKS: u64 = 65_536;

// Whether two virtual addresses hold the same number.
fn agree_at<M: Space, L: Ledger>(
    memory: &mut M,
    one: u64,
    other: u64,
    steps: &mut Steps<L>,
) -> Result<bool, ReadFailed>
    ensures agree { IfOk result (λ is. IfSome (M.image memory.old) (λ image. is ≡ agree_at image one other)) }
    ensures reads { OnlyReads M.image M.files M.through M.most M.faults result memory.old memory.new }
{
    match read_number(memory, other, steps)? {
        Some(number) => holds(memory, one, number, steps),
        None => Ok(false),
    }
}

// Whether two nodes of trees have the same words.
fn has_words<M: Space, L: Ledger>(
    memory: &mut M,
    node: u64,
    other: u64,
    steps: &mut Steps<L>,
) -> Result<bool, ReadFailed>
    ensures has { IfOk result (λ is. IfSome (M.image memory.old) (λ image. is ≡ has_words image node other)) }
    ensures reads { OnlyReads M.image M.files M.through M.most M.faults result memory.old memory.new }
{
    if !agree_at(memory, node, other, steps)? {
        return Ok(false);
    }
    if !agree_at(memory, node.wrapping_add(8), other.wrapping_add(8), steps)? {
        return Ok(false);
    }
    agree_at(memory, node.wrapping_add(16), other.wrapping_add(16), steps)
}

// Whether both lead to a same node below them.
fn has_child<M: Space, L: Ledger>(
    memory: &mut M,
    node: u64,
    other: u64,
    steps: &mut Steps<L>,
) -> Result<bool, ReadFailed>
    ensures has { IfOk result (λ is. IfSome (M.image memory.old) (λ image. is ≡ has_child image node other)) }
    ensures reads { OnlyReads M.image M.files M.through M.most M.faults result memory.old memory.new }
{
    if same_at(memory, node.wrapping_add(8), other.wrapping_add(8), steps)? {
        return Ok(true);
    }
    same_at(memory, node.wrapping_add(16), other.wrapping_add(16), steps)
}

// Whether the two words before them are the same.
fn has_before<M: Space, L: Ledger>(
    memory: &mut M,
    node: u64,
    other: u64,
    steps: &mut Steps<L>,
) -> Result<bool, ReadFailed>
    ensures has { IfOk result (λ is. IfSome (M.image memory.old) (λ image. is ≡ has_before image node other)) }
    ensures reads { OnlyReads M.image M.files M.through M.most M.faults result memory.old memory.new }
{
    if !same_at(memory, node.wrapping_sub(8), other.wrapping_sub(8), steps)? {
        return Ok(false);
    }
    same_at(memory, node.wrapping_sub(16), other.wrapping_sub(16), steps)
}

// Whether one of both holds.
fn has_more<M: Space, L: Ledger>(
    memory: &mut M,
    node: u64,
    other: u64,
    steps: &mut Steps<L>,
) -> Result<bool, ReadFailed>
    ensures has { IfOk result (λ is. IfSome (M.image memory.old) (λ image. is ≡ has_more image node other)) }
    ensures reads { OnlyReads M.image M.files M.through M.most M.faults result memory.old memory.new }
{
    if has_child(memory, node, other, steps)? {
        return Ok(true);
    }
    has_before(memory, node, other, steps)
}

// Whether a tree's node has the bytes of another one.
fn is_copied_node<M: Space, L: Ledger>(
    memory: &mut M,
    node: u64,
    other: u64,
    steps: &mut Steps<L>,
) -> Result<bool, ReadFailed>
    ensures copied { IfOk result (λ is. IfSome (M.image memory.old) (λ image. is ≡ is_copied_node image node other)) }
    ensures reads { OnlyReads M.image M.files M.through M.most M.faults result memory.old memory.new }
{
    if other == node {
        return Ok(false);
    }
    if !has_words(memory, node, other, steps)? {
        return Ok(false);
    }
    has_more(memory, node, other, steps)
}

fn node_sign<M: Space, L: Ledger>(
    memory: &mut M,
    node: u64,
    other: u64,
    steps: &mut Steps<L>,
) -> Result<Option<Sign>, ReadFailed>
    ensures sign { IfOk result (λ sign. IfSome (M.image memory.old) (λ image. sign ≡ node_sign image node other)) }
    ensures reads { OnlyReads M.image M.files M.through M.most M.faults result memory.old memory.new }
{
    let copied = is_copied_node(memory, node, other, steps)?;
    Ok(sign_if(copied, Sign::Copied(other)))
}

// What a tree's node shows beside the one that a link leads to.
fn child_sign<M: Space, L: Ledger>(
    memory: &mut M,
    node: u64,
    link: u64,
    steps: &mut Steps<L>,
) -> Result<Option<Sign>, ReadFailed>
    ensures sign { IfOk result (λ sign. IfSome (M.image memory.old) (λ image. sign ≡ child_sign image node link)) }
    ensures reads { OnlyReads M.image M.files M.through M.most M.faults result memory.old memory.new }
{
    match read_number(memory, link, steps)? {
        Some(other) => node_sign(memory, node, other, steps),
        None => Ok(None),
    }
}

// And beside those below a parent.
fn below_sign<M: Space, L: Ledger>(
    memory: &mut M,
    node: u64,
    parent: u64,
    steps: &mut Steps<L>,
) -> Result<Option<Sign>, ReadFailed>
    ensures sign { IfOk result (λ sign. IfSome (M.image memory.old) (λ image. sign ≡ below_sign image node parent)) }
    ensures reads { OnlyReads M.image M.files M.through M.most M.faults result memory.old memory.new }
{
    match child_sign(memory, node, parent.wrapping_add(8), steps)? {
        Some(sign) => Ok(Some(sign)),
        None => child_sign(memory, node, parent.wrapping_add(16), steps),
    }
}

fn above_sign<M: Space, L: Ledger>(
    memory: &mut M,
    above: Option<u64>,
    parent: u64,
    steps: &mut Steps<L>,
) -> Result<Option<Sign>, ReadFailed>
    ensures sign { IfOk result (λ sign. IfSome (M.image memory.old) (λ image. sign ≡ above_sign image above parent)) }
    ensures reads { OnlyReads M.image M.files M.through M.most M.faults result memory.old memory.new }
{
    match above {
        Some(node) => node_sign(memory, node, parent, steps),
        None => Ok(None),
    }
}

// What a tree's node shows, by its own word with the parent.
fn parent_sign<M: Space, L: Ledger>(
    memory: &mut M,
    found: &Found,
    word: u64,
    steps: &mut Steps<L>,
) -> Result<Option<Sign>, ReadFailed>
    ensures sign { IfOk result (λ sign. IfSome (M.image memory.old) (λ image. sign ≡ parent_sign image found.now word)) }
    ensures reads { OnlyReads M.image M.files M.through M.most M.faults result memory.old memory.new }
{
    let parent = word / 4 * 4;
    match below_sign(memory, found.at, parent, steps)? {
        Some(sign) => Ok(Some(sign)),
        None => above_sign(memory, found.expected, parent, steps),
    }
}

fn tree_sign<M: Space, L: Ledger>(
    memory: &mut M,
    found: &Found,
    steps: &mut Steps<L>,
) -> Result<Option<Sign>, ReadFailed>
    ensures sign { IfOk result (λ sign. IfSome (M.image memory.old) (λ image. sign ≡ tree_sign image found.now)) }
    ensures reads { OnlyReads M.image M.files M.through M.most M.faults result memory.old memory.new }
{
    match read_number(memory, found.at, steps)? {
        Some(word) => parent_sign(memory, found, word, steps),
        None => Ok(None),
    }
}

// Whether `prev` of the words at an address leads to a node.
fn leads_here<M: Space, L: Ledger>(
    memory: &mut M,
    node: u64,
    prev: Option<u64>,
    steps: &mut Steps<L>,
) -> Result<bool, ReadFailed>
    ensures leads { IfOk result (λ is. IfSome (M.image memory.old) (λ image. is ≡ leads_here image node prev)) }
    ensures reads { OnlyReads M.image M.files M.through M.most M.faults result memory.old memory.new }
{
    match prev {
        Some(prev) => holds(memory, prev, node, steps),
        None => Ok(false),
    }
}

// Whether two nodes of lists share a word.
fn shares_word(one: u64, other: u64) -> bool
    ensures { result ≡ shares_word one other }
{
    one == other || one.wrapping_add(8) == other || other.wrapping_add(8) == one
}

// Whether the words at an address are those of a list's node elsewhere, to which the neighbours lead.
fn is_copied_link<M: Space, L: Ledger>(
    memory: &mut M,
    at: u64,
    other: u64,
    steps: &mut Steps<L>,
) -> Result<bool, ReadFailed>
    ensures copied { IfOk result (λ is. IfSome (M.image memory.old) (λ image. is ≡ is_copied_link image at other)) }
    ensures reads { OnlyReads M.image M.files M.through M.most M.faults result memory.old memory.new }
{
    if shares_word(at, other) {
        return Ok(false);
    }
    if !same_at(memory, at, other, steps)? {
        return Ok(false);
    }
    if !same_at(memory, at.wrapping_add(8), other.wrapping_add(8), steps)? {
        return Ok(false);
    }
    let prev = read_number(memory, at.wrapping_add(8), steps)?;
    leads_here(memory, other, prev, steps)
}

fn link_sign<M: Space, L: Ledger>(
    memory: &mut M,
    at: u64,
    other: u64,
    steps: &mut Steps<L>,
) -> Result<Option<Sign>, ReadFailed>
    ensures sign { IfOk result (λ sign. IfSome (M.image memory.old) (λ image. sign ≡ link_sign image at other)) }
    ensures reads { OnlyReads M.image M.files M.through M.most M.faults result memory.old memory.new }
{
    let copied = is_copied_link(memory, at, other, steps)?;
    Ok(sign_if(copied, Sign::Copied(other)))
}

// By the node after these words.
fn next_sign<M: Space, L: Ledger>(
    memory: &mut M,
    at: u64,
    next: u64,
    steps: &mut Steps<L>,
) -> Result<Option<Sign>, ReadFailed>
    ensures sign { IfOk result (λ sign. IfSome (M.image memory.old) (λ image. sign ≡ next_sign image at next)) }
    ensures reads { OnlyReads M.image M.files M.through M.most M.faults result memory.old memory.new }
{
    match read_number(memory, next.wrapping_add(8), steps)? {
        Some(other) => link_sign(memory, at, other, steps),
        None => Ok(None),
    }
}

fn word_sign<M: Space, L: Ledger>(
    memory: &mut M,
    at: u64,
    steps: &mut Steps<L>,
) -> Result<Option<Sign>, ReadFailed>
    ensures sign { IfOk result (λ sign. IfSome (M.image memory.old) (λ image. sign ≡ word_sign image at)) }
    ensures reads { OnlyReads M.image M.files M.through M.most M.faults result memory.old memory.new }
{
    match read_number(memory, at, steps)? {
        Some(next) => next_sign(memory, at, next, steps),
        None => Ok(None),
    }
}

// The first of so many words from an address on that are those of a list's node elsewhere.
fn heads_sign<M: Space, L: Ledger>(
    memory: &mut M,
    first: u64,
    words: u64,
    steps: &mut Steps<L>,
) -> Result<Option<Sign>, ReadFailed>
    ensures sign { IfOk result (λ sign. IfSome (M.image memory.old) (λ image. sign ≡ heads_sign words image first)) }
    ensures reads { OnlyReads M.image M.files M.through M.most M.faults result memory.old memory.new }
{
    let mut at = first;
    let mut left = words;
    while left > 0 {
        let sign = word_sign(memory, at, steps)?;
        if sign.is_some() {
            return Ok(sign);
        }
        at = at.wrapping_add(8);
        left -= 1;
    }
    Ok(None)
}

// Of those near a violation.
fn near_sign<M: Space, L: Ledger>(
    memory: &mut M,
    at: u64,
    steps: &mut Steps<L>,
) -> Result<Option<Sign>, ReadFailed>
    ensures sign { IfOk result (λ sign. IfSome (M.image memory.old) (λ image. sign ≡ near_sign image at)) }
    ensures reads { OnlyReads M.image M.files M.through M.most M.faults result memory.old memory.new }
{
    let word = at / 8 * 8;
    heads_sign(memory, word.wrapping_sub(512), NEAR_WORDS, steps)
}

// Whether the way back by `prev` comes to a node before it comes to another one.
fn comes_back<M: Space, L: Ledger>(
    memory: &mut M,
    node: u64,
    above: u64,
    first: u64,
    steps: &mut Steps<L>,
) -> Result<bool, ReadFailed>
    ensures comes { IfOk result (λ is. IfSome (M.image memory.old) (λ image. is ≡ comes_back 65536 image node above first)) }
    ensures reads { OnlyReads M.image M.files M.through M.most M.faults result memory.old memory.new }
{
    let mut here = first;
    let mut left = BACK_LINKS;
    while left > 0 {
        let Some(back) = read_number(memory, here.wrapping_add(8), steps)? else {
            return Ok(false);
        };
        if back == node {
            return Ok(true);
        }
        if back == above {
            return Ok(false);
        }
        here = back;
        left -= 1;
    }
    Ok(false)
}

// Whether a ring's node was added once more further on.
fn is_again<M: Space, L: Ledger>(
    memory: &mut M,
    node: u64,
    above: u64,
    prev: u64,
    steps: &mut Steps<L>,
) -> Result<bool, ReadFailed>
    ensures again { IfOk result (λ is. IfSome (M.image memory.old) (λ image. is ≡ is_again image node above prev)) }
    ensures reads { OnlyReads M.image M.files M.through M.most M.faults result memory.old memory.new }
{
    if prev == node {
        return Ok(false);
    }
    if !holds(memory, prev, node, steps)? {
        return Ok(false);
    }
    comes_back(memory, node, above, prev, steps)
}

fn again_sign<M: Space, L: Ledger>(
    memory: &mut M,
    node: u64,
    prev: u64,
    above: u64,
    steps: &mut Steps<L>,
) -> Result<Option<Sign>, ReadFailed>
    ensures sign { IfOk result (λ sign. IfSome (M.image memory.old) (λ image. sign ≡ again_sign image node prev above)) }
    ensures reads { OnlyReads M.image M.files M.through M.most M.faults result memory.old memory.new }
{
    let again = is_again(memory, node, above, prev, steps)?;
    Ok(sign_if(again, Sign::Twice(node)))
}

fn ring_sign<M: Space, L: Ledger>(
    memory: &mut M,
    found: &Found,
    prev: u64,
    steps: &mut Steps<L>,
) -> Result<Option<Sign>, ReadFailed>
    ensures sign { IfOk result (λ sign. IfSome (M.image memory.old) (λ image. sign ≡ ring_sign image found.now prev)) }
    ensures reads { OnlyReads M.image M.files M.through M.most M.faults result memory.old memory.new }
{
    match found.expected {
        Some(above) => again_sign(memory, found.at.wrapping_sub(8), prev, above, steps),
        None => Ok(None),
    }
}

fn again_of<M: Space, L: Ledger>(
    memory: &mut M,
    found: &Found,
    steps: &mut Steps<L>,
) -> Result<Option<Sign>, ReadFailed>
    ensures sign { IfOk result (λ sign. IfSome (M.image memory.old) (λ image. sign ≡ again_of image found.now)) }
    ensures reads { OnlyReads M.image M.files M.through M.most M.faults result memory.old memory.new }
{
    match read_number(memory, found.at, steps)? {
        Some(prev) => ring_sign(memory, found, prev, steps),
        None => Ok(None),
    }
}

// What a ring's or a hash chain's node shows.
fn links_sign<M: Space, L: Ledger>(
    memory: &mut M,
    found: &Found,
    steps: &mut Steps<L>,
) -> Result<Option<Sign>, ReadFailed>
    ensures sign { IfOk result (λ sign. IfSome (M.image memory.old) (λ image. sign ≡ links_sign image found.now)) }
    ensures reads { OnlyReads M.image M.files M.through M.most M.faults result memory.old memory.new }
{
    if let Some(sign) = list_sign(memory, found, steps)? {
        return Ok(Some(sign));
    }
    if is_of_list(found.rule) {
        return again_of(memory, found, steps);
    }
    Ok(None)
}

// What a violation's own node shows.
fn own_sign<M: Space, L: Ledger>(
    memory: &mut M,
    found: &Found,
    steps: &mut Steps<L>,
) -> Result<Option<Sign>, ReadFailed>
    ensures sign { IfOk result (λ sign. IfSome (M.image memory.old) (λ image. sign ≡ own_sign image found.now)) }
    ensures reads { OnlyReads M.image M.files M.through M.most M.faults result memory.old memory.new }
{
    if is_of_links(found.rule) {
        return links_sign(memory, found, steps);
    }
    if is_of_parent(found.rule) {
        return tree_sign(memory, found, steps);
    }
    Ok(None)
}

/// What the words beside a violation show: whose bytes they are, or that a node was added once more.
///
/// # Errors
///
/// A failed call of the store; no memory was left.
pub(crate) fn found_sign<M: Space, L: Ledger>(
    memory: &mut M,
    found: &Found,
    steps: &mut Steps<L>,
) -> Result<Option<Sign>, ReadFailed>
    ensures sign { IfOk result (λ sign. IfSome (M.image memory.old) (λ image. sign ≡ found_sign image found.now)) }
    ensures reads { OnlyReads M.image M.files M.through M.most M.faults result memory.old memory.new }
{
    match own_sign(memory, found, steps)? {
        Some(sign) => Ok(Some(sign)),
        None => near_sign(memory, found.at, steps),
    }
}
