// The words of heads and nodes, and keys.
ghost use Rattle.std.specs.Prelude.{◌≡◌, ℕ, ◌+◌, ◌-◌, ◌*◌, ◌%◌, ◌^◌, ◌<◌, ◌≤◌, length, Ok, Some, None, IfNone, IfOk, IfSome, OnOk};
ghost use Rattle.kc_memory.specs.Bits.{first_bit, word_of};
ghost use Rattle.kc_memory.specs.Space.{AnswersAs};
ghost use Rattle.kc_memory.specs.Stays.{CountsFaults, SpaceStays};
ghost use Rattle.kc_memory.specs.Translation.{vword};
ghost use Rattle.kc_found.specs.RbTrees.{byte_of as byte_at, element_of, head_claims, head_of, key_at, key_of, leftmost_claims, leftmost_of, links_of, node_claims, reads_of, where_ok};
ghost use Rattle.kc_found.specs.Trials.{passed};
ghost use Rattle.kc_found.specs.Violations.{missed};
ghost use Rattle.kc_found.specs.Walks.{CountsWalkFaults, IsNamed, IsWalk, OnWalkFault, TakesAs};
ghost use Rattle.kc_rb.specs.Steps.{KeyWithin};

use kc_found::{
    Asked, Claims, RbHead, RbKey, RbLinks, RbShape, Space, Stop, VWord, WalkStop, read_bits,
    stopped, take_word,
};
use kc_word::{Bits, Steps};
use std::alloc::Global;
use std::sync::ledger::Ledger;

// The three words of a node.
fn read_links<S: Space, L: Ledger>(
    space: &mut S,
    shape: &RbShape,
    node: u64,
    steps: &mut Steps<L>,
) -> Result<RbLinks, Stop>
    ensures words { AnswersAs (λ i. links_of (vword i) shape.now node) (S.image space.old) result }
    ensures steps { steps.new ≤ steps.old + 3 * S.most space.old }

    ensures stays { SpaceStays S.image S.files S.through S.most space.old space.new }
    ensures cause { CountsFaults result (S.faults space.old) (S.faults space.new) }
{
    let parent = space.word(node.wrapping_add(shape.parent_color), steps)?;
    let right = space.word(node.wrapping_add(shape.right), steps)?;
    let left = space.word(node.wrapping_add(shape.left), steps)?;
    Ok(RbLinks {
        parent,
        right,
        left,
    })
}

// The word of the first node, where the root is a cached one.
fn read_leftmost<S: Space, L: Ledger>(
    space: &mut S,
    start: u64,
    leftmost: Option<u64>,
    steps: &mut Steps<L>,
) -> Result<Option<VWord>, Stop>
    ensures words { AnswersAs (λ i. leftmost_of (vword i) start leftmost) (S.image space.old) result }
    ensures steps { steps.new ≤ steps.old + S.most space.old }
    ensures unread { IfNone leftmost (steps.new ≡ steps.old) }

    ensures stays { SpaceStays S.image S.files S.through S.most space.old space.new }
    ensures cause { CountsFaults result (S.faults space.old) (S.faults space.new) }
{
    match leftmost {
        Some(offset) => {
            let word = space.word(start.wrapping_add(offset), steps)?;
            Ok(Some(word))
        }
        None => Ok(None),
    }
}

// The words of a root.
fn read_head<S: Space, L: Ledger>(
    space: &mut S,
    shape: &RbShape,
    start: u64,
    steps: &mut Steps<L>,
) -> Result<RbHead, Stop>
    ensures words { AnswersAs (λ i. head_of (vword i) shape.now start) (S.image space.old) result }
    ensures steps { steps.new ≤ steps.old + 2 * S.most space.old }
    ensures single { IfNone shape.now.leftmost (steps.new ≤ steps.old + S.most space.old) }

    ensures stays { SpaceStays S.image S.files S.through S.most space.old space.new }
    ensures cause { CountsFaults result (S.faults space.old) (S.faults space.new) }
{
    let root = space.word(start.wrapping_add(shape.root), steps)?;
    let leftmost = read_leftmost(space, start, shape.leftmost, steps)?;
    Ok(RbHead { root, leftmost })
}

// The address of the byte that has a number's first bit.
fn byte_of(at: u64, bit: u64) -> u64
    ensures { result ≡ byte_at at bit }
{
    ((u128::from(at) * 8 + u128::from(bit)) % (1 << 67) / 8) as u64
}

// The key of an element, where there is one.
fn read_key_at<S: Space, L: Ledger>(
    space: &mut S,
    element: u64,
    key: Option<Bits>,
    steps: &mut Steps<L>,
) -> Result<Option<RbKey>, Stop>
    ensures key { AnswersAs (λ i. key_at (reads_of i) element key) (S.image space.old) result }
    ensures steps { steps.new ≤ steps.old + 2 * S.most space.old }
    ensures unread { IfNone key (steps.new ≡ steps.old) }
    ensures one_word { IfSome key (λ b. KeyWithin result (word_of (first_bit element b.bit)) (S.most space.old) steps.old steps.new) }

    ensures stays { SpaceStays S.image S.files S.through S.most space.old space.new }
    ensures cause { CountsFaults result (S.faults space.old) (S.faults space.new) }
{
    match key {
        Some(bits) => {
            let number = read_bits(space, element, bits, steps)?;
            Ok(Some(RbKey {
                number,
                at: byte_of(element, bits.bit),
            }))
        }
        None => Ok(None),
    }
}

// The key of a node's element, where the shape names one.
pub(crate) fn read_key<S: Space, L: Ledger>(
    space: &mut S,
    shape: &RbShape,
    node: u64,
    steps: &mut Steps<L>,
) -> Result<Option<RbKey>, Stop>
    ensures key { AnswersAs (λ i. key_of (reads_of i) shape.now node) (S.image space.old) result }
    ensures steps { steps.new ≤ steps.old + 2 * S.most space.old }
    ensures unread { IfNone shape.now.key (steps.new ≡ steps.old) }
    ensures one_word { IfSome shape.now.key (λ b. KeyWithin result (word_of (first_bit (element_of shape.now node) b.bit)) (S.most space.old) steps.old steps.new) }

    ensures stays { SpaceStays S.image S.files S.through S.most space.old space.new }
    ensures cause { CountsFaults result (S.faults space.old) (S.faults space.new) }
{
    read_key_at(space, node.wrapping_sub(shape.link), shape.key, steps)
}

// Takes the word of the first node, where there is one.
fn take_leftmost(
    alloc: Global,
    claims: &mut Claims,
    asked: &Asked,
    leftmost: &Option<VWord>,
) -> Result<(), WalkStop>
    ensures taken { IsWalk (λ _. claims.new) (passed {X = ℕ} claims.old (leftmost_claims asked.now leftmost.now)) result }
    ensures named { IsNamed result asked.now.audit asked.now.start }
    ensures no_fault { OnWalkFault result ⊥ }
    ensures fits { length claims.old < 2 ^ 64 → OnOk result (length claims.new < 2 ^ 64) }
{
    match leftmost {
        Some(word) => take_word(alloc, claims, asked, word),
        None => Ok(()),
    }
}

/// Reads and takes the words of a root, whose virtual address is the start of the audit that asks.
///
/// # Errors
///
/// M1 to M6 where a word can't be read, A where it was taken, a failure of the space, whose count of faults then rose, or
/// out of memory.
pub fn enter_head<S: Space, L: Ledger>(
    alloc: Global,
    space: &mut S,
    shape: &RbShape,
    asked: &Asked,
    claims: &mut Claims,
    steps: &mut Steps<L>,
) -> Result<RbHead, WalkStop>
    ensures head { IfOk result (λ h. IfSome (S.image space.old) (λ i. head_of (vword i) shape.now asked.now.start ≡ Ok h)) }
    ensures site { TakesAs (λ i. where_ok (head_of (vword i) shape.now asked.now.start) (missed asked.now None) (head_claims asked.now)) claims.old claims.new (S.image space.old) result }
    ensures named { IsNamed result asked.now.audit asked.now.start }
    ensures steps { steps.new ≤ steps.old + 2 * S.most space.old }
    // No second word where the root isn't a cached one.
    ensures single { IfNone shape.now.leftmost (steps.new ≤ steps.old + S.most space.old) }
    ensures fits { OnOk result (length claims.new < 2 ^ 64) }

    ensures stays { SpaceStays S.image S.files S.through S.most space.old space.new }
    ensures cause { CountsWalkFaults result (S.faults space.old) (S.faults space.new) }
{
    let head = match read_head(space, shape, asked.start, steps) {
        Ok(head) => head,
        Err(stop) => return Err(stopped(alloc, asked, stop, None)),
    };
    take_word(alloc, claims, asked, &head.root)?;
    take_leftmost(alloc, claims, asked, &head.leftmost)?;
    Ok(head)
}

// Reads and takes the words of the node that a pointer leads to.
pub(crate) fn enter_links<S: Space, L: Ledger>(
    alloc: Global,
    space: &mut S,
    shape: &RbShape,
    asked: &Asked,
    claims: &mut Claims,
    link: VWord,
    steps: &mut Steps<L>,
) -> Result<RbLinks, WalkStop>
    ensures links { IfOk result (λ n. IfSome (S.image space.old) (λ i. links_of (vword i) shape.now link.value ≡ Ok n)) }
    ensures site { TakesAs (λ i. where_ok (links_of (vword i) shape.now link.value) (missed asked.now (Some link)) (node_claims asked.now)) claims.old claims.new (S.image space.old) result }
    ensures named { IsNamed result asked.now.audit asked.now.start }
    ensures steps { steps.new ≤ steps.old + 3 * S.most space.old }
    ensures more { OnOk result (length claims.new ≡ length claims.old + 3) }
    ensures fits { OnOk result (length claims.new < 2 ^ 64) }

    ensures stays { SpaceStays S.image S.files S.through S.most space.old space.new }
    ensures cause { CountsWalkFaults result (S.faults space.old) (S.faults space.new) }
{
    let links = match read_links(space, shape, link.value, steps) {
        Ok(links) => links,
        Err(stop) => return Err(stopped(alloc, asked, stop, Some(link))),
    };
    take_word(alloc, claims, asked, &links.parent)?;
    take_word(alloc, claims, asked, &links.right)?;
    take_word(alloc, claims, asked, &links.left)?;
    Ok(links)
}
