// The site of a node.
ghost use Rattle.std.specs.Prelude.{◌≡◌, ◌+◌, ◌*◌, ◌^◌, ◌<◌, ◌≤◌, length, Ok, IfNone, IfOk, IfSome, OnErr, OnOk};
ghost use Rattle.kc_memory.specs.Stays.{SpaceStays};
ghost use Rattle.kc_memory.specs.Translation.{vword};
ghost use Rattle.kc_found.specs.RbTrees.{course_of, key_of, links_of, node_site, reads_of};
ghost use Rattle.kc_found.specs.Trials.{passed};
ghost use Rattle.kc_found.specs.Walks.{CountsWalkFaults, IsNamed, TakesAs};
ghost use Rattle.kc_rb.specs.Steps.{before_key, key_words};

use crate::reading::{enter_links, read_key};
use crate::rules::{judge_key, judge_links};
use kc_found::{Asked, Claims, RbKey, RbLinks, RbShape, RbSpot, Space, WalkStop, stopped};
use kc_word::Steps;
use std::alloc::Global;
use std::sync::ledger::Ledger;

/// Enters the node at a position: reads its three words and its key, tests the rules R1 to R4, and takes its words. Gives its
/// words and its key, or none where the tree has no keys.
///
/// # Errors
///
/// The first violation at the node, a failure of the space, whose count of faults then rose, or out of memory.
pub fn enter_node<S: Space, L: Ledger>(
    alloc: Global,
    space: &mut S,
    shape: &RbShape,
    asked: &Asked,
    claims: &mut Claims,
    spot: &RbSpot,
    steps: &mut Steps<L>,
) -> Result<(RbLinks, Option<RbKey>), WalkStop>
    ensures links { IfOk result (λ p. IfSome (S.image space.old) (λ i. links_of (vword i) shape.now spot.now.link.value ≡ Ok p.0)) }
    ensures key { IfOk result (λ p. IfSome (S.image space.old) (λ i. key_of (reads_of i) shape.now spot.now.link.value ≡ Ok p.1)) }
    ensures site { TakesAs (λ i. node_site (course_of i shape.now asked.now) spot.now) claims.old claims.new (S.image space.old) result }
    ensures named { IsNamed result asked.now.audit asked.now.start }
    ensures steps { steps.new ≤ steps.old + 5 * S.most space.old }
    // Three words and those that hold the key; and only the three where one of them is missed or was taken, where they
    // break R1 to R3, or where the tree has no keys.
    ensures words { IfOk result (λ p. steps.new ≤ steps.old + (3 + key_words p.1) * S.most space.old) }
    ensures unread { IfSome (S.image space.old) (λ i. OnErr (passed claims.old (before_key (course_of i shape.now asked.now) spot.now)) (steps.new ≤ steps.old + 3 * S.most space.old)) }
    ensures keyless { IfNone shape.now.key (steps.new ≤ steps.old + 3 * S.most space.old) }
    ensures more { OnOk result (length claims.new ≡ length claims.old + 3) }
    ensures fits { OnOk result (length claims.new < 2 ^ 64) }

    ensures stays { SpaceStays S.image S.files S.through S.most space.old space.new }
    ensures cause { CountsWalkFaults result (S.faults space.old) (S.faults space.new) }
{
    let links = enter_links(alloc, space, shape, asked, claims, spot.link, steps)?;
    judge_links(alloc, asked, spot, &links)?;
    let key = match read_key(space, shape, spot.link.value, steps) {
        Ok(key) => key,
        Err(stop) => return Err(stopped(alloc, asked, stop, Some(spot.link))),
    };
    judge_key(alloc, asked, shape.unique, spot, &key)?;
    Ok((links, key))
}
