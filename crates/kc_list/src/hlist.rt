// Hash chains.
ghost use Rattle.std.specs.Prelude.{◌≡◌, ℕ, List, ◌+◌, ◌*◌, ◌≤◌, length, Ok, IfOk, IfSome};
ghost use Rattle.std.specs.Bool.{OnTrue};
ghost use Rattle.kc_memory.specs.Stays.{SpaceStays};
ghost use Rattle.kc_memory.specs.Translation.{vword};
ghost use Rattle.kc_found.specs.FiniteLists.{HChain, NoHChain};
ghost use Rattle.kc_found.specs.HashChains.{hash_chain, hash_links, hash_site, hash_walk};
ghost use Rattle.kc_found.specs.Nodes.{at_offset, is_poison, one_taken, two_taken};
ghost use Rattle.kc_found.specs.Walks.{CountsWalkFaults, IsNamed, OnBroken, TakesAs, WalksAs, WithinSteps};
ghost use Rattle.kc_list.specs.Near.{EndsSoon};

use crate::pass::Pass;
use crate::words::{enter_both, enter_word, is_poison};
use kc_found::{Asked, Claims, HShape, Rule, Space, VWord, WalkStop, Walked, broken_at, push_node};
use kc_word::Steps;
use std::alloc::Global;
use std::sync::ledger::Ledger;

// Reads and takes the head's word `first`.
fn enter_head<S: Space, L: Ledger>(
    pass: &Pass<HShape>,
    space: &mut S,
    claims: &mut Claims,
    steps: &mut Steps<L>,
) -> Result<VWord, WalkStop>
    ensures word { IfOk result (λ w. IfSome (S.image space.old) (λ i. vword i (at_offset pass.now.asked.start pass.now.shape.first) ≡ Ok w)) }
    ensures site { TakesAs (λ i. one_taken pass.now.asked None (vword i (at_offset pass.now.asked.start pass.now.shape.first))) claims.old claims.new (S.image space.old) result }
    ensures named { IsNamed result pass.now.asked.audit pass.now.asked.start }
    ensures steps { steps.new ≤ steps.old + S.most space.old }

    ensures stays { SpaceStays S.image S.files S.through S.most space.old space.new }
    ensures cause { CountsWalkFaults result (S.faults space.old) (S.faults space.new) }
{
    let first = pass.asked.start.wrapping_add(pass.shape.first);
    enter_word(pass, space, claims, first, None, steps)
}

// Reads and takes the words `next` and `pprev` of the node that a pointer leads to.
fn enter_links<S: Space, L: Ledger>(
    pass: &Pass<HShape>,
    space: &mut S,
    claims: &mut Claims,
    from: VWord,
    steps: &mut Steps<L>,
) -> Result<(VWord, VWord), WalkStop>
    ensures links { IfOk result (λ p. IfSome (S.image space.old) (λ i. hash_links (vword i) pass.now.shape from.value ≡ Ok p)) }
    ensures site { TakesAs (λ i. two_taken pass.now.asked (Some from) (hash_links (vword i) pass.now.shape from.value)) claims.old claims.new (S.image space.old) result }
    ensures named { IsNamed result pass.now.asked.audit pass.now.asked.start }
    ensures steps { steps.new ≤ steps.old + 2 * S.most space.old }

    ensures stays { SpaceStays S.image S.files S.through S.most space.old space.new }
    ensures cause { CountsWalkFaults result (S.faults space.old) (S.faults space.new) }
{
    let next = from.value.wrapping_add(pass.shape.next);
    let pprev = from.value.wrapping_add(pass.shape.pprev);
    enter_both(pass, space, claims, next, pprev, Some(from), steps)
}

// Enters the node that a pointer leads to, and gives its `next` and `pprev`.
fn enter_node<S: Space, L: Ledger>(
    pass: &Pass<HShape>,
    space: &mut S,
    claims: &mut Claims,
    from: VWord,
    steps: &mut Steps<L>,
) -> Result<(VWord, VWord), WalkStop>
    ensures links { IfOk result (λ p. IfSome (S.image space.old) (λ i. hash_links (vword i) pass.now.shape from.value ≡ Ok p)) }
    ensures site { TakesAs (λ i. hash_site pass.now.asked (hash_links (vword i) pass.now.shape from.value) from) claims.old claims.new (S.image space.old) result }
    ensures named { IsNamed result pass.now.asked.audit pass.now.asked.start }
    ensures steps { steps.new ≤ steps.old + 2 * S.most space.old }
    // K is told by the pointer: no word is read then.
    ensures unread { OnTrue (is_poison from.value) (steps.new ≡ steps.old) }

    ensures stays { SpaceStays S.image S.files S.through S.most space.old space.new }
    ensures cause { CountsWalkFaults result (S.faults space.old) (S.faults space.new) }
{
    if is_poison(from.value) {
        return Err(broken_at(pass.alloc, &pass.asked, Rule::K, &from, None));
    }
    let links = match enter_links(pass, space, claims, from, steps) {
        Ok(links) => links,
        Err(stop) => return Err(stop),
    };
    if links.1.value != from.va {
        return Err(broken_at(pass.alloc, &pass.asked, Rule::H1, &links.1, Some(from.va)));
    }
    Ok(links)
}

/// The nodes of the hash chain with a head at virtual address `head`, in the order of `next`. The audit's number is
/// named where the chain breaks a rule.
///
/// # Errors
///
/// The first violation, exactly where the chain has one; a failure of the space, whose count of faults then rose; or
/// out of memory.
pub fn hchain<S: Space, L: Ledger>(
    alloc: Global,
    space: &mut S,
    shape: &HShape,
    head: u64,
    audit: u32,
    steps: &mut Steps<L>,
) -> Result<Walked, WalkStop>
    ensures walk { WalksAs (λ w. w) (λ image. hash_walk image shape.now audit head) (S.image space.old) result }
    ensures finite { IfOk result (λ ns. IfSome (S.image space.old) (λ image. HChain (vword image) shape.now head ns)) }
    ensures none { OnBroken result (IfSome (S.image space.old) (λ image. NoHChain (vword image) shape.now head)) }
    ensures named { IsNamed result audit head }
    ensures bound { WithinSteps (S.image space.old) (S.most space.old) steps.old steps.new }
    // One word at the head and two at each node, and no other; and up to a violation no more than those of its site.
    ensures words { IfOk result (λ ns. steps.new ≤ steps.old + S.most space.old * (1 + 2 * length ns)) }
    ensures soon { OnBroken result (EndsSoon (λ i. hash_chain (vword i) shape.now (record { audit = audit; start = head }))
        (S.image space.old) (S.most space.old) steps.old steps.new) }

    ensures stays { SpaceStays S.image S.files S.through S.most space.old space.new }
    ensures cause { CountsWalkFaults result (S.faults space.old) (S.faults space.new) }
{
    let pass = Pass {
        alloc,
        asked: Asked { audit, start: head },
        shape: *shape,
    };
    let mut claims = Claims::new(alloc);
    let mut walked = Walked::new(alloc);
    let mut from = match enter_head(&pass, space, &mut claims, steps) {
        Ok(first) => first,
        Err(stop) => return Err(stop),
    };
    while from.value != 0 {
        let links = match enter_node(&pass, space, &mut claims, from, steps) {
            Ok(links) => links,
            Err(stop) => return Err(stop),
        };
        push_node(&mut walked, from.value)?;
        from = links.0;
    }
    Ok(walked)
}
