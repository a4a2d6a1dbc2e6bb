// Rings.
ghost use Rattle.std.specs.Prelude.{◌≡◌, ℕ, List, ◌+◌, ◌*◌, ◌≤◌, ◌||◌, nat_eq, length, Ok, IfOk, IfSome};
ghost use Rattle.std.specs.Bool.{OnTrue};
ghost use Rattle.kc_memory.specs.Stays.{SpaceStays};
ghost use Rattle.kc_memory.specs.Translation.{vword};
ghost use Rattle.kc_found.specs.FiniteLists.{NoRing, Ring};
ghost use Rattle.kc_found.specs.Nodes.{is_poison, two_taken};
ghost use Rattle.kc_found.specs.Rings.{links, ring_chain, ring_site, ring_walk};
ghost use Rattle.kc_found.specs.Walks.{CountsWalkFaults, IsNamed, OnBroken, TakesAs, WalksAs, WithinSteps};
ghost use Rattle.kc_list.specs.Near.{EndsSoon};

use crate::pass::Pass;
use crate::words::{enter_both, is_poison};
use kc_found::{
    Asked, Claims, ListShape, Rule, Space, VWord, WalkStop, Walked, broken_at, push_node,
};
use kc_word::Steps;
use std::alloc::Global;
use std::sync::ledger::Ledger;

// Reads and takes the words `next` and `prev` of a node, to which `led` leads.
fn enter_links<S: Space, L: Ledger>(
    pass: &Pass<ListShape>,
    space: &mut S,
    claims: &mut Claims,
    node: u64,
    led: Option<VWord>,
    steps: &mut Steps<L>,
) -> Result<(VWord, VWord), WalkStop>
    ensures links { IfOk result (λ p. IfSome (S.image space.old) (λ i. links (vword i) pass.now.shape node ≡ Ok p)) }
    ensures site { TakesAs (λ i. two_taken pass.now.asked led (links (vword i) pass.now.shape node)) claims.old claims.new (S.image space.old) result }
    ensures named { IsNamed result pass.now.asked.audit pass.now.asked.start }
    ensures steps { steps.new ≤ steps.old + 2 * S.most space.old }

    ensures stays { SpaceStays S.image S.files S.through S.most space.old space.new }
    ensures cause { CountsWalkFaults result (S.faults space.old) (S.faults space.new) }
{
    let next = node.wrapping_add(pass.shape.next);
    let prev = node.wrapping_add(pass.shape.prev);
    enter_both(pass, space, claims, next, prev, led, steps)
}

// Enters the node that a pointer leads to from the node `before`, and gives its `next` and `prev`.
fn enter_node<S: Space, L: Ledger>(
    pass: &Pass<ListShape>,
    space: &mut S,
    claims: &mut Claims,
    from: VWord,
    before: u64,
    steps: &mut Steps<L>,
) -> Result<(VWord, VWord), WalkStop>
    ensures links { IfOk result (λ p. IfSome (S.image space.old) (λ i. links (vword i) pass.now.shape from.value ≡ Ok p)) }
    ensures site { TakesAs (λ i. ring_site pass.now.asked (links (vword i) pass.now.shape from.value) from before) claims.old claims.new (S.image space.old) result }
    ensures named { IsNamed result pass.now.asked.audit pass.now.asked.start }
    ensures steps { steps.new ≤ steps.old + 2 * S.most space.old }
    // N and K are told by the pointer: no word is read then.
    ensures unread { OnTrue (nat_eq from.value 0 || is_poison from.value) (steps.new ≡ steps.old) }

    ensures stays { SpaceStays S.image S.files S.through S.most space.old space.new }
    ensures cause { CountsWalkFaults result (S.faults space.old) (S.faults space.new) }
{
    if from.value == 0 {
        return Err(broken_at(pass.alloc, &pass.asked, Rule::N, &from, None));
    }
    if is_poison(from.value) {
        return Err(broken_at(pass.alloc, &pass.asked, Rule::K, &from, None));
    }
    let node = from.value;
    let links = match enter_links(pass, space, claims, node, Some(from), steps) {
        Ok(links) => links,
        Err(stop) => return Err(stop),
    };
    if links.1.value != before {
        return Err(broken_at(pass.alloc, &pass.asked, Rule::L1, &links.1, Some(before)));
    }
    Ok(links)
}

/// The nodes of the ring with a head at virtual address `head`, without the head, in the order of `next`. The audit's
/// number is named where the ring breaks a rule.
///
/// # Errors
///
/// The first violation, exactly where the ring has one; a failure of the space, whose count of faults then rose; or out
/// of memory.
pub fn ring<S: Space, L: Ledger>(
    alloc: Global,
    space: &mut S,
    shape: &ListShape,
    head: u64,
    audit: u32,
    steps: &mut Steps<L>,
) -> Result<Walked, WalkStop>
    ensures walk { WalksAs (λ w. w) (λ image. ring_walk image shape.now audit head) (S.image space.old) result }
    ensures finite { IfOk result (λ ns. IfSome (S.image space.old) (λ image. Ring (vword image) shape.now head ns)) }
    ensures none { OnBroken result (IfSome (S.image space.old) (λ image. NoRing (vword image) shape.now head)) }
    ensures named { IsNamed result audit head }
    ensures bound { WithinSteps (S.image space.old) (S.most space.old) steps.old steps.new }
    // Two words at the head and at each node, and no other; and up to a violation no more than those of its site.
    ensures words { IfOk result (λ ns. steps.new ≤ steps.old + S.most space.old * (2 + 2 * length ns)) }
    ensures soon { OnBroken result (EndsSoon (λ i. ring_chain (vword i) shape.now (record { audit = audit; start = head }))
        (S.image space.old) (S.most space.old) steps.old steps.new) }

    ensures stays { SpaceStays S.image S.files S.through S.most space.old space.new }
    ensures cause { CountsWalkFaults result (S.faults space.old) (S.faults space.new) }
{
    let pass = Pass {
        alloc,
        asked: Asked { audit, start: head },
        shape: *shape,
    };
    let mut claims = Claims::new(alloc);
    let mut walked = Walked::new(alloc);
    let (mut from, last) = match enter_links(&pass, space, &mut claims, head, None, steps) {
        Ok(links) => links,
        Err(stop) => return Err(stop),
    };
    let mut before = head;
    while from.value != head {
        let links = match enter_node(&pass, space, &mut claims, from, before, steps) {
            Ok(links) => links,
            Err(stop) => return Err(stop),
        };
        push_node(&mut walked, from.value)?;
        before = from.value;
        from = links.0;
    }
    if last.value != before {
        return Err(broken_at(alloc, &pass.asked, Rule::L1, &last, Some(before)));
    }
    Ok(walked)
}
