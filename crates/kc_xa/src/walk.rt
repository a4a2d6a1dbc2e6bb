// Xarrays, from their heads.
ghost use Rattle.std.specs.Prelude.{◌≡◌, ℕ, ◌+◌, ◌-◌, ◌*◌, ◌≤◌, List, [], length, Some, None, Ok, IfOk, OnOk, IfSome, true};
ghost use Rattle.kc_memory.specs.Stays.{SpaceStays};
ghost use Rattle.kc_memory.specs.Translation.{vword};
ghost use Rattle.kc_found.specs.declared.xarrays.XaItem.{XaItem};
ghost use Rattle.kc_found.specs.FiniteXarrays.{NoXArray, RisesFrom, XArray};
ghost use Rattle.kc_found.specs.Walks.{CountsWalkFaults, IsNamed, OnBroken, WalksAs, WithinSteps};
ghost use Rattle.kc_found.specs.Nodes.{at_offset};
ghost use Rattle.kc_found.specs.Trials.{passed};
ghost use Rattle.kc_found.specs.XaNodes.{behind_entry, xa_words};
ghost use Rattle.kc_xa.specs.Steps.{IsOpened, node_steps};
ghost use Rattle.kc_found.specs.XaSites.{node_site, xa_course, xa_judged};

use crate::entries::{entry_of, head_fault, know_chunk};
use crate::nodes::open_node;
use crate::pass::XaPass;
use crate::slots::{push_item, walk_slots};
use crate::words::read_word;
use kc_found::{
    Asked, Claims, Space, VWord, WalkStop, XaEntry, XaNode, XaShape, XaWalked, broken_at, take_word,
};
use kc_word::Steps;
use std::alloc::Global;
use std::sync::ledger::Ledger;

/// The word `xa_head`.
///
/// # Errors
///
/// The violation that it can't be read, a failure of the space, whose count of faults then rose, or out of memory.
pub fn read_head<S: Space, L: Ledger>(
    alloc: Global,
    space: &mut S,
    shape: &XaShape,
    asked: &Asked,
    steps: &mut Steps<L>,
) -> Result<VWord, WalkStop>
    ensures word { WalksAs (λ w. w) (λ i. behind_entry (vword i) asked.now None (at_offset asked.now.start shape.now.head)) (S.image space.old) result }
    ensures named { IsNamed result asked.now.audit asked.now.start }
    ensures steps { steps.new ≤ steps.old + S.most space.old }

    ensures stays { SpaceStays S.image S.files S.through S.most space.old space.new }
    ensures cause { CountsWalkFaults result (S.faults space.old) (S.faults space.new) }
{
    let at = asked.start.wrapping_add(shape.head);
    read_word(alloc, space, asked, at, None, steps)
}

// Opens the node that the head leads to.
fn open_root<S: Space, L: Ledger>(
    pass: &XaPass,
    space: &mut S,
    claims: &mut Claims,
    head: VWord,
    steps: &mut Steps<L>,
) -> Result<XaNode, WalkStop>
    requires { pass.now.shape.chunk ≤ 64 }
    ensures site { WalksAs (λ _. claims.new) (λ i. passed claims.old (node_site pass.now.asked pass.now.shape None (head.value - 2) (xa_words (behind_entry (vword i) pass.now.asked (Some head)) pass.now.shape (head.value - 2)))) (S.image space.old) result }
    ensures opened { IfOk result (λ o. IfSome (S.image space.old) (λ i. IsOpened pass.now.shape head 0 (xa_words (behind_entry (vword i) pass.now.asked (Some head)) pass.now.shape (head.value - 2)) o)) }
    ensures small { IfOk result (λ o. o.shift ≤ 60) }
    ensures size { IfOk result (λ o. length o.slots ≡ pass.now.shape.chunk) }
    ensures more { OnOk result (length claims.new ≡ length claims.old + (pass.now.shape.chunk + 2)) }
    ensures named { IsNamed result pass.now.asked.audit pass.now.asked.start }
    ensures steps { steps.new ≤ steps.old + node_steps (S.most space.old) pass.now.shape.chunk }

    ensures stays { SpaceStays S.image S.files S.through S.most space.old space.new }
    ensures cause { CountsWalkFaults result (S.faults space.old) (S.faults space.new) }
{
    let alloc = pass.alloc;
    let asked = &pass.asked;
    let shape = &pass.shape;
    open_node(alloc, space, shape, asked, claims, None, head, 0, steps)
}

// Walks an xarray.
fn walk_head<S: Space, L: Ledger>(
    pass: &XaPass,
    space: &mut S,
    steps: &mut Steps<L>,
) -> Result<XaWalked, WalkStop>
    requires chunk { pass.now.shape.chunk ≤ 64 }
    requires some { 2 ≤ pass.now.shape.chunk }
    ensures walk { WalksAs (λ w. w) (λ i. xa_judged i pass.now.shape pass.now.asked.audit pass.now.asked.start) (S.image space.old) result }
    ensures named { IsNamed result pass.now.asked.audit pass.now.asked.start }
    ensures bound { WithinSteps (S.image space.old) (S.most space.old) steps.old steps.new }

    ensures stays { SpaceStays S.image S.files S.through S.most space.old space.new }
    ensures cause { CountsWalkFaults result (S.faults space.old) (S.faults space.new) }
{
    let mut claims = Claims::new(pass.alloc);
    let mut walked = XaWalked::new(pass.alloc);
    let head = match read_head(pass.alloc, space, &pass.shape, &pass.asked, steps) {
        Ok(word) => word,
        Err(stop) => return Err(stop),
    };
    match take_word(pass.alloc, &mut claims, &pass.asked, &head) {
        Ok(()) => {}
        Err(stop) => return Err(stop),
    }
    let kind = entry_of(&pass.shape, &head);
    if let Some(rule) = head_fault(kind) {
        return Err(broken_at(pass.alloc, &pass.asked, rule, &head, None));
    }
    match kind {
        XaEntry::Pointer => {
            push_item(&mut walked, 0, head.value)?;
            Ok(walked)
        }
        XaEntry::Node => {
            let node = match open_root(pass, space, &mut claims, head, steps) {
                Ok(node) => node,
                Err(stop) => return Err(stop),
            };
            match walk_slots(pass, space, &mut claims, &mut walked, &node, steps) {
                Ok(()) => Ok(walked),
                Err(stop) => Err(stop),
            }
        }
        _ => Ok(walked),
    }
}

/// The pointers of the xarray at virtual address `start`, by rising index. The audit's number is named where the xarray
/// breaks a rule.
///
/// # Errors
///
/// The first violation, exactly where the xarray has one; a failure of the space, whose count of faults then rose; or
/// out of memory.
pub fn xa_walk<S: Space, L: Ledger>(
    alloc: Global,
    space: &mut S,
    shape: &XaShape,
    start: u64,
    audit: u32,
    steps: &mut Steps<L>,
) -> Result<XaWalked, WalkStop>
    ensures walk { WalksAs (λ w. w) (λ image. xa_judged image shape.now audit start) (S.image space.old) result }
    ensures finite { IfOk result (λ w. IfSome (S.image space.old) (λ image. XArray (xa_course image shape.now (record { audit = audit; start = start })) w)) }
    ensures none { OnBroken result (IfSome (S.image space.old) (λ image. NoXArray (xa_course image shape.now (record { audit = audit; start = start })))) }
    ensures rises { IfOk result (λ w. IfSome (S.image space.old) (λ image. RisesFrom 0 w)) }
    ensures named { IsNamed result audit start }
    ensures bound { WithinSteps (S.image space.old) (S.most space.old) steps.old steps.new }

    ensures stays { SpaceStays S.image S.files S.through S.most space.old space.new }
    ensures cause { CountsWalkFaults result (S.faults space.old) (S.faults space.new) }
{
    know_chunk(shape);
    let pass = XaPass {
        alloc,
        asked: Asked { audit, start },
        shape: *shape,
    };
    walk_head(&pass, space, steps)
}
