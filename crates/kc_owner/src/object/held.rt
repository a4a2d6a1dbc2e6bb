// What holds a physical address.
ghost use Rattle.std.specs.Prelude.{◌≡◌};
ghost use Rattle.kc_memory.specs.Stays.{SpaceStays};
ghost use Rattle.kc_found.specs.Walks.{CountsWalkFaults, WalksAs};
ghost use Rattle.kc_owner.specs.Object.Bounds.{WithinRing};
ghost use Rattle.kc_owner.specs.Object.Slabs.{held};

use crate::looked_at;
use crate::object::bases::read_bases;
use crate::object::page::{Page, read_page};
use crate::object::pass::ObjectPass;
use crate::object::shape::ObjectShape;
use crate::object::slab::{Slab, slab_at};
use kc_btf::Btf;
use kc_found::{Found, Space, WalkStop};
use kc_word::Steps;
use std::alloc::Global;
use std::sync::ledger::Ledger;

/// What holds a physical address.
#[derive(Drop)]
pub struct Held {
    /// Its page.
    pub page: Page,
    /// The slab that has that page, `None` where none has it, or why that can't be told.
    pub slab: Result<Option<Slab>, Found>,
}

/// What holds physical address `pa`: its page, and what its head page's descriptor, its cache and the ring of all caches tell
/// of its slab. What is broken names audit 0, and as its start what was looked at.
///
/// # Errors
///
/// Why the page can't be told; a failure of the space, whose count of faults then rose; or out of memory.
pub fn find_object<S: Space, L: Ledger>(
    alloc: Global,
    space: &mut S,
    btf: &Btf,
    shape: &ObjectShape,
    pa: u64,
    steps: &mut Steps<L>,
) -> Result<Held, WalkStop>
    ensures exact { WalksAs (λ h. h) (λ i. held i shape.now pa) (S.image space.old) result }
    ensures bound { WithinRing (S.image space.old) shape.now.slub.list shape.now.caches (S.most space.old) 2 1500 steps.old steps.new }
    ensures stays { SpaceStays S.image S.files S.through S.most space.old space.new }
    ensures cause { CountsWalkFaults result (S.faults space.old) (S.faults space.new) }
{
    let bases = read_bases(alloc, space, &looked_at(pa), &shape.slub, steps)?;
    let pass = ObjectPass {
        alloc,
        shape: *shape,
        bases,
        pa,
    };
    let page = read_page(&pass, space, btf, steps)?;
    let slab = match slab_at(&pass, space, btf, page.head, steps) {
        Ok(slab) => Ok(slab),
        Err(WalkStop::Broken(found)) => Err(found),
        Err(stop) => return Err(stop),
    };
    Ok(Held { page, slab })
}
