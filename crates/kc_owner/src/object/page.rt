// The page that holds a physical address.
ghost use Rattle.std.specs.Prelude.{◌≡◌, ◌+◌, ◌≤◌};
ghost use Rattle.kc_memory.specs.Stays.{SpaceStays};
ghost use Rattle.kc_found.specs.Walks.{CountsWalkFaults, WalksAs};
ghost use Rattle.kc_owner.specs.Object.Pages.{descriptor_of, head_of, page_of};

use crate::object::pass::ObjectPass;
use crate::{looked_at, view_at};
use kc_btf::Btf;
use kc_found::{Space, WalkStop};
use kc_steps::read_field;
use kc_view::{SlubBases, SlubShape};
use kc_word::Steps;
use std::sync::ledger::Ledger;

/// A page of physical memory.
#[derive(Clone, Copy, Debug, PartialEq, Eq)]
pub struct Page {
    /// Its number: its physical address, in pages of 4096 bytes.
    pub number: u64,
    /// The virtual address of its descriptor.
    pub descriptor: u64,
    /// That of its head page's descriptor, which is its own where it isn't a tail page.
    pub head: u64,
}

// The descriptor of a page, by the page's number.
fn descriptor_of(shape: &SlubShape, bases: &SlubBases, number: u64) -> u64
    ensures { result ≡ descriptor_of shape.now bases.now number }
{
    let offset = shape.page_size.wrapping_mul(number);
    bases.vmemmap.wrapping_add(offset)
}

// The descriptor of a head page, by a page's word `compound_head`.
fn head_of(descriptor: u64, compound: u64) -> u64
    ensures { result ≡ head_of descriptor compound }
{
    if compound % 2 == 1 {
        compound - 1
    } else {
        descriptor
    }
}

// The page that holds a physical address.
pub(crate) fn read_page<S: Space, L: Ledger>(
    pass: &ObjectPass,
    space: &mut S,
    btf: &Btf,
    steps: &mut Steps<L>,
) -> Result<Page, WalkStop>
    ensures exact { WalksAs (λ p. p) (λ i. page_of i pass.now.shape pass.now.bases pass.now.pa) (S.image space.old) result }
    ensures steps { steps.new ≤ steps.old + 60 }
    ensures stays { SpaceStays S.image S.files S.through S.most space.old space.new }
    ensures cause { CountsWalkFaults result (S.faults space.old) (S.faults space.new) }
{
    let number = pass.pa / 4096;
    let descriptor = descriptor_of(&pass.shape.slub, &pass.bases, number);
    let asked = looked_at(descriptor);
    let view = view_at(btf, descriptor);
    let field = &pass.shape.compound_head;
    let compound = read_field(pass.alloc, space, &asked, &view, field, steps)?.value();
    Ok(Page {
        number,
        descriptor,
        head: head_of(descriptor, compound),
    })
}
