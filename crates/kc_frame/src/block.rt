// The free block that has a page.
ghost use Rattle.std.specs.Prelude.{◌≡◌, ◌%◌, ◌^◌, Ok};
ghost use Rattle.kc_memory.specs.Stays.{SpaceStays};
ghost use Rattle.kc_found.specs.Walks.{CountsWalkFaults, OnBroken, WalksAs};
ghost use Rattle.kc_frame.specs.Blocks.{begins, block_at, first_of, has_mark, is_order};

use crate::shape::FrameShape;
use kc_btf::Btf;
use kc_found::{Space, WalkStop};
use kc_owner::{Page, read_known, view_at};
use kc_view::View;
use kc_word::Steps;
use std::alloc::Global;
use std::sync::ledger::Ledger;

/// A block of free pages, and a page of it.
#[derive(Clone, Copy, Debug, PartialEq, Eq)]
pub struct FreeBlock {
    /// Its order: it has 2 to the power of this pages.
    pub order: u64,
    /// Which of them the page is, from 0 on.
    pub page: u64,
}

// Which page of its block a page is, where the block has an order.
fn page_in(number: u64, order: u64) -> u64
    ensures { result ≡ number % 2 ^ order }
{
    if order < 64 {
        number % (1 << order)
    } else {
        number
    }
}

// The descriptor of the first page of the block of an order that has a page.
fn first_of(shape: &FrameShape, page: &Page, order: u64) -> u64
    ensures { result ≡ first_of shape.now page.now order }
{
    let before = page_in(page.number, order);
    page.descriptor
        .wrapping_sub(shape.size.wrapping_mul(before))
}

// A number is the mark of a free block's first page.
fn has_mark(mark: Option<u64>, maps: Option<u64>) -> bool
    ensures { result ≡ has_mark mark maps }
{
    match (mark, maps) {
        (Some(mark), Some(maps)) => maps % (1 << 32) == mark,
        _ => false,
    }
}

// A number is an order.
fn is_order(order: u64, private: Option<u64>) -> bool
    ensures { result ≡ is_order order private }
{
    match private {
        Some(private) => private == order,
        None => false,
    }
}

// A free block of an order begins at a descriptor.
fn begins<S: Space, L: Ledger>(
    alloc: Global,
    space: &mut S,
    shape: &FrameShape,
    first: &View<'_>,
    order: u64,
    steps: &mut Steps<L>,
) -> Result<bool, WalkStop>
    ensures exact { WalksAs (λ b. b) (λ i. Ok (begins i shape.now first.now.at order)) (S.image space.old) result }
    ensures broken { OnBroken result ⊥ }
    ensures stays { SpaceStays S.image S.files S.through S.most space.old space.new }
    ensures cause { CountsWalkFaults result (S.faults space.old) (S.faults space.new) }
{
    let maps = read_known(alloc, space, first, &shape.maps, steps)?;
    if !has_mark(shape.mark, maps) {
        return Ok(false);
    }
    let private = read_known(alloc, space, first, &shape.private, steps)?;
    Ok(is_order(order, private))
}

// The free block that has a page, of the orders there are.
pub(crate) fn read_block<S: Space, L: Ledger>(
    alloc: Global,
    space: &mut S,
    btf: &Btf,
    shape: &FrameShape,
    page: &Page,
    steps: &mut Steps<L>,
) -> Result<Option<FreeBlock>, WalkStop>
    ensures exact { WalksAs (λ b. b) (λ i. Ok (block_at i shape.now page.now)) (S.image space.old) result }
    ensures broken { OnBroken result ⊥ }
    ensures stays { SpaceStays S.image S.files S.through S.most space.old space.new }
    ensures cause { CountsWalkFaults result (S.faults space.old) (S.faults space.new) }
{
    let orders = shape.orders;
    let mut order = 0;
    while order < orders {
        let first = view_at(btf, first_of(shape, page, order));
        match begins(alloc, space, shape, &first, order, steps) {
            Ok(false) => {}
            Ok(true) => {
                let page = page_in(page.number, order);
                return Ok(Some(FreeBlock { order, page }));
            }
            Err(stop) => return Err(stop),
        }
        order += 1;
    }
    Ok(None)
}
