// Where an audit begins.
ghost use Rattle.std.specs.Prelude.{◌≡◌, ◌≤◌, ℕ};
ghost use Rattle.kc_layout.specs.Views.{byte_view};
ghost use Rattle.kc_found.specs.Walks.{IsBroken};
ghost use Rattle.kc_plan.specs.Inside.{StartsInside};
ghost use Rattle.kc_plan.specs.Seen.{container_of, is_optional, null_pointer, path_of};
ghost use Rattle.kc_plan.specs.Planned.{start_seen};

use kc_found::{Asked, Place, Places, Rule, WalkStop, broken_by};
use kc_layout::Located;
use kc_plan::Start;
use kc_word::NoMemory;
use std::alloc::Global;

/// The path to an audit's start, from a symbol or from an element.
pub fn path_of(start: &Start) -> &Located
    ensures path { byte_view result.now ≡ path_of (start_seen start.now) }
    ensures inside { (count : ℕ) → StartsInside count start.now → result.now.ty ≤ count }
{
    match start {
        Start::Root { to, .. } => to,
        Start::From { to, .. } => to,
    }
}

/// Whether the audit is passed over where a pointer on its path is null.
pub fn is_optional(start: &Start) -> bool
    ensures { result ≡ is_optional (start_seen start.now) }
{
    match start {
        Start::Root { .. } => false,
        Start::From { optional, .. } => *optional,
    }
}

/// The virtual address of the element that holds a node, by its offset in the element, in bytes. It wraps at 2^64.
pub fn container_of(link: u64, node: u64) -> u64
    ensures { result ≡ container_of link node }
{
    node.wrapping_sub(link)
}

/// A null pointer at a virtual address, where one must lead on: the violation of N that the pointer's first word shows. It is out of
/// memory where none is left for the place.
pub fn null_pointer(alloc: Global, asked: &Asked, place: Place, at: u64) -> WalkStop
    ensures { IsBroken result (null_pointer asked.now place at) }
{
    let mut places = Places::new(alloc);
    match places.push(place) {
        Ok(()) => broken_by(asked, Rule::N, at, None, places),
        Err(NoMemory) => WalkStop::NoMemory,
    }
}
