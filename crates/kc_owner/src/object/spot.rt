// Where in its slab a byte lies.
ghost use Rattle.std.specs.Prelude.{◌≡◌, ◌≤◌};
ghost use Rattle.kc_owner.specs.Object.Spots.{object_at, spot_from, spot_of};

use kc_found::Grid;

/// An object, and a byte of it.
#[derive(Clone, Copy, Debug, PartialEq, Eq)]
pub struct ObjectSpot {
    /// The object's number in its slab, counted from 0.
    pub number: u64,
    /// The virtual address of the object.
    pub first: u64,
    /// The byte, counted from the object's address.
    pub byte: u64,
}

/// Where in its slab a byte lies.
#[derive(Clone, Copy, Debug, PartialEq, Eq)]
pub enum Spot {
    /// Before the slab's first byte: the descriptor that is named as its page's head is that of a later page.
    Before,
    /// In the bytes before the object with this number, which belong to no object (`red_left_pad`).
    Pad(u64),
    /// In an object, or in the bytes after it that belong to it.
    Object(ObjectSpot),
    /// After the last object.
    Past,
}

// The virtual address of an object.
fn object_at(grid: &Grid, number: u64) -> u64
    ensures { result ≡ object_at grid.now number }
{
    grid.base.wrapping_add(grid.size.wrapping_mul(number))
}

// So many bytes on from the slab's first one.
fn spot_from(grid: &Grid, pad: u64, above: u64) -> Spot
    requires { 1 ≤ grid.now.size }
    ensures { result ≡ spot_from grid.now pad above }
{
    let number = above / grid.size;
    let byte = above % grid.size;
    if number >= grid.objects {
        Spot::Past
    } else if byte < pad {
        Spot::Pad(number)
    } else {
        Spot::Object(ObjectSpot {
            number,
            first: object_at(grid, number),
            byte: byte - pad,
        })
    }
}

// A physical address, in the slab whose first byte stands at another one.
pub(crate) fn spot_of(grid: &Grid, pad: u64, start: u64, pa: u64) -> Spot
    requires { 1 ≤ grid.now.size }
    ensures { result ≡ spot_of grid.now pad start pa }
{
    if pa < start {
        Spot::Before
    } else {
        spot_from(grid, pad, pa - start)
    }
}
