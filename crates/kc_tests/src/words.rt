// What tests of walks and of lists are made of.
ghost use Rattle.std.specs.Prelude.{◌<◌, ◌≤◌};

use kc_found::{Items, ListSpace, Origin, VWord, Walked};
use kc_layout::{Field, Hops};
use kc_word::Bits;
use std::alloc::{AllocError, Global};

// A file of types without a type.
pub const NO_TYPES: &[u8] = b"\x9f\xeb\x01\0\x18\0\0\0\0\0\0\0\0\0\0\0\0\0\0\0\x01\0\0\0\0";

// The memory of these words, of which the first with an address counts. Each lies where its address says.
pub fn space_of(
    alloc: Global,
    changed: &[(u64, u64)],
    words: &[(u64, u64)],
) -> Result<ListSpace, AllocError> {
    let mut all = Vec::new(alloc);
    for (va, value) in [changed, words].iter().copied().flatten() {
        all.push(VWord {
            va: *va,
            pa: *va,
            off: Origin::File(*va),
            value: *value,
        })?;
    }
    Ok(ListSpace::new(all))
}

pub fn list_of(alloc: Global, numbers: &[u64]) -> Result<Walked, AllocError> {
    let mut list = Walked::new(alloc);
    for number in numbers {
        list.push(*number).map_err(|_| AllocError)?;
    }
    Ok(list)
}

pub fn lists_of(alloc: Global, lists: &[&[u64]]) -> Result<Items<Walked>, AllocError> {
    let mut all = Items::new(alloc);
    for numbers in lists {
        let list = list_of(alloc, numbers)?;
        all.push(list).map_err(|_| AllocError)?;
    }
    Ok(all)
}

// A number of a struct, behind no pointer.
pub fn field(bit: u64, width: u8, signed: bool) -> Field
    requires some { 1 ≤ width }
    requires whole { width ≤ 64 }
    requires small { bit < 68719476736 }
{
    let hops = Hops {
        count: 0,
        a: 0,
        b: 0,
        c: 0,
        d: 0,
    };
    let bits = Bits { bit, width, signed };
    Field { hops, bits, ty: 0 }
}
