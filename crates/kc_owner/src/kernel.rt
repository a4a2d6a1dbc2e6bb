// What a kernel's types and symbols have.
ghost use Rattle.std.specs.Prelude.{◌≡◌, ◌≤◌, codes, length, IfSome};
ghost use Rattle.kc_kinds.specs.Kernels.{address_in, kernel};
ghost use Rattle.kc_kinds.specs.Members.{struct_named};
ghost use Rattle.kc_kinds.specs.Ring.{list_words};
ghost use Rattle.kc_owner.specs.Kernels.{elements_in, elements_of, single};

use kc_btf::{ArrayOf, Btf};
use kc_found::ListShape;
use kc_kinds::{Kind, Known, Own, Sort, row_of, shape_of};
use kc_layout::{array_under, locate, size_of};

/// An array in a struct, of 64 elements at most.
#[derive(Clone, Copy, Debug, PartialEq, Eq)]
pub struct Elements {
    /// Its offset in bytes.
    pub byte: u64,
    /// How many elements it has.
    pub count: u8,
    /// The size of an element in bytes.
    pub size: u64,
}

// An array that stands at a byte of a struct.
fn elements_of(btf: &Btf, byte: u64, array: ArrayOf) -> Option<Elements>
    requires { array.ty ≤ length btf.now.records }
    ensures { result ≡ elements_of btf.now byte array }
{
    if array.nelems > 64 {
        return None;
    }
    Some(Elements {
        byte,
        count: array.nelems as u8,
        size: size_of(btf, array.ty)?,
    })
}

/// A member of a struct that is an array, of 64 elements at most.
pub fn elements_in(btf: &Btf, id: Option<u32>, name: &[u8]) -> Option<Elements>
    requires { IfSome id (λ id. id ≤ length btf.now.records) }
    ensures { result ≡ elements_in btf.now id name.now }
{
    let Ok(place) = locate(btf, id?, name) else {
        return None;
    };
    elements_of(btf, place.byte, array_under(btf, place.ty)?)
}

/// The address of a symbol, where it has one alone.
pub fn single(known: &Known<'_>, name: &[u8]) -> Option<u64>
    ensures { result ≡ single (address_in (kernel known.now) name.now) }
{
    match known.symbols.address(name, known.kaslr) {
        Ok(address) => Some(address),
        Err(_) => None,
    }
}

/// Where the words of a ring's node stand.
pub fn list_words(known: &Known<'_>) -> Option<ListShape>
    ensures { result ≡ list_words known.now.btf.now (struct_named known.now.btf.now (codes "list_head")) }
{
    let row = row_of(known, Sort::Ring, false);
    let own = Own {
        link: 0,
        key: None,
        unique: false,
        cached: false,
    };
    match shape_of(known, &row, &own, Sort::Ring) {
        Some(Kind::Ring(list)) => Some(list),
        _ => None,
    }
}
