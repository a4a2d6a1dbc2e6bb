// The size of a type.
ghost use Rattle.std.specs.Prelude.{◌≡◌, ◌*◌, ◌^◌, ◌<◌, ◌≤◌, length, IfSome};
ghost use Rattle.kc_layout.specs.Size.{size, size_within, extent, if_counted, StaysInside};

use crate::bare::{array_of, type_of};
use kc_btf::{ArrayOf, Btf, Kind};

/// How many arrays and modifiers a size is looked for under.
const LAYERS: u8 = 32;

/// The size of a type in bytes: what its record says of a number, struct, union, enum, float or section, 8
/// for a pointer, the elements' together for an array, and the target's for a modifier. `None` for other
/// types, under more than 32 arrays and modifiers together, and for a size that 32 bits don't count, also
/// that of an array's elements.
pub fn size_of(btf: &Btf, id: u32) -> Option<u64>
    requires { id ≤ length btf.now.records }
    ensures exact { result ≡ size btf.now id }
    ensures counted { IfSome result (λ size. size < 2 ^ 32) }
{
    size_within(btf, id, LAYERS)
}

// Where the size of a type stands.
#[derive(Clone, Copy, Debug, PartialEq, Eq)]
pub(crate) enum Extent {
    // In its own record, or known by its kind: so many bytes.
    Bytes(u32),
    // In the elements' type.
    Elements(ArrayOf),
    // In the type of this number.
    Target(u32),
    // Nowhere.
    Unknown,
}

// Where the size of a type stands.
fn extent_of(btf: &Btf, id: u32) -> Extent
    requires { id ≤ length btf.now.records }
    ensures exact { result ≡ extent btf.now id }
    ensures inside { StaysInside (length btf.now.records) result }
{
    let Some(t) = type_of(btf, id) else {
        return Extent::Unknown;
    };
    match t.kind {
        Kind::Int
        | Kind::Struct
        | Kind::Union
        | Kind::Enum
        | Kind::Enum64
        | Kind::Float
        | Kind::Datasec => Extent::Bytes(t.rest),
        Kind::Ptr => Extent::Bytes(8),
        Kind::Array => match array_of(btf, id) {
            Some(array) => Extent::Elements(array),
            None => Extent::Unknown,
        },
        Kind::Typedef | Kind::Volatile | Kind::Const | Kind::Restrict | Kind::TypeTag => {
            Extent::Target(t.rest)
        }
        _ => Extent::Unknown,
    }
}

// The size of a type under at most `most` arrays and modifiers.
fn size_within(btf: &Btf, id: u32, most: u8) -> Option<u64>
    requires { id ≤ length btf.now.records }
    ensures exact { result ≡ size_within most btf.now id }
    ensures counted { IfSome result (λ size. size < 2 ^ 32) }
{
    match extent_of(btf, id) {
        Extent::Bytes(size) => Some(u64::from(size)),
        Extent::Unknown => None,
        Extent::Target(target) => {
            if most == 0 {
                None
            } else {
                size_within(btf, target, most - 1)
            }
        }
        Extent::Elements(array) => {
            if most == 0 {
                return None;
            }
            let element = size_within(btf, array.ty, most - 1)?;
            if_counted(u64::from(array.nelems) * element)
        }
    }
}

// A size, where 32 bits count it.
fn if_counted(size: u64) -> Option<u64>
    ensures exact { result ≡ if_counted size }
    ensures counted { IfSome result (λ counted. counted < 2 ^ 32) }
{
    if size <= u64::from(u32::MAX) {
        Some(size)
    } else {
        None
    }
}
