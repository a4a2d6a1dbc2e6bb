// What the readers give.
use crate::kind::Kind;

/// A type as its record has it, without the numbers behind it.
#[derive(Clone, Copy, Debug, PartialEq, Eq)]
pub struct TypeRef {
    /// The number of the type, from 1.
    pub id: u32,
    /// The kind.
    pub kind: Kind,
    /// The kind flag: a struct's or union's members have bit-fields, an enum's values are signed, a
    /// forward declaration is a union's.
    pub flag: bool,
    /// The name's offset in the strings; an empty name is no name.
    pub name: u32,
    /// How many members, values, parameters or variables follow.
    pub vlen: u16,
    /// The size in bytes of a number, struct, union, enum, float or section; the number of the type
    /// that a pointer, a modifier, a function, a variable or a tag refers to.
    pub rest: u32,
}

/// A member of a struct or union.
#[derive(Clone, Copy, Debug, PartialEq, Eq)]
pub struct Member {
    /// The name's offset in the strings; an empty name is no name.
    pub name: u32,
    /// The number of the member's type.
    pub ty: u32,
    /// The first bit, counted from the first of the struct.
    pub bit: u32,
    /// The width of a bit-field in bits, or 0 for a member that is none.
    pub width: u8,
}

/// What an array is of.
#[derive(Clone, Copy, Debug, PartialEq, Eq)]
pub struct ArrayOf {
    /// The number of the elements' type.
    pub ty: u32,
    /// How many elements there are.
    pub nelems: u32,
}

/// How a number lies in its bytes.
#[derive(Clone, Copy, Debug, PartialEq, Eq)]
pub struct IntOf {
    /// The first bit.
    pub offset: u8,
    /// The width in bits.
    pub bits: u8,
    /// Whether it is signed, by the encoding's lowest bit.
    pub signed: bool,
}
