// What the kinds find in a kernel's types.
ghost use Rattle.std.specs.Prelude.{◌≡◌, ◌≤◌, length, IfSome};
ghost use Rattle.kc_kinds.specs.Members.{struct_named, array_in, byte_in, chunk_in, inner_in, is_struct, scalar_in, small_in, wide_in, word_in};
ghost use Rattle.kc_found.specs.XaLayouts.{IsChunk};

use crate::known::Known;
use kc_btf::Btf;
use kc_layout::{Field, array_under, compound_under, locate, resolve};

/// The number of the struct or union with a name, or else of the one that a typedef with that name stands for. `None` where there is
/// neither.
pub fn struct_named(known: &Known<'_>, name: &[u8]) -> Option<u32>
    ensures exact { result ≡ struct_named known.now.btf.now name.now }
    ensures there { IfSome result (λ id. id ≤ length known.now.btf.now.records) }
{
    let id = known.names.find(known.btf, name)?;
    Some(compound_under(known.btf, id)?.id)
}

// The byte at which a word of 64 bits stands in a struct.
pub(crate) fn word_in(btf: &Btf, id: Option<u32>, name: &[u8]) -> Option<u64>
    requires { IfSome id (λ id. id ≤ length btf.now.records) }
    ensures { result ≡ word_in btf.now id name.now }
{
    let id = id?;
    let Ok(number) = resolve(btf, id, name) else {
        return None;
    };
    if number.bits.width == 64 && number.bits.bit % 64 == 0 {
        Some(number.bits.bit / 8)
    } else {
        None
    }
}

// The byte at which a number of 8 bits stands in a struct.
pub(crate) fn small_in(btf: &Btf, id: Option<u32>, name: &[u8]) -> Option<u64>
    requires { IfSome id (λ id. id ≤ length btf.now.records) }
    ensures { result ≡ small_in btf.now id name.now }
{
    let id = id?;
    let Ok(number) = resolve(btf, id, name) else {
        return None;
    };
    if number.bits.width == 8 && number.bits.bit % 8 == 0 {
        Some(number.bits.bit / 8)
    } else {
        None
    }
}

// How many items an array in a struct has, where they are 16 or 64.
pub(crate) fn chunk_in(btf: &Btf, id: Option<u32>, name: &[u8]) -> Option<u64>
    requires { IfSome id (λ id. id ≤ length btf.now.records) }
    ensures exact { result ≡ chunk_in btf.now id name.now }
    ensures chunk { IfSome result IsChunk }
{
    let id = id?;
    let Ok(place) = locate(btf, id, name) else {
        return None;
    };
    let array = array_under(btf, place.ty)?;
    if array.nelems == 16 || array.nelems == 64 {
        Some(u64::from(array.nelems))
    } else {
        None
    }
}

// The byte of a member in a struct.
pub(crate) fn byte_in(btf: &Btf, id: Option<u32>, name: &[u8]) -> Option<u64>
    requires { IfSome id (λ id. id ≤ length btf.now.records) }
    ensures { result ≡ byte_in btf.now id name.now }
{
    match locate(btf, id?, name) {
        Ok(place) => Some(place.byte),
        Err(_) => None,
    }
}

/// Whether a type is this struct under its modifiers, of which at most 32 are followed.
pub fn is_struct(btf: &Btf, ty: u32, wanted: Option<u32>) -> bool
    requires { ty ≤ length btf.now.records }
    ensures { result ≡ is_struct btf.now ty wanted }
{
    let Some(wanted) = wanted else {
        return false;
    };
    match compound_under(btf, ty) {
        Some(found) => found.id == wanted,
        None => false,
    }
}

/// The offset in bytes of a member in a struct, where the member is the wanted struct under its modifiers. `None` where one of the two
/// structs isn't there, where no path of that name leads to a member, and where the member is of another type.
pub fn inner_in(btf: &Btf, wanted: Option<u32>, id: Option<u32>, name: &[u8]) -> Option<u64>
    requires { IfSome id (λ id. id ≤ length btf.now.records) }
    ensures { result ≡ inner_in btf.now wanted id name.now }
{
    let Ok(place) = locate(btf, id?, name) else {
        return None;
    };
    if is_struct(btf, place.ty, wanted) {
        Some(place.byte)
    } else {
        None
    }
}

// The byte of a member in a struct, where the member is an array of this struct, of any number of them.
pub(crate) fn array_in(btf: &Btf, wanted: Option<u32>, id: Option<u32>, name: &[u8]) -> Option<u64>
    requires { IfSome id (λ id. id ≤ length btf.now.records) }
    ensures { result ≡ array_in btf.now wanted id name.now }
{
    let Ok(place) = locate(btf, id?, name) else {
        return None;
    };
    let array = array_under(btf, place.ty)?;
    if is_struct(btf, array.ty, wanted) {
        Some(place.byte)
    } else {
        None
    }
}

/// The number that a member of a struct is, with its place in bits from the struct's start. `None` where the struct isn't there, where
/// no path of that name leads to a number, and where a pointer has to be followed to it.
#[tactic(auto, using(crate::proofs::BitsLemmas::field_kept, crate::proofs::BitsLemmas::field_led))]
pub fn scalar_in(btf: &Btf, id: Option<u32>, name: &[u8]) -> Option<Field>
    requires { IfSome id (λ id. id ≤ length btf.now.records) }
    ensures exact { result ≡ scalar_in btf.now id name.now }
    ensures there { IfSome result (λ field. field.ty ≤ length btf.now.records) }
{
    let Ok(field) = resolve(btf, id?, name) else {
        return None;
    };
    if field.hops.count == 0 {
        Some(field)
    } else {
        None
    }
}

// The number that a member of a struct is, where it is one of 64 bits.
pub(crate) fn wide_in(btf: &Btf, id: Option<u32>, name: &[u8]) -> Option<Field>
    requires { IfSome id (λ id. id ≤ length btf.now.records) }
    ensures exact { result ≡ wide_in btf.now id name.now }
    ensures there { IfSome result (λ field. field.ty ≤ length btf.now.records) }
{
    let field = scalar_in(btf, id, name)?;
    if field.bits.width == 64 {
        Some(field)
    } else {
        None
    }
}
