// What stands under a type number, and under the modifiers of a type.
ghost use Rattle.std.specs.Prelude.{◌≡◌, ◌<◌, ◌≤◌, length, Some, IfSome, IsTrue};
ghost use Rattle.kc_btf.specs.Kind.{is_compound};
ghost use Rattle.kc_btf.specs.Role.{LiesInside, rest_role};
ghost use Rattle.kc_btf.specs.Readers.{type_numbered};
ghost use Rattle.kc_layout.specs.Bare.{compound_numbered, array_numbered, int_numbered, modified, under, array_under, compound_under, int_under, pointers_under, target_numbered};

use kc_btf::{ArrayOf, Btf, IntOf, Kind, TypeRef};

// The type of a number; void is none.
pub(crate) fn type_of(btf: &Btf, id: u32) -> Option<TypeRef>
    requires { id ≤ length btf.now.records }
    ensures exact { result ≡ type_numbered btf.now id }
    ensures own { IfSome result (λ t. type_numbered btf.now t.id ≡ Some t) }
    ensures same { IfSome result (λ t. t.id ≡ id) }
    ensures name { IfSome result (λ t. t.name < length btf.now.strings) }
    ensures target { IfSome result (λ t. LiesInside (length btf.now.strings) (length btf.now.records) (rest_role t.kind) t.rest) }
{
    if id == 0 { None } else { Some(btf.ty(id)) }
}

// The type of a number, where it is a struct or union.
pub(crate) fn compound_of(btf: &Btf, id: u32) -> Option<TypeRef>
    requires { id ≤ length btf.now.records }
    ensures exact { result ≡ compound_numbered btf.now id }
    ensures own { IfSome result (λ t. type_numbered btf.now t.id ≡ Some t) }
    ensures same { IfSome result (λ t. t.id ≡ id) }
    ensures compound { IfSome result (λ t. IsTrue (is_compound t.kind)) }
{
    let t = type_of(btf, id)?;
    if t.kind.is_compound() { Some(t) } else { None }
}

// What the type of a number is an array of, where it is one.
pub(crate) fn array_of(btf: &Btf, id: u32) -> Option<ArrayOf>
    requires { id ≤ length btf.now.records }
    ensures exact { result ≡ array_numbered btf.now id }
    ensures inside { IfSome result (λ array. array.ty ≤ length btf.now.records) }
{
    let t = type_of(btf, id)?;
    if t.kind == Kind::Array {
        Some(btf.array(t))
    } else {
        None
    }
}

// How the whole number of a type number lies, where it is one.
pub(crate) fn int_of(btf: &Btf, id: u32) -> Option<IntOf>
    requires { id ≤ length btf.now.records }
    ensures { result ≡ int_numbered btf.now id }
{
    let t = type_of(btf, id)?;
    if t.kind == Kind::Int {
        Some(btf.int(t))
    } else {
        None
    }
}

// What the type of a number points to, where it is a pointer.
pub(crate) fn target_of(btf: &Btf, id: u32) -> Option<u32>
    requires { id ≤ length btf.now.records }
    ensures exact { result ≡ target_numbered btf.now id }
    ensures inside { IfSome result (λ target. target ≤ length btf.now.records) }
{
    let t = type_of(btf, id)?;
    match t.kind {
        Kind::Ptr => Some(t.rest),
        _ => None,
    }
}

/// How many modifiers are followed.
pub(crate) const MODIFIERS: u8 = 32;

// The type that a modifier modifies.
fn modified(btf: &Btf, id: u32) -> Option<u32>
    requires { id ≤ length btf.now.records }
    ensures exact { result ≡ modified btf.now id }
    ensures inside { IfSome result (λ target. target ≤ length btf.now.records) }
{
    let t = type_of(btf, id)?;
    match t.kind {
        Kind::Typedef | Kind::Volatile | Kind::Const | Kind::Restrict | Kind::TypeTag => {
            Some(t.rest)
        }
        _ => None,
    }
}

// The type under at most `most` modifiers; `None` where there are more.
pub(crate) fn under(btf: &Btf, id: u32, most: u8) -> Option<u32>
    requires { id ≤ length btf.now.records }
    ensures exact { result ≡ under most btf.now id }
    ensures inside { IfSome result (λ bare. bare ≤ length btf.now.records) }
{
    match modified(btf, id) {
        None => Some(id),
        Some(_) if most == 0 => None,
        Some(target) => under(btf, target, most - 1),
    }
}

/// What a type is an array of under its modifiers, of which at most 32 are followed. `None` where it isn't one.
pub fn array_under(btf: &Btf, id: u32) -> Option<ArrayOf>
    requires { id ≤ length btf.now.records }
    ensures exact { result ≡ array_under btf.now id }
    ensures inside { IfSome result (λ array. array.ty ≤ length btf.now.records) }
{
    array_of(btf, under(btf, id, MODIFIERS)?)
}

/// How many pointers an array has: where a type is an array under its modifiers, of at most 32, and the type of
/// its elements a pointer under its own, the number of elements, which may be 0. `None` for other types, and
/// under more.
pub fn pointers_under(btf: &Btf, id: u32) -> Option<u32>
    requires { id ≤ length btf.now.records }
    ensures { result ≡ pointers_under btf.now id }
{
    let array = array_under(btf, id)?;
    target_of(btf, under(btf, array.ty, MODIFIERS)?)?;
    Some(array.nelems)
}

/// The struct or union under the modifiers of a type, of which at most 32 are followed. `None` for other
/// types, and under more.
pub fn compound_under(btf: &Btf, id: u32) -> Option<TypeRef>
    requires { id ≤ length btf.now.records }
    ensures exact { result ≡ compound_under btf.now id }
    ensures ours { IfSome result (λ t. type_numbered btf.now t.id ≡ Some t) }
    ensures compound { IfSome result (λ t. IsTrue (is_compound t.kind)) }
{
    compound_of(btf, under(btf, id, MODIFIERS)?)
}

// How the whole number under the modifiers of a type lies.
pub(crate) fn int_under(btf: &Btf, id: u32) -> Option<IntOf>
    requires { id ≤ length btf.now.records }
    ensures { result ≡ int_under btf.now id }
{
    int_of(btf, under(btf, id, MODIFIERS)?)
}
