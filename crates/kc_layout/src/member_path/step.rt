// One step into a type, to the member or the element that has a byte.
ghost use Rattle.std.specs.Prelude.{◌≡◌, ◌<◌, ◌≤◌, ◌/◌, length, None, Some, IfSome, IsTrue, find};
ghost use Rattle.kc_btf.specs.Kind.{is_compound};
ghost use Rattle.kc_btf.specs.Readers.{type_numbered};
ghost use Rattle.kc_layout.specs.Bare.{members_numbered};
ghost use Rattle.kc_layout.specs.Size.{size};
ghost use Rattle.kc_layout.specs.MemberPath.MemberPaths.{LiesInside, byte_count, element_of, has, holder, is_open, last_or, member_step, step_into};

use crate::{array_under, compound_under, size_of};
use kc_btf::{ArrayOf, Btf, Member, TypeRef};

/// What a step into a type leads to.
#[derive(Clone, Copy, Debug, PartialEq, Eq)]
pub enum Label {
    /// A member whose name has this offset in the strings; an empty name is no name.
    Name(u32),
    /// An element of an array, by its index from 0.
    Index(u64),
}

/// A step into a type.
#[derive(Clone, Copy, Debug, PartialEq, Eq)]
pub struct Step {
    /// What it leads to.
    pub label: Label,
    /// The number of the type there.
    pub ty: u32,
    /// The byte, counted from the first one of that type.
    pub byte: u64,
}

// How many bytes a member has. A bit-field counts as the byte that it begins in.
fn byte_count(btf: &Btf, member: Member) -> u64
    requires { member.ty ≤ length btf.now.records }
    ensures { result ≡ byte_count btf.now member }
{
    if member.width != 0 {
        return 1;
    }
    match size_of(btf, member.ty) {
        Some(size) => size,
        None => 0,
    }
}

// Whether a member has a byte of its struct or union.
fn has(btf: &Btf, byte: u64, member: Member) -> bool
    requires { member.ty ≤ length btf.now.records }
    ensures { result ≡ has btf.now byte member }
{
    let first = u64::from(member.bit / 8);
    first <= byte && byte - first < byte_count(btf, member)
}

// The first member of a struct or union that has a byte.
fn first_holder(btf: &Btf, byte: u64, t: TypeRef) -> Option<Member>
    requires ours { type_numbered btf.now t.id ≡ Some t }
    requires compound { IsTrue (is_compound t.kind) }
    ensures exact { result ≡ find (has btf.now byte) (members_numbered btf.now t.id) }
    ensures before { IfSome result (λ m. m.bit / 8 ≤ byte) }
    ensures inside { IfSome result (λ m. (m.name < length btf.now.strings) × (m.ty ≤ length btf.now.records)) }
{
    for member in btf.members(t) {
        if has(btf, byte, member) {
            return Some(member);
        }
    }
    None
}

// Its last member.
fn last_member(btf: &Btf, t: TypeRef) -> Option<Member>
    requires ours { type_numbered btf.now t.id ≡ Some t }
    requires compound { IsTrue (is_compound t.kind) }
    ensures exact { result ≡ last_or None (members_numbered btf.now t.id) }
    ensures inside { IfSome result (λ m. (m.name < length btf.now.strings) × (m.ty ≤ length btf.now.records)) }
{
    let mut last = None;
    for member in btf.members(t) {
        last = Some(member);
    }
    last
}

// Whether a member is an array with no end, which begins at a byte or before it.
fn is_open(btf: &Btf, byte: u64, member: Member) -> bool
    requires { member.ty ≤ length btf.now.records }
    ensures { result ≡ is_open btf.now byte member }
{
    match array_under(btf, member.ty) {
        Some(array) => u64::from(member.bit / 8) <= byte && array.nelems == 0,
        None => false,
    }
}

// The member of a struct or union that has a byte.
fn holder(btf: &Btf, byte: u64, t: TypeRef) -> Option<Member>
    requires ours { type_numbered btf.now t.id ≡ Some t }
    requires compound { IsTrue (is_compound t.kind) }
    ensures exact { result ≡ holder btf.now byte t.id }
    ensures before { IfSome result (λ m. m.bit / 8 ≤ byte) }
    ensures inside { IfSome result (λ m. (m.name < length btf.now.strings) × (m.ty ≤ length btf.now.records)) }
{
    if let Some(member) = first_holder(btf, byte, t) {
        return Some(member);
    }
    let member = last_member(btf, t)?;
    if is_open(btf, byte, member) {
        Some(member)
    } else {
        None
    }
}

// The step to the member that has a byte.
fn member_step(btf: &Btf, byte: u64, t: TypeRef) -> Option<Step>
    requires ours { type_numbered btf.now t.id ≡ Some t }
    requires compound { IsTrue (is_compound t.kind) }
    ensures exact { result ≡ member_step btf.now byte t.id }
    ensures inside { IfSome result (LiesInside btf.now) }
{
    let member = holder(btf, byte, t)?;
    Some(Step {
        label: Label::Name(member.name),
        ty: member.ty,
        byte: byte - u64::from(member.bit / 8),
    })
}

// The step to the element that has a byte.
fn element_step(btf: &Btf, byte: u64, array: ArrayOf) -> Option<Step>
    requires { array.ty ≤ length btf.now.records }
    ensures exact { result ≡ element_of byte array (size btf.now array.ty) }
    ensures inside { IfSome result (LiesInside btf.now) }
{
    let size = size_of(btf, array.ty)?;
    if byte >= u64::from(array.nelems) * size && (array.nelems != 0 || size == 0) {
        return None;
    }
    Some(Step {
        label: Label::Index(byte / size),
        ty: array.ty,
        byte: byte % size,
    })
}

// The step into a type to what has a byte.
pub(crate) fn step_into(btf: &Btf, ty: u32, byte: u64) -> Option<Step>
    requires { ty ≤ length btf.now.records }
    ensures exact { result ≡ step_into btf.now ty byte }
    ensures inside { IfSome result (LiesInside btf.now) }
{
    match compound_under(btf, ty) {
        Some(t) => member_step(btf, byte, t),
        None => element_step(btf, byte, array_under(btf, ty)?),
    }
}
