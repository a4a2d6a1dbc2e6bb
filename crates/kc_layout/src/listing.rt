// The members of a struct or union, line by line.
ghost use Rattle.std.specs.Prelude.{◌≡◌, ◌+◌, ◌*◌, ◌^◌, ◌<◌, ◌≤◌, length, Some, All, option_map, IfOk, IfSome, IsTrue};
ghost use Rattle.kc_btf.specs.Kind.{is_compound};
ghost use Rattle.kc_btf.specs.Readers.{type_numbered};
ghost use Rattle.kc_layout.specs.Listing.{line_at, anonymous, behind, so_far, listed, lists, listing, AreAll, AreNamed, IsLine};
ghost use Rattle.kc_layout.specs.Bare.{compound_under, int_under};
ghost use Rattle.kc_layout.specs.Size.{size};

use crate::bare::{compound_under, int_under};
use crate::member::{LEVELS, MEMBERS};
use crate::size::size_of;
use kc_btf::{Btf, IntOf, Member, TypeRef};
use kc_word::NoMemory;
use std::alloc::Global;

/// A member as it lies in a struct or union.
#[derive(Clone, Copy, Debug, PartialEq, Eq)]
pub struct Line {
    /// The first bit, counted from the first of the outermost struct.
    pub bit: u64,
    /// The width in bits, where it is known.
    pub width: Option<u64>,
    /// The name's offset in the strings; an empty name is no name.
    pub name: u32,
}

// The line of a member that begins at a bit.
fn line_at(btf: &Btf, member: Member, bit: u64) -> Line
    requires near { bit < 2 ^ 63 }
    requires ty { member.ty ≤ length btf.now.records }
    ensures exact { result ≡ line_at btf.now bit member }
    ensures name { result.name ≡ member.name }
{
    if member.width != 0 {
        return Line {
            bit,
            width: Some(u64::from(member.width)),
            name: member.name,
        };
    }
    match int_under(btf, member.ty) {
        Some(int) => Line {
            bit: bit + u64::from(int.offset),
            width: Some(u64::from(int.bits)),
            name: member.name,
        },
        None => Line {
            bit,
            width: width_of(btf, member.ty),
            name: member.name,
        },
    }
}

// The bits of a type that fills its bytes.
fn width_of(btf: &Btf, id: u32) -> Option<u64>
    requires { id ≤ length btf.now.records }
    ensures { result ≡ option_map (λ bytes. 8 * bytes) (size btf.now id) }
{
    let bytes = size_of(btf, id)?;
    Some(8 * bytes)
}

// The struct or union that stands without a name in place of its members.
fn anonymous(btf: &Btf, member: Member) -> Option<TypeRef>
    requires name { member.name < length btf.now.strings }
    requires ty { member.ty ≤ length btf.now.records }
    ensures exact { result ≡ anonymous btf.now member }
    ensures ours { IfSome result (λ t. type_numbered btf.now t.id ≡ Some t) }
    ensures compound { IfSome result (λ t. IsTrue (is_compound t.kind)) }
{
    if btf.is_named(member.name, b"") {
        compound_under(btf, member.ty)
    } else {
        None
    }
}

/// The members of a struct or union as lines, in their order and depth first, with their bits. A struct or
/// union without a name, under at most 32 modifiers, is no line: its members are. `None` where more than
/// 65,536 members, those without a name included, or more than 32 levels without a name would be looked at.
///
/// # Errors
///
/// `NoMemory` where there is none for the lines.
pub fn list_members(alloc: Global, btf: &Btf, t: TypeRef) -> Result<Option<Vec<Line>>, NoMemory>
    requires ours { type_numbered btf.now t.id ≡ Some t }
    requires compound { IsTrue (is_compound t.kind) }
    ensures exact { IfOk result (λ lines. listing btf.now t.id ≡ option_map (λ v. v.items) lines) }
    ensures named { IfOk result (λ lines. IfSome lines (λ v. AreNamed btf.now v.items)) }
    // Each line is that of a member, and the bits on the way to it add up.
    ensures members { IfOk result (λ lines. IfSome lines (λ v. All (IsLine btf.now t.id 0) v.items)) }
    // No line is missing.
    ensures complete { IfOk result (λ lines. IfSome lines (λ v. AreAll btf.now t.id 0 v.items)) }
{
    let mut lines = Vec::new(alloc);
    match list_type(btf, t, 0, MEMBERS, LEVELS, &mut lines)? {
        Some(_) => Ok(Some(lines)),
        None => Ok(None),
    }
}

// Adds what a struct or union lists from a bit on, through so many members and levels at most, and answers
// how many members may still be looked at. `None` where a limit is passed.
#[cycle(listing)]
fn list_type(
    btf: &Btf,
    t: TypeRef,
    base: u64,
    left: u32,
    levels: u8,
    lines: &mut Vec<Line>,
) -> Result<Option<u32>, NoMemory>
    requires ours { type_numbered btf.now t.id ≡ Some t }
    requires compound { IsTrue (is_compound t.kind) }
    requires room { base + 2 ^ 32 * levels ≤ 2 ^ 40 }
    requires named { AreNamed btf.now lines.old.items }
    ensures exact { IfOk result (λ rest. so_far lines.new.items rest ≡ option_map (behind lines.old.items) (lists levels btf.now t.id base left)) }
    ensures named { AreNamed btf.now lines.new.items }
{
    if levels == 0 {
        return Ok(None);
    }
    let mut remaining = left;
    for member in btf.members(t) {
        if remaining == 0 {
            return Ok(None);
        }
        match list_member(btf, member, base, remaining - 1, levels - 1, lines)? {
            Some(rest) => remaining = rest,
            None => return Ok(None),
        }
    }
    Ok(Some(remaining))
}

// Adds what a member lists.
#[cycle(listing)]
fn list_member(
    btf: &Btf,
    member: Member,
    base: u64,
    left: u32,
    levels: u8,
    lines: &mut Vec<Line>,
) -> Result<Option<u32>, NoMemory>
    requires name { member.name < length btf.now.strings }
    requires ty { member.ty ≤ length btf.now.records }
    requires room { base + 2 ^ 32 * (levels + 1) ≤ 2 ^ 40 }
    requires named { AreNamed btf.now lines.old.items }
    ensures exact { IfOk result (λ rest. so_far lines.new.items rest ≡ option_map (behind lines.old.items) (listed (lists levels btf.now) btf.now base left member)) }
    ensures named { AreNamed btf.now lines.new.items }
{
    let bit = base + u64::from(member.bit);
    match anonymous(btf, member) {
        Some(t) => list_type(btf, t, bit, left, levels, lines),
        None => {
            lines.push(line_at(btf, member, bit))?;
            Ok(Some(left))
        }
    }
}
