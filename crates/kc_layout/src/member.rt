// A member by its name.
ghost use Rattle.std.specs.Prelude.{◌≡◌, ◌+◌, ◌*◌, ◌^◌, ◌<◌, ◌≤◌, length, Some, IsTrue};
ghost use Rattle.kc_btf.specs.Kind.{is_compound};
ghost use Rattle.kc_btf.specs.Readers.{type_numbered};
ghost use Rattle.kc_layout.specs.Search.{lent, search, spot_of, FindsMember, LiesBehind};

use crate::bare::{MODIFIERS, compound_of, under};
use crate::place::Spot;
use kc_btf::{Btf, Member, TypeRef};

// How a search for a member ends.
#[derive(Clone, Copy, Debug, PartialEq, Eq)]
pub(crate) enum Search {
    // The member lies there.
    Found(Spot),
    // There is none, and so many members may still be looked at.
    Absent(u32),
    // A limit was passed first: of members, of levels without a name, or of modifiers.
    Beyond,
}

/// How many members are looked at, for one name or one layout.
pub(crate) const MEMBERS: u32 = 65536;

/// How many levels of structs and unions are entered: the one that is given, and 32 without a name.
pub(crate) const LEVELS: u8 = 33;

// Searches a struct or union, whose first bit is given, for a member.
pub(crate) fn find_member(btf: &Btf, t: TypeRef, name: &[u8], base: u64) -> Search
    requires ours { type_numbered btf.now t.id ≡ Some t }
    requires compound { IsTrue (is_compound t.kind) }
    requires near { base < 2 ^ 36 }
    ensures exact { result ≡ search 33 btf.now name.now t.id base 65536 }
    ensures inside { LiesBehind base (length btf.now.records) result }
    // What is found is a member with the name, and the bits on the way to it add up; where none is, none lies there.
    ensures member { FindsMember btf.now name.now t.id base result }
{
    search_type(btf, t, name, base, MEMBERS, LEVELS)
}

// Searches a struct or union and those without a name in it, from a bit on, through so many members and
// levels at most.
#[cycle(search)]
fn search_type(btf: &Btf, t: TypeRef, name: &[u8], base: u64, left: u32, levels: u8) -> Search
    requires ours { type_numbered btf.now t.id ≡ Some t }
    requires compound { IsTrue (is_compound t.kind) }
    requires room { base + 2 ^ 32 * levels ≤ 2 ^ 40 }
    ensures exact { result ≡ search levels btf.now name.now t.id base left }
    ensures behind { LiesBehind base (length btf.now.records) result }
{
    if levels == 0 {
        return Search::Beyond;
    }
    let mut remaining = left;
    for member in btf.members(t) {
        if remaining == 0 {
            return Search::Beyond;
        }
        if btf.is_named(member.name, name) {
            return Search::Found(spot_of(base, member));
        }
        match search_lent(btf, member, name, base, remaining - 1, levels - 1) {
            Search::Absent(rest) => remaining = rest,
            Search::Found(spot) => return Search::Found(spot),
            Search::Beyond => return Search::Beyond,
        }
    }
    Search::Absent(remaining)
}

// Where a member of a struct lies that begins at a bit.
fn spot_of(base: u64, member: Member) -> Spot
    requires { base < 2 ^ 63 }
    ensures { result ≡ spot_of base member }
{
    Spot {
        bit: base + u64::from(member.bit),
        width: member.width,
        ty: member.ty,
    }
}

// Searches what a member without a name lends.
#[cycle(search)]
fn search_lent(btf: &Btf, member: Member, name: &[u8], base: u64, left: u32, levels: u8) -> Search
    requires name { member.name < length btf.now.strings }
    requires ty { member.ty ≤ length btf.now.records }
    requires room { base + 2 ^ 32 * (levels + 1) ≤ 2 ^ 40 }
    ensures exact { result ≡ lent (search levels btf.now name.now) btf.now base left member }
    ensures behind { LiesBehind base (length btf.now.records) result }
{
    if !btf.is_named(member.name, b"") {
        return Search::Absent(left);
    }
    let Some(bare) = under(btf, member.ty, MODIFIERS) else {
        return Search::Beyond;
    };
    match compound_of(btf, bare) {
        None => Search::Absent(left),
        Some(t) => search_type(btf, t, name, base + u64::from(member.bit), left, levels),
    }
}
