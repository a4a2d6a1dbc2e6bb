// The members of a struct or union.
use crate::header::word;
use crate::types::Member;
use std::marker::Model;

/// The bytes of a member.
const MEMBER: usize = 12;

/// The members of a struct or union in their order, seen as the list of those that are left.
#[derive(Drop)]
pub struct Members<'b> {
    bytes: &'b [u8],
    // where the next member lies, and how many are left
    at: usize,
    left: u16,
    flag: bool,
}

impl<'b> Model for Members<'b> {
    ghost use Rattle.std.specs.Prelude.{◌+◌, ◌*◌, ◌≤◌, List, length};
    ghost use Rattle.kc_btf.specs.declared.types.Member.{Member};
    ghost use Rattle.kc_btf.specs.Numbers.{words};
    ghost use Rattle.kc_btf.specs.Readers.{members};

    ghost Value = { List Member };

    ghost view = { λ m. members m.flag (words (3 * m.left) m.bytes.now m.at) };

    ghost invariant = { λ m. m.at + 12 * m.left ≤ length m.bytes.now };
}

impl<'b> Members<'b> {
    ghost use Rattle.std.specs.Prelude.{◌≡◌, ◌+◌, ◌*◌, ◌≤◌, length};
    ghost use Rattle.kc_btf.specs.Numbers.{words};
    ghost use Rattle.kc_btf.specs.Readers.{members};

    // So many members from a place on.
    pub(crate) fn new(bytes: &'b [u8], at: usize, left: u16, flag: bool) -> Members<'b>
        requires { at + 12 * left ≤ length bytes.now }
        ensures { result ≡ members flag (words (3 * left) bytes.now at) }
    {
        Members {
            bytes,
            at,
            left,
            flag,
        }
    }
}

impl Iterator for Members<'_> {
    ghost use Rattle.std.specs.Iterator.{YieldsFirst, item_count};

    type Item = Member;

    ghost next_gives = { YieldsFirst (λ rest. rest) };

    ghost remaining = { item_count (λ rest. rest) };

    fn next(&mut self) -> Option<Member> {
        if self.left == 0 {
            return None;
        }
        let member = member_at(self.bytes, self.at, self.flag);
        self.at += MEMBER;
        self.left -= 1;
        Some(member)
    }
}

ghost use Rattle.std.specs.Prelude.{◌≡◌, ◌+◌, ◌≤◌, length};
ghost use Rattle.kc_btf.specs.Numbers.{word};
ghost use Rattle.kc_btf.specs.Readers.{member_of};

// The member at a place.
fn member_at(bytes: &[u8], at: usize, flag: bool) -> Member
    requires { at + 12 ≤ length bytes.now }
    ensures { result ≡ member_of flag (word bytes.now at) (word bytes.now (at + 4)) (word bytes.now (at + 8)) }
{
    let name = word(bytes, at);
    let ty = word(bytes, at + 4);
    let offset = word(bytes, at + 8);
    if flag {
        Member {
            name,
            ty,
            bit: offset % (1 << 24),
            width: (offset / (1 << 24)) as u8,
        }
    } else {
        Member {
            name,
            ty,
            bit: offset,
            width: 0,
        }
    }
}
