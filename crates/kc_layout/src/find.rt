// The type with a name.
ghost use Rattle.std.specs.Prelude.{◌≡◌, ℕ, ◌<◌, ◌≤◌, length, Some, option_and_then, is_some, bytes_eq, ◌&&◌, IfSome};
ghost use Rattle.kc_btf.specs.Role.{LiesInside, rest_role};
ghost use Rattle.kc_btf.specs.Readers.{name_at};
ghost use Rattle.kc_layout.specs.Find.{find, least, is_wanted, leads_to_compound, FindsType};

use crate::bare::{MODIFIERS, compound_of, under};
use kc_btf::{Btf, Kind, TypeRef};

// What is looked for by a name.
#[derive(Clone, Copy, Debug, PartialEq, Eq)]
pub(crate) enum Wanted {
    // A struct or union.
    Compound,
    // A typedef that leads to one.
    Alias,
}

/// The number of the type with a name: of the structs and unions the least, and where there are none, the
/// least typedef that leads to one under at most 32 modifiers, itself among them. `None` for other names and
/// for the empty one.
pub fn find_type(btf: &Btf, name: &[u8]) -> Option<u32>
    ensures exact { result ≡ find btf.now name.now }
    ensures some { IfSome result (λ id. 0 < id) }
    ensures there { IfSome result (λ id. id ≤ length btf.now.records) }
    // It has the name and leads to a struct or union, and nothing before it that does comes first; `None` is the
    // answer only where there is no such type.
    ensures found { FindsType btf.now name.now result }
{
    find_named(btf, name)
}

// The type with a name.
fn find_named(btf: &Btf, name: &[u8]) -> Option<u32>
    ensures exact { result ≡ find btf.now name.now }
    ensures some { IfSome result (λ id. 0 < id) }
    ensures there { IfSome result (λ id. id ≤ length btf.now.records) }
{
    if name.is_empty() {
        return None;
    }
    match least(btf, name, Wanted::Compound) {
        Some(id) => Some(id),
        None => least(btf, name, Wanted::Alias),
    }
}

// The least number of a type that is wanted and has a name.
fn least(btf: &Btf, name: &[u8], wanted: Wanted) -> Option<u32>
    ensures exact { result ≡ least btf.now name.now wanted }
    ensures some { IfSome result (λ id. 0 < id) }
    ensures there { IfSome result (λ id. id ≤ length btf.now.records) }
{
    for index in 0..btf.count() {
        let t = btf.ty(index + 1);
        if is_named(btf, t, name, wanted) {
            return Some(index + 1);
        }
    }
    None
}

// Whether a type has a name and is wanted.
pub(crate) fn is_named(btf: &Btf, t: TypeRef, name: &[u8], wanted: Wanted) -> bool
    requires text { t.name < length btf.now.strings }
    requires target { LiesInside (length btf.now.strings) (length btf.now.records) (rest_role t.kind) t.rest }
    ensures { result ≡ (bytes_eq (name_at btf.now.strings t.name) name.now && is_wanted btf.now wanted t.kind t.rest) }
{
    btf.is_named(t.name, name) && is_wanted(btf, t, wanted)
}

// Whether a type is wanted, whatever its name.
fn is_wanted(btf: &Btf, t: TypeRef, wanted: Wanted) -> bool
    requires { LiesInside (length btf.now.strings) (length btf.now.records) (rest_role t.kind) t.rest }
    ensures { result ≡ is_wanted btf.now wanted t.kind t.rest }
{
    match wanted {
        Wanted::Compound => t.kind.is_compound(),
        Wanted::Alias => t.kind == Kind::Typedef && leads_to_compound(btf, t.rest),
    }
}

// Whether the type under a typedef's other modifiers is a struct or union.
fn leads_to_compound(btf: &Btf, target: u32) -> bool
    requires { target ≤ length btf.now.records }
    ensures { result ≡ leads_to_compound 31 btf.now target }
{
    match under(btf, target, MODIFIERS - 1) {
        Some(bare) => compound_of(btf, bare).is_some(),
        None => false,
    }
}
