// The path of the member that has a byte.
ghost use Rattle.std.specs.Prelude.{◌≡◌, ◌++◌, ◌≤◌, length, OnOk};
ghost use Rattle.kc_layout.specs.MemberPath.MemberPaths.{LabelIsInside, begins, label_text, member_path, name_text, path_within};

use crate::member_path::step::{Label, step_into};
use kc_btf::Btf;
use kc_text::{push, push_name, push_numbered};
use kc_word::NoMemory;

/// How many members and elements lie in one another.
const LEVELS: u8 = 32;

// Adds a name, after a dot where a path has begun. An empty name is none.
fn push_part(text: &mut Vec<u8>, name: &[u8], begun: bool) -> Result<(), NoMemory>
    ensures { OnOk result (text.new.items ≡ text.old.items ++ name_text begun name.now) }
{
    if name.is_empty() {
        return Ok(());
    }
    if begun {
        push(text, b".")?;
    }
    push_name(text, name)
}

// Adds what a step leads to.
fn push_label(text: &mut Vec<u8>, btf: &Btf, label: Label, begun: bool) -> Result<(), NoMemory>
    requires { LabelIsInside btf.now label }
    ensures { OnOk result (text.new.items ≡ text.old.items ++ label_text btf.now begun label) }
{
    match label {
        Label::Name(name) => push_part(text, btf.name(name), begun),
        Label::Index(index) => {
            push_numbered(text, b"[", index)?;
            push(text, b"]")
        }
    }
}

// Whether a path has begun behind what a step leads to.
fn begins(btf: &Btf, label: Label, begun: bool) -> bool
    requires { LabelIsInside btf.now label }
    ensures { result ≡ begins btf.now begun label }
{
    match label {
        Label::Name(name) => begun || !btf.name(name).is_empty(),
        Label::Index(_) => true,
    }
}

/// Adds the path of the innermost member of a type in which a byte lies, counted from the first byte of the type: members by their
/// names, with a question mark for each byte that is no visible ASCII character, the elements of arrays by their indexes, through
/// members without a name. Of members that lie at the same bytes, as those
/// of a union, the first is taken; a bit-field has the byte that it begins in; the last member has the bytes from its first on where it
/// is an array with no end; pointers aren't followed. The path ends where no member has the byte, and is empty where the type itself has none, or is no struct, union or array. At most 32 members and
/// elements are entered.
///
/// # Errors
///
/// No memory was left.
pub fn push_member(text: &mut Vec<u8>, btf: &Btf, ty: u32, byte: u64) -> Result<(), NoMemory>
    requires { ty ≤ length btf.now.records }
    ensures { OnOk result (text.new.items ≡ text.old.items ++ member_path btf.now ty byte) }
{
    push_within(text, btf, ty, byte, false, LEVELS)
}

// The same behind a path, through so many members and elements at most.
fn push_within(
    text: &mut Vec<u8>,
    btf: &Btf,
    ty: u32,
    byte: u64,
    begun: bool,
    levels: u8,
) -> Result<(), NoMemory>
    requires { ty ≤ length btf.now.records }
    ensures { OnOk result (text.new.items ≡ text.old.items ++ path_within levels btf.now begun ty byte) }
{
    if levels == 0 {
        return Ok(());
    }
    let Some(next) = step_into(btf, ty, byte) else {
        return Ok(());
    };
    let begins = begins(btf, next.label, begun);
    push_label(text, btf, next.label, begun)?;
    push_within(text, btf, next.ty, next.byte, begins, levels - 1)
}
