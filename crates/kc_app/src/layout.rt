// The command `layout`: the members of a struct or union.
ghost use Rattle.std.specs.Prelude.{◌≡◌, ◌<◌, ◌≤◌, ◌++◌, length, map, None, Some, IfOk, IfSome, IsTrue, OnOk, option_and_then, option_map};
ghost use Rattle.std.specs.Option.{ForSome};
ghost use Rattle.std.specs.String.{string_bytes};
ghost use Rattle.kc_btf.specs.Kind.{is_compound};
ghost use Rattle.kc_btf.specs.Readers.{type_numbered};
ghost use Rattle.kc_layout.specs.Find.{find};
ghost use Rattle.kc_layout.specs.Bare.{compound_under};
ghost use Rattle.kc_layout.specs.Listing.{AreNamed};
ghost use Rattle.kc_outside.specs.declared.store.Slot.{Slot};
ghost use Rattle.kc_outside.specs.Counts.{Rose};
ghost use Rattle.kc_command.specs.Calls.{ReadsOnce, RefusesRead};
ghost use Rattle.kc_command.specs.Halts.{NotStore, OnStore, UnlessStore};
ghost use Rattle.kc_command.specs.Slots.{RefusesAbout};
ghost use Rattle.kc_command.specs.Ends.Answers.{OnNone, Prints, PrintsOf, Runs, StayBehind};
ghost use Rattle.kc_command.specs.Ends.Asked.{word_in};
ghost use Rattle.kc_app.specs.Calls.{LayoutCalls};
ghost use Rattle.kc_app.specs.Layout.{layout_asks, layout_made, layout_of, layout_view};
ghost use Rattle.kc_app.specs.Shown.{compound_line, compound_word, member_line, member_lines, shown_written, width_text};
ghost use Rattle.kc_app.specs.Reads.{ReadsFilesIn};

use kc_btf::{Btf, Kind, TypeRef};
use kc_command::{Answer, Halt, Refusal, read_types};
use kc_layout::{Line, PathFault, QRule, compound_under, find_type, list_members};
use kc_outside::Store;
use kc_text::{push, push_decimal, push_name, push_name_or_dash, push_numbered};
use kc_word::NoMemory;
use std::alloc::Global;

/// What `layout` asks: the members of a struct or union by its name, of the types in a file.
#[derive(Clone, Copy)]
pub struct Asks<'w> {
    /// The name of the file of types.
    pub btf: &'w str,
    /// The name of the type.
    pub name: &'w str,
}

// What the words ask.
fn read(words: &[String]) -> Option<Asks<'_>>
    ensures asked { option_map layout_view result ≡ layout_asks (map string_bytes words.now) }
{
    let [btf, name] = words else {
        return None;
    };
    Some(Asks {
        btf: btf.as_str(),
        name: name.as_str(),
    })
}

/// Runs `layout` on its words: the first fault of the file of types, else the members of the struct or union
/// with a name. `None` where these aren't its words; the store isn't asked then.
pub fn run<S: Store>(alloc: Global, store: &mut S, words: &[String]) -> Option<Result<Answer, Halt>>
    requires { (slot : Slot) → ForSome (word_in (layout_asks (map string_bytes words.now)) slot)
        (S.may store.old slot) }

    ensures output { Runs shown_written (layout_asks (map string_bytes words.now)) (S.files store.old) result
        (S.opened store.old) (S.opened store.new) }
    ensures unasked { OnNone result (S.asked store.new ≡ S.asked store.old) }
    ensures calls { LayoutCalls S.faults S.asked result store.old store.new }
    ensures reads { ReadsFilesIn S.files S.faults result store.old store.new }
{
    let asks = read(words)?;
    Some(layout(alloc, store, asks))
}

// The answer to what is asked.
fn layout<S: Store>(alloc: Global, store: &mut S, asks: Asks<'_>) -> Result<Answer, Halt>
    requires may { S.may store.old Slot.Btf asks.btf.now }

    ensures output { PrintsOf shown_written (λ files. layout_made asks.entry.name.now (files Slot.Btf asks.entry.btf.now))
        (S.files store.old) result }
    ensures unopened { StayBehind (layout_view asks.entry).named result (S.opened store.old) (S.opened store.new) }
    ensures files { S.files store.new ≡ S.files store.old }
    ensures later { S.faults store.old ≤ S.faults store.new }
    ensures calls { ReadsOnce S.faults S.asked result store.old store.new }
    ensures quiet { UnlessStore result (S.faults store.new ≡ S.faults store.old) }
    ensures cause { OnStore result (Rose (S.faults store.old) (S.faults store.new)) }
{
    let types = read_types(alloc, store, asks.btf)?;
    lay_out(alloc, &types, asks.name.as_bytes())
}

// The struct or union that a name leads to.
fn named_compound(types: &Btf, name: &[u8]) -> Option<TypeRef>
    ensures exact { result ≡ option_and_then (compound_under types.now) (find types.now name.now) }
    ensures ours { IfSome result (λ t. type_numbered types.now t.id ≡ Some t) }
    ensures compound { IfSome result (λ t. IsTrue (is_compound t.kind)) }
{
    compound_under(types, find_type(types, name)?)
}

// The layout of the struct or union of a name.
fn lay_out(alloc: Global, types: &Btf, name: &[u8]) -> Result<Answer, Halt>
    ensures output { Prints shown_written (layout_of types.now name.now) result }
    ensures refused { RefusesAbout None result }
    ensures no_call { NotStore result }
    ensures read { RefusesRead result }
{
    let t = named_compound(types, name).ok_or(Refusal::NoType)?;
    let too_many = PathFault {
        rule: QRule::Q5,
        step: 0,
    };
    let lines = list_members(alloc, types, t)?.ok_or(Refusal::Path(too_many))?;
    Ok(Answer::Done(layout_text(alloc, types, t, name, &lines)?))
}

fn push_width(text: &mut Vec<u8>, width: Option<u64>) -> Result<(), NoMemory>
    ensures { OnOk result (text.new.items ≡ text.old.items ++ width_text width) }
{
    match width {
        Some(width) => push_decimal(text, width),
        None => push(text, b"-"),
    }
}

fn push_member(text: &mut Vec<u8>, types: &Btf, line: &Line) -> Result<(), NoMemory>
    requires { line.now.name < length types.now.strings }
    ensures { OnOk result (text.new.items ≡ text.old.items ++ member_line types.now.strings line.now) }
{
    push_numbered(text, b"member ", line.bit)?;
    push(text, b" ")?;
    push_width(text, line.width)?;
    push(text, b" ")?;
    push_name_or_dash(text, types.name(line.name))?;
    push(text, b"\n")
}

fn push_members(text: &mut Vec<u8>, types: &Btf, lines: &[Line]) -> Result<(), NoMemory>
    requires { AreNamed types.now lines.now }
    ensures { OnOk result (text.new.items ≡ text.old.items ++ member_lines types.now.strings lines.now) }
{
    for line in lines {
        push_member(text, types, line)?;
    }
    Ok(())
}

fn compound_word(kind: Kind) -> &'static [u8]
    ensures { result.now ≡ compound_word kind }
{
    match kind {
        Kind::Struct => b"struct ",
        _ => b"union ",
    }
}

// The text of a layout: a line for the struct or union with the name that was asked and its size in bytes,
// and one for each member, with its first bit and its width in bits.
fn layout_text(
    alloc: Global,
    types: &Btf,
    t: TypeRef,
    name: &[u8],
    lines: &[Line],
) -> Result<Vec<u8>, NoMemory>
    requires { AreNamed types.now lines.now }
    ensures { IfOk result (λ text. text.items ≡ compound_line t name.now ++ member_lines types.now.strings lines.now) }
{
    let mut text = Vec::new(alloc);
    push(&mut text, compound_word(t.kind))?;
    push_name(&mut text, name)?;
    push_numbered(&mut text, b" size ", u64::from(t.rest))?;
    push(&mut text, b"\n")?;
    push_members(&mut text, types, lines)?;
    Ok(text)
}
