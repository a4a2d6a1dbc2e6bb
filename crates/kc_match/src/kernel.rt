// What the files tell of a kernel.
ghost use Rattle.std.specs.Prelude.{◌≡◌, ◌<◌, ◌≤◌, length, Some, option_and_then, if◌then◌else◌};
ghost use Rattle.kc_btf.specs.Readers.{type_numbered};
ghost use Rattle.kc_layout.specs.Find.{find};
ghost use Rattle.kc_match.specs.Named.{is_like, is_of, is_of_first};
ghost use Rattle.kc_match.specs.Outcomes.{byte_of, fits, fits_named, image_address, outcome, symbol_outcome};
ghost use Rattle.kc_match.specs.Views.{fact_view, kernel_view, measured};

use crate::fact::Fact;
use crate::outcome::{Other, Outcome};
use kc_btf::{Btf, Kind, TypeRef};
use kc_layout::{compound_under, find_type, locate, size_of};
use kc_syms::Symbols;

/// The kernel's image is linked to stand at this address and above.
const IMAGE_START: u64 = 0xffff_ffff_8000_0000;

/// What is compared with the notes.
#[derive(Clone, Copy)]
pub struct Compared<'k, 'm> {
    /// The types.
    pub types: &'k Btf,
    /// The symbols of the map.
    pub symbols: &'k Symbols<'m>,
    /// How far KASLR moved the kernel's image, in bytes.
    pub kaslr: u64,
}

// What a type tells that a fact can state.
#[derive(Clone, Copy)]
enum Measure<'t> {
    // Its size in bytes.
    Size,
    // The byte at which a member begins.
    Start(&'t [u8]),
}

/// What comes of a fact. Where several types have the name that a line states a size or a byte of, one that tells the same is
/// enough: of structs and unions, or where there is none with the name, of typedefs that lead to one. A symbol is compared only where the line and the map have it in the kernel's image: of some
/// the note has the pointer's value, not its address.
pub fn outcome_of(kernel: Compared<'_, '_>, fact: Fact<'_>) -> Outcome
    ensures { result ≡ outcome (kernel_view kernel.entry) (fact_view fact.entry) }
{
    match fact {
        Fact::Symbol { name, address } => symbol_outcome(kernel, name, address),
        Fact::Size { name, size } => named_outcome(kernel.types, name, Measure::Size, size),
        Fact::Offset { name, member, byte } => {
            named_outcome(kernel.types, name, Measure::Start(member), byte)
        }
    }
}

// What comes of a symbol's address.
#[tactic(auto, unfolding(crate::specs::Outcomes::symbol_outcome))]
fn symbol_outcome(kernel: Compared<'_, '_>, name: &[u8], address: u64) -> Outcome
    ensures { result ≡ symbol_outcome (kernel_view kernel.entry) name.now address }
{
    if address < IMAGE_START {
        return Outcome::Unknown;
    }
    match image_address(kernel, name) {
        Some(told) if told == address => Outcome::Same,
        Some(told) => Outcome::Differs(Other::Map(told)),
        None => Outcome::Unknown,
    }
}

// The address of a symbol at run time, where its rows have one in the kernel's image.
#[tactic(auto, unfolding(crate::specs::Outcomes::image_address))]
fn image_address(kernel: Compared<'_, '_>, name: &[u8]) -> Option<u64>
    ensures { result ≡ image_address (kernel_view kernel.entry) name.now }
{
    match kernel.symbols.address(name, kernel.kaslr) {
        Ok(address) if address >= IMAGE_START => Some(address),
        _ => None,
    }
}

// What comes of a number of bytes that is stated, beside those that the types of a name tell.
fn named_outcome(types: &Btf, name: &[u8], measure: Measure<'_>, stated: i64) -> Outcome
    ensures { result ≡ fits_named types.now name.now (measured types.now measure.entry) stated }
{
    match find_type(types, name) {
        Some(id) => like_outcome(types, name, types.ty(id), measure, stated),
        None => Outcome::Unknown,
    }
}

// The same, where this is the first type of the name.
fn like_outcome(
    types: &Btf,
    name: &[u8],
    first: TypeRef,
    measure: Measure<'_>,
    stated: i64,
) -> Outcome
    requires { option_and_then (type_numbered types.now) (find types.now name.now) ≡ Some first }
    ensures { result ≡ fits_named types.now name.now (measured types.now measure.entry) stated }
{
    let mut outcome = Outcome::Unknown;
    for index in 0..types.count() {
        let told = type_outcome(types, name, first, measure, stated, index + 1);
        outcome = outcome.or(told);
    }
    outcome
}

// What comes of it beside what one type tells, if that is one of the name.
fn type_outcome(
    types: &Btf,
    name: &[u8],
    first: TypeRef,
    measure: Measure<'_>,
    stated: i64,
    id: u32,
) -> Outcome
    requires some { 0 < id }
    requires there { id ≤ length types.now.records }
    ensures { result ≡ (if is_of_first types.now name.now id first then fits stated (measured types.now measure.entry id) else Outcome.Unknown) }
{
    if is_of(types, name, first, types.ty(id)) {
        bytes_outcome(stated, measured(types, measure, id))
    } else {
        Outcome::Unknown
    }
}

// Whether a type has a name and is of the sort of the first one that has it.
fn is_of(types: &Btf, name: &[u8], first: TypeRef, t: TypeRef) -> bool
    requires text { t.name < length types.now.strings }
    requires there { t.id ≤ length types.now.records }
    ensures { result ≡ is_of types.now name.now first t }
{
    types.is_named(t.name, name) && is_like(types, first, t)
}

// Whether a type is a struct or union, where the first one of its name is, and else a typedef that leads to one.
fn is_like(types: &Btf, first: TypeRef, t: TypeRef) -> bool
    requires { t.id ≤ length types.now.records }
    ensures { result ≡ is_like types.now first t }
{
    if first.kind.is_compound() {
        t.kind.is_compound()
    } else {
        t.kind == Kind::Typedef && compound_under(types, t.id).is_some()
    }
}

// What a type tells.
fn measured(types: &Btf, measure: Measure<'_>, id: u32) -> Option<u64>
    requires { id ≤ length types.now.records }
    ensures { result ≡ measured types.now measure.entry id }
{
    match measure {
        Measure::Size => size_of(types, id),
        Measure::Start(member) => byte_of(types, id, member),
    }
}

// The byte at which a member begins in a type, where no pointer leads there. The empty name is no member's.
#[tactic(auto, unfolding(crate::specs::Outcomes::byte_of))]
fn byte_of(types: &Btf, id: u32, member: &[u8]) -> Option<u64>
    requires { id ≤ length types.now.records }
    ensures { result ≡ byte_of types.now member.now id }
{
    if member.is_empty() {
        return None;
    }
    match locate(types, id, member) {
        Ok(place) if place.hops.count == 0 => Some(place.byte),
        _ => None,
    }
}

// What comes of a number of bytes that is stated, beside the one that the types tell.
fn bytes_outcome(stated: i64, told: Option<u64>) -> Outcome
    ensures { result ≡ fits stated told }
{
    match told {
        Some(told) if stated >= 0 && stated as u64 == told => Outcome::Same,
        Some(told) => Outcome::Differs(Other::Btf(told)),
        None => Outcome::Unknown,
    }
}
