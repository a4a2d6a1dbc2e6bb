// The types of a file, and their readers.
use crate::header::Header;
use crate::inside::{Limits, check_inside};
use crate::kind::Kind;
use crate::members::Members;
use crate::places::record_places;
use crate::record::{RECORD, array_at, int_at, type_at};
use crate::stop::BtfStop;
use crate::types::{ArrayOf, IntOf, TypeRef};
use std::alloc::Global;
use std::marker::Model;

/// The types of a kernel, seen as their records in order with the strings of their names.
#[derive(Drop)]
pub struct Btf {
    bytes: Vec<u8>,
    header: Header,
    // where each record lies, counted from the types' first byte
    table: Vec<u32>,
}

impl Model for Btf {
    ghost use Rattle.kc_btf.specs.Btf.{Types};
    ghost use Rattle.kc_btf.specs.Kept.{kept, IsKept};

    ghost Value = { Types };

    ghost view = { λ b. kept b.bytes.items b.header b.table.items };

    ghost invariant = { λ b. IsKept b.bytes.items b.header b.table.items };
}

impl Btf {
    ghost use Rattle.std.specs.Prelude.{◌≡◌, ◌+◌, ◌<◌, ◌≤◌, length, take, bytes_eq, Some, option_map, option_and_then, All, IsTrue, IfOk};
    ghost use Rattle.std.specs.List.{flat_map};
    ghost use Rattle.kc_word.specs.Answers.{GivesTold};
    ghost use Rattle.kc_btf.specs.Answers.{told};
    ghost use Rattle.kc_btf.specs.Btf.{btf, RefersInside};
    ghost use Rattle.kc_btf.specs.Header.{type_section, are_strings};
    ghost use Rattle.kc_btf.specs.Spelling.{spelled, HasForm};
    ghost use Rattle.kc_btf.specs.Whole.{AreOfAFile};
    ghost use Rattle.kc_btf.specs.Kind.{is_compound};
    ghost use Rattle.kc_btf.specs.Role.{rest_role, LiesInside};
    ghost use Rattle.kc_btf.specs.Readers.{name_at, record_numbered, type_numbered, members_of, array_of, int_of};

    /// Reads a file, the raw bytes of a kernel's section `.BTF`. The records are gone through twice, and a
    /// table keeps the place of each in 4 bytes.
    ///
    /// # Errors
    ///
    /// `Fault` with the first rule that the file breaks, and where; `NoMemory` where there is none for the
    /// table. Both drop the bytes.
    pub fn read(alloc: Global, bytes: Vec<u8>) -> Result<Btf, BtfStop>
        ensures exact { GivesTold told (λ types. types) result (btf bytes.items) }
        // The records, written out again, are the bytes of the types.
        ensures spelled { IfOk result (λ types. flat_map spelled types.records ≡ type_section bytes.items) }
        ensures form { IfOk result (λ types. All HasForm types.records) }
        // Each name and type that a record refers to is there.
        ensures inside { IfOk result (λ types. All (RefersInside types) types.records) }
        // Neither section is longer than the file.
        ensures types_short { IfOk result (λ types. length (flat_map spelled types.records) ≤ length bytes.items) }
        ensures strings_short { IfOk result (λ types. length types.strings ≤ length bytes.items) }
    {
        let header = Header::read(&bytes)?;
        let table = record_places(alloc, &bytes, header.types, header.types_end)?;
        let limits = Limits {
            strings: header.strings_end - header.strings,
            types: table.len(),
        };
        check_inside(&bytes, header.types, &table, limits)?;
        Ok(Btf {
            bytes,
            header,
            table,
        })
    }

    /// Does nothing, and tells a proof that the types are all those of a file: its records, written out again,
    /// are its section of types, and each name and type that one refers to is there.
    pub fn know_types(&self)
        ensures { AreOfAFile self.now }
    {
        let _ = &self.table;
    }

    /// How many types there are, without void.
    pub fn count(&self) -> u32
        ensures { result ≡ length self.now.records }
    {
        self.table.len() as u32
    }

    /// The type of a number, looked up in the table.
    #[inline(always)]
    pub fn ty(&self, id: u32) -> TypeRef
        requires first { 0 < id }
        requires last { id ≤ length self.now.records }
        ensures exact { type_numbered self.now id ≡ Some result }
        ensures name { result.name < length self.now.strings }
        ensures target { LiesInside (length self.now.strings) (length self.now.records) (rest_role result.kind) result.rest }
    {
        type_at(&self.bytes, place(&self.table, self.header.types, id), id)
    }

    /// The bytes of the section of types: the records, written out one after the other.
    pub fn types(&self) -> &[u8]
        ensures { result.now ≡ flat_map spelled self.now.records }
    {
        &self.bytes[self.header.types..self.header.types_end]
    }

    /// The bytes of the strings, in which the names lie.
    pub fn strings(&self) -> &[u8]
        ensures exact { result.now ≡ self.now.strings }
        // They begin and end with a NUL.
        ensures form { IsTrue (are_strings self.now.strings) }
    {
        &self.bytes[self.header.strings..self.header.strings_end]
    }

    /// The bytes of a name, without the NUL that ends it.
    pub fn name(&self, off: u32) -> &[u8]
        requires { off < length self.now.strings }
        ensures exact { result.now ≡ name_at self.now.strings off }
        ensures inside { off + length result.now < length self.now.strings }
    {
        let strings = &self.bytes[self.header.strings..self.header.strings_end];
        before_nul(&strings[off as usize..])
    }

    /// Whether a name is this one. It looks at no more bytes than the one that is asked has, and the next.
    pub fn is_named(&self, off: u32, name: &[u8]) -> bool
        requires { off < length self.now.strings }
        ensures { result ≡ bytes_eq (name_at self.now.strings off) name.now }
    {
        let strings = &self.bytes[self.header.strings..self.header.strings_end];
        is_before_nul(&strings[off as usize..], name)
    }

    /// The first bytes of a name: so many at most, and all of a shorter one. It looks at no more.
    pub fn name_start(&self, off: u32, most: usize) -> &[u8]
        requires { off < length self.now.strings }
        ensures { result.now ≡ take most (name_at self.now.strings off) }
    {
        let strings = &self.bytes[self.header.strings..self.header.strings_end];
        start_before_nul(&strings[off as usize..], most)
    }

    /// The members of a struct or union, in their order.
    pub fn members(&self, t: TypeRef) -> Members<'_>
        requires ours { type_numbered self.now t.id ≡ Some t }
        requires compound { IsTrue (is_compound t.kind) }
        ensures exact { option_map members_of (record_numbered self.now t.id) ≡ Some result }
        ensures inside { All (λ m. (m.name < length self.now.strings) × (m.ty ≤ length self.now.records)) result }
    {
        let behind = place(&self.table, self.header.types, t.id) + RECORD;
        Members::new(&self.bytes, behind, t.vlen, t.flag)
    }

    /// What an array is of.
    pub fn array(&self, t: TypeRef) -> ArrayOf
        requires ours { type_numbered self.now t.id ≡ Some t }
        requires array { t.kind ≡ Kind.Array }
        ensures exact { option_and_then array_of (record_numbered self.now t.id) ≡ Some result }
        ensures inside { result.ty ≤ length self.now.records }
    {
        array_at(&self.bytes, place(&self.table, self.header.types, t.id))
    }

    /// How a number lies in its bytes.
    pub fn int(&self, t: TypeRef) -> IntOf
        requires ours { type_numbered self.now t.id ≡ Some t }
        requires int { t.kind ≡ Kind.Int }
        ensures { option_and_then int_of (record_numbered self.now t.id) ≡ Some result }
    {
        int_at(&self.bytes, place(&self.table, self.header.types, t.id))
    }
}

ghost use Rattle.std.specs.Prelude.{◌≡◌, ◌+◌, ◌-◌, ◌^◌, ◌<◌, ◌≤◌, length, take, slice_index, bytes_eq, ◌==◌};
ghost use Rattle.std.specs.List.{before_first};

// Where the record of a type lies in the file.
#[inline(always)]
fn place(table: &[u32], types: usize, id: u32) -> usize
    requires first { 0 < id }
    requires last { id ≤ length table.now }
    requires fits { types + slice_index table.now (id - 1) < 2 ^ 64 }
    ensures { result ≡ types + slice_index table.now (id - 1) }
{
    types + table[id as usize - 1] as usize
}

// The bytes before the first NUL.
fn before_nul(text: &[u8]) -> &[u8]
    requires some { 0 < length text.now }
    requires ended { slice_index text.now (length text.now - 1) ≡ 0 }
    ensures exact { result.now ≡ before_first (λ c. c == 0) text.now }
    ensures inside { length result.now < length text.now }
{
    match text.iter().position(|c| *c == 0) {
        Some(length) => &text[..length],
        None => unreachable!(),
    }
}

// The bytes before the first NUL, or all where there is none.
fn before_nul_or_end(text: &[u8]) -> &[u8]
    ensures { result.now ≡ before_first (λ c. c == 0) text.now }
{
    match text.iter().position(|c| *c == 0) {
        Some(length) => &text[..length],
        None => text,
    }
}

// Whether the bytes before the first NUL are these. Most names differ in their first byte.
fn is_before_nul(text: &[u8], name: &[u8]) -> bool
    ensures { result ≡ bytes_eq (before_first (λ c. c == 0) text.now) name.now }
{
    match (text, name) {
        ([c, ..], []) => *c == 0,
        ([c, ..], [n, ..]) if *c != *n => false,
        _ => is_window(text, name),
    }
}

// The same, whatever the first bytes are. A name that is longer isn't gone through: the names of a file may be
// long, and many records may have the same.
fn is_window(text: &[u8], name: &[u8]) -> bool
    ensures { result ≡ bytes_eq (before_first (λ c. c == 0) text.now) name.now }
{
    let window = &text[..(name.len() + 1).min(text.len())];
    before_nul_or_end(window) == name
}

// The first of the bytes before the first NUL.
fn start_before_nul(text: &[u8], most: usize) -> &[u8]
    ensures { result.now ≡ take most (before_first (λ c. c == 0) text.now) }
{
    before_nul_or_end(&text[..most.min(text.len())])
}
