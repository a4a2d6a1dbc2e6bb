// A module's file, and what it may break.
ghost use Rattle.std.specs.Prelude.{◌≡◌, IsTrue, OnOk, IfOk, length};
ghost use Rattle.kc_btf.specs.Answers.{FaultIs};
ghost use Rattle.kc_btf.specs.Header.{IsHeader, AreInside, sections_fault, strings_fault, string_section};
ghost use Rattle.kc_split.specs.Split.{are_more_strings, ReadsAs};
ghost use Rattle.kc_btf.specs.Answers.{first_of};

use kc_btf::{BRule, Btf, BtfFault, BtfStop, Header, Limits, check_inside, record_places};
use std::alloc::Global;

// Whether strings are empty or end with a NUL.
fn are_more_strings(strings: &[u8]) -> bool
    ensures { result ≡ are_more_strings strings.now }
{
    strings.is_empty() || strings[strings.len() - 1] == 0
}

// Where a module's sections lie, or the first rule that its header breaks.
fn read_header(bytes: &[u8]) -> Result<Header, BtfFault>
    ensures fault { FaultIs result (first_of (sections_fault bytes.now) (strings_fault are_more_strings bytes.now)) }
    ensures header { IfOk result (IsHeader bytes.now) }
    ensures inside { IfOk result (AreInside bytes.now) }
    ensures strings { OnOk result (IsTrue (are_more_strings (string_section bytes.now))) }
{
    let header = Header::locate(bytes)?;
    if !are_more_strings(&bytes[header.strings..header.strings_end]) {
        return Err(BRule::B5.at(header.strings));
    }
    Ok(header)
}

// Where a module's sections lie, if no rule is broken.
pub(crate) fn read_module(alloc: Global, base: &Btf, bytes: &[u8]) -> Result<Header, BtfStop>
    ensures exact { ReadsAs base.now bytes.now result }
    ensures header { IfOk result (IsHeader bytes.now) }
    ensures inside { IfOk result (AreInside bytes.now) }
    ensures strings { OnOk result (IsTrue (are_more_strings (string_section bytes.now))) }
{
    let header = read_header(bytes)?;
    let table = record_places(alloc, bytes, header.types, header.types_end)?;
    let limits = Limits {
        strings: base.strings().len() + (header.strings_end - header.strings),
        types: base.count() as usize + table.len(),
    };
    check_inside(bytes, header.types, &table, limits)?;
    Ok(header)
}
