// Files of types. A case gives a file and what is asked of it.
ghost use Rattle.std.specs.Prelude.{◌≡◌, ◌<◌, ◌≤◌, length};

use crate::bytes::bytes_of;
use anyhow::{Context, Result, ensure};
use kc_btf::{ArrayOf, Btf, BtfFault, BtfStop, IntOf, Kind, Member};
use kc_cases::{Case, CaseFile};
use kc_fixture::{btf_file, number, push_numbers, put_bytes};
use std::alloc::{AllocError, Global};
use std::str;

/// How many types a file with changed bytes has, or its first fault; or a record.
pub fn type_file_answer(alloc: Global, case: &Case<'_>) -> Result<String> {
    let (name, asked) = case.given.split_once(' ').context("no question")?;
    let mut bytes = file_of(alloc, case.file, name)?;
    if let Some(id) = asked.strip_prefix("type ") {
        return record_text(alloc, &Btf::read(alloc, bytes)?, number(id));
    }
    let (length, places) = asked.split_once(' ').unwrap_or((asked, ""));
    bytes.truncate(number(length) as usize);
    put_bytes(&mut bytes, places);
    match Btf::read(alloc, bytes) {
        Ok(btf) => Ok(format!(in alloc; "{} types", btf.count())?),
        Err(BtfStop::Fault(BtfFault { rule, at })) => Ok(format!(in alloc; "{rule:?} {at}")?),
        Err(BtfStop::NoMemory) => Err(AllocError.into()),
    }
}

// The file of a small kernel's types, or the numbers and the strings of another.
fn file_of(alloc: Global, file: &CaseFile, name: &str) -> Result<Vec<u8>> {
    if name == "kernel" {
        return Ok(btf_file(alloc)?);
    }
    let mut bytes = Vec::new(alloc);
    push_numbers(&mut bytes, file.section(name)?)?;
    let strings = file.section(format!(in alloc; "strings of {name}")?.as_str())?;
    bytes.extend_from_slice(&bytes_of(alloc, strings.trim())?)?;
    Ok(bytes)
}

// A record, and what its kind has.
fn record_text(alloc: Global, btf: &Btf, id: u32) -> Result<String> {
    ensure!(id > 0 && id <= btf.count(), "no such type");
    let t = btf.ty(id);
    let name = str::from_utf8(btf.name(t.name))?;
    let flag = if t.flag { " flag" } else { "" };
    let mut text = format!(in alloc; "{:?} `{name}` {} {}{flag}", t.kind, t.vlen, t.rest)?;
    match t.kind {
        Kind::Int => {
            let IntOf {
                offset,
                bits,
                signed,
            } = btf.int(t);
            let sign = if signed { " signed" } else { "" };
            write!(
                &mut text,
                ", bits {offset} to {}{sign}",
                u32::from(offset) + u32::from(bits)
            )?;
        }
        Kind::Array => {
            let ArrayOf { ty, nelems } = btf.array(t);
            write!(&mut text, ", {nelems} of {ty}")?;
        }
        Kind::Struct | Kind::Union => {
            for member in btf.members(t) {
                push_member(&mut text, btf, member)?;
            }
        }
        _ => {}
    }
    Ok(text)
}

// Adds a member's name, its type, its bit, and the width of a bit-field.
fn push_member(text: &mut String, btf: &Btf, member: Member) -> Result<()>
    requires { member.name < length btf.now.strings }
{
    let name = str::from_utf8(btf.name(member.name))?;
    write!(text, ", `{name}` {} at {}", member.ty, member.bit)?;
    if member.width > 0 {
        write!(text, " {}", member.width)?;
    }
    Ok(())
}
