// Types and paths. A case gives a file of types and what is asked of it.
ghost use Rattle.std.specs.Prelude.{◌≤◌, length, IfOk};
ghost use Rattle.kc_layout.specs.Listing.{AreNamed};

use anyhow::{Context, Result, bail};
use kc_btf::Btf;
use kc_cases::{Case, CaseFile};
use kc_fixture::{Types, btf_file, number};
use kc_layout::{
    Field, Hops, Line, Located, Names, PathFault, compound_under, find_type, list_members, locate,
    pointers_under, resolve, size_of,
};
use kc_word::Bits;
use std::alloc::{AllocError, Global};
use std::str;

/// A type by its name, or its size, what its paths lead to, or its members.
pub fn layout_answer(alloc: Global, case: &Case<'_>) -> Result<String> {
    let (name, asked) = case.given.split_once(' ').context("no question")?;
    let (question, of) = asked.split_once(' ').context("no type")?;
    let btf = types_of(alloc, case.file, name)?;
    if question == "find" {
        return found_text(alloc, &btf, of.as_bytes());
    }
    let (ty, path) = of.split_once(' ').unwrap_or((of, ""));
    let id = id_of(&btf, ty)?;
    match question {
        "size" => Ok(optional_text(alloc, size_of(&btf, id))?),
        "pointers" => Ok(optional_text(alloc, pointers_under(&btf, id).map(u64::from))?),
        "number" => Ok(number_text(alloc, resolve(&btf, id, path.as_bytes()))?),
        "byte" => Ok(byte_text(alloc, locate(&btf, id, path.as_bytes()))?),
        "list" => list_text(alloc, &btf, id),
        "count" => count_text(alloc, &btf, id),
        _ => bail!("an unknown question"),
    }
}

// The types of a small kernel, or those that the file has: a line a type or a member, or so many members behind `*`.
fn types_of(alloc: Global, file: &CaseFile, name: &str) -> Result<Btf> {
    if name == "kernel" {
        return Ok(Btf::read(alloc, btf_file(alloc)?)?);
    }
    let mut types = Types::new(alloc)?;
    for line in file.section(name)?.lines() {
        match line.strip_prefix("* ") {
            Some(many) => {
                let (count, member) = many.split_once(' ').context("no member")?;
                types.add_members(number(count), member)?;
            }
            None => types.add(line)?,
        }
    }
    Ok(Btf::read(alloc, types.file(alloc)?)?)
}

// A type by its number or its name.
fn id_of(btf: &Btf, word: &str) -> Result<u32>
    ensures { IfOk result (λ id. id ≤ length btf.now.records) }
{
    match word.parse::<u32>() {
        Ok(id) if id <= btf.count() => Ok(id),
        _ => find_type(btf, word.as_bytes()).context("no type"),
    }
}

fn optional_text(alloc: Global, number: Option<u64>) -> Result<String, AllocError> {
    match number {
        Some(number) => format!(in alloc; "{number}"),
        None => String::from_str(alloc, "none"),
    }
}

// The type with a name, as both searches find it.
fn found_text(alloc: Global, btf: &Btf, name: &[u8]) -> Result<String> {
    let names = Names::new(alloc, btf)?;
    let found = names.find(btf, name);
    if found != find_type(btf, name) {
        bail!("the searches differ");
    }
    Ok(optional_text(alloc, found.map(u64::from))?)
}

fn number_text(alloc: Global, found: Result<Field, PathFault>) -> Result<String, AllocError> {
    match found {
        Ok(Field { hops, bits, ty }) => {
            let Hops { count, a, b, c, d } = hops;
            let Bits { bit, width, signed } = bits;
            let sign = if signed { "signed" } else { "unsigned" };
            format!(in alloc; "{count} {a} {b} {c} {d} bit {bit} width {width} {sign} type {ty}")
        }
        Err(PathFault { rule, step }) => format!(in alloc; "{rule:?} {step}"),
    }
}

fn byte_text(alloc: Global, found: Result<Located, PathFault>) -> Result<String, AllocError> {
    match found {
        Ok(Located { hops: _, byte, ty }) => format!(in alloc; "byte {byte} type {ty}"),
        Err(PathFault { rule, step }) => format!(in alloc; "{rule:?} {step}"),
    }
}

// How many lines a struct's or union's members have.
fn count_text(alloc: Global, btf: &Btf, id: u32) -> Result<String>
    requires { id ≤ length btf.now.records }
{
    let t = compound_under(btf, id).context("no struct")?;
    let lines = list_members(alloc, btf, t)?;
    Ok(optional_text(alloc, lines.map(|lines| lines.len() as u64))?)
}

// The members of a struct or union, line by line.
fn list_text(alloc: Global, btf: &Btf, id: u32) -> Result<String>
    requires { id ≤ length btf.now.records }
{
    let t = compound_under(btf, id).context("no struct")?;
    match list_members(alloc, btf, t)? {
        Some(lines) => lines_text(alloc, btf, &lines),
        None => Ok(String::from_str(alloc, "none")?),
    }
}

fn lines_text(alloc: Global, btf: &Btf, lines: &[Line]) -> Result<String>
    requires { AreNamed btf.now lines.now }
{
    let mut text = String::new(alloc);
    for line in lines {
        let name = str::from_utf8(btf.name(line.name)).unwrap_or("?");
        let gap = if text.is_empty() { "" } else { ", " };
        match line.width {
            Some(width) => write!(&mut text, "{gap}{} {width} {name}", line.bit)?,
            None => write!(&mut text, "{gap}{} - {name}", line.bit)?,
        }
    }
    Ok(text)
}
