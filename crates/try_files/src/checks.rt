// Checks of elements. A case gives what is asked of a text.
ghost use Rattle.std.specs.Prelude.{◌≤◌, length};
ghost use Rattle.kc_expr.specs.Values.{IsWord};

use crate::bytes::bytes_of;
use anyhow::{Context, Result, bail, ensure};
use kc_cases::Case;
use kc_expr::{ExprStop, eval, parse};
use std::alloc::{AllocError, Global};
use std::str;

// The most bytes that a check has.
const MOST: usize = 256;

/// Where a check is refused, its value, or its paths.
pub fn check_answer(alloc: Global, case: &Case<'_>) -> Result<String> {
    let (question, of) = case.given.split_once(' ').context("no text")?;
    match question {
        "place" => place_text(alloc, &bytes_of(alloc, of)?),
        "fronts" => fronts_text(alloc, of.as_bytes()),
        "paths" => paths_text(alloc, &bytes_of(alloc, of)?),
        "value" => {
            let (number, text) = of.split_once(' ').context("no number")?;
            value_text(alloc, text.as_bytes(), word_of(number))
        }
        _ => bail!("an unknown question"),
    }
}

// The place at which a text is no check any more, or none where it is one.
fn refused_at(alloc: Global, text: &[u8]) -> Result<Option<u32>> {
    ensure!(text.len() <= MOST, "a text that is too long");
    match parse(alloc, text) {
        Ok(_) => Ok(None),
        Err(ExprStop::X1(place)) => Ok(Some(place)),
        Err(ExprStop::NoMemory) => Err(AllocError.into()),
    }
}

fn place_text(alloc: Global, text: &[u8]) -> Result<String> {
    match refused_at(alloc, text)? {
        Some(place) => Ok(format!(in alloc; "{place}")?),
        None => Ok(String::from_str(alloc, "ok")?),
    }
}

// For each front of a text, `y` where it is a check and `-` where it begins one; `?` where a byte behind it that no check has
// isn't refused there.
fn fronts_text(alloc: Global, text: &[u8]) -> Result<String> {
    let mut marks = String::new(alloc);
    for length in 0..=text.len() {
        let mut front = text[..length].to_vec(alloc)?;
        let end = u32::try_from(length).ok();
        let alone = refused_at(alloc, &front)?;
        front.push(b'#')?;
        let mark = if refused_at(alloc, &front)? != end {
            '?'
        } else if alone.is_none() {
            'y'
        } else if alone == end {
            '-'
        } else {
            '?'
        };
        marks.push(mark)?;
    }
    Ok(marks)
}

// A number of 64 bits, with a sign or without; 0 where the text is none.
fn word_of(text: &str) -> i128
    ensures { IsWord result }
{
    match text.parse::<u64>() {
        Ok(number) => i128::from(number),
        Err(_) => i128::from(text.parse::<i64>().unwrap_or(0)),
    }
}

// The value of a check whose path, if it has one, has this number.
fn value_text(alloc: Global, text: &[u8], number: i128) -> Result<String>
    requires { IsWord number }
{
    ensure!(text.len() <= MOST, "a text that is too long");
    let expr = parse(alloc, text)?;
    let value = match expr.fields() {
        0 => eval(&expr, &[]),
        1 => eval(&expr, &[number]),
        _ => bail!("more than a path"),
    };
    Ok(format!(in alloc; "{value}")?)
}

// The paths of a check, one after another with a comma behind each.
fn paths_text(alloc: Global, text: &[u8]) -> Result<String> {
    ensure!(text.len() <= MOST, "a text that is too long");
    let expr = parse(alloc, text)?;
    let mut paths = String::new(alloc);
    for i in 0..expr.fields() {
        paths.push_str(str::from_utf8(expr.field(i))?)?;
        paths.push(',')?;
    }
    Ok(paths)
}
