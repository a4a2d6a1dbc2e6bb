// The lines of reports, read back.
ghost use Rattle.std.specs.Prelude.{◌≡◌, ◌≤◌, Bool, Some, None, codes};
ghost use Rattle.kc_text.specs.Answers.{Gives};
ghost use Rattle.kc_text.specs.Compose.{followed};
ghost use Rattle.kc_text.specs.Readers.{hex16};
ghost use Rattle.kc_rules.specs.Codes.{rule_format};
ghost use Rattle.kc_report.specs.Formats.{line_format, origin_format, place_format, read_number, stop_format};
ghost use Rattle.kc_report.specs.Heads.{HeadGives};
ghost use Rattle.kc_report.specs.Report.{stop_levels};

use kc_memory::{Origin, Place, Rule};
use kc_rules::read_rule;
use kc_text::{read_decimal, read_digit, read_hex16, read_literal, read_name, shorter};

// The name of an audit that found nothing, and its counts of walks and of elements.
type Line<'a> = (&'a [u8], u64, u64);

// What stands in a report of a violation before its places.
#[derive(Clone, Copy)]
pub struct Head<'a> {
    pub audit: &'a [u8],
    pub start: u64,
    pub rule: Rule,
    pub at: u64,
    pub expected: Option<u64>,
    pub stop: Option<(u8, u64)>,
}

// Reads the line of an audit that found nothing.
pub fn read_line(bytes: &[u8]) -> Result<(Line<'_>, &[u8]), &[u8]>
    ensures { Gives (λ r. (record { name = r.0.0.now; walks = r.0.1; elements = r.0.2 }, r.1.now)) result (line_format.read bytes.now) }
{
    let rest = read_literal(bytes, b"audit ")?;
    let (name, rest) = read_name(rest, b' ')?;
    let rest = read_literal(rest, b"walks ")?;
    let (walks, rest) = read_decimal(rest, b' ')?;
    let rest = read_literal(rest, b"elements ")?;
    let (elements, rest) = read_decimal(rest, b'\n')?;
    Ok(((name, walks, elements), rest))
}

// Reads a number in hex, or a word that stands for none.
fn read_or_none<'a>(bytes: &'a [u8], none: &[u8]) -> Result<(Option<u64>, &'a [u8]), &'a [u8]>
    ensures { Gives (λ r. (r.0, r.1.now)) result (read_number none.now bytes.now) }
{
    match read_literal(bytes, none) {
        Ok(rest) => Ok((None, rest)),
        Err(rest) => match read_hex16(bytes) {
            Ok((n, rest)) => Ok((Some(n), rest)),
            Err(other) => Err(shorter(rest, other)),
        },
    }
}

// Reads a number in hex that ends its line.
fn read_hex_line(bytes: &[u8]) -> Result<(u64, &[u8]), &[u8]>
    ensures { Gives (λ r. (r.0, r.1.now)) result ((followed hex16 (codes "\n")).read bytes.now) }
{
    let (n, after) = read_hex16(bytes)?;
    let rest = read_literal(after, b"\n")?;
    Ok((n, rest))
}

// Reads where a word comes from: its file offset, or that it stands in a segment's tail.
fn read_origin(bytes: &[u8]) -> Result<(Origin, &[u8]), &[u8]>
    ensures { Gives (λ r. (r.0, r.1.now)) result (origin_format.read bytes.now) }
{
    let (off, rest) = read_or_none(bytes, b"tail")?;
    match off {
        Some(off) => Ok((Origin::File(off), rest)),
        None => Ok((Origin::Tail, rest)),
    }
}

// Reads the line of a word that shows something.
pub fn read_place(bytes: &[u8]) -> Result<(Place, &[u8]), &[u8]>
    ensures { Gives (λ r. (r.0, r.1.now)) result (place_format.read bytes.now) }
{
    let rest = read_literal(bytes, b"place ")?;
    let (va, rest) = read_or_none(rest, b"-")?;
    let rest = read_literal(rest, b" ")?;
    let (pa, rest) = read_hex16(rest)?;
    let rest = read_literal(rest, b" ")?;
    let (off, rest) = read_origin(rest)?;
    let rest = read_literal(rest, b" ")?;
    let (value, rest) = read_hex16(rest)?;
    let rest = read_literal(rest, b"\n")?;
    Ok((Place { va, pa, off, value }, rest))
}

// Reads the line of a stop whose level is one of these.
fn read_stop_line(bytes: &[u8], low: u8, high: u8) -> Result<(Option<(u8, u64)>, &[u8]), &[u8]>
    requires low { low ≤ 9 }
    requires high { high ≤ 9 }
    ensures { Gives (λ r. (r.0, r.1.now)) result ((stop_format (Some (low, high))).read bytes.now) }
{
    let rest = read_literal(bytes, b"stop ")?;
    let (level, rest) = read_digit(rest, low, high)?;
    let rest = read_literal(rest, b" ")?;
    let (pa, rest) = read_hex_line(rest)?;
    Ok((Some((level, pa)), rest))
}

// Reads the line of a stop, where this rule has one.
fn read_stop(bytes: &[u8], rule: Rule) -> Result<(Option<(u8, u64)>, &[u8]), &[u8]>
    ensures { Gives (λ r. (r.0, r.1.now)) result ((stop_format (stop_levels rule)).read bytes.now) }
{
    match rule {
        Rule::M3 | Rule::M4 | Rule::M5 => read_stop_line(bytes, 1, 5),
        Rule::M6 => read_stop_line(bytes, 0, 0),
        _ => Ok((None, bytes)),
    }
}

// Reads a rule that ends its line.
fn read_rule_line(bytes: &[u8]) -> Result<(Rule, &[u8]), &[u8]>
    ensures { Gives (λ r. (r.0, r.1.now)) result ((followed rule_format (codes "\n")).read bytes.now) }
{
    let (rule, after) = read_rule(bytes)?;
    let rest = read_literal(after, b"\n")?;
    Ok((rule, rest))
}

// Reads a report of a violation up to its places.
pub fn read_head(bytes: &[u8]) -> Result<(Head<'_>, &[u8]), &[u8]>
    ensures { (more : Bool) → HeadGives more result bytes.now }
{
    let rest = read_literal(bytes, b"broken\naudit ")?;
    let (audit, rest) = read_name(rest, b'\n')?;
    let rest = read_literal(rest, b"start ")?;
    let (start, rest) = read_hex_line(rest)?;
    let rest = read_literal(rest, b"rule ")?;
    let (rule, rest) = read_rule_line(rest)?;
    let rest = read_literal(rest, b"at ")?;
    let (at, rest) = read_hex_line(rest)?;
    let rest = read_literal(rest, b"expected ")?;
    let (expected, rest) = read_or_none(rest, b"none")?;
    let rest = read_literal(rest, b"\n")?;
    let (stop, rest) = read_stop(rest, rule)?;
    Ok((
        Head {
            audit,
            start,
            rule,
            at,
            expected,
            stop,
        },
        rest,
    ))
}
