// Certificates read back from their text.
ghost use Rattle.std.specs.Prelude.{◌≡◌, List, IfOk, IfErr};
ghost use Rattle.kc_text.specs.Answers.{Gives};
ghost use Rattle.kc_text.specs.Counted.{counted, times};
ghost use Rattle.kc_cert.specs.Text.CertTexts.{IsCertificate, IsRefused, ReadsCert, cert_in, line_format, list_format, step_format, steps_format};
ghost use Rattle.kc_cert.specs.Text.Readings.{AddsAll, AddsOne, HeadGives};
ghost use Rattle.kc_cert.specs.declared.text.certificate.CertStep.{CertStep};

use crate::text::certificate::{CertStep, Certificate, Lists};
use kc_found::Walked;
use kc_text::{read_decimal, read_decimal_to, read_hex16, read_literal};
use kc_word::NoMemory;
use std::alloc::Global;

/// Why bytes aren't read as a certificate.
#[derive(Clone, Copy, Debug, PartialEq, Eq)]
pub enum CertRead {
    /// They are no certificate's text. The longest front of them that begins some certificate's text has this length in
    /// bytes.
    Z1(u64),
    /// No memory was left.
    NoMemory,
}

// Where reading stopped: the bytes that are left there, or no memory was.
#[derive(Drop)]
pub enum TextStop<'a> {
    At(&'a [u8]),
    NoMemory,
}

// The greatest number of an audit that a text may have.
const LAST_AUDIT: u64 = u32::MAX as u64;

/// The certificate whose text these bytes are. No other certificate has that text.
///
/// # Errors
///
/// Z1 exactly where no certificate has these bytes as its text, with the length of their longest front that begins some
/// certificate's text; or out of memory.
pub fn read_cert(alloc: Global, bytes: &[u8]) -> Result<Certificate, CertRead>
    ensures cert { IfOk result (λ cert. IsCertificate bytes.now cert) }
    ensures only { IfOk result (λ cert. (other : List CertStep) → IsCertificate bytes.now other → other ≡ cert) }
    ensures refused { IfErr result (λ stop. IsRefused stop bytes.now) }
    ensures made { ReadsCert (cert_in bytes.now) result }
{
    let mut cert = Certificate::new(alloc);
    match read_all(alloc, &mut cert, bytes) {
        Ok(rest) => {
            if rest.is_empty() {
                Ok(cert)
            } else {
                Err(CertRead::Z1((bytes.len() - rest.len()) as u64))
            }
        }
        Err(TextStop::At(rest)) => Err(CertRead::Z1((bytes.len() - rest.len()) as u64)),
        Err(TextStop::NoMemory) => Err(CertRead::NoMemory),
    }
}

// Reads a number on a line.
fn read_line(bytes: &[u8]) -> Result<(u64, &[u8]), &[u8]>
    ensures { Gives (λ r. (r.0, r.1.now)) result (line_format.read bytes.now) }
{
    let (n, rest) = read_hex16(bytes)?;
    let rest = read_literal(rest, b"\n")?;
    Ok((n, rest))
}

// Reads a number on a line, adds it, and gives the bytes after it.
fn next_number<'a>(list: &mut Walked, bytes: &'a [u8]) -> Result<&'a [u8], TextStop<'a>>
    ensures { AddsOne (line_format.read bytes.now) list.old list.new result }
{
    match read_line(bytes) {
        Ok((n, rest)) => match list.push(n) {
            Ok(()) => Ok(rest),
            Err(NoMemory) => Err(TextStop::NoMemory),
        },
        Err(stop) => Err(TextStop::At(stop)),
    }
}

// Reads so many numbers.
fn read_numbers<'a>(
    list: &mut Walked,
    count: u64,
    bytes: &'a [u8],
) -> Result<&'a [u8], TextStop<'a>>
    ensures { AddsAll ((times line_format count).read bytes.now) list.old list.new result }
{
    let mut rest = bytes;
    for _ in 0..count {
        rest = next_number(list, rest)?;
    }
    Ok(rest)
}

// Reads how many numbers there are, and then them.
fn counted_numbers<'a>(list: &mut Walked, bytes: &'a [u8]) -> Result<&'a [u8], TextStop<'a>>
    ensures { AddsAll ((counted line_format).read bytes.now) list.old list.new result }
{
    match read_decimal(bytes, b'\n') {
        Ok((count, rest)) => read_numbers(list, count, rest),
        Err(stop) => Err(TextStop::At(stop)),
    }
}

// Reads a list, adds it, and gives the bytes after it.
fn next_list<'a>(
    alloc: Global,
    lists: &mut Lists,
    bytes: &'a [u8],
) -> Result<&'a [u8], TextStop<'a>>
    ensures { AddsOne (list_format.read bytes.now) lists.old lists.new result }
{
    let rest = match read_literal(bytes, b"list ") {
        Ok(rest) => rest,
        Err(stop) => return Err(TextStop::At(stop)),
    };
    let mut list = Walked::new(alloc);
    let rest = counted_numbers(&mut list, rest)?;
    match lists.push(list) {
        Ok(()) => Ok(rest),
        Err(NoMemory) => Err(TextStop::NoMemory),
    }
}

// Reads so many lists.
fn read_lists<'a>(
    alloc: Global,
    lists: &mut Lists,
    count: u64,
    bytes: &'a [u8],
) -> Result<&'a [u8], TextStop<'a>>
    ensures { AddsAll ((times list_format count).read bytes.now) lists.old lists.new result }
{
    let mut rest = bytes;
    for _ in 0..count {
        rest = next_list(alloc, lists, rest)?;
    }
    Ok(rest)
}

// Reads how many lists there are, and then them.
fn counted_lists<'a>(
    alloc: Global,
    lists: &mut Lists,
    bytes: &'a [u8],
) -> Result<&'a [u8], TextStop<'a>>
    ensures { AddsAll ((counted list_format).read bytes.now) lists.old lists.new result }
{
    match read_decimal(bytes, b'\n') {
        Ok((count, rest)) => read_lists(alloc, lists, count, rest),
        Err(stop) => Err(TextStop::At(stop)),
    }
}

// Reads a step up to its lists.
fn read_head(bytes: &[u8]) -> Result<((u32, u64), &[u8]), &[u8]>
    ensures { HeadGives result bytes.now }
{
    let rest = read_literal(bytes, b"step ")?;
    let (audit, rest) = read_decimal_to(rest, b' ', LAST_AUDIT)?;
    let rest = read_literal(rest, b"start ")?;
    let (start, rest) = read_hex16(rest)?;
    let rest = read_literal(rest, b" ")?;
    let rest = read_literal(rest, b"lists ")?;
    Ok(((audit as u32, start), rest))
}

// Reads a step, adds it, and gives the bytes after it.
fn next_step<'a>(
    alloc: Global,
    cert: &mut Certificate,
    bytes: &'a [u8],
) -> Result<&'a [u8], TextStop<'a>>
    ensures { AddsOne (step_format.read bytes.now) cert.old cert.new result }
{
    let (head, rest) = match read_head(bytes) {
        Ok(read) => read,
        Err(stop) => return Err(TextStop::At(stop)),
    };
    let mut lists = Lists::new(alloc);
    let rest = counted_lists(alloc, &mut lists, rest)?;
    let step = CertStep {
        audit: head.0,
        start: head.1,
        lists,
    };
    match cert.push(step) {
        Ok(()) => Ok(rest),
        Err(NoMemory) => Err(TextStop::NoMemory),
    }
}

// Reads so many steps.
fn read_steps<'a>(
    alloc: Global,
    cert: &mut Certificate,
    count: u64,
    bytes: &'a [u8],
) -> Result<&'a [u8], TextStop<'a>>
    ensures { AddsAll ((times step_format count).read bytes.now) cert.old cert.new result }
{
    let mut rest = bytes;
    for _ in 0..count {
        rest = next_step(alloc, cert, rest)?;
    }
    Ok(rest)
}

// Reads the steps of a certificate.
fn read_all<'a>(
    alloc: Global,
    cert: &mut Certificate,
    bytes: &'a [u8],
) -> Result<&'a [u8], TextStop<'a>>
    ensures { AddsAll (steps_format.read bytes.now) cert.old cert.new result }
{
    let rest = match read_literal(bytes, b"certificate ") {
        Ok(rest) => rest,
        Err(stop) => return Err(TextStop::At(stop)),
    };
    match read_decimal(rest, b'\n') {
        Ok((count, rest)) => read_steps(alloc, cert, count, rest),
        Err(stop) => Err(TextStop::At(stop)),
    }
}
