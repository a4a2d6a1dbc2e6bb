// Certificates as text.
ghost use Rattle.std.specs.Prelude.{◌≡◌, ◌<◌, ◌^◌, ◌++◌, codes, decimal, IfOk, OnOk};
ghost use Rattle.kc_text.specs.Counted.{AreCounted, counted_text};
ghost use Rattle.kc_cert.specs.Text.CertTexts.{IsCertificate, IsList, IsStep, list_text, number_line, step_text};

use crate::text::certificate::{CertStep, Certificate, Lists};
use kc_found::Walked;
use kc_text::{push, push_decimal, push_hex};
use kc_word::NoMemory;
use std::alloc::Global;

/// The text of a certificate, the only one. It has a line for each step, list and number, and one more at its head; each
/// line ends with a newline. The numbers of lists and starts are of 16 hex digits, and counts and audits are in decimal.
///
/// # Errors
///
/// Out of memory.
pub fn cert_text(alloc: Global, cert: &Certificate) -> Result<Vec<u8>, NoMemory>
    ensures { IfOk result (λ text. IsCertificate text.items cert.now) }
{
    let mut text = Vec::new(alloc);
    push(&mut text, b"certificate ")?;
    push_steps(&mut text, cert)?;
    Ok(text)
}

// Adds how many parts follow, and ends the line.
fn push_count(text: &mut Vec<u8>, count: usize) -> Result<(), NoMemory>
    ensures { OnOk result (text.new.items ≡ text.old.items ++ (decimal count ++ codes "\n")) }
{
    push_decimal(text, count as u64)?;
    push(text, b"\n")
}

// Adds a number.
fn push_number(text: &mut Vec<u8>, n: u64) -> Result<(), NoMemory>
    ensures added { OnOk result (text.new.items ≡ text.old.items ++ number_line n) }
    ensures fits { OnOk result (n < 2 ^ 64) }
{
    push_hex(text, n)?;
    push(text, b"\n")
}

// Adds the numbers of a list.
fn push_numbers(text: &mut Vec<u8>, list: &Walked) -> Result<(), NoMemory>
    ensures added { OnOk result (text.new.items ≡ text.old.items ++ counted_text number_line list.now) }
    ensures keeps { OnOk result (IsList list.now) }
{
    push_count(text, list.len())?;
    for i in 0..list.len() {
        push_number(text, *list.get(i))?;
    }
    Ok(())
}

// Adds a list.
fn push_list(text: &mut Vec<u8>, list: &Walked) -> Result<(), NoMemory>
    ensures added { OnOk result (text.new.items ≡ text.old.items ++ list_text list.now) }
    ensures keeps { OnOk result (IsList list.now) }
{
    push(text, b"list ")?;
    push_numbers(text, list)
}

// Adds the lists of a step.
fn push_lists(text: &mut Vec<u8>, lists: &Lists) -> Result<(), NoMemory>
    ensures added { OnOk result (text.new.items ≡ text.old.items ++ counted_text list_text lists.now) }
    ensures keeps { OnOk result (AreCounted IsList lists.now) }
{
    push_count(text, lists.len())?;
    for i in 0..lists.len() {
        push_list(text, lists.get(i))?;
    }
    Ok(())
}

// Adds a step.
fn push_step(text: &mut Vec<u8>, step: &CertStep) -> Result<(), NoMemory>
    ensures added { OnOk result (text.new.items ≡ text.old.items ++ step_text step.now) }
    ensures keeps { OnOk result (IsStep step.now) }
{
    push(text, b"step ")?;
    push_decimal(text, u64::from(step.audit))?;
    push(text, b" start ")?;
    push_hex(text, step.start)?;
    push(text, b" lists ")?;
    push_lists(text, &step.lists)
}

// Adds the steps of a certificate.
fn push_steps(text: &mut Vec<u8>, cert: &Certificate) -> Result<(), NoMemory>
    ensures added { OnOk result (text.new.items ≡ text.old.items ++ counted_text step_text cert.now) }
    ensures keeps { OnOk result (AreCounted IsStep cert.now) }
{
    push_count(text, cert.len())?;
    for i in 0..cert.len() {
        push_step(text, cert.get(i))?;
    }
    Ok(())
}
