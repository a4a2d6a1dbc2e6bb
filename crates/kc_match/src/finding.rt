// What is found, line by line.
ghost use Rattle.std.specs.Prelude.{◌≡◌, map, IfOk};
ghost use Rattle.kc_notes.specs.Values.{lines_of};
ghost use Rattle.kc_match.specs.Findings.{findings};
ghost use Rattle.kc_match.specs.Views.{finding_view, kernel_view};

use crate::fact::read_fact;
use crate::kernel::{Compared, outcome_of};
use crate::outcome::Outcome;
use kc_word::NoMemory;
use std::alloc::Global;

/// A line that states something of the kernel, and what comes of it.
#[derive(Clone, Copy, Debug, PartialEq, Eq)]
pub struct Finding<'t> {
    /// The line as the note has it, without its newline.
    pub line: &'t [u8],
    /// What comes of what it states.
    pub outcome: Outcome,
}

/// What is found of the lines of VMCOREINFO's text, in their order. Lines end at a newline; the last may be without
/// one.
pub fn findings<'t>(
    alloc: Global,
    kernel: Compared<'_, '_>,
    text: &'t [u8],
) -> Result<Vec<Finding<'t>>, NoMemory>
    ensures { IfOk result (λ found. map finding_view found.items
        ≡ findings (kernel_view kernel.entry) (lines_of text.now)) }
{
    let mut found = Vec::new(alloc);
    for line in text.split(|c| *c == b'\n') {
        if let Some(fact) = read_fact(line) {
            let outcome = outcome_of(kernel, fact);
            found.push(Finding { line, outcome })?;
        }
    }
    Ok(found)
}
