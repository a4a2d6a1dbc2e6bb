// What a report tells.
ghost use Rattle.std.specs.Prelude.{◌≡◌, ◌<◌, ◌≤◌, [], ◌∷◌, ◌++◌, length, OnOk, OnErr, Some, slice_get};

use kc_found::{Items, Name, Places, Rule};
use kc_word::NoMemory;
use std::alloc::Global;
use std::marker::Model;

/// An audit of a clean report. Its name has the form that a plan asks for.
#[derive(Drop)]
pub struct CleanLine {
    /// The audit's name.
    pub name: Name,
    /// How many walks were made.
    pub walks: u64,
    /// How many elements they met.
    pub elements: u64,
}

impl Model for CleanLine {
    ghost use Rattle.std.specs.Prelude.{IsTrue};
    ghost use Rattle.kc_text.specs.Readers.{is_name};
    ghost use Rattle.kc_report.specs.Report.{AuditLine};

    ghost Value = { AuditLine };

    ghost view = { λ l. record { name = l.name; walks = l.walks; elements = l.elements } };

    ghost invariant = { λ l. IsTrue (is_name l.name) };
}

/// The audits of a clean report, in the order of the plan.
pub type CleanLines = Items<CleanLine>;

/// A report of a violation. The audit's name has the form that a plan asks for. A stop is there exactly for M3 to M6;
/// its level is 0 exactly for M6, and else from 1 to 5.
#[derive(Drop)]
pub struct BrokenText {
    /// The audit's name.
    pub audit: Name,
    /// The virtual address at which the walk starts.
    pub start: u64,
    /// The rule that is broken.
    pub rule: Rule,
    /// The virtual address that the violation is about.
    pub at: u64,
    /// What should stand there, in 64 bits, or `None` where no rule says so.
    pub expected: Option<u64>,
    /// The level of the page table whose entry stopped the reading, or 0 for the word itself, and the physical address
    /// of that entry or word.
    pub stop: Option<(u8, u64)>,
    /// The words that show it.
    pub places: Places,
}

impl Model for BrokenText {
    ghost use Rattle.std.specs.Prelude.{IsTrue};
    ghost use Rattle.kc_text.specs.Readers.{is_name};
    ghost use Rattle.kc_report.specs.Report.{BrokenLines, is_stop_at, stop_levels};

    ghost Value = { BrokenLines };

    ghost view = { λ b. record { audit = b.audit; start = b.start; rule = b.rule; at = b.at; expected = b.expected; stop = b.stop; places = b.places } };

    ghost invariant = { λ b. IsTrue (is_name b.audit) × IsTrue (is_stop_at (stop_levels b.rule) b.stop) };
}

/// What the audits under one root came to.
#[derive(Drop)]
pub enum RootResult {
    /// No audit found a violation.
    Clean(CleanLines),
    /// The first violation.
    Broken(BrokenText),
}

/// A root audit of a report that has one verdict for each. Its name has the form that a plan asks for.
#[derive(Drop)]
pub struct RootText {
    /// The root audit's name.
    pub name: Name,
    /// What the audits under it came to.
    pub verdict: RootResult,
}

impl Model for RootText {
    ghost use Rattle.std.specs.Prelude.{IsTrue};
    ghost use Rattle.kc_text.specs.Readers.{is_name};
    ghost use Rattle.kc_report.specs.Roots.{RootLines};

    ghost Value = { RootLines };

    ghost view = { λ r. record { name = r.name; verdict = r.verdict } };

    ghost invariant = { λ r. IsTrue (is_name r.name) };
}

// A report has at most so many roots.
const MOST_ROOTS: usize = 256;

/// The root audits of a report, in the order of the plan. There are at most 256.
#[derive(Drop)]
pub struct RootTexts {
    roots: Items<RootText>,
}

impl Model for RootTexts {
    ghost use Rattle.std.specs.Prelude.{◌≤◌, List, length};
    ghost use Rattle.kc_report.specs.Roots.{RootLines};

    ghost Value = { List RootLines };

    ghost view = { λ r. r.roots };

    ghost invariant = { λ r. length r.roots ≤ 256 };
}

impl RootTexts {
    /// No roots. It takes no memory.
    pub fn new(alloc: Global) -> Self
        ensures { result ≡ [] }
    {
        RootTexts {
            roots: Items::new(alloc),
        }
    }

    /// Adds the next root.
    ///
    /// # Errors
    ///
    /// No room: out of memory, or there are 256 roots already. The roots stay as they were.
    pub fn push(&mut self, root: RootText) -> Result<(), NoMemory>
        ensures added { OnOk result (self.new ≡ self.old ++ root ∷ []) }
        ensures kept { OnErr result (self.new ≡ self.old) }
    {
        if self.roots.len() >= MOST_ROOTS {
            return Err(NoMemory);
        }
        self.roots.push(root)
    }

    /// The number of roots.
    pub fn len(&self) -> usize
        ensures number { result ≡ length self.now }
        ensures few { length self.now ≤ 256 }
    {
        self.roots.len()
    }

    /// The root with a number, counted from 0.
    pub fn get(&self, i: usize) -> &RootText
        requires { i < length self.now }
        ensures { slice_get self.now i ≡ Some result.now }
    {
        self.roots.get(i)
    }
}

/// What the audits of a plan came to, as an operator reads it.
#[derive(Drop)]
pub enum Report {
    /// No audit found a violation.
    Clean(CleanLines),
    /// The first violation.
    Broken(BrokenText),
    /// What each root audit came to.
    Each(RootTexts),
}
