// What a reader of core files finds in the plain core file. These functions only look for the top page table.
ghost use Rattle.std.specs.Prelude.{◌≤◌, ◌^◌, vec_len, IfSome};
ghost use Rattle.kc_plain.specs.ReadBack.{ReadsBack};
ghost use Rattle.kc_plain.specs.Root.{IsPage, root_of};

use crate::root::{Root, root_of};
use kc_kdump::Kdump;

// The same of a top page table that was found, or wasn't. Does nothing.
fn know_core_by(dump: &Kdump, root: Option<Root>)
    requires notes { vec_len dump.now.notes ≤ 16777216 }
    requires pages { dump.now.pages ≤ 2 ^ 47 }
    requires page { IfSome root (λ r. IsPage dump.now.pages r) }
    ensures { ReadsBack dump.now.runs.items root dump.now.notes.items dump.now.pages }
{}

/// Changes nothing. A reader learns from it that the plain core file that stands for a dump is a core file, with a segment for each run, whose bytes are
/// the pages of the run, and with the dump's notes.
pub fn know_core(dump: &Kdump)
    requires notes { vec_len dump.now.notes ≤ 16777216 }
    requires pages { dump.now.pages ≤ 2 ^ 47 }
    ensures { ReadsBack dump.now.runs.items (root_of dump.now.runs.items dump.now.notes.items) dump.now.notes.items dump.now.pages }
{
    know_core_by(dump, root_of(&dump.runs, &dump.notes));
}
