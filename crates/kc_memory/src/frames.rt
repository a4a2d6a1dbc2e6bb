// Physical memory as a trait.
ghost use Rattle.std.specs.Prelude.{◌≡◌, ℕ, ◌+◌, ◌%◌, List, Option};
ghost use Rattle.kc_outside.specs.Files.{Files};
ghost use Rattle.kc_memory.specs.Image.{Physical};
ghost use Rattle.kc_memory.specs.Frames.{CountsFaults, ReadsWord};
ghost use Rattle.kc_memory.specs.Stays.{FramesStay};

use crate::words::PWord;
use kc_word::Steps;
use std::sync::ledger::Ledger;

/// Why there is no physical word.
#[derive(Clone, Copy, Debug, PartialEq, Eq)]
pub enum FrameStop {
    /// The dump doesn't have it.
    Absent,
    /// Reading the dump failed. The count of faults rose.
    Fault,
}

/// The physical memory of a dump.
pub trait Frames {
    /// The dump's bytes, its segments and how their tails read, or `None` where they aren't told.
    ghost image: { Self → Option Physical };

    /// The files of the store that words are read from, or `None` where they aren't told.
    ghost files: { Self → Option Files };

    /// How often reading failed.
    ghost faults: { Self → ℕ };

    /// The names of the borrows that words are read through, the outer one first.
    ghost through: { Self → List ℕ };

    /// The word at a physical address in bytes, a multiple of 8. It takes one step.
    ///
    /// # Errors
    ///
    /// Where the dump doesn't have the word, or reading it fails.
    fn word<L: Ledger>(&mut self, pa: u64, steps: &mut Steps<L>) -> Result<PWord, FrameStop>
        requires { pa % 8 ≡ 0 }

        ensures word { ReadsWord (image self.old) pa result }
        ensures steps { steps.new ≡ steps.old + 1 }

        ensures stays { FramesStay image files through self.old self.new }
        ensures cause { CountsFaults result (faults self.old) (faults self.new) };
}
