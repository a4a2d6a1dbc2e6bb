// Virtual memory as a trait.
ghost use Rattle.std.specs.Prelude.{◌≡◌, ℕ, ◌+◌, ◌≤◌, List, Option, IfOk};
ghost use Rattle.kc_outside.specs.Files.{Files};
ghost use Rattle.kc_memory.specs.Image.{Image};
ghost use Rattle.kc_memory.specs.Translation.{vword};
ghost use Rattle.kc_memory.specs.Space.{AnswersAs, StopsAt};
ghost use Rattle.kc_memory.specs.Stays.{CountsFaults, SpaceStays};

use crate::miss::Miss;
use crate::words::VWord;
use kc_word::Steps;
use std::sync::ledger::Ledger;

/// Why a virtual address has no word.
#[derive(Clone, Copy, Debug, PartialEq, Eq)]
pub enum Stop {
    /// The dump's page tables or its memory end there.
    Miss(Miss),
    /// Reading the dump failed. The count of faults rose.
    Fault,
}

/// The virtual memory of a dump.
pub trait Space {
    /// The dump's memory and page tables, or `None` where they aren't told.
    ghost image: { Self → Option Image };

    /// The files of the store that words are read from, or `None` where they aren't told.
    ghost files: { Self → Option Files };

    /// How often reading failed.
    ghost faults: { Self → ℕ };

    /// The names of the borrows that words are read through, the outer one first.
    ghost through: { Self → List ℕ };

    /// How many steps a word takes at most, from 1 to 6.
    ghost most: { Self → ℕ };

    /// The word at a virtual address in bytes, of any value. It takes no memory.
    ///
    /// # Errors
    ///
    /// Where the page tables or the memory of the dump end, or reading it fails.
    fn word<L: Ledger>(&mut self, va: u64, steps: &mut Steps<L>) -> Result<VWord, Stop>
        ensures word { AnswersAs (λ image. vword image va) (image self.old) result }
        ensures asked { IfOk result (λ w. w.va ≡ va) }
        ensures stopped { StopsAt result va }
        ensures steps { steps.new ≤ steps.old + most self.old }

        ensures stays { SpaceStays image files through most self.old self.new }
        ensures cause { CountsFaults result (faults self.old) (faults self.new) };

    /// A word takes a step.
    ghost most_some: { (space : Self) → 1 ≤ most space };

    /// Five levels of tables and the word itself are six steps.
    ghost most_small: { (space : Self) → most space ≤ 6 };
}
