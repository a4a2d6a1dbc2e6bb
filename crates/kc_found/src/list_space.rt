// A memory for tests.
ghost use Rattle.std.specs.Prelude.{◌≡◌, ◌+◌, ◌≤◌, None, [], IfOk, IfSome};
ghost use Rattle.std.proofs.Common.{lit≤};
ghost use Rattle.kc_memory.specs.Space.{AnswersAs, StopsAt};
ghost use Rattle.kc_memory.specs.Stays.{CountsFaults, SpaceStays};
ghost use Rattle.kc_memory.specs.Translation.{vword};
ghost use Rattle.kc_found.specs.ListSpaces.{first_at, or_absent, words_in};

use kc_memory::{Miss, Rule, Space, Stop, VWord};
use kc_word::Steps;
use std::sync::ledger::Ledger;

/// A memory of these words alone, for tests. Of several words with one virtual address it has the first. A word that
/// isn't there is rule M6. It tells no dump, makes no steps and never fails.
#[derive(Drop)]
pub struct ListSpace {
    words: Vec<VWord>,
}

impl ListSpace {
    /// The memory of these words.
    pub fn new(words: Vec<VWord>) -> Self
        ensures { words_in result ≡ words.items }
    {
        ListSpace { words }
    }
}

impl Space for ListSpace {
    ghost image = { λ s. None };

    ghost files = { λ s. None };

    ghost faults = { λ s. 0 };

    ghost through = { λ s. [] };

    ghost most = { λ s. 1 };

    ghost most_some = { λ s. lit≤ tt };

    ghost most_small = { λ s. lit≤ tt };

    fn word<L: Ledger>(&mut self, va: u64, steps: &mut Steps<L>) -> Result<VWord, Stop>
        ensures word { AnswersAs (λ image. vword image va) None result }
        ensures asked { IfOk result (λ w. w.va ≡ va) }
        ensures stopped { StopsAt result va }
        ensures steps { steps.new ≤ steps.old + 1 }

        ensures stays { SpaceStays (λ s. None) (λ s. None) (λ s. []) (λ s. 1) self.old self.new }
        ensures cause { CountsFaults result 0 0 }

        // What this memory adds.
        ensures exact { result ≡ or_absent va (first_at (words_in self.old) va) }
        ensures words { words_in self.new ≡ words_in self.old }
        ensures no_step { steps.new ≡ steps.old }
    {
        match first_at(&self.words, va) {
            Some(word) => Ok(word),
            None => Err(Stop::Miss(Miss {
                va,
                rule: Rule::M6,
                level: 0,
                pa: 0,
                entry: None,
            })),
        }
    }
}

// The first of these words at a virtual address.
fn first_at(words: &[VWord], va: u64) -> Option<VWord>
    ensures exact { result ≡ first_at words.now va }
    ensures there { IfSome result (λ w. w.va ≡ va) }
{
    words.iter().copied().find(|word| word.va == va)
}
