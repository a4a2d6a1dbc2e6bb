// A memory that counts the words that it is asked for.
ghost use Rattle.std.specs.Prelude.{◌≡◌, ◌+◌, ◌≤◌, IfOk};
ghost use Rattle.std.proofs.Common.{lit≤};
ghost use Rattle.kc_memory.specs.Space.{AnswersAs, StopsAt};
ghost use Rattle.kc_memory.specs.Stays.{CountsFaults, SpaceStays};
ghost use Rattle.kc_memory.specs.Translation.{vword};

use kc_memory::{Space, Stop, VWord};
use kc_word::Steps;
use std::sync::ledger::Ledger;

/// The memory below, in which each word that is asked is one step, whatever it takes below. So a bound on a walk's steps is one
/// on the words that it asks.
#[derive(Drop)]
pub struct Counted<S: Space, B: Ledger> {
    /// The memory below.
    pub space: S,
    /// The steps that the words took there.
    pub below: Steps<B>,
}

impl<S: Space, B: Ledger> Space for Counted<S, B> {
    ghost image = { λ c. S.image c.space };

    ghost files = { λ c. S.files c.space };

    ghost faults = { λ c. S.faults c.space };

    ghost through = { λ c. S.through c.space };

    ghost most = { λ c. 1 };

    ghost most_some = { λ c. lit≤ tt };

    ghost most_small = { λ c. lit≤ tt };

    fn word<L: Ledger>(&mut self, va: u64, steps: &mut Steps<L>) -> Result<VWord, Stop>
        ensures word { AnswersAs (λ image. vword image va) (S.image self.old.space) result }
        ensures asked { IfOk result (λ w. w.va ≡ va) }
        ensures stopped { StopsAt result va }
        ensures steps { steps.new ≤ steps.old + 1 }

        ensures stays { SpaceStays (λ c. S.image c.space) (λ c. S.files c.space) (λ c. S.through c.space) (λ c. 1) self.old self.new }
        ensures cause { CountsFaults result (S.faults self.old.space) (S.faults self.new.space) }

        // What this memory adds: each word counts once, whatever is answered.
        ensures counts { steps.new ≡ steps.old + 1 }
        ensures below { self.new.below ≤ self.old.below + S.most self.old.space }
    {
        steps.tick();
        self.space.word(va, &mut self.below)
    }
}
