// What is asked of the memory of a dump.
ghost use Rattle.std.specs.Prelude.{ℕ, IfSome};
ghost use Rattle.kc_memory.specs.Image.{Image};
ghost use Rattle.kc_memory.specs.Stays.{SpaceStays};

use kc_memory::Space;
use kc_word::Steps;
use std::sync::ledger::Ledger;

/// A question to the memory of a dump.
pub trait Question {
    /// What is answered.
    type Answer;

    /// Whether it may be asked.
    ghost may: { Self → Type 0 };

    /// What an answer says of the memory.
    ghost says: { Self → Image → Self.Answer → Type 0 };

    /// What an answer says whatever the memory is, with the counts of failures before and after it.
    ghost leaves: { Self → Self.Answer → ℕ → ℕ → Type 0 };

    /// Asks it.
    fn ask<M: Space, L: Ledger>(&self, memory: &mut M, steps: &mut Steps<L>) -> Self::Answer
        requires { may self.now }

        ensures says { IfSome (M.image memory.old) (λ image. says self.now image result) }
        ensures stays { SpaceStays M.image M.files M.through M.most memory.old memory.new }
        ensures leaves { leaves self.now result (M.faults memory.old) (M.faults memory.new) };
}
