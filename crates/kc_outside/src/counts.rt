// The counts of calls and of failures, as each implementation keeps them.
ghost use Rattle.std.specs.Prelude.{◌≡◌, ◌≤◌, MatchResult, IsErr, Ok};
ghost use Rattle.kc_outside.specs.Counts.{next_count, faults_after};

use crate::store::Failed;
use std::io;

// How many calls there were, and how many of them failed. At 2^64 - 1 a count stands still.
#[derive(Drop)]
pub(crate) struct Counts {
    pub(crate) asked: u64,
    pub(crate) faults: u64,
}

impl Counts {
    // No call yet.
    pub(crate) fn new() -> Counts
        ensures { result ≡ record { asked = 0; faults = 0 } }
    {
        Counts {
            asked: 0,
            faults: 0,
        }
    }

    // Counts a call.
    pub(crate) fn ask(&mut self)
        ensures next { self.new ≡ record self.old { asked = next_count self.old.asked } }
        ensures later { self.old.asked ≤ self.new.asked }
    {
        self.asked = self.asked.saturating_add(1);
    }

    // Counts a failure, for the caller to answer.
    pub(crate) fn fail(&mut self) -> Failed
        ensures next { self.new ≡ record self.old { faults = next_count self.old.faults } }
        ensures later { self.old.faults ≤ self.new.faults }
    {
        self.faults = self.faults.saturating_add(1);
        Failed
    }

    // What the system answered. An error is counted as a failure.
    pub(crate) fn told<T>(&mut self, answer: io::Result<T>) -> Result<T, Failed>
        ensures answer { MatchResult answer (λ value. result ≡ Ok value) (λ _. IsErr result) }
        ensures faults { self.new ≡ record self.old { faults = faults_after self.old.faults result } }
        ensures later { self.old.faults ≤ self.new.faults }
    {
        match answer {
            Ok(value) => Ok(value),
            Err(_) => Err(self.fail()),
        }
    }
}
