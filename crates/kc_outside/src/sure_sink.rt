// A sink that never fails.
ghost use Rattle.std.specs.Prelude.{◌≡◌};

use crate::sink::Sink;
use crate::store::Failed;

/// A sink that takes each piece whole, and keeps nothing of it. No call fails.
#[derive(Drop)]
pub struct SureSink {
    asked: u64,
}

impl SureSink {
    ghost use Rattle.kc_outside.specs.SureStore.{puts_of};

    /// A sink of which no call was made.
    pub fn new() -> SureSink
        ensures { puts_of result ≡ 0 }
    {
        SureSink { asked: 0 }
    }
}

impl Sink for SureSink {
    ghost use Rattle.std.specs.Prelude.{ℕ, ◌<◌, ◌≤◌, List, length, Option, None, IfOk, Ok};
    ghost use Rattle.kc_outside.specs.Counts.{next_count};
    ghost use Rattle.kc_outside.specs.SureStore.{puts_of};

    ghost taken = { λ _. None };

    ghost faults = { λ _. 0 };

    ghost asked = { puts_of };

    /// Takes the piece whole. It never fails.
    fn put(&mut self, piece: &[u8]) -> Result<usize, Failed>
        requires { 0 < length piece.now }

        ensures some { IfOk result (λ n. 0 < n) }
        ensures within { IfOk result (λ n. n ≤ length piece.now) }

        ensures asked { puts_of self.new ≡ next_count (puts_of self.old) }
        ensures asked_later { puts_of self.old ≤ puts_of self.new }

        // What this sink adds.
        ensures whole { result ≡ Ok (length piece.now) }
    {
        self.asked = self.asked.saturating_add(1);
        Ok(piece.len())
    }
}
