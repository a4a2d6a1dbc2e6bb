// Where text goes.
ghost use Rattle.std.specs.Prelude.{◌≡◌, ℕ, ◌<◌, ◌≤◌, List, length, take, Option, IfOk, OnOk, OnErr};
ghost use Rattle.kc_outside.specs.Counts.{Rose, next_count};
ghost use Rattle.kc_outside.specs.Texts.{with_piece};

use crate::store::Failed;

/// A place that takes text, as standard output does.
pub trait Sink {
    /// The bytes taken so far, or `None` where that isn't told.
    ghost taken: { Self → Option (List ℕ) };

    /// How often a call failed.
    ghost faults: { Self → ℕ };

    /// How many calls there were.
    ghost asked: { Self → ℕ };

    /// Takes some of the piece's first bytes, at least one, and says how many.
    ///
    /// # Errors
    ///
    /// The call failed: its count of failures rose. Nothing of the piece was taken, where it is told what
    /// is taken; else a first part of it may have gone on.
    fn put(&mut self, piece: &[u8]) -> Result<usize, Failed>
        requires { 0 < length piece.now }

        ensures some { IfOk result (λ n. 0 < n) }
        ensures within { IfOk result (λ n. n ≤ length piece.now) }
        ensures taken { IfOk result (λ n. taken self.new ≡ with_piece (taken self.old) (take n piece.now)) }
        ensures nothing { OnErr result (taken self.new ≡ taken self.old) }

        ensures later { faults self.old ≤ faults self.new }
        ensures quiet { OnOk result (faults self.new ≡ faults self.old) }
        ensures cause { OnErr result (Rose (faults self.old) (faults self.new)) }
        ensures asked { asked self.new ≡ next_count (asked self.old) }
        ensures asked_later { asked self.old ≤ asked self.new };
}
