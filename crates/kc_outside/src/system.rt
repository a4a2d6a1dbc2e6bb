// The calls of a system that reading files comes down to.
ghost use Rattle.std.specs.Prelude.{◌≡◌, ℕ, ◌≤◌, List, IfOk, OnOk};
ghost use Rattle.kc_outside.specs.Counts.{next_count, faults_after};

use crate::store::Failed;

/// A system that opens files, tells their lengths and reads them. Each call is counted, and so is each
/// failure. What its files are, only it can say: three meanings name what it answered.
pub trait System: Drop {
    /// An open file.
    type File: Drop;

    /// Whether a file is one that this system opened for a name.
    ghost opens: { Self → List ℕ → Self.File → Type 0 };

    /// Whether this system told a length of a file, in bytes.
    ghost tells: { Self → Self.File → ℕ → Type 0 };

    /// Whether this system read bytes from a file offset on, and what became of the file.
    ghost reads: { Self → Self.File → Self.File → ℕ → List ℕ → Type 0 };

    /// How often a call failed.
    ghost faults: { Self → ℕ };

    /// How many calls there were.
    ghost asked: { Self → ℕ };

    /// Opens the file of a name.
    ///
    /// # Errors
    ///
    /// The system doesn't open it.
    fn open(&mut self, name: &str) -> Result<Self::File, Failed>
        ensures opened { IfOk result (opens self.old name.now) }
        ensures faults { faults self.new ≡ faults_after (faults self.old) result }
        ensures asked { asked self.new ≡ next_count (asked self.old) }
        ensures later { faults self.old ≤ faults self.new }
        ensures asked_later { asked self.old ≤ asked self.new };

    /// The length of a file, in bytes.
    ///
    /// # Errors
    ///
    /// The system doesn't tell it.
    fn length(&mut self, file: &Self::File) -> Result<u64, Failed>
        ensures told { IfOk result (tells self.old file.now) }
        ensures faults { faults self.new ≡ faults_after (faults self.old) result }
        ensures asked { asked self.new ≡ next_count (asked self.old) }
        ensures later { faults self.old ≤ faults self.new }
        ensures asked_later { asked self.old ≤ asked self.new };

    /// Fills the buffer with a file's bytes from the file offset `off` on.
    ///
    /// # Errors
    ///
    /// The system fails, or the file ends before the buffer is full. The buffer then holds any bytes.
    fn read(&mut self, file: &mut Self::File, off: u64, buf: &mut [u8]) -> Result<(), Failed>
        ensures read { OnOk result (reads self.old file.old file.new off buf.new) }
        ensures faults { faults self.new ≡ faults_after (faults self.old) result }
        ensures asked { asked self.new ≡ next_count (asked self.old) }
        ensures later { faults self.old ≤ faults self.new }
        ensures asked_later { asked self.old ≤ asked self.new };
}
