// The calls of a writer that standard output and standard error come down to.
ghost use Rattle.std.specs.Prelude.{◌≡◌, ◌<◌, ◌≤◌, true, false, length, IfOk, OnOk, OnErr};
ghost use Rattle.std.specs.Result.{OkIff};
ghost use Rattle.std.specs.Io.KnownBytes.{Keeps, WriteAppends};
ghost use Rattle.kc_outside.specs.Counts.{next_count, faults_after};

use crate::counts::Counts;
use crate::store::Failed;
use std::io;
use std::io::Write;

// A writer, how often it was asked to write and failed, and whether something was written after the last
// flush. No contract tells when a writer fails or passes on what it holds, so each call of it stands alone
// here: its error is counted, and its flush is what clears the mark.
#[derive(Drop)]
pub(crate) struct Output<W: Write> {
    writer: W,
    counts: Counts,
    unflushed: bool,
}

impl<W: Write> Output<W> {
    // A writer of which no call was made.
    pub(crate) fn new(writer: W) -> Self
        ensures writer { result.writer ≡ writer }
        ensures faults { result.counts.faults ≡ 0 }
        ensures asked { result.counts.asked ≡ 0 }
        ensures flushed { result.unflushed ≡ false }
    {
        Output {
            writer,
            counts: Counts::new(),
            unflushed: false,
        }
    }

    // Writes some of the piece's first bytes. No byte is a failure.
    pub(crate) fn write(&mut self, piece: &[u8]) -> Result<usize, Failed>
        ensures some { IfOk result (λ n. 0 < n) }
        ensures within { IfOk result (λ n. n ≤ length piece.now) }
        ensures bytes { WriteAppends (W.contents self.old.writer) (W.contents self.new.writer) result piece.now }
        ensures unflushed { OnOk result (self.new.unflushed ≡ true) }
        ensures as_flushed { OnErr result (self.new.unflushed ≡ self.old.unflushed) }
        ensures faults { self.new.counts.faults ≡ faults_after self.old.counts.faults result }
        ensures asked { self.new.counts.asked ≡ next_count self.old.counts.asked }
        ensures later { self.old.counts.faults ≤ self.new.counts.faults }
        ensures asked_later { self.old.counts.asked ≤ self.new.counts.asked }
    {
        self.counts.ask();
        let answer = self.writer.write(piece).and_then(check_some);
        let written = self.counts.told(answer)?;
        self.unflushed = true;
        Ok(written)
    }

    // Has the writer pass on what it holds.
    pub(crate) fn flush(&mut self) -> Result<(), Failed>
        ensures bytes { Keeps (W.contents self.old.writer) (W.contents self.new.writer) }
        ensures flushed { OnOk result (self.new.unflushed ≡ false) }
        ensures as_flushed { OnErr result (self.new.unflushed ≡ self.old.unflushed) }
        ensures faults { self.new.counts.faults ≡ faults_after self.old.counts.faults result }
        ensures asked { self.new.counts.asked ≡ self.old.counts.asked }
        ensures later { self.old.counts.faults ≤ self.new.counts.faults }
    {
        self.counts.told(self.writer.flush())?;
        self.unflushed = false;
        Ok(())
    }
}

// Refuses a write of no byte.
fn check_some(count: usize) -> io::Result<usize>
    ensures { OkIff result (0 < count) count }
{
    if count > 0 {
        Ok(count)
    } else {
        Err(io::Error::from(io::ErrorKind::WriteZero))
    }
}
