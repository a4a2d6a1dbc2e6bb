// Standard output and standard error.
ghost use Rattle.std.specs.Prelude.{◌≡◌, take, None, IfOk};
ghost use Rattle.std.specs.Io.KnownBytes.{Appends};

use crate::output::Output;
use crate::sink::Sink;
use crate::store::Failed;
use std::io::Write;

/// A sink over a writer, which is flushed after each piece. An error of the writer, a write of no byte
/// and an error of the flush are failures. What reaches the system is told by nobody.
#[derive(Drop)]
pub struct WriterSink<W: Write> {
    output: Output<W>,
}

/// The sink over standard output.
pub type OutSink<W> = WriterSink<W>;

/// The sink over standard error.
pub type ErrSink<W> = WriterSink<W>;

impl<W: Write> WriterSink<W> {
    ghost use Rattle.kc_outside.specs.WriterSink.{writer_of, IsFlushed};

    /// A sink over a writer of std, of which no call was made. It doesn't ask the writer for anything.
    pub fn new(writer: W) -> Self
        ensures writer { writer_of result ≡ writer }
        ensures flushed { IsFlushed result }
        ensures faults { ⟦<WriterSink<W> as Sink>⟧.faults result ≡ 0 }
        ensures asked { ⟦<WriterSink<W> as Sink>⟧.asked result ≡ 0 }
    {
        WriterSink {
            output: Output::new(writer),
        }
    }
}

impl<W: Write> Sink for WriterSink<W> {
    ghost use Rattle.std.specs.Prelude.{◌<◌, ◌≤◌, length, OnOk, OnErr};
    ghost use Rattle.kc_outside.specs.Counts.{Rose, next_count, faults_after};
    ghost use Rattle.kc_outside.specs.WriterSink.{writer_of, faults_of, calls_of, IsFlushed, GrowsByPart};

    ghost taken = { λ _. None };

    ghost faults = { faults_of };

    ghost asked = { calls_of };

    /// Writes some of the piece's first bytes, and then flushes them. Where the writer tells its bytes, they grow
    /// by as many of the piece's as it says.
    ///
    /// # Errors
    ///
    /// The writer or its flush fails, or it takes no byte. A first part of the piece may have gone to the writer
    /// where the flush failed.
    fn put(&mut self, piece: &[u8]) -> Result<usize, Failed>
        requires { 0 < length piece.now }

        ensures some { IfOk result (λ n. 0 < n) }
        ensures within { IfOk result (λ n. n ≤ length piece.now) }

        ensures later { faults_of self.old ≤ faults_of self.new }
        ensures quiet { OnOk result (faults_of self.new ≡ faults_of self.old) }
        ensures cause { OnErr result (Rose (faults_of self.old) (faults_of self.new)) }
        ensures asked { calls_of self.new ≡ next_count (calls_of self.old) }
        ensures asked_later { calls_of self.old ≤ calls_of self.new }

        // What this sink adds.
        ensures written { IfOk result (λ n.
            Appends (W.contents (writer_of self.old)) (W.contents (writer_of self.new)) (take n piece.now)) }
        ensures part { OnErr result
            (GrowsByPart (W.contents (writer_of self.old)) (W.contents (writer_of self.new)) piece.now) }
        ensures flushed { OnOk result (IsFlushed self.new) }
        ensures faults { faults_of self.new ≡ faults_after (faults_of self.old) result }
    {
        let count = self.output.write(piece)?;
        self.output.flush()?;
        Ok(count)
    }
}
