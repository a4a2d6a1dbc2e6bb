// A sink in memory, for tests.
ghost use Rattle.std.specs.Prelude.{◌≤◌, vec_len};
ghost use Rattle.std.specs.Vec.{vec_capacity};

use crate::counts::Counts;
use crate::sink::Sink;
use crate::store::Failed;
use kc_word::NoMemory;
use std::alloc::Global;

/// A sink that keeps what it takes, up to a limit of bytes.
#[derive(Drop)]
pub struct MemSink {
    kept: Vec<u8>,
    limit: usize,
    counts: Counts,
    ghost room: { limit ≤ vec_capacity kept },
    ghost within: { vec_len kept ≤ limit },
}

impl MemSink {
    ghost use Rattle.std.specs.Prelude.{◌≡◌, [], IfOk};
    ghost use Rattle.kc_outside.specs.MemSink.{bytes_in, limit_of, faults_of, calls_of};

    /// An empty sink, with memory for `limit` bytes.
    ///
    /// # Errors
    ///
    /// Out of memory.
    pub fn new(alloc: Global, limit: usize) -> Result<MemSink, NoMemory>
        ensures bytes { IfOk result (λ sink. bytes_in sink ≡ []) }
        ensures limit { IfOk result (λ sink. limit_of sink ≡ limit) }
        ensures faults { IfOk result (λ sink. faults_of sink ≡ 0) }
        ensures calls { IfOk result (λ sink. calls_of sink ≡ 0) }
    {
        let kept = Vec::with_capacity(alloc, limit)?;
        Ok(MemSink {
            kept,
            limit,
            counts: Counts::new(),
        })
    }

    /// The bytes taken so far.
    pub fn bytes(&self) -> &[u8]
        ensures { result.now ≡ bytes_in self.now }
    {
        self.kept.as_slice()
    }
}

impl Sink for MemSink {
    ghost use Rattle.std.specs.Prelude.{◌≡◌, ◌-◌, ◌<◌, length, take, min, Some, IfOk, OnOk, OnErr, is_ok, nat_lt};
    ghost use Rattle.kc_outside.specs.Counts.{Rose, next_count, faults_after};
    ghost use Rattle.kc_outside.specs.Texts.{with_piece};
    ghost use Rattle.kc_outside.specs.MemSink.{bytes_in, limit_of, faults_of, calls_of};

    ghost taken = { λ sink. Some (bytes_in sink) };

    ghost faults = { faults_of };

    ghost asked = { calls_of };

    /// Takes as many of the piece's bytes as are left below the limit. It takes no memory.
    ///
    /// # Errors
    ///
    /// No byte is left below the limit.
    fn put(&mut self, piece: &[u8]) -> Result<usize, Failed>
        requires { 0 < length piece.now }

        ensures some { IfOk result (λ n. 0 < n) }
        ensures within { IfOk result (λ n. n ≤ length piece.now) }
        ensures taken { IfOk result (λ n.
            Some (bytes_in self.new) ≡ with_piece (Some (bytes_in self.old)) (take n piece.now)) }
        ensures nothing { OnErr result (Some (bytes_in self.new) ≡ Some (bytes_in self.old)) }

        ensures later { faults_of self.old ≤ faults_of self.new }
        ensures quiet { OnOk result (faults_of self.new ≡ faults_of self.old) }
        ensures cause { OnErr result (Rose (faults_of self.old) (faults_of self.new)) }
        ensures asked { calls_of self.new ≡ next_count (calls_of self.old) }
        ensures asked_later { calls_of self.old ≤ calls_of self.new }

        // What this sink adds.
        ensures succeeds { is_ok result ≡ nat_lt (length (bytes_in self.old)) (limit_of self.old) }
        ensures count { IfOk result (λ n.
            n ≡ min (length piece.now) (limit_of self.old - length (bytes_in self.old))) }
        ensures limit { limit_of self.new ≡ limit_of self.old }
        ensures faults { faults_of self.new ≡ faults_after (faults_of self.old) result }
    {
        self.counts.ask();
        let left = self.limit - self.kept.len();
        if left == 0 {
            return Err(self.counts.fail());
        }
        let count = piece.len().min(left);
        if self.kept.extend_from_slice(&piece[..count]).is_err() {
            // The memory for the limit was taken at the start.
            unreachable!();
        }
        Ok(count)
    }
}
