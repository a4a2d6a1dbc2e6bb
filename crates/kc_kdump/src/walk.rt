// A walk over the page frames, from the first on, that gathers runs.
ghost use Rattle.std.specs.Prelude.{◌+◌, ◌≡◌, ◌≤◌, ◌<◌, ◌^◌, ◌++◌, length, vec_len, OnOk, OnErr};
ghost use Rattle.kc_kdump.specs.Answers.{IfTooMany};
ghost use Rattle.kc_kdump.specs.Runs.{end_of, page_count, reach, shown};

use crate::fault::{KdumpFault, KdumpStop};
use crate::frame::Frame;
use crate::run::PageRun;
use std::alloc::Global;

// At most so many runs are gathered.
const MOST_RUNS: usize = 4_194_304;

// The runs so far.
#[derive(Drop)]
pub(crate) struct Walk {
    // Those that are whole.
    pub(crate) runs: Vec<PageRun>,
    // The one that was begun.
    pub(crate) run: PageRun,
    // How many pages are in the dump.
    pub(crate) pages: u64,
    pub(crate) ghost counted: { pages ≡ page_count runs.items + run.dumped },
    pub(crate) ghost below: { pages ≤ end_of run },
    pub(crate) ghost reached: { reach runs.items ≤ end_of run },
    pub(crate) ghost few: { vec_len runs ≤ 4194304 },
}

// Puts a run to the others, unless it is empty.
fn put_run(runs: &mut Vec<PageRun>, run: PageRun) -> Result<(), KdumpStop>
    requires few { vec_len runs.old ≤ 4194304 }
    requires small { run.dumped + run.left < 2 ^ 63 }
    ensures runs { OnOk result (runs.new.items ≡ runs.old.items ++ shown run) }
    ensures few { vec_len runs.new ≤ 4194304 }
    ensures same { OnErr result (runs.new.items ≡ runs.old.items) }
    ensures many { IfTooMany result (4194304 < length (runs.old.items ++ shown run)) }
{
    if run.dumped + run.left == 0 {
        return Ok(());
    }
    if runs.len() >= MOST_RUNS {
        return Err(KdumpStop::Fault(KdumpFault::K8));
    }
    runs.push(run)?;
    Ok(())
}

impl Walk {
    ghost use Rattle.std.specs.Prelude.{ℕ, List, [], ◌∷◌, ◌-◌, ◌*◌, take};
    ghost use Rattle.kc_kdump.specs.declared.frame.Frame.{Frame};
    ghost use Rattle.kc_kdump.specs.Frames.{all_frames, frames_by};
    ghost use Rattle.kc_kdump.specs.Runs.{empty_at};
    ghost use Rattle.kc_kdump.specs.Walk.{runs_after};

    // No page frame was walked yet.
    pub(crate) fn new(alloc: Global) -> Walk
        ensures runs { result.runs.items ≡ [] }
        ensures run { result.run ≡ empty_at 0 }
    {
        Walk {
            runs: Vec::new(alloc),
            run: PageRun {
                first: 0,
                dumped: 0,
                left: 0,
            },
            pages: 0,
        }
    }

    // Puts the run that was begun to the others, unless it is empty, and begins another.
    fn begin(&mut self, first: u64, dumped: u64) -> Result<(), KdumpStop>
        requires after { end_of self.old.run ≤ first }
        requires fits { first + dumped < 2 ^ 63 }
        ensures runs { OnOk result (self.new.runs.items ≡ self.old.runs.items ++ shown self.old.run) }
        ensures run { OnOk result (self.new.run ≡ record { first = first; dumped = dumped; left = 0 }) }
        ensures many { IfTooMany result (4194304 < length (self.old.runs.items ++ shown self.old.run)) }
    {
        put_run(&mut self.runs, self.run)?;
        self.run = PageRun {
            first,
            dumped,
            left: 0,
        };
        self.pages += dumped;
        Ok(())
    }

    // Ends the run that was begun, and the walk.
    pub(crate) fn finish(&mut self) -> Result<(), KdumpStop>
        requires { end_of self.old.run < 2 ^ 63 }
        ensures runs { OnOk result (self.new.runs.items ≡ runs_after self.old []) }
        ensures run { OnOk result (self.new.run ≡ empty_at (end_of self.old.run)) }
        ensures many { IfTooMany result (4194304 < length (runs_after self.old [])) }
    {
        let end = self.end();
        self.begin(end, 0)
    }

    // The page frame after the run that was begun.
    fn end(&self) -> u64
        requires { end_of self.now.run < 2 ^ 63 }
        ensures { result ≡ end_of self.now.run }
    {
        self.run.first + self.run.dumped + self.run.left
    }

    // Walks over a page frame.
    fn take_frame(&mut self, frame: Frame) -> Result<(), KdumpStop>
        requires { end_of self.old.run + 1 < 2 ^ 63 }
        ensures runs { OnOk result ((rest : List Frame) → runs_after self.new rest ≡ runs_after self.old (frame ∷ rest)) }
        ensures end { OnOk result (end_of self.new.run ≡ end_of self.old.run + 1) }
        ensures many { IfTooMany result ((rest : List Frame) → 4194304 < length (runs_after self.old (frame ∷ rest))) }
    {
        let end = self.end();
        match frame {
            Frame::Dumped => {
                if self.run.left == 0 {
                    self.run.dumped += 1;
                    self.pages += 1;
                    return Ok(());
                }
                self.begin(end, 1)
            }
            Frame::LeftOut => {
                self.run.left += 1;
                Ok(())
            }
            Frame::Hole => self.begin(end + 1, 0),
        }
    }

    // Walks over so many page frames by one byte of each bitmap.
    fn take_bits(&mut self, memory: u8, dumped: u8, bits: u64) -> Result<(), KdumpStop>
        requires { end_of self.old.run + bits < 2 ^ 63 }
        ensures runs { OnOk result ((rest : List Frame) → runs_after self.new rest ≡ runs_after self.old (frames_by bits memory dumped ++ rest)) }
        ensures end { OnOk result (end_of self.new.run ≡ end_of self.old.run + bits) }
        ensures many { IfTooMany result ((rest : List Frame) → 4194304 < length (runs_after self.old (frames_by bits memory dumped ++ rest))) }
    {
        let mut m = memory;
        let mut d = dumped;
        let mut left = bits;
        while left > 0 {
            self.take_frame(Frame::of(m % 2, d % 2))?;
            m /= 2;
            d /= 2;
            left -= 1;
        }
        Ok(())
    }

    // Walks over the page frames of a whole byte whose pages are all in the dump, where none was left out since the run began.
    fn take_dumped(&mut self)
        requires fits { end_of self.old.run + 8 < 2 ^ 63 }
        requires none { self.old.run.left ≡ 0 }
        ensures runs { (memory : ℕ) (rest : List Frame) → runs_after self.new rest ≡ runs_after self.old (frames_by 8 memory 255 ++ rest) }
        ensures end { end_of self.new.run ≡ end_of self.old.run + 8 }
    {
        self.run.dumped += 8;
        self.pages += 8;
    }

    // The same of a byte whose pages were all left out.
    fn take_left(&mut self)
        requires { end_of self.old.run + 8 < 2 ^ 63 }
        ensures runs { (rest : List Frame) → runs_after self.new rest ≡ runs_after self.old (frames_by 8 255 0 ++ rest) }
        ensures end { end_of self.new.run ≡ end_of self.old.run + 8 }
    {
        self.run.left += 8;
    }

    // The same of a byte that is no memory.
    fn take_holes(&mut self) -> Result<(), KdumpStop>
        requires { end_of self.old.run + 8 < 2 ^ 63 }
        ensures runs { OnOk result ((rest : List Frame) → runs_after self.new rest ≡ runs_after self.old (frames_by 8 0 0 ++ rest)) }
        ensures end { OnOk result (end_of self.new.run ≡ end_of self.old.run + 8) }
        ensures many { IfTooMany result ((rest : List Frame) → 4194304 < length (runs_after self.old (frames_by 8 0 0 ++ rest))) }
    {
        let end = self.end();
        self.begin(end + 8, 0)
    }

    // Walks over the page frames of a whole byte of each bitmap, at once where they are all of one kind.
    fn take_byte(&mut self, memory: u8, dumped: u8) -> Result<(), KdumpStop>
        requires { end_of self.old.run + 8 < 2 ^ 63 }
        ensures runs { OnOk result ((rest : List Frame) → runs_after self.new rest ≡ runs_after self.old (frames_by 8 memory dumped ++ rest)) }
        ensures end { OnOk result (end_of self.new.run ≡ end_of self.old.run + 8) }
        ensures many { IfTooMany result ((rest : List Frame) → 4194304 < length (runs_after self.old (frames_by 8 memory dumped ++ rest))) }
    {
        if dumped == 255 && self.run.left == 0 {
            self.take_dumped();
            Ok(())
        } else if dumped == 0 && memory == 255 {
            self.take_left();
            Ok(())
        } else if dumped == 0 && memory == 0 {
            self.take_holes()
        } else {
            self.take_bits(memory, dumped, 8)
        }
    }

    // Walks over the first page frames of a byte of each bitmap, eight at most.
    fn take_some(&mut self, memory: u8, dumped: u8, bits: u64) -> Result<(), KdumpStop>
        requires fits { end_of self.old.run + bits < 2 ^ 63 }
        ensures runs { OnOk result ((rest : List Frame) → runs_after self.new rest ≡ runs_after self.old (frames_by bits memory dumped ++ rest)) }
        ensures end { OnOk result (end_of self.new.run ≡ end_of self.old.run + bits) }
        ensures many { IfTooMany result ((rest : List Frame) → 4194304 < length (runs_after self.old (frames_by bits memory dumped ++ rest))) }
    {
        if bits == 8 {
            self.take_byte(memory, dumped)
        } else {
            self.take_bits(memory, dumped, bits)
        }
    }

    // Walks over the page frames by some bytes of each bitmap, so many at most.
    pub(crate) fn take_bytes(
        &mut self,
        memory: &[u8],
        dumped: &[u8],
        most: u64,
    ) -> Result<(), KdumpStop>
        requires same { length memory.now ≡ length dumped.now }
        requires fits { end_of self.old.run + most < 2 ^ 63 }
        ensures runs { OnOk result ((rest : List Frame) → runs_after self.new rest ≡ runs_after self.old (take most (all_frames memory.now dumped.now) ++ rest)) }
        ensures end { OnOk result (end_of self.new.run + (most - 8 * length memory.now) ≡ end_of self.old.run + most) }
        ensures many { IfTooMany result ((rest : List Frame) → 4194304 < length (runs_after self.old (take most (all_frames memory.now dumped.now) ++ rest))) }
    {
        let mut left = most;
        for i in 0..memory.len() {
            let bits = left.min(8);
            self.take_some(memory[i], dumped[i], bits)?;
            left -= bits;
        }
        Ok(())
    }
}
