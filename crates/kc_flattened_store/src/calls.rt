// The counts of calls, and why the last failure came.
ghost use Rattle.std.specs.Prelude.{◌≡◌, ◌≤◌, Some, None};
ghost use Rattle.kc_outside.specs.Counts.{next_count};

use crate::stop::FlattenedFault;
use kc_outside::Failed;

// How many calls there were, how many of them failed, and why the last of those did that came since the dump was opened. At 2^64 - 1 a
// count stands still.
#[derive(Drop)]
pub(crate) struct Calls {
    pub(crate) asked: u64,
    pub(crate) faults: u64,
    pub(crate) last: Option<FlattenedFault>,
}

impl Calls {
    // No call yet.
    pub(crate) fn new() -> Calls
        ensures { result ≡ record { asked = 0; faults = 0; last = None } }
    {
        Calls {
            asked: 0,
            faults: 0,
            last: None,
        }
    }

    // Counts a call.
    pub(crate) fn ask(&mut self)
        ensures next { self.new ≡ record self.old { asked = next_count self.old.asked } }
        ensures later { self.old.asked ≤ self.new.asked }
    {
        self.asked = self.asked.saturating_add(1);
    }

    // Forgets why the last failure came.
    pub(crate) fn forget(&mut self)
        ensures { self.new ≡ record self.old { last = None } }
    {
        self.last = None;
    }

    // Counts a failure, for the caller to answer.
    pub(crate) fn fail(&mut self, fault: FlattenedFault) -> Failed
        ensures next { self.new ≡ record self.old { faults = next_count self.old.faults; last = Some fault } }
        ensures later { self.old.faults ≤ self.new.faults }
    {
        self.faults = self.faults.saturating_add(1);
        self.last = Some(fault);
        Failed
    }
}
