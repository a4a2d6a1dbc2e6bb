// Why not all words were written.
ghost use Rattle.std.specs.Prelude.{◌≡◌};
ghost use Rattle.kc_refs.specs.declared.stop.RefsStop.TheVariants as stops;

use kc_found::ReadFailed;
use kc_outside::Failed;
use kc_word::NoMemory;

/// Why not all words were written.
#[derive(Clone, Copy, Debug, PartialEq, Eq)]
pub enum RefsStop {
    /// A call of the store failed. Its count of faults rose.
    Store,
    /// No memory was left.
    Memory,
    /// A call of the sink for words failed. Its count of faults rose.
    Sink,
    /// A call of the sink for progress failed. Its count of faults rose.
    Progress,
}

impl From<ReadFailed> for RefsStop {
    ghost use Rattle.kc_refs.specs.Stops.{of_read};

    ghost from_gives = { λ failed stop. stop ≡ of_read failed };

    fn from(failed: ReadFailed) -> Self {
        match failed {
            ReadFailed::Fault => RefsStop::Store,
            ReadFailed::NoMemory => RefsStop::Memory,
        }
    }
}

impl From<NoMemory> for RefsStop {
    ghost from_gives = { λ _ stop. stop ≡ stops.Memory };

    fn from(_: NoMemory) -> Self {
        RefsStop::Memory
    }
}

impl From<Failed> for RefsStop {
    ghost from_gives = { λ _ stop. stop ≡ stops.Sink };

    fn from(_: Failed) -> Self {
        RefsStop::Sink
    }
}
