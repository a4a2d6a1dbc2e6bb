// How the program ends.

/// The status that the program ends with.
#[derive(Clone, Copy, Debug, PartialEq, Eq)]
pub enum Status {
    /// Clean, or done: 0.
    Done,
    /// A rule is broken: 1.
    Broken,
    /// A file, a symbol, a type or a path is refused: 2.
    Refused,
    /// A call of the store failed: 3.
    StoreFailed,
    /// A call of a sink failed: 4.
    SinkFailed,
    /// No memory was left: 5.
    OutOfMemory,
    /// The arguments aren't a command: 6.
    NoCommand,
}

impl From<Status> for u8 {
    ghost use Rattle.std.specs.Prelude.{◌≡◌};
    ghost use Rattle.kc_command.specs.Ends.Status.{number};

    ghost from_gives = { λ status n. n ≡ number status };

    fn from(status: Status) -> u8 {
        match status {
            Status::Done => 0,
            Status::Broken => 1,
            Status::Refused => 2,
            Status::StoreFailed => 3,
            Status::SinkFailed => 4,
            Status::OutOfMemory => 5,
            Status::NoCommand => 6,
        }
    }
}
