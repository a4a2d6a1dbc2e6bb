// Page frames.
ghost use Rattle.std.specs.Prelude.{◌≡◌};
ghost use Rattle.kc_kdump.specs.Frames.{frame_of};

/// What a page frame is, by the bitmaps.
#[derive(Clone, Copy)]
pub enum Frame {
    /// Its page is in the dump.
    Dumped,
    /// Its page is memory, and was left out.
    LeftOut,
    /// It is no memory.
    Hole,
}

impl Frame {
    // The page frame by its bits of both bitmaps.
    pub(crate) fn of(memory: u8, dumped: u8) -> Self
        ensures { result ≡ frame_of memory dumped }
    {
        if dumped == 1 {
            Frame::Dumped
        } else if memory == 1 {
            Frame::LeftOut
        } else {
            Frame::Hole
        }
    }
}
