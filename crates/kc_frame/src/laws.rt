// What the definitions say.
ghost use Rattle.kc_frame.specs.Laws.{BlocksStand, NoneMissed};

/// Does nothing. A free block that is told begins at a page with the mark and with its order, and has the page that was asked for; and where
/// none is told, none of the orders there are does.
pub fn know_frames()
    ensures stand { BlocksStand }
    ensures none { NoneMissed }
{}
