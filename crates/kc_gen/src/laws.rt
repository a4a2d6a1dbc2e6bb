// What the definitions give.
ghost use Rattle.kc_gen.specs.Laws.{HoldsEachKey, ItemsFill};

/// Does nothing. The tree of the made items holds each key once, in order, and the items fill the bytes up to their last one.
pub fn know_made()
    ensures keys { HoldsEachKey }
    ensures fill { ItemsFill }
{}
