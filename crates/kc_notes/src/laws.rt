// What the search for VMCOREINFO says, for a reader to believe and a caller to learn. The function does
// nothing: it carries laws.
ghost use Rattle.kc_notes.specs.Laws.{SearchStops, FirstPartTells};

/// Whole notes lead to the place where the search of a part stops, and none of them is VMCOREINFO. The text that is
/// found stands in the first part that has one, and no part before it has a broken note.
pub fn know_notes()
    ensures stops { SearchStops }
    ensures tells { FirstPartTells }
{}
