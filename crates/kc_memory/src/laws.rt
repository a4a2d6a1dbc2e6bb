// What the definitions of words say, for a reader to believe and a caller to learn. These functions do
// nothing: each carries a law.
ghost use Rattle.kc_memory.specs.Laws.{WordsStandFirst, TailsAreZero, AbsentWhereNone, FoundIsHeld, PagesMoveWhole, PlacesStand, NumbersStand, NumbersFit, BitsAreOfMemory};

/// A word that comes from the file is the eight bytes at its file offset, and no earlier segment holds them. One that
/// comes from a tail is 0, and no segment's file bytes hold it. A word is absent only where neither is there. A word that
/// is found at a virtual address is one of those that the dump holds.
pub fn know_words()
    ensures first { WordsStandFirst }
    ensures tail { TailsAreZero }
    ensures absent { AbsentWhereNone }
    ensures held { FoundIsHeld }
{}

/// A translation keeps the low 12 bits of an address, and moves a page whole.
pub fn know_pages()
    ensures { PagesMoveWhole }
{}

/// The places that an answer shows are true of the dump.
pub fn know_places()
    ensures { PlacesStand }
{}

/// The places that a whole number shows are true of the dump. Its bits hold the number, and they are the bits of
/// memory.
pub fn know_numbers()
    ensures stand { NumbersStand }
    ensures fit { NumbersFit }
    ensures bits { BitsAreOfMemory }
{}
