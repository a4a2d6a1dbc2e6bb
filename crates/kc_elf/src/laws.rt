// What the definition of a core file says, for a reader to believe and a caller to learn. The function does
// nothing: it carries laws.
ghost use Rattle.kc_elf.specs.Laws.{SegmentsAreSpelled, FirstOutOfBounds};

/// Each segment of a core file is spelled by some PT_LOAD of the file, with its bytes inside the file. `E9` has
/// the index of the first program header that is out of bounds.
pub fn know_core()
    ensures segments { SegmentsAreSpelled }
    ensures bounds { FirstOutOfBounds }
{}
