// What the definition of a change says, for a reader to believe and a caller to learn. The function does nothing.
ghost use Rattle.kc_phys.specs.Patch.Laws.{AllKeepLength, AllOthersStay, KeepsLength, LastLiesOver, OthersStay, ReadsBack, SameStays};

/// A change keeps the length of a file and each byte outside its eight. Where the file has all eight, they hold the value
/// after it. A word that is changed to what it is leaves the file as it is. Several changes keep the length and each byte outside them
/// too, and the last of them is a change of the file that the others make.
pub fn know_changes()
    ensures length { KeepsLength }
    ensures others { OthersStay }
    ensures back { ReadsBack }
    ensures same { SameStays }
    ensures all_length { AllKeepLength }
    ensures all_others { AllOthersStay }
    ensures last { LastLiesOver }
{}
