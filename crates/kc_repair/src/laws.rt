// What the definitions say.
ghost use Rattle.kc_repair.specs.Laws.{ElementsAreCounted, LeftStand, LeftStandInFile, LeftWordsStand, NextsAreOfRoot, OneMore, OthersStand, RepairWordsStand, RepairsAreExact, RepairsStand};

use crate::know_suspects;
use kc_found::know_places;
use kc_phys::know_changes;
use kc_run::know_verdicts;

/// Does nothing. With a suspect that repairs a violation the structures of the root audit stand, and where none does, they stand with
/// none that is tried, the first 4,096, unless the walk that finds the violation breaks with it. The violation that a suspect leads to is
/// what the root audit comes to with it. Each suspect that is told is a word of the dump, at its place in the file, with another number than
/// stands there. The same holds of a violation that is left where some words are changed, over the memory with these; and the number of such a
/// word stands at its physical address and offset in the dump as it is, too.
/// Beside a word that repairs so many others were tried as are told: with none of them the structures stand, but for the last one, where another word
/// repairs. The elements that are told are counted by the clean verdict of the root audit with these words.
pub fn know_repairs()
    ensures stand { RepairsStand }
    ensures exact { RepairsAreExact }
    ensures nexts { NextsAreOfRoot }
    ensures words { RepairWordsStand }
    ensures left { LeftStand }
    ensures left_words { LeftWordsStand }
    ensures in_file { LeftStandInFile }
    ensures one_more { OneMore }
    ensures others { OthersStand }
    ensures elements { ElementsAreCounted }
{
    know_changes();
    know_places();
    know_suspects();
    know_verdicts();
}
