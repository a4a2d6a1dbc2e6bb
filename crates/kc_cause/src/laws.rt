// What the definitions say.
ghost use Rattle.kc_repair.specs.Laws.{RepairWordsStand, RepairsStand};
ghost use Rattle.kc_cause.specs.Laws.{CausesStand, ExplanationsHold, FirstIsReported};

use kc_repair::{know_repairs, know_suspects};
use kc_run::know_verdicts;

/// Does nothing. Each word that shows a violation of a root audit stands in the dump, and the violation that is explained of a plan with one
/// verdict is the one that its report tells. With a word that is shown as a repair the structures of the root audit stand, and where none
/// is, they stand with none that is tried, unless the walk that finds the violation breaks with it. The word of a repair, and the one after which another violation comes, stand in the dump too. Where several words
/// repair together, the structures stand with all of them changed, and the number of each stands at its offset in the dump as it is. The text says so of
/// the root audit that it names, with the columns of that word.
pub fn know_causes()
    ensures stand { CausesStand }
    ensures first { FirstIsReported }
    ensures repairs { RepairsStand }
    ensures repair_words { RepairWordsStand }
    ensures text { ExplanationsHold }
{
    know_repairs();
    know_suspects();
    know_verdicts();
}
