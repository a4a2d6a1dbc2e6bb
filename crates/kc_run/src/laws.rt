// What the definition of verdicts says, for a reader to believe and a caller to learn.
ghost use Rattle.kc_run.specs.Laws.{CleanRootsStand, CleanWhereStanding, FirstOfRoots, RootVerdictsStand, VerdictsStand};

use crate::walks::know_walks;
use kc_memory::know_numbers;
use kc_view::know_values;

/// Does nothing. The verdict on a plan is clean exactly where every root audit stands, and that on a root audit where this
/// one stands; the words that they show are true of the dump. The verdict on a plan is the first of those on its root
/// audits that is broken.
pub fn know_verdicts()
    ensures clean { CleanWhereStanding }
    ensures roots { CleanRootsStand }
    ensures first { FirstOfRoots }
    ensures places { VerdictsStand }
    ensures root_places { RootVerdictsStand }
{
    know_walks();
    know_numbers();
    know_values();
}
