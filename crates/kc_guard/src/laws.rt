// What the definitions say.
ghost use Rattle.kc_guard.specs.Laws.{GuardsHold, SpoiledStand};

use kc_found::know_numbers;

/// Does nothing. Where no object of a slab is spoiled, each byte that its cache keeps can be read and is what it has to be. A byte that is
/// told is another one, in a word that stands in the dump, at the place that is shown; and so do the words that show why a byte can't be read.
pub fn know_guards()
    ensures hold { GuardsHold }
    ensures stand { SpoiledStand }
{
    know_numbers();
}
