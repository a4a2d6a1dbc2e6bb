// What the definitions say.
ghost use Rattle.kc_why.specs.Laws.{ShownStand, WrittenAreFound};

use kc_cause::know_causes;
use kc_sight::know_sights;

/// Does nothing. Each word that is shown of an address, as one that holds it, or of a violation, stands in the dump, at the place that
/// is shown; what an explanation says of repairs holds; and each word of the dump that holds an address is shown.
pub fn know_why()
    ensures stand { ShownStand }
    ensures all { WrittenAreFound }
{
    know_sights();
    know_causes();
}
