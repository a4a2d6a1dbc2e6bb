// What the definitions say.
ghost use Rattle.kc_owner.specs.Object.Laws.{ObjectsHold, ObjectsStand};

use kc_found::{know_numbers, know_places};
use kc_list::know_lists;
use kc_slub::know_free_lists;
use kc_view::know_values;

/// Does nothing. Each word that shows why something of an object can't be told stands in the dump, at the place that is shown. An object that
/// is told is one of its slab and has the byte, and what is told of it as free or used is so by the slab's own list.
pub fn know_objects()
    ensures stand { ObjectsStand }
    ensures hold { ObjectsHold }
{
    know_places();
    know_numbers();
    know_values();
    know_lists();
    know_free_lists();
}
