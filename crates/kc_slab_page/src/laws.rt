// What the definitions say.
ghost use Rattle.kc_slab_page.specs.Laws.{GuardsAreKept, SlabsStand, WholeSlabs};

use kc_found::{know_numbers, know_places};
use kc_guard::know_guards;
use kc_list::know_lists;
use kc_slub::know_free_lists;
use kc_view::know_values;

/// Does nothing. A slab that is whole has a finite free list, of as many of its objects as aren't in use; where it is told that the bytes that
/// slub_debug keeps at its objects were looked at, each is what it has to be; and each word that shows what a slab breaks stands in the dump,
/// at the place that is shown.
pub fn know_slab_pages()
    ensures whole { WholeSlabs }
    ensures kept { GuardsAreKept }
    ensures stand { SlabsStand }
{
    know_places();
    know_numbers();
    know_values();
    know_lists();
    know_free_lists();
    know_guards();
}
