// What the definitions say.
ghost use Rattle.kc_slabs.specs.Laws.{ShownStand, SoundIsOfAll};

use kc_found::know_places;
use kc_list::know_lists;
use kc_slab_scan::{know_cpus, know_scans};

/// Does nothing. Each word that is shown stands in the dump, at the place that is shown; and where slabs are sound, the page of each frame is
/// no slab of the caches, or a whole one.
pub fn know_slabs()
    ensures stand { ShownStand }
    ensures sound { SoundIsOfAll }
{
    know_places();
    know_lists();
    know_scans();
    know_cpus();
}
