// What the definition of process ids says, for a reader to believe and a caller to learn.
ghost use Rattle.kc_pid.specs.Laws.{PidPlacesStand, PidsAreWalked};

use kc_list::know_lists;
use kc_memory::know_places;
use kc_view::know_values;
use kc_xa::know_xarrays;

/// Does nothing. The process ids that make up a table are what its walk gives, and a walk without a violation gives such process ids.
/// The words that a violation shows are true of the dump.
pub fn know_pids()
    ensures walked { PidsAreWalked }
    ensures places { PidPlacesStand }
{
    know_lists();
    know_xarrays();
    know_places();
    know_values();
}
