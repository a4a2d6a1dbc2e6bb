// What the test of lists says, for a reader to believe and a caller to learn.
ghost use Rattle.kc_by_lists.specs.Pids.Laws.{FewPidNodes, PidListsAreKept, PidListsAreOne, PidListsAreUsedUp, PidListsGive, PidsHaveLists};

use kc_list::{know_listed_rings, know_lists};
use kc_pid::know_pids;
use kc_steps::{know_given, know_hash_chains};
use kc_xa::know_entries;

/// Does nothing. Lists pass the test of a table of process ids exactly where they are the entries of its xarray and then the lists that
/// the walk of its process ids keeps, so no two do; the process ids of its walk are the pointers among those entries, whatever audit
/// asks.
pub fn know_pid_lists()
    ensures used { PidListsAreUsedUp }
    ensures lists { PidListsGive }
    ensures pids { PidsHaveLists }
    ensures kept { PidListsAreKept }
    ensures one { PidListsAreOne }
    ensures few { FewPidNodes }
{
    know_lists();
    know_listed_rings();
    know_hash_chains();
    know_given();
    know_entries();
    know_pids();
}
