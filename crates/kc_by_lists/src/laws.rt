// What the tests of lists say, for a reader to believe and a caller to learn.
ghost use Rattle.kc_by_lists.specs.Laws.{CacheListsAreKept, CacheListsAreTested, CacheListsAreUsedUp, CacheListsGive, CachesHaveLists, ChainsAreTested, FewCacheNodes, FewTaskNodes, TaskListsAreKept, TaskListsAreTested, TaskListsAreUsedUp, TaskListsGive, TasksHaveLists};

use kc_list::{know_listed_rings, know_lists};
use kc_slub::{know_caches, know_free_lists};
use kc_steps::{know_chains, know_given};
use kc_task::know_tasks;

/// Does nothing. A list passes the test of a ring or of a free list exactly where it is the one of the walk. Lists pass the test of a
/// slab cache exactly where they are those that its walk keeps; the slabs of the walk are the nodes that they give, whatever audit
/// asks. So it is with tasks.
pub fn know_given_lists()
    ensures chains { ChainsAreTested }
    ensures tested_caches { CacheListsAreTested }
    ensures tested_tasks { TaskListsAreTested }
    ensures used_caches { CacheListsAreUsedUp }
    ensures cache_lists { CacheListsGive }
    ensures caches { CachesHaveLists }
    ensures kept_caches { CacheListsAreKept }
    ensures few_slabs { FewCacheNodes }
    ensures used_tasks { TaskListsAreUsedUp }
    ensures task_lists { TaskListsGive }
    ensures tasks { TasksHaveLists }
    ensures kept_tasks { TaskListsAreKept }
    ensures few_threads { FewTaskNodes }
{
    know_lists();
    know_listed_rings();
    know_free_lists();
    know_chains();
    know_given();
    know_caches();
    know_tasks();
}
