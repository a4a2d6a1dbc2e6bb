// What the definitions say, for a reader to believe and a caller to learn.
ghost use Rattle.kc_steps.specs.Given.{GivenFreeAreTaken, GivenHashesAreTaken, GivenRingsAreTaken};
ghost use Rattle.kc_steps.specs.Laws.{CacheListsAreTaken, CacheListsAreWalked, CachesAgree, ChainsAreKept, ChainsAreWalked, HashesAreWalked, PidListsAreBehind, PidListsAreTaken, PidListsAreWalked, PidsAgree, TaskListsAreTaken, TaskListsAreWalked, TasksAgree};

/// Does nothing. A way to come by chains that walks them gives the slabs and the tasks of the walks; to keep the lists is one, and
/// so is to walk alone. The lists of a cache and of tasks are there exactly where its walk has no violation, and are the lists that its
/// walk uses up, where it takes its chains from lists.
pub fn know_chains()
    ensures walked { ChainsAreWalked }
    ensures kept { ChainsAreKept }
    ensures caches { CachesAgree }
    ensures tasks { TasksAgree }
    ensures cache_lists { CacheListsAreWalked }
    ensures task_lists { TaskListsAreWalked }
    ensures caches_taken { CacheListsAreTaken }
    ensures tasks_taken { TaskListsAreTaken }
{}

/// Does nothing. A way to come by hash chains that walks them gives the process ids of the walks; to keep the lists is one, and so is
/// to walk alone. The lists of process ids are there exactly where their walk has no violation, and are the lists that it uses up, where
/// it takes its chains from lists.
pub fn know_hash_chains()
    ensures walked { HashesAreWalked }
    ensures pids { PidsAgree }
    ensures pid_lists { PidListsAreWalked }
    ensures pids_taken { PidListsAreTaken }
    ensures pids_behind { PidListsAreBehind }
{}

/// Does nothing. Lists that are given, where a test of each that is true exactly of its chain has to pass, are taken: they are those of
/// the walks.
pub fn know_given()
    ensures rings { GivenRingsAreTaken }
    ensures free { GivenFreeAreTaken }
    ensures hashes { GivenHashesAreTaken }
{}
