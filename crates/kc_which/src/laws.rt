// What the definitions of the rings say, for a reader to believe and a caller to learn.
ghost use Rattle.kc_which.specs.Laws.{CacheRingsAreTold, TaskRingsAreTold};

/// Does nothing. Where the first violation of a task list or of a cache is of a rule that it breaks at such rings alone, the ring is
/// told, and the walk of this ring finds the same.
pub fn know_rings()
    ensures tasks { TaskRingsAreTold }
    ensures caches { CacheRingsAreTold }
{}
