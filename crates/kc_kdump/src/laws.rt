// What the definitions say of the runs. The function does nothing.
ghost use Rattle.kc_kdump.specs.Laws.{CutsAreFirst, PagesAreMarked};

/// Does nothing. A reader learns from it that the pages in a dump are those of the page frames that the second bitmap marks, in their order,
/// and of an incomplete dump those of the first of them.
pub fn know_runs()
    ensures marked { PagesAreMarked }
    ensures cut { CutsAreFirst }
{}
