// What the definition of a plan says, for a caller to learn.
ghost use Rattle.kc_plan.specs.Laws.{PlansAgree};

/// Does nothing. A plan needs no more of the symbols than which addresses each name has.
pub fn know_plans()
    ensures { PlansAgree }
{}
