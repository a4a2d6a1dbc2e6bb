// What the definitions say.
ghost use Rattle.kc_match.specs.Laws.{CountsAddUp, OutcomesStand, TypesStand};
ghost use Rattle.kc_match.specs.Spelling.{FactsAreSpelled};

/// Does nothing. A line states something exactly where it spells it, and each such line is counted once; where one is
/// the same, the files tell the number that it states, and where one differs, they tell another and not that one. The types are
/// said to be the same exactly where the dump holds these bytes; where they differ, it is at the first byte that does.
pub fn know_matches()
    ensures spelled { FactsAreSpelled }
    ensures counts { CountsAddUp }
    ensures stand { OutcomesStand }
    ensures types { TypesStand }
{}
