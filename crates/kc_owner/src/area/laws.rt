// What the definitions say.
ghost use Rattle.kc_owner.specs.Area.Laws.{ModulesHold, ProcessorsHold, StacksHold};

/// Does nothing. A module, a processor or a task that is told of an address is one of the kernel's, and has the byte by its own words.
pub fn know_areas()
    ensures modules { ModulesHold }
    ensures processors { ProcessorsHold }
    ensures stacks { StacksHold }
{}
