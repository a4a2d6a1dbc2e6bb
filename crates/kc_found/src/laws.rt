// A law of the bound on steps, for a reader to believe and a caller to learn. The function does nothing.
ghost use Rattle.kc_found.specs.Counts.{StepsAreFew};

/// In a memory of W words a walk within its steps takes at most 12 W + 768, since each word takes at most 6.
pub fn know_steps()
    ensures { StepsAreFew }
{}
