// A law of joined types, for a caller to learn. The function does nothing.
ghost use Rattle.kc_split.specs.Laws.{GoOn};

/// The type numbers and the names of a kernel stay what they are, and a module's go on from them.
pub fn know_join()
    ensures { GoOn }
{}
