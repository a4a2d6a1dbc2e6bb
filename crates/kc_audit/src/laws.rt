// Which audits of a plan a root audit reaches.
ghost use Rattle.kc_audit.specs.Reached.{ReachedByPaths};

/// Does nothing. A root audit reaches exactly the audits that a path of `each` leads to, itself included, in the plan's order.
pub fn know_reached()
    ensures { ReachedByPaths }
{}
