// What the definitions of walks say, for a reader to believe and a caller to learn.
ghost use Rattle.kc_rb.specs.Laws.{KeysRise, NullsAgree, TreeOrViolation, TreePlacesStand, TreesAreWalked};
ghost use Rattle.kc_rb.specs.Nodes.{NodesAreGood};

use kc_found::{know_numbers, know_places};

/// Does nothing. A finite tree of nodes that makes up a red-black tree is what its walk gives, from left to right, and
/// a walk without a violation gives such a tree; so there is such a tree or a violation, and never both. Its keys are in
/// order, and all its nulls have one number of black nodes above them. The places that a violation shows are true of the
/// dump.
pub fn know_trees()
    ensures trees { TreesAreWalked }
    ensures either { TreeOrViolation }
    ensures keys { KeysRise }
    ensures nulls { NullsAgree }
    ensures places { TreePlacesStand }
{
    know_places();
    know_numbers();
}

/// Does nothing. No rule is broken at the node of a position exactly where its words and its key can be read, it names its
/// parent, a red parent has a black child, and its key is within the bounds.
pub fn know_nodes()
    ensures { NodesAreGood }
{}
