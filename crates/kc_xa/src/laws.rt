// What the definitions of walks say, for a reader to believe and a caller to learn.
ghost use Rattle.kc_xa.specs.Laws.{IndexesRise, XarrayOrViolation, XarrayPlacesStand, XarraysAreWalked};
ghost use Rattle.kc_xa.specs.Nodes.{EntriesAreGood, HeadsAreGood, NodesAreGood};

use kc_found::know_places;

/// Does nothing. A finite tree of nodes that makes up an xarray is what its walk gives, with rising indexes, and a walk
/// without a violation gives such a tree's pointers; so there is such a tree or a violation, and never both. The places
/// that a violation shows are true of the dump.
pub fn know_xarrays()
    ensures walked { XarraysAreWalked }
    ensures either { XarrayOrViolation }
    ensures places { XarrayPlacesStand }
    ensures rise { IndexesRise }
{
    know_places();
}

/// Does nothing. No trial of a node, of a slot's entry or of the head's breaks a rule exactly where the definition of a finite
/// xarray has it so.
pub fn know_nodes()
    ensures nodes { NodesAreGood }
    ensures entries { EntriesAreGood }
    ensures heads { HeadsAreGood }
{}
