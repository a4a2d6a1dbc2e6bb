// What the definitions of walks say, for a reader to believe and a caller to learn.
ghost use Rattle.kc_list.specs.Laws.{HashChainsAreWalked, HashPlacesStand, RingPlacesStand, RingsAreWalked};

use kc_found::know_places;

/// Does nothing. A finite list of nodes that makes up a ring, or a hash chain, is what its walk gives, and a walk
/// without a violation gives such a list. The places that a violation shows are true of the dump.
pub fn know_lists()
    ensures rings { RingsAreWalked }
    ensures hash_chains { HashChainsAreWalked }
    ensures ring_places { RingPlacesStand }
    ensures hash_places { HashPlacesStand }
{
    know_places();
}
