// What the definitions of walks say, for a reader to believe and a caller to learn.
ghost use Rattle.kc_slub.specs.Laws.{CachePlacesStand, CachesAreWalked, FreeListsAreChains, FreeListsAreWalked, FreePlacesStand};

use kc_found::{know_numbers, know_places};
use kc_list::know_lists;
use kc_view::know_values;

/// Does nothing. A finite list of objects that makes up a free list is what its walk gives, and a walk without a
/// violation gives such a list. A free list is a chain, whose sites each take a word of the memory. The places that a
/// violation shows are true of the dump, where those of the slab's own pointer are.
pub fn know_free_lists()
    ensures walked { FreeListsAreWalked }
    ensures chains { FreeListsAreChains }
    ensures places { FreePlacesStand }
{
    know_numbers();
}

/// Does nothing. The slabs of a cache that meets what is written of it are what its walk gives, and a walk without a
/// violation gives such slabs. The places that a violation shows are true of the dump.
pub fn know_caches()
    ensures walked { CachesAreWalked }
    ensures places { CachePlacesStand }
{
    know_lists();
    know_places();
    know_numbers();
    know_values();
}
