// What the test of an xarray says, for a reader to believe and a caller to learn.
ghost use Rattle.kc_xa.specs.Listed.Laws.{ItemsAreWalked, OnlyWalksPass, OnlyXarraysPass, PointersAreFew, WalksPass, XarraysPass, XarraysPassOnce};

use crate::{know_nodes, know_xarrays};

/// Does nothing. Numbers pass the test of an xarray exactly where they are the entries of one, whose walk meets the pointers among
/// them; and each walk without a violation has such numbers, and no others.
pub fn know_entries()
    ensures xarrays { OnlyXarraysPass }
    ensures all_xarrays { XarraysPass }
    ensures walks { OnlyWalksPass }
    ensures all_walks { WalksPass }
    ensures few { PointersAreFew }
    ensures one_xarray { XarraysPassOnce }
    ensures items { ItemsAreWalked }
{
    know_nodes();
    know_xarrays();
}
