// What the nodes of a ring are.
ghost use Rattle.kc_owner.specs.RingLaws.{BrokenRingsPart, RingNodesOnce, WholeRingsStay};

use kc_list::know_lists;

/// Does nothing. The nodes of a whole ring are those that its walk gives, and no others; those of a broken one are linked from its head by
/// `next`, and then by `prev`, each with the node before it. None stands there twice.
pub fn know_rings()
    ensures whole { WholeRingsStay }
    ensures broken { BrokenRingsPart }
    ensures once { RingNodesOnce }
{
    know_lists();
}
