// What the tests of trees by lists say, for a reader to believe and a caller to learn.
ghost use Rattle.kc_rb.specs.Listed.Laws.{OnlyTreesPass, TreesPass, TreesPassOnce};

use crate::laws::know_nodes;

/// Does nothing. A list passes the test of a red-black tree exactly where it is that of one, and of a tree no other list does.
pub fn know_listed_trees()
    ensures trees { OnlyTreesPass }
    ensures all_trees { TreesPass }
    ensures one_tree { TreesPassOnce }
{
    know_nodes();
}
