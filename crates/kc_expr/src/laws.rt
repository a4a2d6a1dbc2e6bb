// What holds of the definitions.
ghost use Rattle.kc_expr.specs.Laws.{TokensAreRead, ReadTokens};
ghost use Rattle.kc_expr.specs.Spelling.{ChecksAreSpelled, FaultsAreLongest, TextsAreOfOne};

/// Does nothing, and tells a proof that tokens are read by the grammar: each tree of it with at most 16 parentheses
/// and `!` open at once is read from its tokens, and the tree that tokens give is such a one, and they are its tokens.
/// So no two trees have the same tokens.
pub fn know_trees()
    ensures read { TokensAreRead }
    ensures taken { ReadTokens }
{}

/// Does nothing, and tells a proof that `parsed` is the grammar over bytes: a text has a tree exactly where it is that
/// tree's text, it has one tree at most, and a fault's place is the length of the longest front that begins the text
/// of some tree.
pub fn know_checks()
    ensures spelled { ChecksAreSpelled }
    ensures place { FaultsAreLongest }
    ensures one { TextsAreOfOne }
{}
