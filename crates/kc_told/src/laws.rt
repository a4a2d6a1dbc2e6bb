// What the definitions say.
ghost use Rattle.kc_told.specs.TextLaws.{TextsAreOneLine, TextsReadBack};

/// Does nothing. The text of bytes, as that of a word, tells all of these but NULs, and no line ends in it.
pub fn know_texts()
    ensures back { TextsReadBack }
    ensures one_line { TextsAreOneLine }
{}
