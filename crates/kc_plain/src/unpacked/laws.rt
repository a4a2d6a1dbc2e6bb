// What the definition of a page says. The function does nothing.
ghost use Rattle.kc_plain.specs.Unpack.Laws.{PagesAreWhole};

/// Does nothing. A reader learns from it that each page has 4096 bytes, whatever the dump's bytes are.
pub fn know_page()
    ensures { PagesAreWhole }
{}
