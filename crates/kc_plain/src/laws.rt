// What the definitions say of the place of each page. These functions do nothing.
ghost use Rattle.kc_plain.specs.Pages.{HeadStands, PageStands, PagesEnd};

/// Does nothing. A reader learns from it that a page stands in the plain core file where its number says, after the head.
pub fn know_pages()
    ensures page { PageStands }
    ensures end { PagesEnd }
{}

/// Does nothing. A reader learns from it that the head stands before the pages.
pub fn know_head()
    ensures { HeadStands }
{}
