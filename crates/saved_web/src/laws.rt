//! Laws of saved webs. A law is a function that does nothing; its clauses are the theorem.
ghost use Rattle.std.specs.Prelude.{◌≡◌, ℕ, false, List, Some};
ghost use Rattle.crawl_pages.specs.Pages.{is_moved};
ghost use Rattle.saved_pages.specs.SavedWeb.{page_of, lines_after, up_to_page, IsUnmixed};
ghost use Rattle.saved_pages.specs.WebErrors.{is_second, IsSound};

/// In a saved web of version 1 no page has moved.
#[tactic(auto, using(crate::proofs::MovedPages::none_moved))]
pub fn none_moved_in_version_1()
    ensures { (all : List (List ℕ)) (url : List ℕ) → IsSound all → is_second all ≡ false → is_moved (page_of all url) ≡ false }
{}

/// A page of a saved web has links and no `moved` line, or one `moved` line and no link.
#[tactic(auto, using(crate::proofs::MovedPages::unmixed))]
pub fn none_mixed()
    ensures { (all : List (List ℕ)) (url : List ℕ) (following : List (List ℕ)) → IsSound all → lines_after all url ≡ Some following → IsUnmixed (up_to_page following) }
{}
