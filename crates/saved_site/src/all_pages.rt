//! Whether each page of a site was made.
ghost use Rattle.std.specs.Prelude.{◌≡◌, false, true};
ghost use Rattle.saved_site.specs.AllPages.{HasAllPages, LacksPage, has_page};

use crate::linked::LinkedPages;
use document_links::{LINK_FRONT, fits};
use site_files::SiteFiles;

/// Whether each page of the site is among these, unless its URL does not fit in a line. It is among those of
/// [`site_pages`](crate::site_pages), but no clause says so: call this for a proof.
pub fn has_all_pages(files: &SiteFiles<'_>, pages: &LinkedPages) -> bool
    ensures all { result ≡ true → HasAllPages files.now pages.now }
    ensures lacks { result ≡ false → LacksPage files.now pages.now }
{
    'pages: for number in 0..files.page_count() {
        if !has_page(files, pages, number) {
            return false;
        }
    }
    true
}

/// Whether the page of the site with this number is among these, or its URL does not fit in a line.
fn has_page(files: &SiteFiles<'_>, pages: &LinkedPages, number: usize) -> bool
    ensures { result ≡ has_page files.now pages.now number }
{
    match files.url(number) {
        Some(url) => !fits(LINK_FRONT, url.as_str().as_bytes()) || pages.has(url),
        None => true,
    }
}
