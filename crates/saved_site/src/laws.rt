//! What holds of the saved web of a site's files.
ghost use Rattle.std.specs.Prelude.{◌≡◌, ℕ, List, Some, false, true};
ghost use Rattle.std.specs.Str.Lines.{lines};
ghost use Rattle.crawl_pages.specs.Pages.{is_missing};
ghost use Rattle.crawl_pages.specs.declared.page.Page.TheVariants as page;
ghost use Rattle.document_links.specs.Texts.{fits};
ghost use Rattle.saved_pages.specs.SavedWeb.{page_of};
ghost use Rattle.saved_site.specs.AllPages.{IsWebOf};
ghost use Rattle.site_files.specs.Files.{url_of};
ghost use Rattle.site_files.specs.Pages.{Missing};
ghost use Rattle.site_files.specs.Serving.{served_at};
ghost use Rattle.site_files.specs.declared.files.SiteFiles.{SiteFiles};

use site_files::FileBytes;

/// If a server returns nothing for a URL, the saved web has no page there. So no page is invented, and each link to such a URL is found
/// to be broken.
pub fn no_page_is_invented<B: FileBytes>(bytes: &B)
    ensures { (files : SiteFiles) (web url : List ℕ) → IsWebOf files (B.reads bytes.now) web → served_at files url ≡ Missing → page_of (lines web) url ≡ page.Missing }
{}

/// At the URL of each page of the files, the saved web has a page, if the URL fits in a line. So no page is left out, and no link to
/// such a URL is found to be broken.
pub fn no_page_is_left_out<B: FileBytes>(bytes: &B)
    ensures { (files : SiteFiles) (web url : List ℕ) (number : ℕ) → IsWebOf files (B.reads bytes.now) web → url_of files number ≡ Some url → fits 5 url ≡ true → is_missing (page_of (lines web) url) ≡ false }
{}
