//! The settings of a check.
ghost use Rattle.std.specs.Prelude.{◌≡◌, true};
ghost use Rattle.site_check.specs.Reported.{reports_all};

use crawl_keys::CanonUrl;
use crawl_pages::PageResult;
use document_links::{LinkPlaces, PageAnchors};
use site_files::Alias;

/// A folder in which links that lead out of the site are looked up.
#[derive(Clone, Copy)]
pub struct MapName<'a> {
    /// The URL of the folder, which ends in a slash and begins the URLs that are looked up there.
    pub prefix: &'a str,
    /// The folder as it is reported.
    pub folder: &'a str,
}

/// Which findings a check reports.
#[derive(Clone, Copy)]
pub struct Scope {
    /// Whether links are reported that are no URL, have an unknown scheme or name a local file.
    pub invalid: bool,
}

impl Default for Scope {
    ghost is_default = { λ scope. reports_all scope ≡ true };

    /// All findings.
    fn default() -> Scope {
        Scope { invalid: true }
    }
}

impl Scope {
    /// Whether all findings are reported.
    pub fn reports_all(self) -> bool
        ensures { result ≡ reports_all self }
    {
        self.invalid
    }
}

/// The settings of a check, and what is known of the site.
#[derive(Clone, Copy)]
pub struct CheckInput<'a> {
    /// The prefix that is removed from URLs that begin with it.
    pub front: &'a str,
    /// The ignore list. An entry with a `: ` matches locations: it has a file and an entry for targets. An entry with a `*` is a pattern for
    /// a whole target; any other matches the targets that begin with it.
    pub ignores: &'a [String],
    /// The aliases of the site, in the order of their URLs.
    pub aliases: &'a [Alias],
    /// The own URLs of the site's HTML and XHTML documents, in the order of their URLs. The other pages at own URLs are files.
    pub documents: &'a [CanonUrl],
    /// The anchors of the site's documents, in the order of their URLs. If there are none, no missing anchor is reported.
    pub anchors: &'a [PageAnchors],
    /// The indices of the links in the site's documents and their invalid links, in the order of the documents' URLs. If there are none,
    /// links to missing pages are reported without locations.
    pub places: &'a [LinkPlaces],
    /// Which findings are reported.
    pub scope: Scope,
    /// All results of the crawl, below the top or not. Those of the site's host that are not below it are reported.
    pub found: &'a [PageResult],
    /// Whether the URL of the folder is not known, so that a URL above the top is shown as a path from the top.
    pub rooted: bool,
    /// The folders in which the links that lead out of the site were looked up. A URL that is under several belongs to the one with the
    /// longest prefix. The results of pages that are there are not among `found`.
    pub maps: &'a [MapName<'a>],
    /// The results of a search from the site's starts, if the files that it does not reach are listed.
    pub reached: Option<&'a [PageResult]>,
    /// The URLs that sitemaps list, if the documents that none lists are reported.
    pub listed: Option<&'a [CanonUrl]>,
}
