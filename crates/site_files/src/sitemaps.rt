//! The sitemaps of a site.
ghost use Rattle.std.specs.Prelude.{◌≡◌, option_map};
ghost use Rattle.site_files.specs.Files.{site_file};
ghost use Rattle.site_files.specs.Kinds.{is_named_sitemap, is_unnamed};
ghost use Rattle.site_files.specs.Own.{document_with, may_be_sitemap, sitemap_at};

use crate::files::{SiteFile, SiteFiles};
use crate::kinds::{FileKind, is_feed_kind, is_sitemap, is_start, last_name};
use crate::spellings::before_query;
use crawl_keys::CanonUrl;

impl<'a> SiteFiles<'a> {
    /// The URL of the page with this number, if it is the own URL of a sitemap that is known by its name: `sitemap*.xml` or
    /// `sitemap*.txt`.
    pub fn sitemap(&self, number: usize) -> Option<&CanonUrl>
        ensures { option_map (λ url. url.now) result ≡ sitemap_at self.now number }
    {
        let url = self.start(number)?;
        let file = self.document(number)?;
        if is_named_sitemap(file.kind, url.as_str()) {
            Some(url)
        } else {
            None
        }
    }

    /// Whether the page at this URL is a sitemap if another sitemap names it: an XML file or a list of URLs whose name is neither
    /// that of a sitemap nor a usual one of a feed.
    pub fn may_be_sitemap(&self, url: &CanonUrl) -> bool
        ensures { result ≡ may_be_sitemap self.now url.now }
    {
        match self.document_with(url.as_str()) {
            Some(file) => is_unnamed(file.kind, url.as_str()),
            None => false,
        }
    }

    /// The file of the page at a URL, if it can have links.
    fn document_with(&self, url: &str) -> Option<SiteFile<'a>>
        ensures { option_map (λ file. site_file file.index file.kind file.name.now) result ≡ document_with self.now url.now }
    {
        let index = self.file_of(url)?;
        self.document_of(index)
    }
}

/// Whether a file of this kind, whose own URL this is, is a sitemap by its name.
fn is_named_sitemap(kind: FileKind, url: &str) -> bool
    ensures { result ≡ is_named_sitemap kind url.now }
{
    is_feed_kind(kind) && is_sitemap(last_name(before_query(url).as_bytes()))
}

/// Whether the name of a file of this kind does not say whether it is a sitemap or a feed.
fn is_unnamed(kind: FileKind, url: &str) -> bool
    ensures { result ≡ is_unnamed kind url.now }
{
    is_feed_kind(kind) && !is_start(before_query(url).as_bytes())
}
