//! The pages at which a check starts.
ghost use Rattle.std.specs.Prelude.{◌≡◌, option_map};
ghost use Rattle.site_files.specs.Kinds.{starts_at};
ghost use Rattle.site_files.specs.Own.{is_own_url, start_at};

use crate::files::SiteFiles;
use crate::kinds::{FileKind, is_feed_kind, is_page, is_start};
use crate::spellings::before_query;
use crawl_keys::CanonUrl;

impl SiteFiles<'_> {
    /// The URL of the page with this number, if it is the own URL of a file at which a check starts: an HTML or XHTML document, or
    /// a sitemap or feed that has a usual name of one.
    pub fn start(&self, number: usize) -> Option<&CanonUrl>
        ensures { option_map (λ url. url.now) result ≡ start_at self.now number }
    {
        let url = self.url(number)?;
        let file = self.document(number)?;
        if starts_at(file.kind, url.as_str()) && self.is_own_url(number, url) {
            Some(url)
        } else {
            None
        }
    }

    /// Whether this is the own URL of the file of the page with this number.
    fn is_own_url(&self, number: usize, url: &CanonUrl) -> bool
        ensures { result ≡ is_own_url self.now number url.now }
    {
        match self.own_url(number) {
            Some(own) => own.as_str() == url.as_str(),
            None => false,
        }
    }
}

/// Whether a check starts at a file of this kind, whose own URL this is.
fn starts_at(kind: FileKind, url: &str) -> bool
    ensures { result ≡ starts_at kind url.now }
{
    is_page(kind) || is_feed_kind(kind) && is_start(before_query(url).as_bytes())
}
