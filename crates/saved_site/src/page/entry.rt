//! The anchors of a page, with its URL. They have a file of their own for the same reason as the lines of a page.
ghost use Rattle.std.specs.Prelude.{◌≡◌};
ghost use Rattle.saved_site.specs.Served.{entry_of};

use super::{SiteAnchors, SitePage};
use document_links::PageAnchors;

impl SitePage {
    /// Returns the anchors of the page and the targets of its links to anchors, with its URL, if they are known.
    pub(crate) fn into_anchors(self) -> Option<PageAnchors>
        ensures { result ≡ entry_of self }
    {
        let SitePage { url, anchors, .. } = self;
        match anchors {
            Some(SiteAnchors { anchors, targets }) => Some(PageAnchors {
                url,
                anchors,
                targets,
            }),
            None => None,
        }
    }
}
