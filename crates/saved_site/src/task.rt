//! A page that is to be made.
ghost use Rattle.std.specs.Prelude.{◌≡◌, true, IfOk};
ghost use Rattle.site_files.specs.Entries.{HasResponse};
ghost use Rattle.site_files.specs.Serving.{served_at};
ghost use Rattle.saved_site.specs.TaskPages.{kind_at, kind_of};

use crawl_keys::CanonUrl;
use site_files::{SiteFile, SiteFiles};
use std::alloc::{AllocError, Global};

/// A page that is to be made: its URL, and the number of the site's page that a server returns for it.
#[derive(Drop)]
pub(crate) struct Task {
    pub(crate) url: CanonUrl,
    pub(crate) entry: usize,
}

/// What a server returns for a URL.
#[derive(Clone, Copy)]
pub(crate) enum Response<'a> {
    /// A file at its own URL. If the file can have links, they are those of the page.
    Own(Option<SiteFile<'a>>),
    /// A file, whose own URL is this one.
    Alias(&'a CanonUrl),
    /// A redirect to this URL.
    Moved(&'a str),
}

impl Task {
    /// Whether a server returns the page with this number for the URL. It does for each task, but this is checked, because a contract
    /// promises it.
    pub(crate) fn is_served(&self, alloc: Global, files: &SiteFiles<'_>) -> Result<bool, AllocError>
        ensures { IfOk result (λ is. is ≡ true → HasResponse files.now.pages (served_at files.now self.now.url) self.now.entry) }
    {
        match files.served(alloc, &self.url)? {
            Some(number) => Ok(number == self.entry),
            None => Ok(false),
        }
    }

    /// What a server returns for the URL of the page.
    pub(crate) fn response<'a>(&self, files: &'a SiteFiles<'_>) -> Response<'a>
        ensures { kind_of result ≡ kind_at files.now self.now.entry self.now.url }
    {
        if let Some(target) = files.moved_to(self.entry) {
            return Response::Moved(target);
        }
        match files.own_url(self.entry) {
            Some(own) if *own != self.url => Response::Alias(own),
            _ => Response::Own(files.document(self.entry)),
        }
    }
}
