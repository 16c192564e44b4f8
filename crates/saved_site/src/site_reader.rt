//! The files of a site, and what reads them.
ghost use Rattle.std.specs.Prelude.{◌≡◌};
ghost use Rattle.saved_site.specs.Served.{IsServedPage};
ghost use Rattle.saved_site.specs.declared.page.SitePage.{SitePage};

use crate::page_sink::PageSink;
use site_files::{FileBytes, SiteFiles};
use std::marker::PhantomData;

/// The files of a site, and what reads them. The sinks take each page that a server returns for its URL.
#[derive(Drop)]
pub(crate) struct SiteReader<'a, 'f, B: FileBytes, S: PageSink> {
    pub(crate) files: &'a SiteFiles<'f>,
    pub(crate) bytes: &'a B,
    sinks: PhantomData<S>,
    ghost taken: { (page : SitePage) → IsServedPage files.now (B.reads bytes.now) page → ∥ S.serves page ∥₁ },
}

impl<'a, 'f, B: FileBytes, S: PageSink> SiteReader<'a, 'f, B, S> {
    /// These files, which are read by this.
    pub(crate) fn new(files: &'a SiteFiles<'f>, bytes: &'a B) -> SiteReader<'a, 'f, B, S>
        requires { (page : SitePage) → IsServedPage files.now (B.reads bytes.now) page → S.serves page }
        ensures files { result.files.now ≡ files.now }
    {
        SiteReader {
            files,
            bytes,
            sinks: PhantomData,
        }
    }
}
