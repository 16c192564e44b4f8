//! A saved web as a source of a crawl.
ghost use Rattle.std.specs.Prelude.{◌≡◌, IfOk, IfErr, IfSome};
ghost use Rattle.saved_web.specs.KnownPages.{page_at};

use crate::ahead::Ahead;
use crate::link_cache::LinkCache;
use crate::long::{LEAST, long_page};
use crate::web::SavedWeb;
use crawl_keys::CanonUrl;
use crawl_pages::{FetchError, Page, SessionFetch};
use std::alloc::Global;
use std::thread::Threads;

/// A saved web as a source of pages, with a session that stores resolved links. If all pages have the same host, threads resolve
/// their links ahead. Otherwise, threads resolve the links of a long page when it is fetched.
#[derive(Drop)]
pub struct WebInThreads<'w, 'a, R: Threads> {
    web: &'w SavedWeb<'a>,
    rt: &'w R,
    /// Whether some page is long, and threads may resolve its links.
    long: bool,
    ahead: Ahead<'w, 'a>,
    ghost own: { ahead ≡ web.now.pages },
}

impl<'w, 'a, R: Threads + Sync> WebInThreads<'w, 'a, R> {
    /// Makes a source of the pages of this saved web. Threads resolve links only if `in_threads` is `true`.
    pub fn new(
        rt: &'w R,
        alloc: Global,
        web: &'w SavedWeb<'a>,
        in_threads: bool,
    ) -> WebInThreads<'w, 'a, R>
        ensures { result.web.now ≡ web.now }
    {
        let pages = &web.pages;
        WebInThreads {
            web,
            rt,
            long: in_threads && pages.has_long_page(LEAST),
            ahead: Ahead::new(rt, alloc, pages, in_threads),
        }
    }
}

impl<'w, 'a, R: Threads> WebInThreads<'w, 'a, R> {
    /// Returns the page at the URL if it is long and threads resolved its links.
    fn long_page(&self, alloc: Global, url: &CanonUrl) -> Option<Page>
        ensures { IfSome result (λ page. page ≡ page_at self.now.web.now url.now) }
    {
        if !self.long {
            return None;
        }
        let page = self.web.pages.long(url, LEAST)?;
        long_page(self.rt, alloc, url, page.following())
    }
}

impl<'w, 'a, R: Threads> SessionFetch for WebInThreads<'w, 'a, R> {
    ghost use Rattle.saved_web.specs.KnownPages.{page_at};

    type Session = LinkCache<'a>;

    ghost meaning = { λ source. page_at source.web.now };

    ghost is_of = { λ _ _. Unit {0} };

    fn open_session(&self, alloc: Global, among: u32) -> LinkCache<'a> {
        LinkCache::new(alloc, among)
    }

    fn expect(&self, hashes: &[u64]) -> u64 {
        self.web.pages.read_ahead(hashes)
    }

    fn fetch_in(
        &self,
        alloc: Global,
        session: &mut LinkCache<'a>,
        url: &CanonUrl,
    ) -> Result<Page, FetchError>
        ensures meaning { IfOk result (λ page. page ≡ page_at self.now.web.now url.now) }
        // Its only error is `NoMemory`.
        ensures refused { IfErr result (λ e. e ≡ FetchError.NoMemory) }
    {
        if let Some(page) = self.ahead.page(alloc, url) {
            return Ok(page);
        }
        match self.long_page(alloc, url) {
            Some(page) => Ok(page),
            None => self.web.page(alloc, session, url),
        }
    }
}
