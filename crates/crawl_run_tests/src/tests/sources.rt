//! Sources of pages.
ghost use Rattle.std.specs.Prelude.{if◌then◌else◌, Some, bytes_eq};
ghost use Rattle.crawl_pages.specs.declared.page.Page.TheVariants.{Moved, Missing};
ghost use Rattle.saved_web.specs.KnownPages.{page_at};

use crawl_keys::CanonUrl;
use crawl_pages::{Fetch, FetchError, Page};
use saved_web::SavedWeb;
use std::alloc::Global;
use std::hint;
use std::sync::atomic::{AtomicU64, Ordering};

/// One page that has moved, and nothing else.
#[derive(Drop)]
pub struct OneMoved {
    pub from: CanonUrl,
    pub to: CanonUrl,
}

impl Fetch for OneMoved {
    ghost meaning = { λ source url. if bytes_eq source.from url then Moved (Some source.to) else Missing };

    fn fetch(&self, _alloc: Global, url: &CanonUrl) -> Result<Page, FetchError> {
        if self.from != *url {
            return Ok(Page::Missing);
        }
        match self.to.copy() {
            Ok(to) => Ok(Page::Moved { to: Some(to) }),
            Err(_) => Err(FetchError::NoMemory),
        }
    }
}

/// Which fetches fail.
#[derive(Clone, Copy)]
pub enum Fails {
    None,
    All,
    EachThird,
    /// Each that begins when no other has begun, unless another begins soon.
    Lonely,
    /// Those of the URLs of this host.
    OfHost(&'static str),
}

/// The pages of a saved web, and the number of fetches that have begun.
#[derive(Drop)]
pub struct Counting<'a> {
    web: SavedWeb<'a>,
    begun: AtomicU64,
    fails: Fails,
}

impl<'a> Counting<'a> {
    /// Reads the saved web. No fetch has begun.
    pub fn new(alloc: Global, web: &'a str, fails: Fails) -> Option<Counting<'a>> {
        Some(Counting {
            web: SavedWeb::read(alloc, web.as_bytes()).ok()?,
            begun: AtomicU64::new(0),
            fails,
        })
    }

    /// Returns how many fetches have begun.
    pub fn begun(&self) -> u64 {
        self.begun.load(Ordering::SeqCst)
    }

    // Whether the fetch of this URL fails, which begins after this number of others.
    fn fails(&self, before: u64, url: &CanonUrl) -> bool {
        match self.fails {
            Fails::None => false,
            Fails::All => true,
            Fails::EachThird => before % 3 == 2,
            Fails::Lonely => !self.have_begun(2),
            Fails::OfHost(host) => url.host_key() == host,
        }
    }

    // Whether this number of fetches have begun, now or within many checks.
    fn have_begun(&self, count: u64) -> bool {
        for _ in 0..CHECKS {
            if self.begun() >= count {
                return true;
            }
            hint::spin_loop();
        }
        false
    }
}

impl Fetch for Counting<'_> {
    ghost meaning = { λ source. page_at source.web };

    fn fetch(&self, alloc: Global, url: &CanonUrl) -> Result<Page, FetchError> {
        let before = self.begun.fetch_add(1, Ordering::SeqCst);
        if self.fails(before, url) {
            return Err(FetchError::Failed);
        }
        self.web.fetch(alloc, url)
    }
}

// How often a fetch checks whether another one has begun, before it gives up.
const CHECKS: u64 = 200_000_000;
