//! Sources of pages that keep state between fetches.
ghost use Rattle.std.specs.Prelude.{◌≡◌, IfOk};

use crate::fetch::{Fetch, FetchError};
use crate::page::Page;
use crawl_keys::CanonUrl;
use std::alloc::Global;

/// A source of pages that keeps state in a session, so that later fetches are faster. Each worker owns its session, so the session
/// needs no lock. A fetch returns the page that the URL means, whatever the session contains.
///
/// Every [`Fetch`] is a `SessionFetch` whose session is empty.
pub trait SessionFetch {
    ghost use Rattle.std.specs.Prelude.{ℕ, List};
    ghost use Rattle.crawl_pages.specs.declared.page.Page.{Page};

    /// What is kept between fetches.
    type Session: Drop + Send;

    /// The page of each canonical URL.
    ghost meaning: { Self → List ℕ → Page };

    /// Whether the session is one of this source.
    ghost is_of: { Self → Self.Session → Type 0 };

    /// Returns an empty session. `among` is the number of sessions: the more there are, the less each should store.
    fn open_session(&self, alloc: Global, among: u32) -> Self::Session
        ensures { is_of self.now result };

    /// Prepares for fetches of the URLs with these hashes, which are likely to come next. The source may read now what the fetches
    /// will read, so that all reads wait for memory at the same time. The result is a sum over what was read, so that the compiler
    /// does not remove the reads; it has no other meaning.
    fn expect(&self, _hashes: &[u64]) -> u64 {
        0
    }

    /// Returns the page at the URL.
    ///
    /// # Errors
    /// `NoMemory` if memory ran out, `Failed` if the source returned nothing. The session stays valid for the source.
    fn fetch_in(
        &self,
        alloc: Global,
        session: &mut Self::Session,
        url: &CanonUrl,
    ) -> Result<Page, FetchError>
        requires { is_of self.now session.old }
        ensures meaning { IfOk result (λ page. page ≡ meaning self.now url.now) }
        ensures right { is_of self.now session.new };
}

impl<F: Fetch> SessionFetch for F {
    type Session = ();

    ghost meaning = { λ source. F.Fetch.meaning source };

    ghost is_of = { λ _ _. Unit {0} };

    fn open_session(&self, _alloc: Global, _among: u32) {}

    fn fetch_in(
        &self,
        alloc: Global,
        _session: &mut (),
        url: &CanonUrl,
    ) -> Result<Page, FetchError> {
        self.fetch(alloc, url)
    }
}
