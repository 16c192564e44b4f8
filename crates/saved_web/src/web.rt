//! A saved web: pages and their links, as lines of a text file.
ghost use Rattle.std.specs.Prelude.{◌≡◌, ℕ, List, Ok, Err, IfOk, IfErr, IsUtf8};
ghost use Rattle.crawl_keys.specs.Outcome.{Gives};
ghost use Rattle.std.specs.Str.Lines.{lines};
ghost use Rattle.saved_pages.specs.SavedWeb.{page_of, page_urls};
ghost use Rattle.saved_web.specs.KnownPages.{page_at, urls_of};
ghost use Rattle.saved_web.specs.Reading.{AreRead};
ghost use Rattle.saved_pages.specs.WebErrors.{IsSound, IsWebError, IsWebRefusal};

use crate::link_cache::LinkCache;
use crate::links::page_after;
use crate::reader::pages_after;
use crate::threads::pages_in_threads;
use crate::web_pages::WebPages;
use crawl_keys::{Base, CanonUrl};
use crawl_pages::{Fetch, FetchError, NoMemory, Page};
use saved_lines::{Above, check_line};
use saved_pages::{Pages, WebError};
use simdutf8::compat::from_utf8;
use std::alloc::Global;
use std::thread::Threads;
use text_lines::first_line;

/// The pages of a saved web, each with its links. It borrows the bytes from which it was read.
#[derive(Drop)]
pub struct SavedWeb<'a> {
    pub(crate) pages: WebPages<'a>,
}

impl<'a> SavedWeb<'a> {
    /// Reads a saved web from its bytes.
    ///
    /// # Errors
    /// The first error, in the order of [`WebError`], of the first line that fails a check. `NoMemory` if memory ran out.
    #[tactic(auto, using(std::proofs::lemmas::Result::err_from_is_err_and, crate::proofs::LeastLine::only_memory, crate::proofs::LeastLine::no_error))]
    pub fn read(alloc: Global, bytes: &'a [u8]) -> Result<SavedWeb<'a>, WebError>
        ensures sound { IfOk result (λ web. IsSound (lines bytes.now)) }
        // At every URL it has the page that the lines define.
        ensures pages { IfOk result (λ web. (url : List ℕ) → page_at web url ≡ page_of (lines bytes.now) url) }
        ensures urls { IfOk result (λ web. urls_of web ≡ page_urls (lines bytes.now)) }
        // An error is that of the first line that has one, unless memory ran out.
        ensures error { IfErr result (λ error. IsWebRefusal (lines bytes.now) error) }
        // Conversely, lines that pass all checks are read, and other lines are refused because of their error.
        ensures reads { IsSound (lines bytes.now) → Gives WebError.NoMemory page_at result (Ok (page_of (lines bytes.now))) }
        ensures reports { (error : WebError) → IsWebError (lines bytes.now) error → Gives WebError.NoMemory page_at result (Err error) }
    {
        let pages = known_pages(alloc, bytes)?;
        Ok(SavedWeb {
            pages: WebPages::one(alloc, pages)?,
        })
    }

    /// Reads a saved web as [`SavedWeb::read`] does, with four threads if there are enough bytes. If they have an error, one thread
    /// reads them again to find it.
    ///
    /// # Errors
    /// Those of [`SavedWeb::read`]. If a thread cannot be started, that is not an error: the thread that needs it reads its chunk.
    #[tactic(auto, using(crate::proofs::LeastLine::no_error))]
    pub fn read_in_threads<R: Threads + Sync>(
        rt: &R,
        alloc: Global,
        bytes: &'a [u8],
    ) -> Result<SavedWeb<'a>, WebError>
        ensures sound { IfOk result (λ web. IsSound (lines bytes.now)) }
        // At every URL it has the page that the lines define.
        ensures pages { IfOk result (λ web. (url : List ℕ) → page_at web url ≡ page_of (lines bytes.now) url) }
        ensures urls { IfOk result (λ web. urls_of web ≡ page_urls (lines bytes.now)) }
        // An error is that of the first line that has one, unless memory ran out.
        ensures error { IfErr result (λ error. IsWebRefusal (lines bytes.now) error) }
        // Conversely, lines that pass all checks are read, and other lines are refused because of their error.
        ensures reads { IsSound (lines bytes.now) → Gives WebError.NoMemory page_at result (Ok (page_of (lines bytes.now))) }
        ensures reports { (error : WebError) → IsWebError (lines bytes.now) error → Gives WebError.NoMemory page_at result (Err error) }
    {
        match pages_in_threads(rt, alloc, bytes) {
            Some(pages) => Ok(SavedWeb { pages }),
            None => SavedWeb::read(alloc, bytes),
        }
    }

    /// Returns the URLs of its pages, in the order of their lines.
    ///
    /// # Errors
    /// Only out of memory.
    pub fn page_urls(&self, alloc: Global) -> Result<Vec<CanonUrl>, NoMemory>
        ensures { IfOk result (λ urls. urls.items ≡ urls_of self.now) }
    {
        self.pages.urls(alloc)
    }

    /// Returns the page at the URL. Its links are looked up in the cache, and resolved if they are not there.
    pub(crate) fn page(
        &self,
        alloc: Global,
        cache: &mut LinkCache<'a>,
        url: &CanonUrl,
    ) -> Result<Page, FetchError>
        ensures meaning { IfOk result (λ page. page ≡ page_at self.now url.now) }
        // Its only error is `NoMemory`.
        ensures refused { IfErr result (λ e. e ≡ FetchError.NoMemory) }
    {
        match self.pages.get(url) {
            Some(page) => page_after(alloc, cache, Base::new(alloc, url)?, page.following()),
            None => Ok(Page::Missing),
        }
    }
}

/// Reads the pages from the lines.
fn known_pages(alloc: Global, bytes: &[u8]) -> Result<Pages<'_>, WebError>
    ensures sound { IfOk result (λ _. IsSound (lines bytes.now)) }
    ensures read { IfOk result (λ pages. AreRead (lines bytes.now) pages) }
    ensures error { IfErr result (λ error. IsWebRefusal (lines bytes.now) error) }
{
    match from_utf8(bytes) {
        Ok(text) => pages_in(alloc, text),
        Err(_) => Err(error_in(alloc, bytes)),
    }
}

/// Reads the pages from the lines of a text.
#[tactic(auto, using(crate::proofs::ReadWeb::read_sound, crate::proofs::ReadWeb::some_lines, text_lines::proofs::CutLines::nonempty, crate::proofs::ReadWeb::read_whole, crate::proofs::ReadWeb::read_refused))]
fn pages_in(alloc: Global, text: &str) -> Result<Pages<'_>, WebError>
    ensures sound { IfOk result (λ _. IsSound (lines text.now)) }
    ensures read { IfOk result (λ pages. AreRead (lines text.now) pages) }
    ensures error { IfErr result (λ error. IsWebRefusal (lines text.now) error) }
{
    if text.is_empty() {
        return Err(WebError::BadHeader);
    }
    pages_after(alloc, text, 0, Above::nothing())
}

/// Returns the error of bytes that are not UTF-8.
fn error_in(alloc: Global, bytes: &[u8]) -> WebError
    requires { ¬ (IsUtf8 bytes.now) }
    ensures { IsWebRefusal (lines bytes.now) result }
{
    let mut pages = Pages::new(alloc, 0);
    let mut rest = bytes;
    let mut number: u64 = 0;
    let mut above = Above::nothing();
    while let Some((line, more)) = first_line(rest) {
        rest = more;
        number += 1;
        match check_line(alloc, &mut pages, number, above, line) {
            Ok(next) => above = next,
            Err(error) => return error,
        }
    }
    unreachable!()
}

impl Fetch for SavedWeb<'_> {
    ghost use Rattle.saved_web.specs.KnownPages.{page_at};

    ghost meaning = { page_at };

    fn fetch(&self, alloc: Global, url: &CanonUrl) -> Result<Page, FetchError>
        ensures meaning { IfOk result (λ page. page ≡ page_at self.now url.now) }
        // Its only error is `NoMemory`.
        ensures refused { IfErr result (λ e. e ≡ FetchError.NoMemory) }
    {
        let mut cache = LinkCache::without_slots(alloc);
        self.page(alloc, &mut cache, url)
    }
}
