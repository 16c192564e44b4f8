//! The pages of a site: the results of its crawl, its files, its documents and its aliases.
ghost use Rattle.std.specs.Prelude.{◌≡◌, IfOk, IfSome, OnOk, bytes_eq, option_and_then, option_map, slice_get};
ghost use Rattle.site_check.specs.Documents.{AreInOrder, AreNumbers, AreSearchable, IsDocumentAt, PushesNumber, alias_at, at_url, document_of, found_at, found_of, kept_of, led_to, own_at, own_url, redirect_at, result_with};
ghost use Rattle.site_files.specs.Files.{url_of};

use crawl_keys::CanonUrl;
use crawl_pages::{NoMemory, Page, PageResult};
use document_links::{PageAnchors, Target};
use site_files::{Alias, SiteFiles};
use std::alloc::Global;

/// The results of a crawl of a site, and its files.
#[derive(Clone, Copy)]
pub(crate) struct Site<'p, 'f> {
    pub(crate) pages: Pages<'p>,
    pub(crate) files: &'f SiteFiles<'f>,
}

/// The results of a crawl, the anchors of the site's documents, and the aliases of the site, in the order of their URLs.
#[derive(Clone, Copy)]
pub(crate) struct Pages<'a> {
    pub(crate) results: &'a [PageResult],
    pub(crate) anchors: &'a [PageAnchors],
    pub(crate) aliases: &'a [Alias],
    /// For each page of the site, the number of the document with the same URL, if there is one.
    pub(crate) documents: &'a [Option<usize>],
}

/// For each page of a site, the number of the document with the same URL. Both are in the order of their URLs, and are read once.
pub(crate) fn documents_of(
    alloc: Global,
    files: &SiteFiles<'_>,
    anchors: &[PageAnchors],
) -> Result<Vec<Option<usize>>, NoMemory>
    ensures { IfOk result (λ all. AreNumbers files.now anchors.now all.items) }
{
    let mut all = Vec::new(alloc);
    let mut next: usize = 0;
    for number in 0..files.page_count() {
        next = push_number(files, anchors, number, next, &mut all)?;
    }
    Ok(all)
}

/// Appends the number of the document with the URL of this page. Returns the number of the first document from `from` on whose URL is not
/// before that of the page.
fn push_number(
    files: &SiteFiles<'_>,
    anchors: &[PageAnchors],
    page: usize,
    from: usize,
    all: &mut Vec<Option<usize>>,
) -> Result<usize, NoMemory>
    ensures { OnOk result (PushesNumber files.now anchors.now page all.old.items all.new.items) }
{
    match files.url(page) {
        Some(url) => {
            let next = next_document(anchors, from, url.as_str());
            let found = number_at(anchors, next, url.as_str());
            all.push(found)?;
            Ok(next)
        }
        None => {
            all.push(None)?;
            Ok(from)
        }
    }
}

/// The number of the first document from this one on whose URL is not before this one.
fn next_document(anchors: &[PageAnchors], from: usize, url: &str) -> usize {
    let (_, following) = anchors.split_at(from.min(anchors.len()));
    let passed = following
        .iter()
        .position(|page| page.url.as_str() >= url)
        .unwrap_or(following.len());
    from.saturating_add(passed)
}

/// The number of this document, if it has this URL.
fn number_at(anchors: &[PageAnchors], number: usize, url: &str) -> Option<usize>
    ensures { IfSome result (IsDocumentAt anchors.now url.now) }
{
    match anchors.get(number) {
        Some(page) => {
            if has_url(page, url) {
                Some(number)
            } else {
                None
            }
        }
        None => None,
    }
}

/// Whether a document has this URL.
fn has_url(page: &PageAnchors, url: &str) -> bool
    ensures { result ≡ bytes_eq page.now.url url.now }
{
    page.url.as_str() == url
}

/// A document by one of its URLs: its own, or an alias.
#[derive(Clone, Copy)]
pub(crate) struct DocumentUrl<'a> {
    pub(crate) url: &'a CanonUrl,
    /// The number of the document.
    pub(crate) number: usize,
    pub(crate) document: &'a PageAnchors,
}

impl<'a> Pages<'a> {
    /// The document that a link leads to, directly or by one redirect.
    pub(crate) fn find_target(
        &self,
        files: &SiteFiles<'_>,
        target: &Target,
    ) -> Option<DocumentUrl<'a>>
        ensures { AreSearchable files.now self.now → option_map found_of result ≡ document_of self.now.anchors.now self.now.aliases.now files.now self.now.results.now target.now }
    {
        match target {
            Target::Page(number) => match self.documents.get(*number) {
                Some(Some(document)) => self.document(*document),
                _ => self.find_page(files, *number),
            },
            Target::Other(url) => self.find(url.as_str()),
        }
    }

    /// The document that the URL of a page leads to, directly or by one redirect.
    fn find_page(&self, files: &SiteFiles<'_>, number: usize) -> Option<DocumentUrl<'a>>
        ensures { AreInOrder self.now.anchors.now self.now.aliases.now self.now.results.now → option_map found_of result ≡ option_and_then (led_to self.now.anchors.now self.now.aliases.now self.now.results.now) (url_of files.now number) }
    {
        match files.url(number) {
            Some(url) => self.find(url.as_str()),
            None => None,
        }
    }

    /// The document that a URL leads to, directly or by one redirect.
    fn find(&self, url: &str) -> Option<DocumentUrl<'a>>
        ensures { AreInOrder self.now.anchors.now self.now.aliases.now self.now.results.now → option_map found_of result ≡ led_to self.now.anchors.now self.now.aliases.now self.now.results.now url.now }
    {
        match self.find_document(url) {
            Some(found) => Some(found),
            None => self.find_moved(url),
        }
    }

    /// The document at the URL to which the page at this URL moved.
    fn find_moved(&self, url: &str) -> Option<DocumentUrl<'a>>
        ensures { AreInOrder self.now.anchors.now self.now.aliases.now self.now.results.now → option_map found_of result ≡ option_and_then (found_at self.now.anchors.now self.now.aliases.now) (redirect_at self.now.results.now url.now) }
    {
        match &self.find_result(url)?.page {
            Page::Moved { to: Some(to) } => self.find_document(to.as_str()),
            _ => None,
        }
    }

    /// The result with this URL.
    fn find_result(&self, url: &str) -> Option<&'a PageResult>
        ensures { AreInOrder self.now.anchors.now self.now.aliases.now self.now.results.now → option_map (λ r. r.now) result ≡ result_with self.now.results.now url.now }
    {
        let results = self.results;
        match results.binary_search_by(|one| one.url.as_str().cmp(url)) {
            Ok(number) => results.get(number),
            Err(_) => None,
        }
    }

    /// The document with this URL or this alias.
    fn find_document(&self, url: &str) -> Option<DocumentUrl<'a>>
        ensures { AreInOrder self.now.anchors.now self.now.aliases.now self.now.results.now → option_map found_of result ≡ found_at self.now.anchors.now self.now.aliases.now url.now }
    {
        match self.find_own(url) {
            Some(found) => Some(found),
            None => self.find_other(url),
        }
    }

    /// The document with this alias.
    fn find_other(&self, url: &str) -> Option<DocumentUrl<'a>>
        ensures { AreInOrder self.now.anchors.now self.now.aliases.now self.now.results.now → option_map found_of result ≡ option_map (at_url url.now) (option_and_then (own_at self.now.anchors.now) (own_url self.now.aliases.now url.now)) }
    {
        let alias = self.find_alias(url)?;
        let own = self.find_own(alias.own.as_str())?;
        Some(DocumentUrl {
            url: &alias.url,
            number: own.number,
            document: own.document,
        })
    }

    /// The alias with this URL.
    fn find_alias(&self, url: &str) -> Option<&'a Alias>
        ensures { AreInOrder self.now.anchors.now self.now.aliases.now self.now.results.now → option_map (λ a. a.now) result ≡ alias_at self.now.aliases.now url.now }
    {
        let aliases = self.aliases;
        match aliases.binary_search_by(|alias| alias.url.as_str().cmp(url)) {
            Ok(number) => aliases.get(number),
            Err(_) => None,
        }
    }

    /// The document with this URL as its own.
    fn find_own(&self, url: &str) -> Option<DocumentUrl<'a>>
        ensures { AreInOrder self.now.anchors.now self.now.aliases.now self.now.results.now → option_map found_of result ≡ option_map (at_url url.now) (own_at self.now.anchors.now url.now) }
    {
        let anchors = self.anchors;
        match anchors.binary_search_by(|page| page.url.as_str().cmp(url)) {
            Ok(number) => self.document(number),
            Err(_) => None,
        }
    }

    /// The document with this number, by its own URL.
    fn document(&self, number: usize) -> Option<DocumentUrl<'a>>
        ensures { option_map found_of result ≡ option_map (λ d. at_url d.url d) (slice_get self.now.anchors.now number) }
    {
        let anchors = self.anchors;
        match anchors.get(number) {
            Some(document) => Some(DocumentUrl {
                url: &document.url,
                number,
                document,
            }),
            None => None,
        }
    }

    /// The anchors of a result's page, if it was found and is a document.
    pub(crate) fn anchors_of(&self, one: &PageResult) -> Option<&'a PageAnchors>
        ensures { AreInOrder self.now.anchors.now self.now.aliases.now self.now.results.now → option_map (λ page. page.now) result ≡ kept_of self.now.anchors.now one.now }
    {
        if !one.page.is_found() {
            return None;
        }
        match self.find_own(one.url.as_str()) {
            Some(own) => Some(own.document),
            None => None,
        }
    }
}
