//! The location of a site: the URL of its folder.
ghost use Rattle.std.specs.Prelude.{◌≡◌, ◌++◌, ◌∷◌, ℕ, List, [], IfErr, IfOk, None, Ok, false, map, string_bytes, true, option_map};
ghost use Rattle.std.specs.List.{list_any};
ghost use Rattle.crawl_keys.specs.CanonicalText.{canonical};
ghost use Rattle.percent_encoding.specs.Percent.{percent_decode};
ghost use Rattle.site_files.specs.Below.{IsTop, is_mark, without_slashes};
ghost use Rattle.site_files.specs.Files.{IsOfUrl};
ghost use Rattle.site_files.specs.Links.{IsLinked, names_in, urls_in};
ghost use Rattle.site_files.specs.Pages.{link_urls};
ghost use Rattle.site_files.specs.Server.{key_with, url_of};
ghost use Rattle.site_files.specs.Skipped.{AreSkipped, link_below, link_held};

use crate::alias::{FolderLink, LinkedFolders};
use crate::below::is_slashed;
use crate::error::SiteError;
use crate::escapes::{push_name, push_query, push_respelled};
use crate::skipped::{SkippedLink, SkippedLinks};
use crawl_keys::{CanonUrl, KeyError, canonical};
use std::alloc::{AllocError, Global};

/// The location of a site: its host, and the URL of its top, which is that of the folder.
#[derive(Drop)]
pub(crate) struct Site {
    /// The scheme and the authority of all URLs.
    pub(crate) origin: String,
    /// The URL of the top, with a slash at its end.
    pub(crate) top: String,
    /// The same as that of a page.
    pub(crate) top_url: CanonUrl,
}

impl Site {
    /// The site whose top has this URL.
    pub(crate) fn at(alloc: Global, base: &str) -> Result<Site, SiteError>
        ensures error { IfErr result IsOfUrl }
        ensures top { IfOk result (λ site. IsTop base.now (string_bytes site.top)) }
        ensures url { IfOk result (λ site. site.top_url ≡ string_bytes site.top) }
    {
        let page = url_at(alloc, base)?;
        let Some((origin, path)) = split_origin(page.as_str()) else {
            return Err(SiteError::BadBase);
        };
        let top = top_text(alloc, origin, path)?;
        site_with(alloc, &page, origin, top)
    }

    /// The URL of a path below the top, with a query.
    pub(crate) fn url_of(&self, path: &[u8], query: Option<&str>) -> Result<String, AllocError>
        ensures { IfOk result (λ url. string_bytes url ≡ url_of (string_bytes self.now.top) (key_with (option_map (λ q. q.now) query.entry) path.now)) }
    {
        let alloc = *self.top.allocator();
        let mut url = self.top.clone()?;
        push_name(path, &mut url)?;
        if let Some(query) = query {
            push_query(alloc, query.as_bytes(), &mut url)?;
        }
        Ok(url)
    }

    /// The table of folders that are listed by another name, by their URLs.
    pub(crate) fn linked_folders(&self, links: &[FolderLink]) -> Result<LinkedFolders, AllocError>
        ensures { IfOk result (IsLinked (string_bytes self.now.top) links.now) }
    {
        LinkedFolders::new(self.link_urls(links)?)
    }

    /// The URLs of folders that are listed by another name.
    fn link_urls(&self, links: &[FolderLink]) -> Result<Vec<FolderLink>, AllocError>
        ensures { IfOk result (λ urls. urls_in urls.items ≡ map (link_urls (string_bytes self.now.top)) (names_in links.now)) }
    {
        let mut urls = Vec::new(*self.top.allocator());
        'links: for link in links {
            let name = self.url_of(link.name.as_bytes(), None)?;
            let own = self.url_of(link.own.as_bytes(), None)?;
            urls.push(FolderLink { name, own })?;
        }
        Ok(urls)
    }

    /// The table of symbolic links that are not followed, by their URLs.
    pub(crate) fn skipped_links(&self, links: &[SkippedLink]) -> Result<SkippedLinks, AllocError>
        ensures { IfOk result (AreSkipped (string_bytes self.now.top) links.now) }
    {
        SkippedLinks::new(self.skipped_urls(links)?)
    }

    /// Such links with their URLs in place of their names.
    fn skipped_urls(&self, links: &[SkippedLink]) -> Result<Vec<SkippedLink>, AllocError>
        ensures { IfOk result (λ urls. map link_held urls.items ≡ map (link_below (string_bytes self.now.top)) links.now) }
    {
        let mut urls = Vec::new(*self.top.allocator());
        'links: for link in links {
            urls.push(self.skipped_url(link)?)?;
        }
        Ok(urls)
    }

    /// Such a link with its URL in place of its name.
    fn skipped_url(&self, link: &SkippedLink) -> Result<SkippedLink, AllocError>
        ensures { IfOk result (λ url. link_held url ≡ link_below (string_bytes self.now.top) link.now) }
    {
        let name = self.url_of(link.name.as_bytes(), None)?;
        Ok(SkippedLink {
            name,
            is_outside: link.is_outside,
        })
    }
}

/// The canonical URL of a text.
pub(crate) fn url_at(alloc: Global, text: &str) -> Result<CanonUrl, SiteError>
    ensures error { IfErr result IsOfUrl }
    ensures url { IfOk result (λ url. canonical text.now ≡ Ok url) }
{
    match canonical(alloc, text) {
        Ok(url) => Ok(url),
        Err(KeyError::NoMemory) => Err(SiteError::NoMemory),
        Err(_) => Err(SiteError::BadBase),
    }
}

/// The text of the top of a site with this origin and path.
fn top_text(alloc: Global, origin: &str, path: &str) -> Result<String, AllocError> {
    let mut top = String::from_str(alloc, origin)?;
    push_respelled(alloc, path.trim_end_matches('/').as_bytes(), &mut top)?;
    top.push('/')?;
    Ok(top)
}

/// The site at a URL with this origin, whose top has this text.
fn site_with(alloc: Global, page: &CanonUrl, origin: &str, top: String) -> Result<Site, SiteError>
    ensures error { IfErr result IsOfUrl }
    ensures top { IfOk result (λ site. (base : List ℕ) → canonical base ≡ Ok page.now → IsTop base (string_bytes site.top)) }
    ensures url { IfOk result (λ site. site.top_url ≡ string_bytes site.top) }
{
    let top_url = top_at(alloc, page, top.as_str())?;
    let origin = String::from_str(alloc, origin)?;
    Ok(Site {
        origin,
        top,
        top_url,
    })
}

/// The URL of the top with this text of a site at a URL, which has no query.
fn top_at(alloc: Global, page: &CanonUrl, text: &str) -> Result<CanonUrl, SiteError>
    ensures error { IfErr result IsOfUrl }
    ensures top { IfOk result (λ _. (base : List ℕ) → canonical base ≡ Ok page.now → IsTop base text.now) }
    ensures url { IfOk result (λ url. url ≡ text.now) }
{
    let url = url_at(alloc, text)?;
    let is_top = is_top(alloc, page.as_str(), &url, text)?;
    if is_top {
        Ok(url)
    } else {
        Err(SiteError::BadBase)
    }
}

/// Whether a text is its own URL, and with its escapes read another one, which has no query, with one slash at its end. This holds
/// if the text was made of that URL; it is tested because the contract promises it.
fn is_top(alloc: Global, page: &str, url: &CanonUrl, text: &str) -> Result<bool, AllocError>
    ensures own { IfOk result (λ is. is ≡ true → url.now ≡ text.now) }
    ensures plain { IfOk result (λ is. is ≡ true → list_any is_mark page.now ≡ false) }
    ensures slashed { IfOk result (λ is. is ≡ true → percent_decode text.now ≡ percent_decode (without_slashes page.now) ++ 47 ∷ []) }
{
    if !is_same(url, text) || has_query(page) {
        return Ok(false);
    }
    is_slashed(alloc, page, text)
}

/// Whether the URL has a `?`, even one with nothing after it.
fn has_query(url: &str) -> bool
    ensures { result ≡ list_any is_mark url.now }
{
    url.as_bytes().contains(&b'?')
}

/// Whether the text is exactly that of the URL.
fn is_same(url: &CanonUrl, text: &str) -> bool
    ensures { result ≡ true → url.now ≡ text.now }
{
    url.as_str() == text
}

/// The scheme and authority of a canonical URL, and what follows them.
fn split_origin(url: &str) -> Option<(&str, &str)> {
    let (scheme, rest) = url.split_once("://")?;
    let slash = rest.find('/')?;
    let path = rest.get(slash..)?;
    let origin = url.get(..url.len().checked_sub(path.len())?)?;
    if scheme.is_empty() {
        None
    } else {
        Some((origin, path))
    }
}
