//! The URLs that the sitemaps of a site list.
ghost use Rattle.std.specs.Prelude.{◌≡◌, ◌==◌, ◌++◌, filter, IfOk, length, not, OnOk};
ghost use Rattle.std.specs.Option.{option_to_list};
ghost use Rattle.saved_site.specs.Linked.{page_at};
ghost use Rattle.saved_site.specs.Sitemaps.{AreListed, links_at, links_in, listed_with, named_sitemaps};
ghost use Rattle.site_files.specs.Own.{may_be_sitemap, sitemap_at};

use crate::linked::LinkedPages;
use crawl_keys::CanonUrl;
use crawl_pages::{Fetch, Page};
use site_files::SiteFiles;
use std::alloc::{AllocError, Global};

/// What the sitemaps of a site list.
#[derive(Drop)]
pub(crate) struct ListedUrls {
    /// Whether a sitemap is known by its name.
    pub(crate) has_sitemap: bool,
    pub(crate) urls: Vec<CanonUrl>,
}

impl ListedUrls {
    /// The URLs that the sitemaps of a site with these pages list.
    pub(crate) fn new(
        alloc: Global,
        files: &SiteFiles<'_>,
        pages: &LinkedPages,
    ) -> Result<ListedUrls, AllocError>
        ensures urls { IfOk result (λ listed. AreListed files.now pages.now listed.urls.items) }
        ensures named { IfOk result (λ listed. listed.has_sitemap ≡ not (length (named_sitemaps files.now) == 0)) }
    {
        let named = named_sitemaps(alloc, files)?;
        let urls = listed_urls(alloc, files, pages, named.as_slice())?;
        Ok(ListedUrls {
            has_sitemap: !named.is_empty(),
            urls,
        })
    }
}

/// Returns the URLs of the sitemaps of a site that are known by their names.
#[tactic(auto, using(crate::proofs::ListedUrls::named_more))]
fn named_sitemaps(alloc: Global, files: &SiteFiles<'_>) -> Result<Vec<CanonUrl>, AllocError>
    ensures { IfOk result (λ urls. urls.items ≡ named_sitemaps files.now) }
{
    let mut urls = Vec::new(alloc);
    'pages: for number in 0..files.page_count() {
        push_sitemap(files, number, &mut urls)?;
    }
    Ok(urls)
}

/// Adds the URL of the page with this number, if it is a sitemap by its name.
fn push_sitemap(
    files: &SiteFiles<'_>,
    number: usize,
    urls: &mut Vec<CanonUrl>,
) -> Result<(), AllocError>
    ensures { OnOk result (urls.new.items ≡ urls.old.items ++ option_to_list (sitemap_at files.now number)) }
{
    if let Some(url) = files.sitemap(number) {
        urls.push(url.clone()?)?;
    }
    Ok(())
}

/// Returns the URLs that these sitemaps of a site list, and those that the sitemaps among them list, in order.
fn listed_urls(
    alloc: Global,
    files: &SiteFiles<'_>,
    pages: &LinkedPages,
    named: &[CanonUrl],
) -> Result<Vec<CanonUrl>, AllocError>
    ensures { named.now ≡ named_sitemaps files.now → IfOk result (λ urls. AreListed files.now pages.now urls.items) }
{
    let mut urls = listed_with(alloc, files, pages, named)?;
    urls.sort_by(|a: &CanonUrl, b: &CanonUrl| a.as_str().cmp(b.as_str()))?;
    Ok(urls)
}

/// The same, sitemap by sitemap.
fn listed_with(
    alloc: Global,
    files: &SiteFiles<'_>,
    pages: &LinkedPages,
    named: &[CanonUrl],
) -> Result<Vec<CanonUrl>, AllocError>
    ensures { IfOk result (λ urls. urls.items ≡ listed_with files.now pages.now (links_at pages.now named.now)) }
{
    let mut urls = links_at(alloc, pages, named)?;
    let others = sitemaps_among(alloc, files, urls.as_slice())?;
    let mut more = links_at(alloc, pages, others.as_slice())?;
    urls.append(&mut more)?;
    Ok(urls)
}

/// Returns the URLs whose pages are sitemaps if another sitemap names them.
fn sitemaps_among(
    alloc: Global,
    files: &SiteFiles<'_>,
    urls: &[CanonUrl],
) -> Result<Vec<CanonUrl>, AllocError>
    ensures { IfOk result (λ among. among.items ≡ filter (may_be_sitemap files.now) urls.now) }
{
    let mut among = Vec::new(alloc);
    'urls: for url in urls {
        if files.may_be_sitemap(url) {
            among.push(url.clone()?)?;
        }
    }
    Ok(among)
}

/// Returns the links of the pages at these URLs.
fn links_at(
    alloc: Global,
    pages: &LinkedPages,
    urls: &[CanonUrl],
) -> Result<Vec<CanonUrl>, AllocError>
    ensures { IfOk result (λ links. links.items ≡ links_at pages.now urls.now) }
{
    let mut links = Vec::new(alloc);
    'urls: for url in urls {
        push_links(alloc, pages, url, &mut links)?;
    }
    Ok(links)
}

/// Adds the links of the page at a URL.
fn push_links(
    alloc: Global,
    pages: &LinkedPages,
    url: &CanonUrl,
    links: &mut Vec<CanonUrl>,
) -> Result<(), AllocError>
    ensures { OnOk result (links.new.items ≡ links.old.items ++ links_in (page_at pages.now url.now)) }
{
    match pages.fetch(alloc, url) {
        Ok(page) => push_all(page, links),
        Err(_) => Err(AllocError),
    }
}

/// Adds the links of a page.
fn push_all(page: Page, links: &mut Vec<CanonUrl>) -> Result<(), AllocError>
    ensures { OnOk result (links.new.items ≡ links.old.items ++ links_in page) }
{
    match page {
        Page::Found { links: found, .. } => {
            let mut found: Vec<CanonUrl> = found.into();
            links.append(&mut found)
        }
        Page::Moved { .. } => Ok(()),
        Page::Missing => Ok(()),
    }
}
