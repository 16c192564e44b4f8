//! The URLs at which the crawl of a check starts.
ghost use Rattle.std.specs.Prelude.{◌≡◌, ◌++◌, ◌∷◌, [], true, IfErr, IfOk, OnOk, map, string_bytes, Ok, false};
ghost use Rattle.crawl_keys.specs.CanonicalText.{resolve};
ghost use Rattle.mercator_site.specs.Errors.{is_unfinished};
ghost use Rattle.mercator_site.specs.Maps.{has_page};
ghost use Rattle.mercator_site.specs.Own.{AreOwn};
ghost use Rattle.mercator_site.specs.Starts.{documents_in, if_own, is_left_out, starts};
ghost use Rattle.saved_site.specs.Linked.{page_at};
ghost use Rattle.site_files.specs.Below.{begins};
ghost use Rattle.site_files.specs.Own.{start_at};

use crate::error::FolderError;
use crate::own::is_own;
use crawl_keys::{CanonUrl, KeyError, resolve};
use crawl_pages::Fetch;
use saved_site::LinkedPages;
use shown_text::shown;
use site_files::SiteFiles;
use std::alloc::{AllocError, Global};

/// Checks, before any page is made, that there is a page at each link. Without links, there must be a page at the top, or a document
/// if all are checked.
///
/// # Errors
/// `BadSeed`, `NoStart`, `NoDocuments`, `NoMemory`.
pub(crate) fn check_starts(
    alloc: Global,
    files: &SiteFiles<'_>,
    links: &[String],
    reachable: bool,
) -> Result<(), FolderError>
    ensures plain { IfErr result (λ error. is_unfinished error ≡ false) }
{
    let top = files.top_url();
    check_links(alloc, top, files, links)?;
    if !links.is_empty() || files.find(top.as_str()).is_some() {
        Ok(())
    } else if reachable {
        Err(FolderError::NoStart(String::from_str(alloc, "./")?))
    } else if has_document(files) {
        Ok(())
    } else {
        Err(FolderError::NoDocuments)
    }
}

/// Checks that there is a page at each link.
fn check_links(
    alloc: Global,
    top: &CanonUrl,
    files: &SiteFiles<'_>,
    links: &[String],
) -> Result<(), FolderError>
    ensures plain { IfErr result (λ error. is_unfinished error ≡ false) }
{
    for link in links {
        let url = seed_of(alloc, top, link.as_str())?;
        if !has_page(alloc, files, &url)? {
            return Err(FolderError::NoStart(shown(alloc, link.as_str())?));
        }
    }
    Ok(())
}

/// Whether a server returns a page of these files for a URL, or a redirect.
#[tactic(auto, using(crate::proofs::Served::found_served))]
pub(crate) fn has_page(
    alloc: Global,
    files: &SiteFiles<'_>,
    url: &CanonUrl,
) -> Result<bool, AllocError>
    ensures { IfOk result (λ is. is ≡ has_page files.now url.now) }
{
    Ok(files.served(alloc, url)?.is_some())
}

/// The URLs at which the search starts: those of the links, or the top's own if there are no links. The top is left out if it has no
/// page and all documents are checked.
pub(crate) fn starts(
    alloc: Global,
    pages: &LinkedPages,
    top: &CanonUrl,
    links: &[String],
    reachable: bool,
) -> Result<Vec<CanonUrl>, FolderError>
    ensures begun { IfOk result (λ seeds. map (resolve top.now) (starts (is_left_out reachable (page_at pages.now top.now)) (map string_bytes links.now)) ≡ map Ok seeds.items) }
    ensures own { IfOk result (λ seeds. AreOwn top.now seeds.items) }
    ensures plain { IfErr result (λ error. is_unfinished error ≡ false) }
{
    match links.split_first() {
        Some(_) => seeds_of(alloc, top, links),
        None => top_only(alloc, pages, top, reachable),
    }
}

/// The URL of the top, unless the top is left out.
fn top_only(
    alloc: Global,
    pages: &LinkedPages,
    top: &CanonUrl,
    reachable: bool,
) -> Result<Vec<CanonUrl>, FolderError>
    ensures resolved { IfOk result (λ seeds. map (resolve top.now) (starts (is_left_out reachable (page_at pages.now top.now)) []) ≡ map Ok seeds.items) }
    ensures own { IfOk result (λ seeds. AreOwn top.now seeds.items) }
    ensures plain { IfErr result (λ error. is_unfinished error ≡ false) }
{
    if is_left_out(alloc, pages, top, reachable)? {
        return Ok(Vec::new(alloc));
    }
    let seed = seed_of(alloc, top, "")?;
    Ok(list_of(alloc, seed)?)
}

/// The list of one URL.
fn list_of(alloc: Global, url: CanonUrl) -> Result<Vec<CanonUrl>, AllocError>
    ensures { IfOk result (λ urls. urls.items ≡ url ∷ []) }
{
    let mut urls = Vec::new(alloc);
    urls.push(url)?;
    Ok(urls)
}

/// Whether the top is left out.
fn is_left_out(
    alloc: Global,
    pages: &LinkedPages,
    top: &CanonUrl,
    reachable: bool,
) -> Result<bool, AllocError>
    ensures { IfOk result (λ is. is ≡ is_left_out reachable (page_at pages.now top.now)) }
{
    match pages.fetch(alloc, top) {
        Ok(page) => Ok(!reachable && page.is_missing()),
        Err(_) => Err(AllocError),
    }
}

/// The URLs of the links, in their order. Fails with `BadSeed` if one is not a URL below the top.
fn seeds_of(alloc: Global, top: &CanonUrl, links: &[String]) -> Result<Vec<CanonUrl>, FolderError>
    ensures resolved { IfOk result (λ seeds. map (resolve top.now) (map string_bytes links.now) ≡ map Ok seeds.items) }
    ensures own { IfOk result (λ seeds. AreOwn top.now seeds.items) }
    ensures plain { IfErr result (λ error. is_unfinished error ≡ false) }
{
    let mut seeds = Vec::new(alloc);
    for link in links {
        seeds.push(seed_of(alloc, top, link.as_str())?)?;
    }
    Ok(seeds)
}

/// The URL of a link on the top. It must be below the top.
fn seed_of(alloc: Global, top: &CanonUrl, link: &str) -> Result<CanonUrl, FolderError>
    ensures resolved { IfOk result (λ seed. resolve top.now link.now ≡ Ok seed) }
    ensures own { IfOk result (λ seed. begins top.now seed ≡ true) }
    ensures plain { IfErr result (λ error. is_unfinished error ≡ false) }
{
    match resolve(alloc, top, link) {
        Ok(url) if is_own(top, &url) => Ok(url),
        Err(KeyError::NoMemory) => Err(FolderError::NoMemory),
        _ => Err(FolderError::BadSeed),
    }
}

/// Appends the own URLs of the documents, sitemaps and feeds at which a check starts, unless only what can be reached is checked.
pub(crate) fn push_documents(
    top: &CanonUrl,
    files: &SiteFiles<'_>,
    reachable: bool,
    urls: &mut Vec<CanonUrl>,
) -> Result<(), AllocError>
    ensures { OnOk result (urls.new.items ≡ urls.old.items ++ documents_in reachable files.now top.now) }
{
    if reachable {
        return Ok(());
    }
    'pages: for number in 0..files.page_count() {
        push_document(top, files, number, urls)?;
    }
    Ok(())
}

/// Appends the URL of the page with this number, if a check starts there. All such URLs are below the top, which is tested because no clause
/// says so.
fn push_document(
    top: &CanonUrl,
    files: &SiteFiles<'_>,
    number: usize,
    urls: &mut Vec<CanonUrl>,
) -> Result<(), AllocError>
    ensures { OnOk result (urls.new.items ≡ urls.old.items ++ if_own top.now (start_at files.now number)) }
{
    let Some(url) = files.start(number) else {
        return Ok(());
    };
    if !is_own(top, url) {
        return Ok(());
    }
    urls.push(url.clone()?)?;
    Ok(())
}

/// Whether the check starts at a document.
fn has_document(files: &SiteFiles<'_>) -> bool {
    for number in 0..files.page_count() {
        if files.start(number).is_some() {
            return true;
        }
    }
    false
}
