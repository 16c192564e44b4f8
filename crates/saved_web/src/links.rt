//! The links of a page of a saved web, or the URL to which it moved, read from the lines after the page's own.
ghost use Rattle.std.specs.Prelude.{◌≡◌, ◌<◌, ℕ, List, ◌∷◌, [], None, Some, length, OnOk, IfOk, IfErr, IfSome, MatchOption, count_by, is_none, filter_map, option_map};
ghost use Rattle.std.specs.Str.Lines.{lines};
ghost use Rattle.saved_web.specs.KnownLinks.{AreLinks};
ghost use Rattle.saved_pages.specs.SavedWeb.{link_texts, link_url, moved_text, found_page, page_after};
ghost use Rattle.crawl_pages.specs.declared.page.Page.TheVariants.{Moved};

use crate::folder::Folder;
use crate::known_links::{KnownLinks, copy_of};
use crate::link_cache::{LinkCache, folder_hash};
use crawl_keys::{Base, CanonUrl, is_of_folder};
use crawl_pages::{FetchError, Links, Page};
use saved_pages::{Line, LinkText, line_of};
use std::alloc::{AllocError, Global};
use std::mem;
use text_lines::first_text;

/// The number of links of a page that are not stored if it is the first page of its folder: many folders have one page with few
/// links.
const FEW_TEXTS: u64 = 8;

/// A list of at most this number of links is copied, so that it has no unused memory.
const FEW_LINKS: usize = 1_024;

/// Returns the page with this base. `following` are the lines after its own line.
pub fn page_after<'a>(
    alloc: Global,
    cache: &mut LinkCache<'a>,
    base: Base,
    following: &'a str,
) -> Result<Page, FetchError>
    ensures page { IfOk result (λ page. page ≡ page_after base (Some (lines following.now))) }
    ensures refused { IfErr result (λ e. e ≡ FetchError.NoMemory) }
{
    match moved_text(following) {
        Some(text) => moved_page(alloc, &base, text),
        None => remembering(alloc, cache, base, following),
    }
}

/// Returns the page that has moved to the URL of this text.
fn moved_page(alloc: Global, base: &Base, text: &str) -> Result<Page, FetchError>
    ensures page { IfOk result (λ page. page ≡ Moved (link_url base.now text.now)) }
    ensures refused { IfErr result (λ e. e ≡ FetchError.NoMemory) }
{
    let to = base.link(alloc, text)?;
    Ok(Page::Moved { to })
}

/// Returns the page with the links among these lines. Uses and updates the known links of its folder in the cache.
fn remembering<'a>(
    alloc: Global,
    cache: &mut LinkCache<'a>,
    base: Base,
    following: &'a str,
) -> Result<Page, FetchError>
    ensures page { IfOk result (λ page. page ≡ found_page base (link_texts (lines following.now))) }
    ensures refused { IfErr result (λ e. e ≡ FetchError.NoMemory) }
{
    let hash = folder_hash(&base);
    let mut folder = cache.take(alloc, hash, base);
    let knew = folder.len();
    let page = found_page(
        alloc,
        &mut folder,
        &mut cache.known,
        &mut cache.links,
        following,
    )?;
    cache.weigh(&folder, knew, count_of(&page));
    cache.put(alloc, hash, folder);
    Ok(page)
}

/// Returns the number of links of the page, including those that lead to no URL.
fn count_of(page: &Page) -> u64 {
    match page {
        Page::Found { links, skipped } => skipped.saturating_add(links.as_slice().len() as u64),
        Page::Moved { .. } | Page::Missing => 0,
    }
}

/// Returns the page with the links among these lines, up to the next page. They are collected in the buffer until all are resolved.
fn found_page<'a>(
    alloc: Global,
    folder: &mut Folder<'a>,
    known: &mut KnownLinks<'a>,
    buffer: &mut Vec<CanonUrl>,
    following: &'a str,
) -> Result<Page, FetchError>
    ensures page { IfOk result (λ page. page ≡ found_page folder.old (link_texts (lines following.now))) }
    ensures refused { IfErr result (λ e. e ≡ FetchError.NoMemory) }
{
    let skipped = find_links(alloc, folder, known, buffer, following)?;
    let urls = take_links(alloc, buffer)?;
    Ok(Page::Found {
        links: Links::from(urls),
        skipped,
    })
}

/// Replaces the links in the buffer by those among these lines, up to the next page. Returns the number of links that lead to no
/// URL.
#[tactic(auto, using(crate::proofs::KnownLinks::pushed_next))]
pub fn find_links<'a>(
    alloc: Global,
    folder: &mut Folder<'a>,
    known: &mut KnownLinks<'a>,
    links: &mut Vec<CanonUrl>,
    following: &'a str,
) -> Result<u64, FetchError>
    ensures links { OnOk result (links.new.items ≡ filter_map (link_url folder.old) (link_texts (lines following.now))) }
    ensures skipped { IfOk result (λ skipped. skipped ≡ count_by (λ text. is_none (link_url folder.old text)) (link_texts (lines following.now))) }
    ensures refused { IfErr result (λ e. e ≡ FetchError.NoMemory) }
{
    links.clear();
    known.clear(alloc);
    let mut skipped: u64 = 0;
    let mut rest = following;
    while let Some((text, more)) = next_link(rest) {
        rest = more;
        let before = skipped.saturating_add(links.len() as u64);
        match link_on(alloc, folder, known, text, before)? {
            Some(link) => links.push(link)?,
            None => skipped += 1,
        }
    }
    Ok(skipped)
}

/// Takes all links out of the buffer. If there are few, they are moved to a list of exactly their number; otherwise the buffer
/// itself is the list.
fn take_links(alloc: Global, buffer: &mut Vec<CanonUrl>) -> Result<Vec<CanonUrl>, AllocError>
    ensures { IfOk result (λ links. links.items ≡ buffer.old.items) }
{
    if buffer.len() > FEW_LINKS {
        return Ok(mem::replace(buffer, Vec::new(alloc)));
    }
    let mut links = Vec::with_capacity(alloc, buffer.len())?;
    links.append(buffer)?;
    Ok(links)
}

/// Returns the URL to which a link with this text leads. `before` is the number of links before it on the page. The text is stored
/// for the folder, or only for this page if it may lead elsewhere from another page. The first texts of a page are not stored if it
/// is the first page of its folder.
fn link_on<'a>(
    alloc: Global,
    folder: &mut Folder<'a>,
    known: &mut KnownLinks<'a>,
    text: &'a str,
    before: u64,
) -> Result<Option<CanonUrl>, FetchError>
    requires { AreLinks folder.old known.old }
    ensures link { IfOk result (λ link. link ≡ link_url folder.old text.now) }
    ensures page { folder.new ≡ folder.old }
    ensures known { AreLinks folder.new known.new }
    ensures refused { IfErr result (λ e. e ≡ FetchError.NoMemory) }
{
    if before < FEW_TEXTS && !folder.comes_again() {
        return Ok(folder.page().link(alloc, text)?);
    }
    // Most texts are known with their fragment, so that is looked up first.
    let whole = LinkText::new(text);
    if let Some(link) = folder.find(&whole) {
        return Ok(copy_of(link)?);
    }
    let front = whole.before_fragment();
    if is_of_folder(front.as_str()) {
        folder.link(alloc, &front)
    } else {
        known.link(alloc, folder.page(), &front)
    }
}

/// Returns the text of the first link before the next page, and the lines after that link.
fn next_link(following: &str) -> Option<(&str, &str)>
    ensures first { MatchOption result (link_texts (lines following.now) ≡ []) (λ x. link_texts (lines following.now) ≡ x.0.now ∷ link_texts (lines x.1.now)) }
    ensures shorter { IfSome result (λ x. length x.1.now < length following.now) }
{
    let mut rest = following;
    while let Some((line, more)) = first_text(rest) {
        rest = more;
        match line_of(line) {
            Line::Page(_) => return None,
            Line::Link(text) => return Some((text, rest)),
            Line::Moved(_) | Line::Empty | Line::Other => {}
        }
    }
    None
}

/// Returns the text of the moved line, if there is one before any page or link.
pub fn moved_text(following: &str) -> Option<&str>
    ensures { option_map (λ text. text.now) result ≡ moved_text (lines following.now) }
{
    let mut rest = following;
    while let Some((line, more)) = first_text(rest) {
        rest = more;
        match line_of(line) {
            Line::Page(_) | Line::Link(_) => return None,
            Line::Moved(text) => return Some(text),
            Line::Empty | Line::Other => {}
        }
    }
    None
}
