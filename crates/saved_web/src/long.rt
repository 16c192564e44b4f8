//! A long page of a saved web, whose links are resolved in threads.
ghost use Rattle.std.specs.Prelude.{◌≡◌, ◌+◌, ◌++◌, ◌<◌, [], true, false, Some, IfSome};
ghost use Rattle.std.specs.List.{list_any};
ghost use Rattle.std.specs.Str.Lines.{lines};
ghost use Rattle.saved_web.specs.LongPages.{AreFound};
ghost use Rattle.saved_pages.specs.SavedWeb.{link_texts, found_page, page_after};
ghost use Rattle.saved_pages.specs.WebLines.{is_page};

use crate::folder::Folder;
use crate::known_links::KnownLinks;
use crate::links::{find_links, moved_text};
use crate::threads::cut_before_page;
use crawl_keys::{Base, CanonUrl};
use crawl_pages::{Links, Page};
use saved_pages::{Line, line_of};
use simdutf8::compat::from_utf8;
use std::alloc::Global;
use std::thread::{Threads, join};
use text_lines::{cut_line, first_line, first_text};

/// Threads do not read a page with fewer bytes than this.
pub const LEAST: usize = 1 << 18;

/// The number of threads, including this one, that each read a chunk of a page.
const THREADS: u32 = 4;

/// The links among some lines, up to the next page.
#[derive(Drop)]
struct LinksFound {
    links: Vec<CanonUrl>,
    /// The number of other links, which lead to no URL.
    skipped: u64,
}

impl LinksFound {
    /// Returns these links followed by the others. `None` if memory runs out.
    fn and(self, more: LinksFound) -> Option<LinksFound>
        ensures links { IfSome result (λ both. both.links.items ≡ self.links.items ++ more.links.items) }
        ensures skipped { IfSome result (λ both. both.skipped ≡ self.skipped + more.skipped) }
    {
        let skipped = self.skipped.checked_add(more.skipped)?;
        let LinksFound { mut links, .. } = self;
        let LinksFound {
            links: mut others,
            ..
        } = more;
        match links.append(&mut others) {
            Ok(()) => Some(LinksFound { links, skipped }),
            Err(_) => None,
        }
    }
}

/// Returns the page at this URL, with the links among the lines after its own, up to the next page or to the end. Threads resolve
/// them. `None` if the page must be read by one thread.
pub fn long_page<R: Threads>(rt: &R, alloc: Global, url: &CanonUrl, following: &str) -> Option<Page>
    ensures { IfSome result (λ page. page ≡ page_after url.now (Some (lines following.now))) }
{
    let (own, after) = cut_before_page(following.as_bytes(), 0);
    if !begins_with_page(after) {
        return None;
    }
    match moved_text(following) {
        Some(_) => None,
        None => linked_page(rt, alloc, url, own),
    }
}

/// Whether the first of the lines is a page line, or there is no line.
#[tactic(auto, using(crate::proofs::LongPages::page_begins))]
fn begins_with_page(bytes: &[u8]) -> bool
    ensures { result ≡ true → link_texts (lines bytes.now) ≡ [] }
{
    let Some((line, _)) = first_line(bytes) else {
        return true;
    };
    match from_utf8(line) {
        Ok(text) => says_page(text),
        Err(_) => false,
    }
}

/// Whether the line is a page line.
fn says_page(line: &str) -> bool
    ensures { result ≡ is_page line.now }
{
    match line_of(line) {
        Line::Page(_) => true,
        Line::Link(_) | Line::Moved(_) | Line::Empty | Line::Other => false,
    }
}

/// Returns the page at this URL with the links among these lines, which threads resolve.
fn linked_page<R: Threads>(rt: &R, alloc: Global, url: &CanonUrl, bytes: &[u8]) -> Option<Page>
    ensures { IfSome result (λ page. page ≡ found_page url.now (link_texts (lines bytes.now))) }
{
    let found = links_by_threads(rt, alloc, THREADS, url, bytes)?;
    let LinksFound { links, skipped } = found;
    Some(Page::Found {
        links: Links::from(links),
        skipped,
    })
}

/// Returns the links of the page at this URL among these lines, resolved by `threads` threads. If a thread cannot be started, this
/// one reads its chunk. `None` if there is a page line in a chunk that is not the last, or if memory runs out.
fn links_by_threads<R: Threads>(
    rt: &R,
    alloc: Global,
    threads: u32,
    url: &CanonUrl,
    bytes: &[u8],
) -> Option<LinksFound>
    ensures { IfSome result (AreFound url.now (lines bytes.now)) }
{
    if threads <= 1 {
        return links_in(alloc, url, bytes);
    }
    let fewer = threads - 1;
    let (front, back) = first_chunk(bytes, threads as usize)?;
    let of_front = move || -> Option<LinksFound>
        ensures { IfSome result (AreFound url.entry.now (lines front.entry.now)) }
    { links_among(alloc, url, front) };
    // This closure runs on the same thread, so that the handle need not be shared.
    let of_back = move || -> Option<LinksFound>
        ensures { IfSome result (AreFound url.entry.now (lines back.entry.now)) }
    { links_by_threads(rt, alloc, fewer, url, back) };
    let (first, second) = join(rt, of_front, of_back);
    let first = first?;
    let second = second?;
    first.and(second)
}

/// Returns the lines of about the first of `chunks` chunks of the bytes, and the other lines. `None` if a page line is among the
/// first.
fn first_chunk(bytes: &[u8], chunks: usize) -> Option<(&str, &[u8])>
    requires { 0 < chunks }
    ensures lines { IfSome result (λ x. lines bytes.now ≡ lines x.0.now ++ lines x.1.now) }
    ensures none { IfSome result (λ x. list_any is_page (lines x.0.now) ≡ false) }
{
    let (front, back) = cut_line(bytes, bytes.len() / chunks)?;
    match from_utf8(front) {
        Ok(text) if !has_page(text) => Some((text, back)),
        _ => None,
    }
}

/// Whether there is a page line among these lines.
fn has_page(text: &str) -> bool
    ensures { result ≡ list_any is_page (lines text.now) }
{
    let mut rest = text;
    while let Some((line, more)) = first_text(rest) {
        if says_page(line) {
            return true;
        }
        rest = more;
    }
    false
}

/// Returns the links of the page at this URL among the lines of a chunk. `None` if it is not UTF-8, or if memory runs out.
fn links_in(alloc: Global, url: &CanonUrl, bytes: &[u8]) -> Option<LinksFound>
    ensures { IfSome result (AreFound url.now (lines bytes.now)) }
{
    match from_utf8(bytes) {
        Ok(text) => links_among(alloc, url, text),
        Err(_) => None,
    }
}

/// Returns the links of the page at this URL among the lines of a text. `None` if memory runs out.
fn links_among(alloc: Global, url: &CanonUrl, text: &str) -> Option<LinksFound>
    ensures { IfSome result (AreFound url.now (lines text.now)) }
{
    let Ok(base) = Base::new(alloc, url) else {
        return None;
    };
    let mut folder = Folder::new(alloc, base, false);
    let mut known = KnownLinks::new(alloc);
    let mut links = Vec::new(alloc);
    match find_links(alloc, &mut folder, &mut known, &mut links, text) {
        Ok(skipped) => Some(LinksFound { links, skipped }),
        Err(_) => None,
    }
}
