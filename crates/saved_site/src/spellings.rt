//! Links with another spelling or query, or through a symbolic link, for which a server returns a page of the site.
ghost use Rattle.std.specs.Prelude.{◌≡◌, bytes_eq};

use crate::task::Task;
use crawl_keys::{Base, CanonUrl};
use document_links::{LINK_FRONT, LinkTexts, fits};
use site_files::SiteFiles;
use std::alloc::{AllocError, Global};

/// The other spellings of pages, or pages with a query, among the links of the page at a URL.
pub(crate) fn link_spellings(
    alloc: Global,
    files: &SiteFiles<'_>,
    url: &CanonUrl,
    links: &LinkTexts,
) -> Result<Vec<Task>, AllocError> {
    let mut all = Vec::new(alloc);
    let first = first_spelling(files, links);
    if first == links.len() {
        return Ok(all);
    }
    let base = Base::new(alloc, url)?;
    let mut last = LastText { text: "" };
    for index in first..links.len() {
        if !files.can_spell(links.bytes(index)) {
            continue;
        }
        let text = links.text(index);
        if !last.is_again(text)
            && let Some(spelling) = spelling_at(alloc, files, &base, text)?
        {
            all.push(spelling)?;
        }
    }
    Ok(all)
}

/// The index of the first text that can be another spelling, or the number of texts.
fn first_spelling(files: &SiteFiles<'_>, links: &LinkTexts) -> usize {
    for index in 0..links.len() {
        if files.can_spell(links.bytes(index)) {
            return index;
        }
    }
    links.len()
}

/// The last text that was resolved.
#[derive(Drop)]
struct LastText<'a> {
    text: &'a str,
}

impl<'a> LastText<'a> {
    /// Whether a text is the last one again. It is the last one from now on.
    fn is_again(&mut self, text: &'a str) -> bool
        ensures again { result ≡ bytes_eq self.old.text.now text.now }
        ensures last { self.new.text.now ≡ text.now }
    {
        let is_again = self.text == text;
        self.text = text;
        is_again
    }
}

/// The spelling that a link with this text on the page at a URL has, if it has one.
pub(crate) fn text_spelling(
    alloc: Global,
    files: &SiteFiles<'_>,
    url: &CanonUrl,
    text: &str,
) -> Result<Option<Task>, AllocError> {
    let base = Base::new(alloc, url)?;
    spelling_at(alloc, files, &base, text)
}

/// The spelling that a link has, if its URL is not that of a page. A page whose URL does not fit in a line has no other spellings.
fn spelling_at(
    alloc: Global,
    files: &SiteFiles<'_>,
    base: &Base,
    text: &str,
) -> Result<Option<Task>, AllocError> {
    let Some(url) = base.link(alloc, text)? else {
        return Ok(None);
    };
    match files.look_up(alloc, &url)? {
        Some(entry) if has_line(files, entry) => Ok(Some(Task { url, entry })),
        _ => Ok(None),
    }
}

/// Whether the page with this number is a redirect, or the own URL of its file fits in a line.
fn has_line(files: &SiteFiles<'_>, entry: usize) -> bool {
    match files.own_url(entry) {
        Some(own) => fits(LINK_FRONT, own.as_str().as_bytes()),
        None => true,
    }
}
