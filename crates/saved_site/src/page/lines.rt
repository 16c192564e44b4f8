//! The lines of a page. They have a file of their own, because the ghost field of `SitePage` reads the definitions that `page.rt` names, and
//! those of the lines name `SitePage`.
ghost use Rattle.std.specs.Prelude.{◌≡◌, ◌<◌, ◌≤◌, ◌^◌, ◌++◌, true, Ok, OnOk, length};
ghost use Rattle.crawl_keys.specs.CanonicalText.{canonical};
ghost use Rattle.document_links.specs.Texts.{all_fit};
ghost use Rattle.saved_site.specs.Pages.{page_text, under_text, fits_under, IsPage, page_line, link_line, link_lines, moved_line};

use super::{SitePage, Under};
use crawl_keys::CanonUrl;
use document_links::LinkTexts;
use std::alloc::AllocError;

/// The number of bytes around the URL in the line of a page.
const PAGE_AROUND: usize = 6;

/// The number of bytes around the text in the line of a link.
const LINK_AROUND: usize = 6;

/// The number of bytes around the text in the line of a redirect.
const MOVED_AROUND: usize = 7;

impl SitePage {
    /// Appends the lines of the page.
    ///
    /// # Errors
    /// Out of memory.
    pub(crate) fn print(&self, web: &mut Vec<u8>) -> Result<(), AllocError>
        ensures text { OnOk result (web.new.items ≡ web.old.items ++ page_text self.now) }
        ensures page { OnOk result (IsPage self.now) }
    {
        print_url(&self.url, web)?;
        self.under.print(web)
    }

    /// For the proof: the URL and all texts fit in lines.
    pub(crate) fn fits_lines(&self)
        ensures { IsPage self.now }
    {
        let _ = self.url.as_str();
        self.under.fits_lines();
    }

    /// The number of bytes of the lines, as far as it can be counted.
    #[tactic(auto, using(crate::proofs::Lines::page_length))]
    pub(crate) fn byte_count(&self) -> usize
        ensures most { result ≤ length (page_text self.now) }
        ensures all { length (page_text self.now) < 2 ^ 64 → result ≡ length (page_text self.now) }
    {
        let own = self.url.as_str().len().saturating_add(PAGE_AROUND);
        own.saturating_add(self.under.byte_count())
    }
}

/// Appends the line `page URL`, which starts a page.
fn print_url(url: &CanonUrl, web: &mut Vec<u8>) -> Result<(), AllocError>
    ensures text { OnOk result (web.new.items ≡ web.old.items ++ page_line url.now) }
    ensures own { canonical url.now ≡ Ok url.now }
{
    let text = url.as_str();
    web.extend_from_slice(b"page ")?;
    web.extend_from_slice(text.as_bytes())?;
    web.push(b'\n')?;
    Ok(())
}

impl Under {
    /// Appends the lines that follow the URL of a page: its links, or its redirect.
    fn print(&self, web: &mut Vec<u8>) -> Result<(), AllocError>
        ensures text { OnOk result (web.new.items ≡ web.old.items ++ under_text self.now) }
        ensures fit { OnOk result (fits_under self.now ≡ true) }
    {
        match self {
            Under::Links(links) => print_links(links, web),
            Under::Moved(text) => print_moved(text.as_bytes(), web),
        }
    }

    /// For the proof: all texts fit in lines. It does nothing else.
    fn fits_lines(&self)
        ensures { fits_under self.now ≡ true }
    {
        match self {
            Under::Links(links) => {
                let _ = links.len();
            }
            Under::Moved(text) => {
                let _ = text.as_bytes();
            }
        }
    }

    /// Returns the number of bytes of these lines, as far as it can be counted.
    #[tactic(auto, using(crate::proofs::Lines::moved_length))]
    fn byte_count(&self) -> usize
        ensures most { result ≤ length (under_text self.now) }
        ensures all { length (under_text self.now) < 2 ^ 64 → result ≡ length (under_text self.now) }
    {
        match self {
            Under::Links(links) => links_length(links),
            Under::Moved(text) => text.as_bytes().len() + MOVED_AROUND,
        }
    }
}

/// The number of bytes of the lines of links, as far as it can be counted.
#[tactic(auto, using(crate::proofs::Lines::links_length))]
fn links_length(links: &LinkTexts) -> usize
    ensures most { result ≤ length (link_lines links.now) }
    ensures all { length (link_lines links.now) < 2 ^ 64 → result ≡ length (link_lines links.now) }
{
    let around = links.len().saturating_mul(LINK_AROUND);
    around.saturating_add(links.byte_count())
}

/// Appends a line for each link, in order.
#[tactic(auto, using(crate::proofs::Lines::links_more, std::proofs::lemmas::List::take_all))]
fn print_links(links: &LinkTexts, web: &mut Vec<u8>) -> Result<(), AllocError>
    ensures text { OnOk result (web.new.items ≡ web.old.items ++ link_lines links.now) }
    ensures fit { all_fit links.now ≡ true }
{
    for index in 0..links.len() {
        print_link(links.text(index), web)?;
    }
    Ok(())
}

/// Appends the line `link TEXT`.
fn print_link(text: &str, web: &mut Vec<u8>) -> Result<(), AllocError>
    ensures { OnOk result (web.new.items ≡ web.old.items ++ link_line text.now) }
{
    web.extend_from_slice(b"link ")?;
    web.extend_from_slice(text.as_bytes())?;
    web.push(b'\n')?;
    Ok(())
}

/// Appends the line `moved TEXT`.
fn print_moved(text: &[u8], web: &mut Vec<u8>) -> Result<(), AllocError>
    ensures { OnOk result (web.new.items ≡ web.old.items ++ moved_line text.now) }
{
    web.extend_from_slice(b"moved ")?;
    web.extend_from_slice(text)?;
    web.push(b'\n')?;
    Ok(())
}
