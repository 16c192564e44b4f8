//! A page of a site.
ghost use Rattle.std.specs.Prelude.{◌≡◌, false, true, IfOk, IfSome, IsNone};
ghost use Rattle.document_links.specs.Texts.{fits};

mod entry;
mod lines;

use crawl_keys::CanonUrl;
use document_links::{Anchors, LINK_FRONT, LinkTexts, Target, fits};
use std::alloc::{AllocError, Global};
use std::marker::Model;

/// The contents of a page.
#[derive(Drop)]
pub enum Under {
    /// A page with links.
    Links(LinkTexts),
    /// A redirect to this URL.
    Moved(LineText),
}

/// The anchors of a document, and the targets of its links to anchors.
#[derive(Drop)]
pub struct SiteAnchors {
    pub anchors: Anchors,
    pub targets: Vec<Target>,
}

/// A page: its URL, which fits in a line, its contents, and its anchors if they are known.
#[derive(Drop)]
pub struct SitePage {
    url: CanonUrl,
    under: Under,
    anchors: Option<SiteAnchors>,
    ghost fit: { fits 5 url ≡ true },
}

impl SitePage {
    /// Makes a page, or returns `None` if its URL does not fit in a line.
    pub fn new(url: CanonUrl, under: Under, anchors: Option<SiteAnchors>) -> Option<SitePage>
        ensures page { IfSome result (λ page. (page.url ≡ url) × (page.under ≡ under) × (page.anchors ≡ anchors)) }
        ensures none { IsNone result → fits 5 url ≡ false }
    {
        if !fits(LINK_FRONT, url.as_str().as_bytes()) {
            return None;
        }
        Some(SitePage {
            url,
            under,
            anchors,
        })
    }

    /// The URL of the page.
    pub fn url(&self) -> &CanonUrl
        ensures { result.now ≡ self.now.url }
    {
        &self.url
    }

    /// The contents of the page.
    pub(crate) fn under(&self) -> &Under
        ensures { result.now ≡ self.now.under }
    {
        &self.under
    }
}

/// The number of bytes before the text in the line of a redirect.
const MOVED_FRONT: usize = 6;

/// The text of a redirect's line.
#[derive(Drop)]
pub struct LineText {
    bytes: Vec<u8>,
}

impl Model for LineText {
    ghost use Rattle.std.specs.Prelude.{ℕ, List, true, ◌≡◌};
    ghost use Rattle.document_links.specs.Texts.{fits};

    ghost Value = { List ℕ };

    ghost view = { λ text. text.bytes.items };

    ghost invariant = { λ text. fits 6 text.bytes.items ≡ true };
}

impl LineText {
    /// Makes the text, or returns `None` if it does not fit in the line of a redirect.
    ///
    /// # Errors
    /// Out of memory.
    pub fn new(alloc: Global, text: &[u8]) -> Result<Option<LineText>, AllocError>
        ensures text { IfOk result (λ found. IfSome found (λ own. own ≡ text.now)) }
        ensures fit { IfOk result (λ found. IfSome found (λ _. fits 6 text.now ≡ true)) }
        ensures none { IfOk result (λ found. IsNone found → fits 6 text.now ≡ false) }
    {
        if !fits(MOVED_FRONT, text) {
            return Ok(None);
        }
        let bytes = text.to_vec(alloc)?;
        Ok(Some(LineText { bytes }))
    }

    /// The bytes of the text.
    pub fn as_bytes(&self) -> &[u8]
        ensures text { result.now ≡ self.now }
        ensures fit { fits 6 self.now ≡ true }
    {
        self.bytes.as_slice()
    }
}
