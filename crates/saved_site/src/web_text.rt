//! The text of a saved web.
ghost use Rattle.std.specs.Prelude.{◌≡◌, [], IfOk, OnOk};
ghost use Rattle.std.specs.Io.KnownBytes.{Appends, append_known};
ghost use Rattle.saved_site.specs.Below.{IsWebBelow};
ghost use Rattle.saved_site.specs.Meaning.{IsSiteWeb};
ghost use Rattle.saved_site.specs.Pages.{page_text};
ghost use Rattle.saved_site.specs.WebTexts.{AreInOrder, IsPageText, last_url};

use crate::below::is_next;
use crate::page::SitePage;
use crate::page_sink::PageSink;
use crawl_keys::CanonUrl;
use std::alloc::{AllocError, Global};
use std::io;
use std::io::Write;
use std::marker::Model;

/// The most bytes of a saved web, which is the limit of a crawl.
pub(crate) const WEB_LIMIT: usize = 1 << 30;

/// The number of bytes in the header of a saved web.
pub(crate) const HEADER_LENGTH: usize = 11;

/// The number of bytes of short pages that are written together.
const ROOM: usize = 1 << 16;

/// The URL of a page, and its lines in a saved web.
#[derive(Drop)]
pub(crate) struct PageText {
    url: CanonUrl,
    text: Vec<u8>,
}

// Contracts see the URL and the lines.
impl Model for PageText {
    ghost use Rattle.std.specs.Prelude.{ℕ, List};
    ghost use Rattle.saved_site.specs.WebTexts.{IsPageText};

    ghost Value = { List ℕ × List ℕ };

    ghost view = { λ page. (page.url, page.text.items) };

    ghost invariant = { λ page. IsPageText page.url page.text.items };
}

impl PageText {
    /// The lines of the page.
    fn new(alloc: Global, page: &SitePage) -> Result<PageText, AllocError>
        ensures { IfOk result (λ own. own ≡ (page.now.url, page_text page.now)) }
    {
        let mut text = Vec::with_capacity(alloc, page.byte_count())?;
        page.print(&mut text)?;
        let url = page.url().clone()?;
        Ok(PageText { url, text })
    }

    /// The URL of the page.
    pub(crate) fn url(&self) -> &CanonUrl
        ensures url { result.now ≡ self.now.0 }
        ensures page { IsPageText self.now.0 self.now.1 }
    {
        &self.url
    }

    /// The lines of the page.
    pub(crate) fn as_bytes(&self) -> &[u8]
        ensures { result.now ≡ self.now.1 }
    {
        self.text.as_slice()
    }
}

impl PageSink for Vec<PageText> {
    // Nothing is said of them.
    ghost serves = { λ _. Unit {0} };

    fn empty(alloc: Global, _top: &str) -> Result<Vec<PageText>, AllocError> {
        Ok(Vec::new(alloc))
    }

    fn with_page(self, page: SitePage) -> Result<Vec<PageText>, AllocError> {
        let mut pages = self;
        let text = PageText::new(*pages.allocator(), &page)?;
        pages.push(text)?;
        Ok(pages)
    }
}

/// The text of a saved web, page by page.
#[derive(Drop)]
pub struct WebText {
    pages: Vec<PageText>,
}

// Contracts see its bytes.
impl Model for WebText {
    ghost use Rattle.std.specs.Prelude.{ℕ, List};
    ghost use Rattle.saved_site.specs.WebTexts.{web_bytes};

    ghost Value = { List ℕ };

    ghost view = { λ web. web_bytes web.pages.items };
}

impl WebText {
    /// The saved web of the site with this top, whose pages threads have made.
    #[tactic(auto, using(crate::proofs::WebTexts::text_web, crate::proofs::WebTexts::text_below))]
    pub(crate) fn new(
        alloc: Global,
        top: &str,
        made: Vec<Vec<PageText>>,
    ) -> Result<WebText, AllocError>
        ensures web { IfOk result IsSiteWeb }
        ensures below { IfOk result (IsWebBelow top.now) }
    {
        let mut pages = Vec::new(alloc);
        for of_thread in made {
            let mut of_thread = of_thread;
            pages.append(&mut of_thread)?;
        }
        pages.sort_by(|a: &PageText, b: &PageText| a.url().as_str().cmp(b.url().as_str()))?;
        let pages = in_order(alloc, top, pages)?;
        Ok(WebText { pages })
    }

    /// Writes the saved web.
    ///
    /// # Errors
    /// `OutOfMemory` if there is no memory for a buffer, and the errors of `out`.
    pub fn write<O: Write>(&self, out: &mut O) -> io::Result<()>
        ensures { OnOk result (Appends (O.contents out.old) (O.contents out.new) self.now) }
    {
        let mut room = Vec::with_capacity(*self.pages.allocator(), ROOM)?;
        room.extend_from_slice(b"savedweb 2\n")?;
        'pages: for page in &self.pages {
            push_text(out, &mut room, page.as_bytes())?;
        }
        out.write_all(room.as_slice())?;
        Ok(())
    }
}

/// Appends a text to the room. If it has not enough left, writes both.
fn push_text<O: Write>(out: &mut O, room: &mut Vec<u8>, text: &[u8]) -> io::Result<()>
    ensures { OnOk result (Appends (append_known (O.contents out.old) room.old.items) (append_known (O.contents out.new) room.new.items) text.now) }
{
    if text.len() <= ROOM.saturating_sub(room.len()) {
        room.extend_from_slice(text)?;
        return Ok(());
    }
    out.write_all(room.as_slice())?;
    room.clear();
    out.write_all(text)
}

/// The pages below the top whose URLs are after those of all pages before them. All are, but this is checked since it is promised.
#[tactic(auto, using(crate::proofs::WebTexts::texts_push))]
fn in_order(alloc: Global, top: &str, pages: Vec<PageText>) -> Result<Vec<PageText>, AllocError>
    ensures { IfOk result (λ all. AreInOrder top.now [] all.items) }
{
    let mut all = Vec::with_capacity(alloc, pages.len())?;
    'pages: for page in pages {
        let is_next = is_next(alloc, top, last_of(all.as_slice()), page.url())?;
        if is_next {
            all.push(page)?;
        }
    }
    Ok(all)
}

/// The last URL of the pages, or nothing.
#[tactic(auto, using(crate::proofs::WebTexts::last_is))]
fn last_of(pages: &[PageText]) -> &[u8]
    ensures { result.now ≡ last_url [] pages.now }
{
    match pages.split_last() {
        Some((last, _)) => last.url().as_str().as_bytes(),
        None => &[],
    }
}
