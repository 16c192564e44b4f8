//! A page of a saved web, as it is stored.
ghost use Rattle.std.specs.Prelude.{◌≡◌, IfOk, Ok};
ghost use Rattle.crawl_keys.specs.CanonicalText.{canonical};
ghost use Rattle.text_lines.specs.FirstLine.{after_line, line_in};

use crawl_keys::{CanonUrl, canonical};
use hash_index::Keyed;
use hash_order::hash_of;
use std::alloc::{AllocError, Global};
use std::marker::Model;
use std::mem::size_of;
use text_lines::split_line;

/// The number of bytes that most processors read from memory at a time: a cache line.
const LINE: usize = 64;

/// The number of cache lines of a page that are read ahead.
const LINES_AHEAD: usize = 5;

/// A page of a saved web: its URL, and everything after its line.
#[derive(Drop)]
pub struct KnownPage<'a> {
    text: PageText<'a>,
}

// The size of a page in memory, without the input and its slot in the index.
const _: () = prove!(size_of::<KnownPage<'static>>() == 24);

/// The text of a page.
#[derive(Drop)]
enum PageText<'a> {
    /// The input from the URL of the page on. Most pages are written like this.
    Written(&'a str),
    /// For a page whose line spells its URL differently from the canonical text.
    Made(Box<MadePage<'a>>),
}

/// A page whose line spells its URL differently from the canonical text.
#[derive(Drop)]
struct MadePage<'a> {
    url: CanonUrl,
    following: &'a str,
}

// Contracts see the text of the URL, which is canonical, and the text after the page's line.
impl<'a> Model for KnownPage<'a> {
    ghost use Rattle.std.specs.Prelude.{◌≡◌, Ok};
    ghost use Rattle.crawl_keys.specs.CanonicalText.{canonical};
    ghost use Rattle.saved_pages.specs.PageLists.{PageRead, page_read_code};

    ghost Value = { PageRead };

    ghost coded = { page_read_code };

    ghost use Rattle.saved_pages.specs.PageTexts.{page_in};

    ghost view = { λ page. page_in page.text };

    ghost invariant = { λ page. canonical (page_in page.text).url ≡ Ok (page_in page.text).url };
}

impl<'a> KnownPage<'a> {
    /// Makes the page with this URL, which the first line of the text spells.
    pub fn new(alloc: Global, url: CanonUrl, text: &'a str) -> Result<KnownPage<'a>, AllocError>
        ensures { IfOk result (λ page. page ≡ record { url = url; following = after_line text.now }) }
    {
        let (spelled, following) = split_line(text);
        if url.as_str() == spelled {
            return Ok(KnownPage {
                text: PageText::Written(text),
            });
        }
        match Box::new(alloc, MadePage { url, following }) {
            Ok(page) => Ok(KnownPage {
                text: PageText::Made(page),
            }),
            Err(_) => Err(AllocError),
        }
    }

    /// Makes the page whose URL is the first line of this text.
    pub fn written(text: &'a str) -> KnownPage<'a>
        requires { canonical (line_in text.now) ≡ Ok (line_in text.now) }
        ensures { result ≡ record { url = line_in text.now; following = after_line text.now } }
    {
        KnownPage {
            text: PageText::Written(text),
        }
    }

    /// Returns the text of its URL.
    pub fn url(&self) -> &str
        ensures text { result.now ≡ self.now.url }
        ensures canonical { canonical self.now.url ≡ Ok self.now.url }
    {
        match &self.text {
            PageText::Written(text) => split_line(*text).0,
            PageText::Made(page) => page.url.as_str(),
        }
    }

    /// Returns its URL.
    pub fn to_url(&self, alloc: Global) -> Result<CanonUrl, AllocError>
        ensures { IfOk result (λ url. url ≡ self.now.url) }
    {
        match canonical(alloc, self.url()) {
            Ok(url) => Ok(url),
            Err(_) => Err(AllocError),
        }
    }

    /// Returns the lines after its own, to the end.
    pub fn following(&self) -> &'a str
        ensures { result.now ≡ self.now.following }
    {
        match &self.text {
            PageText::Written(text) => split_line(*text).1,
            PageText::Made(page) => page.following,
        }
    }
}

impl KnownPage<'_> {
    /// Returns about how many bytes of the input there are from the page's start on.
    pub fn bytes_left(&self) -> usize {
        match &self.text {
            PageText::Written(text) => text.len(),
            PageText::Made(page) => page.following.len(),
        }
    }

    /// Reads a byte of each of its first cache lines. The result has no meaning.
    pub fn read_ahead(&self) -> u64 {
        let bytes = match &self.text {
            PageText::Written(text) => text.as_bytes(),
            PageText::Made(page) => page.following.as_bytes(),
        };
        let mut sum: u64 = 0;
        for line in 0..LINES_AHEAD {
            if let Some(byte) = bytes.get(LINE * line) {
                sum = sum.wrapping_add(u64::from(*byte));
            }
        }
        sum
    }

    /// Returns about how many bytes the page has, up to the next page or, if there is none, to the end.
    pub fn bytes_before(&self, next: Option<&KnownPage<'_>>) -> usize {
        let left = self.bytes_left();
        let following = match next {
            Some(next) => next.bytes_left(),
            None => 0,
        };
        // The next page may be in other bytes.
        if following < left {
            left - following
        } else {
            left
        }
    }

    /// Returns the host of the page's URL, with the port.
    pub fn host(&self) -> &str {
        match self.url().split('/').nth(2) {
            Some(host) => host,
            None => "",
        }
    }
}

impl Keyed for KnownPage<'_> {
    ghost use Rattle.hash_order.specs.HashOrder.{hash_of};

    ghost text = { λ page. page.url };

    ghost hash = { hash_of };

    fn text(&self) -> &str {
        self.url()
    }

    // Called for a page that is added, and when the index grows.
    fn text_hash(&self) -> u64 {
        hash_of(self.url())
    }
}
