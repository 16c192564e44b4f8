//! A page's URL, parsed when the first link needs it.
ghost use Rattle.std.specs.Prelude.{◌≡◌, None, Ok, true, IfErr, IfOk, IfSome};
ghost use Rattle.url.specs.Parser.{parse_url};

use crate::KeyError;
use crate::canon_url::is_web;
use once_cell::race::OnceBox;
use std::alloc::Global;
use std::fmt;
use url::Url;

/// A cell for the parsed URL of a page, which any thread may fill. It is only a hint: each use tests that its URL has the page's
/// text.
#[derive(Drop)]
pub struct Parsed {
    cell: OnceBox<Url>,
}

impl Parsed {
    /// Makes an empty cell.
    pub fn new(alloc: Global) -> Parsed {
        Parsed {
            cell: OnceBox::new(alloc),
        }
    }

    /// The URL that the text of a page parses to. `None` means unknown.
    pub fn url(&self, alloc: Global, text: &str) -> Result<Option<&Url>, KeyError>
        ensures url { IfOk result (λ found. IfSome found (λ url. parse_url None text.now ≡ Ok url.now)) }
        ensures refused { IfErr result (λ e. e ≡ KeyError.NoMemory) }
    {
        if self.cell.get().is_none() {
            self.fill(alloc, text)?;
        }
        match self.cell.get() {
            Some(url) if is_url_of(url, text) => Ok(Some(url)),
            _ => Ok(None),
        }
    }

    /// Stores the URL that the text parses to.
    fn fill(&self, alloc: Global, text: &str) -> Result<(), KeyError>
        ensures { IfErr result (λ e. e ≡ KeyError.NoMemory) }
    {
        let Ok(url) = Url::parse(alloc, text) else {
            return Ok(());
        };
        let url = Box::new(alloc, url)?;
        let _first = self.cell.set(url);
        Ok(())
    }
}

impl fmt::Debug for Parsed {
    fn fmt<W: fmt::Write>(&self, f: &mut fmt::Formatter<W>) -> fmt::Result {
        f.write_str("Parsed")
    }
}

/// Whether the URL is an `http` or `https` URL with this text.
fn is_url_of(url: &Url, text: &str) -> bool
    ensures { result ≡ true → parse_url None text.now ≡ Ok url.now }
{
    is_web(url) && url.as_str() == text
}
