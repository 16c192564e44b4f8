//! The base URL of links: the page on which they are.
ghost use Rattle.std.specs.Prelude.{◌≡◌, ◌≤◌, ◌+◌, ℕ, List, Some, length, true, IfOk, IfSome};
ghost use Rattle.std.specs.Result.{result_ok};
ghost use Rattle.crawl_keys.specs.Bases.{IsBase, IsFolderOf, IsSchemeOf};
ghost use Rattle.crawl_keys.specs.CanonicalText.{IsCanonical};
ghost use Rattle.crawl_keys.specs.CanonicalText as spec;
ghost use Rattle.crawl_keys.specs.Folders.{is_of_folder};
ghost use Rattle.crawl_keys.specs.Links.{IsAtRoot, IsAfterDots, IsByHost, IsInFolder, is_query, is_rooted, is_same};
ghost use Rattle.crawl_keys.specs.Links as links;
ghost use Rattle.crawl_keys.specs.Outcome.{Gives};
ghost use Rattle.crawl_keys.specs.Spelled.{IsSpelled};
ghost use Rattle.url.specs.Parser.{parse_url};

use crate::cased::respelled;
use crate::dots::{after_dots, without_dots};
use crate::folder::{folder_above, folder_len, has_no_scheme};
use crate::opaque::is_opaque;
use crate::parsed::Parsed;
use crate::plain::{
    HostPlace, PlainLink, after_ups, begins_path, is_plain, len_before, plain_link,
};
use crate::{CanonUrl, KeyError, before_fragment};
use std::alloc::{AllocError, Global};
use std::marker::Model;
use url::Url;

/// The URL of a page, prepared for resolving its links.
///
/// It stores the positions in the page's text at which the path begins and the folder ends. So a link in
/// a common form is resolved by joining two texts, and the URL Standard's parser is needed only for the others. The
/// page's URL is parsed when the first such link needs it, and kept.
///
/// ```rust
/// let base = Base::canonical(alloc, "http://a.test/d/e?q")?;
/// assert_eq!(rt; base.resolve(alloc, "../f#g")?.as_str(), "http://a.test/f");
/// assert_eq!(rt; base.resolve(alloc, "?z")?.as_str(), "http://a.test/d/e?z");
/// assert!(rt; base.resolve(alloc, "mailto:x") == Err(KeyError::NotHttp));
/// ```
#[derive(Debug, Drop)]
pub struct Base {
    url: CanonUrl,
    // The start of the path.
    root: usize,
    // The position after the last slash of the path.
    folder: usize,
    parsed: Parsed,
}

// In contracts, a base is the canonical text of its page.
impl Model for Base {
    ghost use Rattle.std.specs.Prelude.{ℕ, List};
    ghost use Rattle.crawl_keys.specs.Bases.{IsBase};

    ghost Value = { List ℕ };

    ghost view = { λ base. base.url };

    ghost invariant = { λ base. IsBase base.url base.root base.folder };
}

impl Base {
    /// The base for the links of the page at this URL. It shares the URL's text. The only error is out of memory.
    pub fn new(alloc: Global, page: &CanonUrl) -> Result<Base, AllocError>
        ensures { IfOk result (λ base. base ≡ page.now) }
    {
        let url = page.clone()?;
        Ok(Base::of_url(alloc, url))
    }

    /// The base for the links of the page whose URL has this text, in any spelling. The errors are those
    /// of [`crate::canonical`].
    pub fn canonical(alloc: Global, text: &str) -> Result<Base, KeyError>
        ensures { Gives KeyError.NoMemory (λ base. base) result (spec.canonical text.now) }
    {
        let url = crate::canonical(alloc, text)?;
        Ok(Base::of_url(alloc, url))
    }

    /// Finds the start of the path and the end of the folder in the URL's text. The URL is parsed later, if a link needs that.
    fn of_url(alloc: Global, url: CanonUrl) -> Base
        ensures { result ≡ url }
    {
        let text = url.as_str();
        let host = url.host();
        let root = host.end + len_before(&text.as_bytes()[host.end..], b'/');
        let folder = folder_len(text.as_bytes()) + 1;
        Base {
            url,
            root,
            folder,
            parsed: Parsed::new(alloc),
        }
    }

    /// The canonical text of the page's URL.
    pub fn as_str(&self) -> &str
        ensures { result.now ≡ self.now }
    {
        self.url.as_str()
    }

    /// The text of the page's folder: the text of its URL up to and including the last slash of the
    /// path. The folder of `http://a.test/d/e?q` is `http://a.test/d/`.
    pub fn folder(&self) -> &str
        ensures { IsFolderOf self.now result.now }
    {
        &self.url.ascii()[..self.folder]
    }

    /// The canonical URL of a link on the page. The result is that of [`crate::resolve`] with the page's
    /// URL, errors included.
    ///
    /// The parser is skipped if it would only append the link's text to a beginning of the page's text.
    pub fn resolve(&self, alloc: Global, text: &str) -> Result<CanonUrl, KeyError>
        ensures { Gives KeyError.NoMemory (λ url. url) result (spec.resolve self.now text.now) }
    {
        match self.known(alloc, text) {
            Some(outcome) => outcome,
            None => self.without_fragment(alloc, text),
        }
    }

    /// The canonical URL of a link on the page. `None` if it leads to no http or https URL. The only error is out of memory.
    pub fn link(&self, alloc: Global, text: &str) -> Result<Option<CanonUrl>, AllocError>
        ensures { IfOk result (λ link. link ≡ result_ok (spec.resolve self.now text.now)) }
    {
        match self.resolve(alloc, text) {
            Ok(url) => Ok(Some(url)),
            Err(KeyError::NoMemory) => Err(AllocError),
            Err(KeyError::NotUrl | KeyError::NotHttp) => Ok(None),
        }
    }

    /// The result for a link that need not be parsed. `None` means unknown.
    #[inline(always)]
    fn known(&self, alloc: Global, text: &str) -> Option<Result<CanonUrl, KeyError>>
        ensures { IfSome result (λ outcome. Gives KeyError.NoMemory (λ url. url) outcome (spec.resolve self.now text.now)) }
    {
        match plain_link(text) {
            PlainLink::Absolute(host) => Some(self.absolute(alloc, text, host)),
            PlainLink::ByHost(len) => Some(self.by_host(alloc, text, len)),
            PlainLink::Rooted => Some(self.rooted(alloc, text)),
            PlainLink::Query => Some(self.query(alloc, text)),
            PlainLink::Same => Some(self.same(text)),
            PlainLink::Relative => self.of_folder(alloc, text),
            PlainLink::Other => None,
        }
    }

    /// The canonical URL of a link that is not in a common form. The text before its fragment may be.
    fn without_fragment(&self, alloc: Global, text: &str) -> Result<CanonUrl, KeyError>
        ensures { Gives KeyError.NoMemory (λ url. url) result (spec.resolve self.now text.now) }
    {
        let front = before_fragment(text);
        if front.len() == text.len() {
            return self.not_plain(alloc, text);
        }
        match self.known(alloc, front) {
            Some(outcome) => outcome,
            None => self.not_plain(alloc, front),
        }
    }

    /// The canonical URL of a link whose text is a canonical URL.
    fn absolute(&self, alloc: Global, text: &str, host: HostPlace) -> Result<CanonUrl, KeyError>
        requires { IsSpelled text.now host.start host.end }
        ensures { Gives KeyError.NoMemory (λ url. url) result (spec.resolve self.now text.now) }
    {
        // For the proof: the page's URL has a text that parses.
        let _ = self.url.as_str();
        CanonUrl::join(alloc, text, "", host)
    }

    /// The canonical URL of a link that is appended to the page's scheme. Its host has `len` bytes.
    fn by_host(&self, alloc: Global, text: &str, len: usize) -> Result<CanonUrl, KeyError>
        requires { IsByHost text.now len }
        ensures { Gives KeyError.NoMemory (λ url. url) result (spec.resolve self.now text.now) }
    {
        let scheme = self.scheme();
        let start = scheme.len() + 2;
        let host = HostPlace {
            start,
            end: start + len,
        };
        CanonUrl::join(alloc, scheme, text, host)
    }

    /// The page's scheme, with its colon.
    fn scheme(&self) -> &'static str
        ensures value { IsSchemeOf self.now result.now }
        ensures canonical { IsCanonical self.now }
        ensures short { length result.now ≤ 6 }
    {
        match self.url.as_str().as_bytes() {
            [_, _, _, _, b's', ..] => "https:",
            _ => "http:",
        }
    }

    /// The canonical URL of a link that is appended to the page's text before its path.
    fn rooted(&self, alloc: Global, text: &str) -> Result<CanonUrl, KeyError>
        requires { is_rooted text.now ≡ true }
        ensures { Gives KeyError.NoMemory (λ url. url) result (spec.resolve self.now text.now) }
    {
        let root = &self.url.ascii()[..self.root];
        CanonUrl::join(alloc, root, text, self.url.host())
    }

    /// The canonical URL of a link that is a query.
    #[tactic(auto, using(crate::proofs::BaseLemmas::front_slice, crate::proofs::BaseLemmas::spelled_at_query, crate::proofs::BaseLemmas::leads_query))]
    fn query(&self, alloc: Global, text: &str) -> Result<CanonUrl, KeyError>
        requires { is_query text.now ≡ true }
        ensures { Gives KeyError.NoMemory (λ url. url) result (spec.resolve self.now text.now) }
    {
        let page = self.url.ascii();
        let end = len_before(page.as_bytes(), b'?');
        let path = &page[..end];
        CanonUrl::join(alloc, path, text, self.url.host())
    }

    /// The result for a link into the page's folder, or into one above it. `None` means unknown.
    fn of_folder(&self, alloc: Global, text: &str) -> Option<Result<CanonUrl, KeyError>>
        ensures { IfSome result (λ outcome. Gives KeyError.NoMemory (λ url. url) outcome (spec.resolve self.now text.now)) }
    {
        let (ups, rest) = after_ups(text);
        if is_plain(b'/', rest.as_bytes()) && has_no_scheme(text) {
            return Some(self.in_folder(alloc, text, ups, rest));
        }
        None
    }

    /// The result for a link with dot segments. `None` means unknown.
    fn dotted(&self, alloc: Global, text: &str) -> Option<Result<CanonUrl, KeyError>>
        ensures { IfSome result (λ outcome. Gives KeyError.NoMemory (λ url. url) outcome (spec.resolve self.now text.now)) }
    {
        if !has_no_scheme(text) {
            return None;
        }
        let (ups, rest) = after_dots(text);
        // A text that does not begin with a dot segment was tried before.
        if rest.len() < text.len() && is_plain(b'/', rest.as_bytes()) {
            return Some(self.in_folder(alloc, text, ups, rest));
        }
        self.dotted_within(alloc, text, ups, rest)
    }

    /// The result for a link with dot segments after another segment. `rest` is the text after the leading dot segments, which lead
    /// up `ups` folders. `None` means unknown.
    #[tactic(auto, using(crate::proofs::DotLinks::after_both))]
    fn dotted_within(
        &self,
        alloc: Global,
        text: &str,
        ups: usize,
        rest: &str,
    ) -> Option<Result<CanonUrl, KeyError>>
        requires following { IsAfterDots text.now ups rest.now }
        requires relative { links.has_no_scheme text.now ≡ true }
        ensures { IfSome result (λ outcome. Gives KeyError.NoMemory (λ url. url) outcome (spec.resolve self.now text.now)) }
    {
        let Ok(found) = without_dots(alloc, rest) else {
            return Some(Err(KeyError::NoMemory));
        };
        let Some(without) = found else {
            return None;
        };
        let path = without.as_str();
        if is_plain(b'/', path.as_bytes()) {
            return Some(self.in_folder(alloc, text, ups, path));
        }
        None
    }

    /// The canonical URL of a link that begins with a slash, is not in a common form, and from which no fragment can be cut.
    fn from_root(&self, alloc: Global, text: &str) -> Result<CanonUrl, KeyError>
        ensures { Gives KeyError.NoMemory (λ url. url) result (spec.resolve self.now text.now) }
    {
        let Some(path) = text.strip_prefix("/") else {
            return self.parsed(alloc, text);
        };
        let (_, rest) = after_dots(path);
        if is_plain(b'/', rest.as_bytes()) {
            return self.at_root(alloc, text, rest);
        }
        let found = without_dots(alloc, rest)?;
        let Some(without) = found else {
            return self.parsed(alloc, text);
        };
        let more = without.as_str();
        if is_plain(b'/', more.as_bytes()) {
            return self.at_root(alloc, text, more);
        }
        self.parsed(alloc, text)
    }

    /// The canonical URL of a link that leads to the path `rest` on the page's server.
    fn at_root(&self, alloc: Global, text: &str, rest: &str) -> Result<CanonUrl, KeyError>
        requires { IsAtRoot text.now rest.now }
        ensures { Gives KeyError.NoMemory (λ url. url) result (spec.resolve self.now text.now) }
    {
        let root = &self.url.ascii()[..self.root + 1];
        CanonUrl::join(alloc, root, rest, self.url.host())
    }

    /// The canonical URL of a link that is not in a common form, and from which no fragment can be cut.
    fn not_plain(&self, alloc: Global, text: &str) -> Result<CanonUrl, KeyError>
        ensures { Gives KeyError.NoMemory (λ url. url) result (spec.resolve self.now text.now) }
    {
        // Neither a dot segment nor a scheme begins with a slash.
        if begins_path(text.as_bytes()) {
            return self.from_root(alloc, text);
        }
        if let Some(outcome) = self.dotted(alloc, text) {
            return outcome;
        }
        // For the proof: the page's URL has a text that parses.
        let _ = self.url.as_str();
        if is_opaque(text) {
            return Err(KeyError::NotHttp);
        }
        let known = respelled(alloc, text)?;
        match known {
            Some(url) => Ok(url),
            None => self.parsed(alloc, text),
        }
    }

    /// The canonical URL of a link that has to be parsed.
    fn parsed(&self, alloc: Global, text: &str) -> Result<CanonUrl, KeyError>
        ensures { Gives KeyError.NoMemory (λ url. url) result (spec.resolve self.now text.now) }
    {
        match self.parsed.url(alloc, self.url.as_str())? {
            Some(page) => joined(alloc, page, text),
            None => crate::resolve(alloc, &self.url, text),
        }
    }

    /// The canonical URL of a link that leads `ups` folders up from the page's folder, and from there to `rest`.
    #[tactic(auto, using(crate::proofs::BaseLemmas::front_slice, crate::proofs::BaseLemmas::spelled_folder, crate::proofs::BaseLemmas::leads_in_folder))]
    fn in_folder(
        &self,
        alloc: Global,
        text: &str,
        ups: usize,
        rest: &str,
    ) -> Result<CanonUrl, KeyError>
        requires { IsInFolder text.now ups rest.now }
        ensures { Gives KeyError.NoMemory (λ url. url) result (spec.resolve self.now text.now) }
    {
        let page = self.url.ascii();
        let end = folder_above(page.as_bytes(), self.root, self.folder, ups);
        let folder = &page[..end];
        CanonUrl::join(alloc, folder, rest, self.url.host())
    }

    /// The canonical URL of a link to the page itself, or to an anchor on it.
    #[tactic(auto, using(crate::proofs::BaseLemmas::leads_same))]
    fn same(&self, text: &str) -> Result<CanonUrl, KeyError>
        requires { is_same text.now ≡ true }
        ensures { Gives KeyError.NoMemory (λ url. url) result (spec.resolve self.now text.now) }
    {
        // For the proof: the page's URL has a text that parses.
        let _ = self.url.as_str();
        self.url.copy()
    }

    /// Whether both pages are in the same folder: their [`Base::folder`] texts are equal.
    ///
    /// If so, each link that [`crate::is_of_folder`] accepts leads to the same URL from both pages, or
    /// fails with the same error.
    ///
    /// ```rust
    /// let page = Base::canonical(alloc, "http://a.test/a/b")?;
    /// assert!(rt; page.shares_folder(&Base::canonical(alloc, "http://a.test/a/c?q")?));
    /// assert!(rt; !page.shares_folder(&Base::canonical(alloc, "http://a.test/b/b")?));
    /// ```
    pub fn shares_folder(&self, other: &Base) -> bool
        ensures { result ≡ true → (text : List ℕ) → is_of_folder text ≡ true → spec.resolve self.now text ≡ spec.resolve other.now text }
    {
        let own = &self.url.ascii()[..self.folder];
        let its = &other.url.ascii()[..other.folder];
        own == its
    }
}

/// The canonical URL of a link on the page with this URL.
fn joined(alloc: Global, page: &Url, text: &str) -> Result<CanonUrl, KeyError>
    ensures { Gives KeyError.NoMemory (λ url. url) result (spec.text_of_parse (parse_url (Some page.now) text.now)) }
{
    let url = page.join(text)?;
    CanonUrl::keep(alloc, &url)
}
