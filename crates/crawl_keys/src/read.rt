//! Canonical URLs read from texts.
ghost use Rattle.std.specs.Prelude.{◌≡◌, true, Ok};
ghost use Rattle.crawl_keys.specs.CanonicalText as spec;
ghost use Rattle.crawl_keys.specs.Outcome.{Gives};

use crate::cased::respelled;
use crate::plain::host_place;
use crate::{CanonUrl, KeyError, before_fragment};
use std::alloc::Global;
use url::Url;

/// The canonical URL of an absolute URL, however it is spelled.
///
/// The text is parsed as the URL Standard says, without a base URL; most texts in a common form need
/// no parser. The errors are `NotUrl` if the parser fails, `NotHttp` if the scheme is neither `http`
/// nor `https`, and `NoMemory` if an allocation fails or the URL is longer than the parser can hold
/// (4 GB).
///
/// ```rust
/// let url = canonical(alloc, "http://A.test:80/x/../y#f")?;
/// assert_eq!(rt; url.as_str(), "http://a.test/y");
///
/// assert!(rt; canonical(alloc, "/x") == Err(KeyError::NotUrl));
/// assert!(rt; canonical(alloc, "ftp://a.test/") == Err(KeyError::NotHttp));
/// ```
pub fn canonical(alloc: Global, text: &str) -> Result<CanonUrl, KeyError>
    ensures { Gives KeyError.NoMemory (λ url. url) result (spec.canonical text.now) }
{
    match host_place(text) {
        Some(host) => CanonUrl::join(alloc, text, "", host),
        None => without_fragment(alloc, text),
    }
}

/// Whether the text is seen to be its own canonical URL, without parsing.
///
/// `false` means unknown: a text in an uncommon form may be canonical too.
pub fn is_canonical(text: &str) -> bool
    ensures { result ≡ true → spec.canonical text.now ≡ Ok text.now }
{
    match host_place(text) {
        Some(_) => true,
        None => false,
    }
}

/// The canonical URL of a text that is not in a common form. The text before its fragment may be.
fn without_fragment(alloc: Global, text: &str) -> Result<CanonUrl, KeyError>
    ensures { Gives KeyError.NoMemory (λ url. url) result (spec.canonical text.now) }
{
    let front = before_fragment(text);
    if front.len() == text.len() {
        return not_plain(alloc, text);
    }
    match host_place(front) {
        Some(host) => CanonUrl::join(alloc, front, "", host),
        None => not_plain(alloc, front),
    }
}

/// The canonical URL of a text that is not in a common form, and from which no fragment can be cut.
fn not_plain(alloc: Global, text: &str) -> Result<CanonUrl, KeyError>
    ensures { Gives KeyError.NoMemory (λ url. url) result (spec.canonical text.now) }
{
    let known = respelled(alloc, text)?;
    match known {
        Some(url) => Ok(url),
        None => parsed(alloc, text),
    }
}

/// The canonical URL of a text that has to be parsed.
fn parsed(alloc: Global, text: &str) -> Result<CanonUrl, KeyError>
    ensures { Gives KeyError.NoMemory (λ url. url) result (spec.canonical text.now) }
{
    let url = Url::parse(alloc, text)?;
    CanonUrl::keep(alloc, &url)
}

/// The canonical URL of a link on the page at `base`.
///
/// The text is parsed as the URL Standard says, against `base`. The errors are those of
/// [`canonical`]. For many links of one page make a [`crate::Base`], which does not parse the page's
/// URL again for each link.
///
/// ```rust
/// let page = canonical(alloc, "http://a.test/d/e?q")?;
/// let url = resolve(alloc, &page, "../f#g")?;
/// assert_eq!(rt; url.as_str(), "http://a.test/f");
/// ```
pub fn resolve(alloc: Global, base: &CanonUrl, text: &str) -> Result<CanonUrl, KeyError>
    ensures { Gives KeyError.NoMemory (λ url. url) result (spec.resolve base.now text.now) }
{
    let base = Url::parse(alloc, base.as_str())?;
    let url = base.join(text)?;
    CanonUrl::keep(alloc, &url)
}
