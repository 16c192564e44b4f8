//! The least URL that has an error.
ghost use Rattle.std.specs.Prelude.{◌≡◌, if◌then◌else◌};
ghost use Rattle.crawl_certificate.specs.Least.{is_below, url_of, url_if, lesser};

use crawl_keys::CanonUrl;

/// Returns the URL if it has the error.
pub fn culprit_if<'a>(url: &'a CanonUrl, is_culprit: bool) -> Option<&'a CanonUrl>
    ensures { url_of result ≡ url_if is_culprit url.now }
{
    if is_culprit { Some(url) } else { None }
}

/// Returns the lesser of two URLs. If one is `None`, the other.
pub fn lesser<'a>(first: Option<&'a CanonUrl>, second: Option<&'a CanonUrl>) -> Option<&'a CanonUrl>
    ensures { url_of result ≡ lesser (url_of first.entry) (url_of second.entry) }
{
    let Some(other) = second else {
        return first;
    };
    let Some(url) = first else {
        return Some(other);
    };
    Some(lesser_of(url, other))
}

/// Returns the lesser of two URLs, byte by byte.
fn lesser_of<'a>(url: &'a CanonUrl, other: &'a CanonUrl) -> &'a CanonUrl
    ensures { result.now ≡ (if is_below other.now url.now then other.now else url.now) }
{
    if other < url { other } else { url }
}
