//! The base of a page, and what its links mean.
ghost use Rattle.std.specs.Prelude.{◌≡◌, true, IfOk};
ghost use Rattle.std.specs.Result.{result_ok};
ghost use Rattle.std.specs.Str.{is_utf8};
ghost use Rattle.crawl_keys.specs.CanonicalText as spec;
ghost use Rattle.document_links.specs.Written.{has_no_base};

use crate::cleaning::{trimmed, without_breaks};
use crate::scheme::{is_web, scheme_of};
use crawl_keys::{Base, CanonUrl};
use std::alloc::{AllocError, Global};

/// The base of the links of a page, which its `base` determines.
#[derive(Drop)]
pub(crate) enum PageBase {
    /// A URL.
    Url(Base),
    /// Another scheme in lower case with its colon, which is put before links without a scheme.
    Scheme(Vec<u8>),
    /// No base.
    None,
}

/// The meaning of a link.
#[derive(Drop)]
pub(crate) enum LinkMeaning {
    Same,
    Url(CanonUrl),
    Text(Vec<u8>),
}

/// The base of a page, from the `href` of its `base`.
pub(crate) fn page_base(
    alloc: Global,
    href: &[u8],
    url: &CanonUrl,
) -> Result<PageBase, AllocError> {
    match base_target(alloc, url, href)? {
        Some(target) => Ok(PageBase::Url(Base::new(alloc, &target)?)),
        None => scheme_base(alloc, href),
    }
}

/// The canonical URL of the `href` of a `base` on the page at a URL, if it has one.
pub(crate) fn base_target(
    alloc: Global,
    url: &CanonUrl,
    href: &[u8],
) -> Result<Option<CanonUrl>, AllocError> {
    let text = without_breaks(alloc, trimmed(href))?;
    resolved(alloc, &Base::new(alloc, url)?, text.as_slice())
}

/// The base for an `href` that begins with another scheme.
fn scheme_base(alloc: Global, href: &[u8]) -> Result<PageBase, AllocError> {
    let text = without_breaks(alloc, trimmed(href))?;
    match scheme_of(text.as_slice()) {
        Some(scheme) if !is_web(Some(scheme)) && !is_no_base(scheme) => {
            let mut front = scheme.to_vec(alloc)?;
            front.make_ascii_lowercase();
            front.push(b':')?;
            Ok(PageBase::Scheme(front))
        }
        _ => Ok(PageBase::None),
    }
}

/// Whether a `base` with this scheme is ignored.
fn is_no_base(scheme: &[u8]) -> bool {
    scheme.eq_ignore_ascii_case(b"data") || scheme.eq_ignore_ascii_case(b"javascript")
}

/// The meaning of a link with this base.
pub(crate) fn meaning_of(
    alloc: Global,
    base: &PageBase,
    text: &[u8],
) -> Result<LinkMeaning, AllocError>
    ensures { has_no_base base.now ≡ true → IfOk result (λ meaning. meaning ≡ LinkMeaning.Same) }
{
    match base {
        PageBase::Url(url) => meaning_at(alloc, url, text),
        PageBase::Scheme(front) => meaning_after(alloc, front.as_slice(), text),
        PageBase::None => Ok(LinkMeaning::Same),
    }
}

/// The meaning of a link with this URL as its base.
fn meaning_at(alloc: Global, base: &Base, text: &[u8]) -> Result<LinkMeaning, AllocError> {
    match resolved(alloc, base, text)? {
        Some(url) => Ok(LinkMeaning::Url(url)),
        None => Ok(LinkMeaning::Same),
    }
}

/// The meaning of a link whose base has another scheme, which is put before a link without one.
fn meaning_after(alloc: Global, front: &[u8], text: &[u8]) -> Result<LinkMeaning, AllocError> {
    if scheme_of(text).is_some() {
        return Ok(LinkMeaning::Same);
    }
    let mut link = front.to_vec(alloc)?;
    link.extend_from_slice(text)?;
    Ok(LinkMeaning::Text(link))
}

/// The canonical URL of a link, if it has one.
///
/// # Errors
/// Out of memory.
pub(crate) fn resolved(
    alloc: Global,
    base: &Base,
    text: &[u8],
) -> Result<Option<CanonUrl>, AllocError>
    ensures { is_utf8 text.now ≡ true → IfOk result (λ url. url ≡ result_ok (spec.resolve base.now text.now)) }
{
    match str::from_utf8(text) {
        Ok(text) => base.link(alloc, text),
        Err(_) => Ok(None),
    }
}
