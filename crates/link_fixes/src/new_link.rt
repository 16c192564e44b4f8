//! The new text of a link.
ghost use Rattle.std.specs.Prelude.{◌≡◌, ◌≤◌, ◌++◌, ◌∷◌, [], drop, length, take, true, IfOk, IfSome};
ghost use Rattle.std.specs.List.{list_all, prefix_len};
ghost use Rattle.link_fixes.specs.NewLinks.{IsNewLink, is_path, is_plain, path_of, tail_of};

use crate::moves::{Move, adds_slash, path_in_url};
use crate::relative::relative;
use crawl_keys::Base;
use memchr::memchr_iter;
use std::alloc::{AllocError, Global};

/// The page of a link.
#[derive(Clone, Copy)]
pub(crate) struct LinkPage<'a> {
    /// The base of its own URL.
    pub(crate) base: &'a Base,
    /// The path of the site's top, which ends with a slash, if links that begin with one slash lead below the top.
    pub(crate) root: Option<&'a str>,
}

/// How a link begins.
#[derive(Clone, Copy)]
enum Form {
    /// With a scheme.
    Url,
    /// With two slashes, after which the host comes.
    Host,
    /// With one slash.
    Root,
    /// With anything else.
    Relative,
}

/// The new text of a link that is written like this and moved. Its query and its fragment stay. `None` if it has no path, or if the path
/// of the new text has a byte that documents escape or leads elsewhere.
pub(crate) fn new_link(
    alloc: Global,
    page: LinkPage<'_>,
    written: &str,
    step: &Move,
) -> Result<Option<Vec<u8>>, AllocError>
    ensures { IfOk result (λ link. IfSome link (λ text. IsNewLink written.now text.items)) }
{
    let (path, tail) = split_link(written.as_bytes());
    if path.is_empty() {
        return Ok(None);
    }
    if adds_slash(&step.from, &step.to) {
        return with_slash(alloc, path, tail);
    }
    let Some(new) = new_path(alloc, page, form_of(path), step)? else {
        return Ok(None);
    };
    let mut link = new;
    link.extend_from_slice(tail)?;
    if !leads_right(alloc, page, written, link.as_slice(), step)? {
        return Ok(None);
    }
    Ok(Some(link))
}

/// The path of a link, and what comes after it.
fn split_link(link: &[u8]) -> (&[u8], &[u8])
    ensures path { result.0.now ≡ path_of link.now }
    ensures tail { result.1.now ≡ tail_of link.now }
{
    link.split_at(path_length(link))
}

/// The number of bytes before the query and the fragment.
fn path_length(link: &[u8]) -> usize
    ensures value { result ≡ prefix_len is_path link.now }
    ensures within { result ≤ length link.now }
{
    link.iter().take_while(|&&byte| is_path(byte)).count()
}

/// Whether the byte begins neither a query nor a fragment.
fn is_path(byte: u8) -> bool
    ensures { result ≡ is_path byte }
{
    !(byte == b'?' || byte == b'#')
}

/// The path with a slash at its end, and what comes after it.
fn with_slash(alloc: Global, path: &[u8], tail: &[u8]) -> Result<Option<Vec<u8>>, AllocError>
    ensures { IfOk result (λ link. IfSome link (λ text. text.items ≡ (path.now ++ 47 ∷ []) ++ tail.now)) }
{
    let mut link = path.to_vec(alloc)?;
    link.push(b'/')?;
    link.extend_from_slice(tail)?;
    Ok(Some(link))
}

/// How a link with this path begins.
fn form_of(path: &[u8]) -> Form {
    match path {
        [b'/' | b'\\', b'/' | b'\\', ..] => Form::Host,
        [b'/' | b'\\', ..] => Form::Root,
        _ => if has_scheme(path) {
            Form::Url
        } else {
            Form::Relative
        },
    }
}

/// Whether a text begins with a scheme and its colon.
fn has_scheme(text: &[u8]) -> bool {
    if !text.first().is_some_and(|byte| byte.is_ascii_alphabetic()) {
        return false;
    }
    for byte in text {
        if *byte == b':' {
            return true;
        }
        if !is_scheme_byte(*byte) {
            return false;
        }
    }
    false
}

/// Whether the byte may be in a scheme after its first letter.
fn is_scheme_byte(byte: u8) -> bool {
    byte.is_ascii_alphanumeric() || matches!(byte, b'+' | b'-' | b'.')
}

/// The new path of a link of this form. `None` if it has a byte that documents escape.
fn new_path(
    alloc: Global,
    page: LinkPage<'_>,
    form: Form,
    step: &Move,
) -> Result<Option<Vec<u8>>, AllocError>
    ensures { IfOk result (λ path. IfSome path (λ text. list_all is_plain text.items ≡ true)) }
{
    let path = path_to(alloc, page, form, path_in_url(step.to.as_str()))?;
    if are_plain(path.as_slice()) {
        Ok(Some(path))
    } else {
        Ok(None)
    }
}

/// The path to a URL of the site, which has no query, in this form.
fn path_to(alloc: Global, page: LinkPage<'_>, form: Form, to: &str) -> Result<Vec<u8>, AllocError> {
    match form {
        Form::Url => to.as_bytes().to_vec(alloc),
        Form::Host => after_scheme(to).to_vec(alloc),
        Form::Root => root_path(alloc, page.root, to),
        Form::Relative => relative(alloc, page.base.folder().as_bytes(), to.as_bytes()),
    }
}

/// A URL without its scheme.
fn after_scheme(url: &str) -> &[u8] {
    match url.split_once(':') {
        Some((_, following)) => following.as_bytes(),
        None => &[],
    }
}

/// The path of a URL from the root of its host or, if there is a `root`, from the site's top.
fn root_path(alloc: Global, root: Option<&str>, url: &str) -> Result<Vec<u8>, AllocError> {
    let path = path_in(url.as_bytes());
    match root {
        None => path.to_vec(alloc),
        Some(root) => below_top(alloc, root.as_bytes(), path),
    }
}

/// The path of a URL, with its first slash.
fn path_in(url: &[u8]) -> &[u8] {
    match memchr_iter(b'/', url).nth(2) {
        Some(slash) => url.get(slash..).unwrap_or(&[]),
        None => &[],
    }
}

/// A path from the top of a site whose path is this `root`.
fn below_top(alloc: Global, root: &[u8], path: &[u8]) -> Result<Vec<u8>, AllocError> {
    let mut link = Vec::new(alloc);
    link.push(b'/')?;
    link.extend_from_slice(path.get(root.len()..).unwrap_or(&[]))?;
    Ok(link)
}

/// Whether no document escapes any of these bytes.
fn are_plain(text: &[u8]) -> bool
    ensures { result ≡ list_all is_plain text.now }
{
    for byte in text {
        if !is_plain(*byte) {
            return false;
        }
    }
    true
}

/// Whether no document escapes the byte, and it ends neither a link nor its path.
fn is_plain(byte: u8) -> bool
    ensures { result ≡ is_plain byte }
{
    let is_visible = 33 <= byte && byte <= 126;
    let is_special = matches!(
        byte,
        b'"' | b'#' | b'&' | b'\'' | b'(' | b')' | b',' | b'<' | b'>' | b'?' | b'\\' | b'`'
    );
    is_visible && !is_special
}

/// Whether a link leads from its page to the old URL, and the new link to the new one. A link that begins with a slash or a scheme is not
/// tested, as it leads to the same URL from all pages of the site.
fn leads_right(
    alloc: Global,
    page: LinkPage<'_>,
    written: &str,
    new: &[u8],
    step: &Move,
) -> Result<bool, AllocError> {
    let Form::Relative = form_of(written.as_bytes()) else {
        return Ok(true);
    };
    let Ok(new) = str::from_utf8(new) else {
        return Ok(false);
    };
    let from = page.base.link(alloc, written)?;
    let to = page.base.link(alloc, new)?;
    Ok(from.as_ref() == Some(&step.from) && to.as_ref() == Some(&step.to))
}
