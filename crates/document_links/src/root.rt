//! Links in a folder whose URL is not known: a path that begins with one slash is a path below the top.
ghost use Rattle.std.specs.Prelude.{◌≡◌, ◌<◌, ◌≤◌, ◌∷◌, ◌++◌, ℕ, List, [], drop, false, length, map, option_map, take, unwrap_or, IfOk, OnOk, None};
ghost use Rattle.std.specs.List.{prefix_len};
ghost use Rattle.url.specs.Input.{trim_c0_control_and_space};
ghost use Rattle.url.specs.Path as spec;
ghost use Rattle.html_links.specs.Reads.{base_at};
ghost use Rattle.document_links.specs.Rooted.{all_rooted, begins_path, begins_visibly, below_root, climbs, depth_after, in_segment, is_slash, kept, path_below, path_of, rooted};

use crate::cleaning::{has_breaks, is_trimmed, trimmed, without_breaks};
use crate::page_base::base_target;
use crate::raw_links::RawLinks;
use crawl_keys::CanonUrl;
use html_links::Base;
use memchr::memchr_iter;
use std::alloc::{AllocError, Global};

/// Moves the links and the `base` of the page at a URL below the path of the top, if they begin with one slash. Returns the new base.
/// If the base is on another host, the links stay as they are.
///
/// # Errors
/// Out of memory.
pub(crate) fn add_root(
    root: Option<&str>,
    url: &CanonUrl,
    base: Base,
    raw: &mut RawLinks,
) -> Result<Base, AllocError>
    ensures links { base_at base ≡ None → OnOk result (raw.new.texts ≡ all_rooted root.entry raw.old.texts) }
    ensures base { base_at base ≡ None → IfOk result (λ base. base_at base ≡ None) }
{
    let Some(root) = root else {
        return Ok(base);
    };
    match base {
        Some(href) => rooted_base(root, url, href, raw),
        None => {
            root_links(root, raw)?;
            Ok(None)
        }
    }
}

/// Moves this base, and the links if the base is not on another host.
fn rooted_base(
    root: &str,
    url: &CanonUrl,
    href: Vec<u8>,
    raw: &mut RawLinks,
) -> Result<Base, AllocError> {
    let alloc = raw.allocator();
    let base = rooted_text(alloc, root, href.as_slice())?.unwrap_or(href);
    if is_on_host(alloc, url, base.as_slice())? {
        root_links(root, raw)?;
    }
    Ok(Some(base))
}

/// Whether a base on the page at a URL has the page's host, or is not a URL of a page.
fn is_on_host(alloc: Global, url: &CanonUrl, base: &[u8]) -> Result<bool, AllocError> {
    Ok(match base_target(alloc, url, base)? {
        Some(target) => origin_of(url.as_str()) == origin_of(target.as_str()),
        None => true,
    })
}

/// The scheme and the host of a canonical URL.
fn origin_of(url: &str) -> &[u8] {
    let url = url.as_bytes();
    let slash = memchr_iter(b'/', url).nth(2).unwrap_or(url.len());
    url.get(..slash).unwrap_or(url)
}

/// Moves the links.
fn root_links(root: &str, raw: &mut RawLinks) -> Result<(), AllocError>
    ensures { OnOk result (raw.new.texts ≡ map (rooted root.now) raw.old.texts) }
{
    if !has_path(raw) {
        return Ok(());
    }
    let moved = rooted_links(root, raw)?;
    *raw = moved;
    Ok(())
}

/// Whether one of the links begins with a slash. If not, none is moved.
fn has_path(raw: &RawLinks) -> bool
    ensures { result ≡ false → (root : List ℕ) → map (rooted root) raw.now.texts ≡ raw.now.texts }
{
    for index in 0..raw.len() {
        if is_path(raw.text(index)) {
            return true;
        }
    }
    false
}

/// Whether a link begins with a slash, without the spaces around it.
#[tactic(auto, using(crate::proofs::Trimming::visible_path))]
fn is_path(text: &[u8]) -> bool
    ensures { result ≡ begins_path (trim_c0_control_and_space text.now) }
{
    // Most links do.
    if begins_visibly(text) {
        return begins_path(text);
    }
    begins_path(trimmed(text))
}

/// Whether a text begins with a byte that a URL parser keeps.
fn begins_visibly(text: &[u8]) -> bool
    ensures { result ≡ begins_visibly text.now }
{
    match text {
        [first, ..] => !is_trimmed(*first),
        [] => false,
    }
}

/// The links, moved.
fn rooted_links(root: &str, raw: &RawLinks) -> Result<RawLinks, AllocError>
    ensures { IfOk result (λ moved. moved.texts ≡ map (rooted root.now) raw.now.texts) }
{
    let mut moved = RawLinks::with_room(raw.allocator(), raw.len(), raw.byte_count())?;
    for index in 0..raw.len() {
        push_rooted(root, raw.text(index), raw.position(index), &mut moved)?;
    }
    Ok(moved)
}

/// Appends a link, moved, whose value is at this position.
fn push_rooted(
    root: &str,
    text: &[u8],
    position: usize,
    out: &mut RawLinks,
) -> Result<(), AllocError>
    ensures { OnOk result (out.new.texts ≡ out.old.texts ++ rooted root.now text.now ∷ []) }
{
    match rooted_text(out.allocator(), root, text)? {
        Some(moved) => out.push_at(position, moved.as_slice()),
        None => out.push_at(position, text),
    }
}

/// The text of a link below the path of the top, or `None` if the link stays unchanged.
#[tactic(auto, using(crate::proofs::Trimming::unbroken_clean))]
fn rooted_text(alloc: Global, root: &str, text: &[u8]) -> Result<Option<Vec<u8>>, AllocError>
    ensures { IfOk result (λ moved. unwrap_or (option_map (λ new. new.items) moved) text.now ≡ rooted root.now text.now) }
{
    if !is_path(text) {
        return Ok(None);
    }
    let visible = trimmed(text);
    if !has_breaks(visible) {
        return below_root(alloc, root, visible);
    }
    let clean = without_breaks(alloc, visible)?;
    below_root(alloc, root, clean.as_slice())
}

/// A text without line breaks and spaces at its ends, below the path of the top. `None` if it does not begin with one slash.
fn below_root(alloc: Global, root: &str, text: &[u8]) -> Result<Option<Vec<u8>>, AllocError>
    ensures { IfOk result (λ moved. option_map (λ new. new.items) moved ≡ below_root root.now text.now) }
{
    let Some(path) = path_of(text) else {
        return Ok(None);
    };
    let mut moved = root.as_bytes().to_vec(alloc)?;
    push_below(path, &mut moved)?;
    Ok(Some(moved))
}

/// The text after the slash of a text that begins with one slash. `None` for two slashes, which begin a host.
fn path_of(text: &[u8]) -> Option<&[u8]>
    ensures { option_map (λ path. path.now) result ≡ path_of text.now }
{
    match text {
        [first, path @ ..] if is_slash(*first) && !begins_path(path) => Some(path),
        _ => None,
    }
}

/// Whether a text begins with a slash of either kind.
fn begins_path(text: &[u8]) -> bool
    ensures { result ≡ begins_path text.now }
{
    match text {
        [first, ..] => is_slash(*first),
        [] => false,
    }
}

/// Whether the byte is a slash of either kind.
fn is_slash(byte: u8) -> bool
    ensures { result ≡ is_slash byte }
{
    byte == b'/' || byte == b'\\'
}

/// Appends a path that is read from the top, without each `..` that leads above the top.
fn push_below(path: &[u8], out: &mut Vec<u8>) -> Result<(), AllocError>
    ensures { OnOk result (out.new.items ≡ out.old.items ++ path_below path.now) }
{
    let mut depth = 0;
    let mut rest = path;
    'segments: loop {
        let (segment, following) = split_segment(rest);
        if !begins_path(following) {
            push_kept(depth, segment, &[], out)?;
            return out.extend_from_slice(following);
        }
        let (slash, more) = following.split_at(1);
        push_kept(depth, segment, slash, out)?;
        depth = depth_after(depth, segment);
        rest = more;
    }
}

/// The first segment of a path, and the text after it.
fn split_segment(path: &[u8]) -> (&[u8], &[u8])
    ensures segment { result.0.now ≡ take (prefix_len in_segment path.now) path.now }
    ensures following { result.1.now ≡ drop (prefix_len in_segment path.now) path.now }
{
    path.split_at(segment_len(path))
}

/// The number of bytes before the first slash, and before the query and the fragment.
fn segment_len(path: &[u8]) -> usize
    ensures value { result ≡ prefix_len in_segment path.now }
    ensures within { result ≤ length path.now }
{
    path.iter().take_while(|&&byte| in_segment(byte)).count()
}

/// Whether the byte belongs to a segment of a path.
fn in_segment(byte: u8) -> bool
    ensures { result ≡ in_segment byte }
{
    !(is_slash(byte) || byte == b'?' || byte == b'#')
}

/// Appends a segment and the slash that ends it, unless the segment leads above the top. `depth` is the number of open folders.
fn push_kept(depth: usize, segment: &[u8], end: &[u8], out: &mut Vec<u8>) -> Result<(), AllocError>
    ensures { OnOk result (out.new.items ≡ out.old.items ++ kept depth segment.now end.now) }
{
    if climbs(depth, segment) {
        return Ok(());
    }
    out.extend_from_slice(segment)?;
    out.extend_from_slice(end)
}

/// Whether the segment is `..`, and no folder is open.
fn climbs(depth: usize, segment: &[u8]) -> bool
    ensures { result ≡ climbs depth segment.now }
{
    depth == 0 && dot_count(segment) == 2
}

/// The number of open folders after a segment: `..` closes one, `.` none, and any other segment opens one.
fn depth_after(depth: usize, segment: &[u8]) -> usize
    requires { depth < usize.MAX }
    ensures { result ≡ depth_after depth segment.now }
{
    match dot_count(segment) {
        2 => depth.saturating_sub(1),
        1 => depth,
        _ => depth + 1,
    }
}

/// 1 for a segment that a URL parser reads as `.`, 2 for one that it reads as `..`, and 0 for any other.
#[tactic(auto, unfolding(url::specs::Path::dot_count))]
fn dot_count(segment: &[u8]) -> usize
    ensures { result ≡ spec.dot_count segment.now }
{
    let first = dot_len(segment);
    if first == 0 {
        return 0;
    }
    let rest = &segment[first..];
    if rest.is_empty() {
        1
    } else if dot_len(rest) == rest.len() {
        2
    } else {
        0
    }
}

/// The length of the `.` or `%2e` at the start of a text, or 0.
fn dot_len(text: &[u8]) -> usize
    ensures value { result ≡ spec.dot_len text.now }
    ensures within { result ≤ length text.now }
{
    match text {
        [b'.', ..] => 1,
        [b'%', b'2', b'e' | b'E', ..] => 3,
        _ => 0,
    }
}
