//! The folder of a page, and the links that lead to the same URL from all pages of a folder.
ghost use Rattle.std.specs.Prelude.{◌≡◌, ◌≤◌, ◌<◌, length, take};
ghost use Rattle.std.specs.List.{list_any, prefix_len};
ghost use Rattle.url.specs.Ascii.{question_mark};
ghost use Rattle.url.specs.Path.{without_last_segment};
ghost use Rattle.crawl_keys.specs.Folders as spec;
ghost use Rattle.crawl_keys.specs.Links as links;
ghost use Rattle.crawl_keys.specs.Plain.{is_other};

use crate::plain::len_before;

/// Whether a link with this text leads to the same URL from all pages of a folder.
///
/// This is so if the text begins with a slash, or if it has no colon (and so no scheme) and does not
/// begin with a space, a control character, `?` or `#`. [`crate::Base::shares_folder`] says whether two
/// pages are in the same folder.
///
/// ```rust
/// assert!(rt; is_of_folder("../f#g") && is_of_folder("/x"));
/// assert!(rt; !is_of_folder("?q") && !is_of_folder("http://a.test/"));
/// ```
pub fn is_of_folder(text: &str) -> bool
    ensures { result ≡ spec.is_of_folder text.now }
{
    match text.as_bytes() {
        [b'/', ..] => true,
        [b'?' | b'#', ..] => false,
        [first, ..] => *first > b' ' && !has_colon(text),
        [] => false,
    }
}

/// Whether a text has no scheme, and is more than a query or a fragment. `false` means unknown.
pub fn has_no_scheme(text: &str) -> bool
    ensures { result ≡ links.has_no_scheme text.now }
{
    matches!(text.as_bytes(), [b'.', ..]) || is_of_folder(text)
}

/// Whether the text has a colon, so that it may begin with a scheme.
fn has_colon(text: &str) -> bool
    ensures { result ≡ list_any spec.is_colon text.now }
{
    let bytes = text.as_bytes();
    len_before(bytes, b':') < bytes.len()
}

/// The length of a URL's text before the last slash of its path.
pub fn folder_len(text: &[u8]) -> usize
    ensures value { result ≡ length (without_last_segment (take (prefix_len (is_other question_mark) text.now) text.now)) }
    ensures within { result ≤ length text.now }
{
    last_slash(&text[..len_before(text, b'?')])
}

/// The length of the path before its last slash.
fn last_slash(path: &[u8]) -> usize
    ensures value { result ≡ length (without_last_segment path.now) }
    ensures within { result ≤ length path.now }
{
    match path.iter().rposition(|&byte| byte == b'/') {
        Some(place) => place,
        None => 0,
    }
}

/// The end of the folder `ups` levels above a page's folder, in the page's text. The page's folder ends at `folder`, and
/// the path begins at `root`.
pub fn folder_above(page: &[u8], root: usize, folder: usize, ups: usize) -> usize
    requires ordered { root < folder }
    requires within { folder ≤ length page.now }
    ensures value { result ≡ links.folder_above page.now root folder ups }
    ensures within { result ≤ length page.now }
{
    let mut place = folder;
    for up in 0..ups {
        place = root + last_slash(&page[root..place - 1]) + 1;
    }
    place
}
