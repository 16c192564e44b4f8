//! URLs of index files, which are no URLs of folders.
ghost use Rattle.std.specs.Prelude.{◌≡◌};
ghost use Rattle.mercator_site.specs.IndexUrls.{ends_path, ends_with_one, is_index_url};

use crate::maps::ends;

/// Whether a BASE ends with one of these names of index files, and not with a slash. Then it is the URL of a page, not of a folder.
pub(crate) fn is_index_url(base: &[u8], names: &[String]) -> bool
    ensures { result ≡ is_index_url base.now names.now }
{
    !ends(b"/", base) && !base.contains(&b'#') && ends_with_one(names, base)
}

/// Whether one of these names is the last one on the path of a URL.
fn ends_with_one(names: &[String], url: &[u8]) -> bool
    ensures { result ≡ ends_with_one names.now url.now }
{
    names.iter().any(|name| ends_path(name.as_bytes(), url))
}

/// Whether this name is the last one on the path of a URL. After two slashes and a colon, it is a host.
fn ends_path(name: &[u8], url: &[u8]) -> bool
    ensures { result ≡ ends_path name.now url.now }
{
    match url.strip_suffix(name) {
        Some(front) => ends(b"/", front) && !ends(b"://", front),
        None => false,
    }
}
