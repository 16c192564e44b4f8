//! Moves of links from one URL to another.
ghost use Rattle.std.specs.Prelude.{◌≡◌};
ghost use Rattle.link_fixes.specs.Moves.{moves_to};

use crawl_keys::CanonUrl;

/// A link to one URL is to lead to another.
#[derive(Drop)]
pub struct Move {
    pub from: CanonUrl,
    pub to: CanonUrl,
}

/// Whether a URL is another one with a slash at the end of its path, as that of a folder is.
pub fn adds_slash(from: &CanonUrl, to: &CanonUrl) -> bool {
    let from = from.as_str();
    let path = path_in_url(from);
    match to.as_str().strip_prefix(path) {
        Some(rest) => rest.strip_prefix("/") == from.strip_prefix(path),
        None => false,
    }
}

/// A URL without its query.
pub(crate) fn path_in_url(url: &str) -> &str {
    match url.split_once('?') {
        Some((path, _)) => path,
        None => url,
    }
}

/// Whether one of the moves is from a URL to another.
pub(crate) fn moves_to(moves: &[Move], from: &CanonUrl, to: &CanonUrl) -> bool
    ensures { result ≡ moves_to moves.now from.now to.now }
{
    for one in moves {
        if one.from == *from && one.to == *to {
            return true;
        }
    }
    false
}

/// The first move from a URL.
pub(crate) fn move_from<'a>(moves: &'a [Move], from: &CanonUrl) -> Option<&'a Move> {
    for one in moves {
        if one.from == *from {
            return Some(one);
        }
    }
    None
}
